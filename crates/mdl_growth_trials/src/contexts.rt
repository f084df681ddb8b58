//! The contexts of sessions of a space that threads share, on one thread: tickets by duration, waits, a deadlock and stronger modes. If a
//! call runs out of memory, the session holds what it held and waits for nothing, and the call is made again. Calls that release or give up take
//! no memory. Requests for a key that was looked up pin its place just if they get something there.
ghost use Rattle.mdl_calls.specs.Words.{HasNothing};
ghost use Rattle.mdl_context.specs.Contexts.{Attends};
ghost use Rattle.mdl_shared.specs.SessionViews.{data_of};

use crate::context_acts::{Act, EXPLICIT, Reply, STATEMENT, TRANSACTION, keeps, make, stands};
use crate::passes::{closes, new_passes};
use mdl_context::{Context, Mark};
use mdl_key::Mode;
use mdl_shared::Session;
use mdl_space::{LockSpace, Settled, SpaceError};
use std::alloc::Global;
use std::marker::Model;
use std::mem::drop;
use std::sync::Wait;

// A session that is a lock space for itself, and the context that keeps its tickets.
struct Seat<S: LockSpace> {
    session: S,
    context: Context<S>,
}

impl<S: LockSpace> Model for Seat<S> {
    ghost use Rattle.mdl_context.specs.Contexts.{Attends};

    ghost Value = { Unit };

    ghost view = { λ _. tt };

    ghost invariant = { λ seat. Attends S.LockSpace seat.session seat.context };
}

impl<S: LockSpace> Seat<S> {
    // Returns a session of this number, which has nothing, with a new context.
    fn new(alloc: Global, session: S, who: u16) -> Seat<S>
        requires speaks { S.speaks_for session who }
        requires nothing { HasNothing (S.own session who) }
    {
        Seat {
            session,
            context: Context::new(alloc, who),
        }
    }

    // Makes a call.
    fn make(&mut self, alloc: Global, act: Act) -> Reply {
        make(alloc, &mut self.session, &mut self.context, act)
    }

    // Whether the context keeps the tickets that the session holds, and there are `count` of them.
    fn keeps(&self, count: usize) -> bool {
        keeps(&self.session, &self.context, count)
    }

    // Returns how many tickets there are of the statement, of the transaction and in all, and whether the session waits.
    fn stands(&self) -> (Mark, usize, bool) {
        stands(&self.context)
    }

    // Returns the session, with what it has, and drops its context.
    fn into_session(self) -> S {
        let Seat { session, context } = self;
        drop(context);
        session
    }
}

// A session, its call, the right answer, and the number of tickets that the session has then.
type Row = (u16, Act, Reply, usize);

const ROWS: &[Row] = &[
    (
        1,
        Act::Acquire("a", Mode::SW, TRANSACTION),
        Reply::Acquired,
        1,
    ),
    (
        2,
        Act::Acquire("b", Mode::SU, TRANSACTION),
        Reply::Acquired,
        1,
    ),
    // The ticket is used again, and cloned twice.
    (
        2,
        Act::Acquire("b", Mode::SR, TRANSACTION),
        Reply::Acquired,
        1,
    ),
    (
        2,
        Act::Acquire("b", Mode::SR, STATEMENT),
        Reply::Acquired,
        2,
    ),
    (2, Act::Acquire("b", Mode::SR, EXPLICIT), Reply::Acquired, 3),
    (
        1,
        Act::Acquire("b", Mode::X, TRANSACTION),
        Reply::MustWait,
        1,
    ),
    (1, Act::Resume, Reply::Waits, 1),
    // A deadlock. The victim is the session with the greater number.
    (
        2,
        Act::Acquire("a", Mode::X, TRANSACTION),
        Reply::MustWait,
        3,
    ),
    (2, Act::Resume, Reply::Lost(Settled::Victim), 3),
    (2, Act::GoBack(1, 0), Reply::Done, 2),
    (2, Act::EndStatement, Reply::Done, 1),
    (2, Act::Acquire("a", Mode::X, STATEMENT), Reply::MustWait, 1),
    (2, Act::Resume, Reply::Lost(Settled::Victim), 1),
    (1, Act::GiveUp, Reply::Lost(Settled::Timeout), 1),
    (2, Act::Acquire("a", Mode::X, STATEMENT), Reply::MustWait, 1),
    (1, Act::EndTransaction, Reply::Done, 0),
    (2, Act::Resume, Reply::Acquired, 2),
    (2, Act::EndTransaction, Reply::Done, 1),
    // A ticket gets a stronger mode at once, and then after a reader is done. Another time its session gives up before.
    (
        1,
        Act::Acquire("a", Mode::SU, TRANSACTION),
        Reply::Acquired,
        1,
    ),
    (1, Act::Upgrade(Mode::SNW), Reply::Acquired, 1),
    (
        2,
        Act::Acquire("a", Mode::SR, TRANSACTION),
        Reply::Acquired,
        2,
    ),
    (1, Act::Upgrade(Mode::X), Reply::MustWait, 1),
    (1, Act::Resume, Reply::Waits, 1),
    (2, Act::EndTransaction, Reply::Done, 1),
    (1, Act::Raise(Mode::X), Reply::Acquired, 1),
    (1, Act::Downgrade(Mode::SU), Reply::Done, 1),
    (
        2,
        Act::Acquire("a", Mode::SR, TRANSACTION),
        Reply::Acquired,
        2,
    ),
    (1, Act::Upgrade(Mode::X), Reply::MustWait, 1),
    (1, Act::GiveUp, Reply::Lost(Settled::Timeout), 1),
    (1, Act::EndTransaction, Reply::Done, 0),
];

/// Whether contexts do what they should.
pub(crate) fn calls_are_answered<R: Wait>(rt: &R, alloc: Global) -> bool {
    let Ok((manager, mut passes)) = new_passes(alloc, 2) else {
        return false;
    };
    let second = Session::open(rt, &manager, passes.remove(1));
    let first = Session::open(rt, &manager, passes.remove(0));
    drop(passes);
    drop(manager);
    let one = first.number();
    let two = second.number();
    let (go_well, mut first, mut second) = sessions_outlive(alloc, first, one, second, two);
    // The first session has nothing, and its context let go of both places. The second one has a ticket at each.
    let are_let_go = unpins_neither(&mut first, SpaceError::NoPlace);
    let are_kept = unpins_neither(&mut second, SpaceError::InUse);
    let _first = closes(rt, first);
    let _second = closes(rt, second);
    go_well && are_let_go && are_kept
}

// Whether a session is refused to give up the pins of both places, and for this reason.
fn unpins_neither<R: Wait>(session: &mut Session<R>, why: SpaceError) -> bool {
    session.unpin(1) == Err(why) && session.unpin(2) == Err(why)
}

// Whether all rows have their answers, by two sessions of these numbers that have nothing. Returns the sessions, too.
fn sessions_outlive<S: LockSpace>(
    alloc: Global,
    first: S,
    one: u16,
    second: S,
    two: u16,
) -> (bool, S, S)
    requires first_speaks { S.speaks_for first one }
    requires first_nothing { HasNothing (S.own first one) }
    requires second_speaks { S.speaks_for second two }
    requires second_nothing { HasNothing (S.own second two) }
{
    let mut first = Seat::new(alloc, first, one);
    let mut second = Seat::new(alloc, second, two);
    let go_well = all_outlive(alloc, &mut first, &mut second);
    (go_well, first.into_session(), second.into_session())
}

fn all_outlive<S: LockSpace>(alloc: Global, first: &mut Seat<S>, second: &mut Seat<S>) -> bool {
    for row in ROWS {
        let goes_well = if row.0 == 1 {
            outlives(alloc, first, *row)
        } else {
            outlives(alloc, second, *row)
        };
        if !goes_well {
            return false;
        }
    }
    true
}

// Whether a row has its answer: at once, or at the second try if the first ran out of memory, and the session then had the tickets that it had
// before, and didn't wait.
fn outlives<S: LockSpace>(alloc: Global, seat: &mut Seat<S>, row: Row) -> bool {
    let (_, act, want, count) = row;
    let (mark, had, _) = seat.stands();
    let mut reply = seat.make(alloc, act);
    if reply == Reply::NoMemory && act.takes_memory() {
        if seat.stands() != (mark, had, false) || !seat.keeps(had) {
            return false;
        }
        reply = seat.make(alloc, act.again());
    }
    reply == want && seat.keeps(count)
}

// The answers to a request that gets a ticket at the first place, to one that waits there, and to one that would have to wait there.
const ANSWERS: [Reply; 3] = [Reply::Acquired, Reply::MustWait, Reply::WouldWait];

/// Whether each request of a session for a key that it has to look up pins the key's place just if it gets something there.
pub(crate) fn pins_are_right<R: Wait>(rt: &R, alloc: Global) -> bool {
    let Ok((manager, mut passes)) = new_passes(alloc, 1) else {
        return false;
    };
    let third = Session::open(rt, &manager, passes.remove(2));
    let second = Session::open(rt, &manager, passes.remove(1));
    let first = Session::open(rt, &manager, passes.remove(0));
    drop(passes);
    drop(manager);
    let (one, first) = pin_after(alloc, first, Act::Acquire("a", Mode::X, TRANSACTION));
    let (two, second) = pin_after(alloc, second, Act::Acquire("a", Mode::SR, TRANSACTION));
    let (three, third) = pin_after(alloc, third, Act::Try("a", Mode::SR, STATEMENT));
    let _third = closes(rt, third);
    let _second = closes(rt, second);
    let _first = closes(rt, first);
    let replies = [one.0, two.0, three.0];
    (replies == ANSWERS || replies.contains(&Reply::NoMemory)) && one.1 && two.1 && three.1
}

// Has a session that has nothing make a request for the key of the first place. Returns the answer, and whether it pins the place as it should.
fn pin_after<R: Wait>(alloc: Global, session: Session<R>, act: Act) -> ((Reply, bool), Session<R>)
    requires { HasNothing (data_of session).own }
{
    let who = session.number();
    let mut seat = Seat::new(alloc, session, who);
    let reply = seat.make(alloc, act);
    let mut session = seat.into_session();
    let why = match reply {
        Reply::Acquired | Reply::MustWait => SpaceError::InUse,
        _ => SpaceError::NoPlace,
    };
    let is_right = session.unpin(1) == Err(why);
    ((reply, is_right), session)
}
