//! A context of a session that owes a place a reschedule: a request that gets nothing there leaves the session its debt, and so its pin. The end of a lost
//! wait pays the debt, and the pin is given up.
ghost use Rattle.mdl_calls.specs.Words.{HasNothing};
ghost use Rattle.mdl_context.specs.Contexts.{Attends};

use crate::shared::acts::{Act, Lock, Memory, Reply};
use crate::shared::rows::{Row, Three, none_is_wrong, open_three};
use mdl_calls::{Ended, LockSpace, Settled, SpaceError};
use mdl_context::{Acquire, Context, ContextError, Request, Resume, Tried};
use mdl_key::{Duration, Key, Mode};
use mdl_shared::{CloseError, Session};
use std::alloc::Global;
use std::mem::drop;
use std::process::Abort;
use std::sync::Wait;
use std::test::Fail;

// Whether a context is refused a mode that no table has.
fn is_refused<S: LockSpace>(space: &mut S, context: &mut Context<S>, key: &Key) -> bool
    requires { Attends S.LockSpace space.old context.old }
    ensures { Attends S.LockSpace space.new context.new }
{
    let wish = Request {
        key,
        mode: Mode::IX,
        duration: Duration::Statement,
    };
    matches!(
        context.acquire(space, wish),
        Err(ContextError::Space(SpaceError::BadMode))
    )
}

// Whether a context would have to wait for a lock, and doesn't.
fn would_wait<S: LockSpace>(space: &mut S, context: &mut Context<S>, key: &Key) -> bool
    requires { Attends S.LockSpace space.old context.old }
    ensures { Attends S.LockSpace space.new context.new }
{
    let wish = Request {
        key,
        mode: Mode::SR,
        duration: Duration::Statement,
    };
    matches!(context.try_acquire(space, wish), Ok(Tried::WouldWait))
}

// Whether a context has to wait for a lock, and loses the wait.
fn loses_its_wait<S: LockSpace>(space: &mut S, context: &mut Context<S>, key: &Key) -> bool
    requires { Attends S.LockSpace space.old context.old }
    ensures { Attends S.LockSpace space.new context.new }
{
    let wish = Request {
        key,
        mode: Mode::SR,
        duration: Duration::Statement,
    };
    let waits = matches!(context.acquire(space, wish), Ok(Acquire::MustWait(_)));
    waits && matches!(context.give_up(space), Ok(Resume::Lost(Settled::Timeout)))
}

// What a context asks for.
#[derive(Clone, Copy)]
enum Wish {
    Unfit,
    AtOnce,
    InTime,
}

// Whether a new context of a session that has nothing gets nothing. Returns the session, too.
fn gets_nothing<S: LockSpace>(
    alloc: Global,
    session: S,
    who: u16,
    key: &Key,
    wish: Wish,
) -> (bool, S)
    requires speaks { S.speaks_for session who }
    requires nothing { HasNothing (S.own session who) }
{
    let mut session = session;
    let mut context = Context::new(alloc, who);
    let gets_nothing = match wish {
        Wish::Unfit => is_refused(&mut session, &mut context, key),
        Wish::AtOnce => would_wait(&mut session, &mut context, key),
        Wish::InTime => loses_its_wait(&mut session, &mut context, key),
    };
    drop(context);
    (gets_nothing, session)
}

// The same for a session that has nothing, but owes a place a reschedule.
fn gets_nothing_while_it_owes<R: Wait + Drop>(
    rt: &impl Abort,
    alloc: Global,
    session: Session<R>,
    key: &Key,
    wish: Wish,
) -> (bool, Session<R>) {
    match session.close() {
        Ok(_pass) => panic!(rt; "the session owes a place a reschedule"),
        Err(CloseError::HoldsTickets(_session)) => panic!(rt; "the session holds no ticket"),
        Err(CloseError::Owes(session, _place)) => {
            let who = session.number();
            gets_nothing(alloc, session, who, key, wish)
        }
    }
}

// The same for the second of three sessions.
fn second_gets_nothing<R: Wait + Drop>(
    rt: &impl Abort,
    alloc: Global,
    sessions: Three<R>,
    key: &Key,
    wish: Wish,
) -> (bool, Three<R>) {
    let Three { one, two, three } = sessions;
    let (gets_nothing, two) = gets_nothing_while_it_owes(rt, alloc, two, key, wish);
    (gets_nothing, Three { one, two, three })
}

// Session 1 waits behind a fast ticket of session 2, which releases it, and then can't give up its pin.
const OWES: &[Row] = &[
    (1, Act::Resolve(Lock::Sales), Reply::Place(1)),
    (2, Act::Resolve(Lock::Sales), Reply::Place(1)),
    (2, Act::TryFast(1, Mode::SR), Reply::Granted(1)),
    (1, Act::Begin(1, Mode::X), Reply::Waiting(1)),
    (2, Act::ReleaseFast(1), Reply::Owes(true)),
    (2, Act::Unpin(1), Reply::Refused(SpaceError::InUse)),
];

const STILL_OWES: &[Row] = &[
    (2, Act::Owes(1), Reply::Is(true)),
    (2, Act::Unpin(1), Reply::Refused(SpaceError::InUse)),
    (2, Act::Reschedule(1), Reply::Done),
    (2, Act::Unpin(1), Reply::Done),
    (1, Act::End, Reply::Ended(Ended::Granted(1))),
    (1, Act::Release(1), Reply::Done),
];

const HAS_PAID: &[Row] = &[
    (2, Act::Owes(1), Reply::Is(false)),
    (2, Act::Unpin(1), Reply::Refused(SpaceError::NoPlace)),
    (1, Act::End, Reply::Ended(Ended::Granted(1))),
    (1, Act::Release(1), Reply::Done),
];

const WISHES: &[(Wish, &[Row])] = &[
    (Wish::Unfit, STILL_OWES),
    (Wish::AtOnce, STILL_OWES),
    (Wish::InTime, HAS_PAID),
];

#[test]
fn a_session_that_owes_keeps_its_pin(rt: HostRuntime) -> Result<(), Fail> {
    let key = Lock::Sales.key(rt.alloc())?;
    for (wish, rows) in WISHES {
        let mut sessions = open_three(&rt, 1)?;
        let before = sessions.first_wrong(rt.alloc(), OWES, Memory::Ample);
        let (gets_nothing, mut sessions) = second_gets_nothing(
            &rt,
            rt.alloc(),
            sessions,
            &key,
            *wish,
        );
        let after = sessions.first_wrong(rt.alloc(), rows, Memory::Ample);
        none_is_wrong(&rt, "a session owes", before);
        none_is_wrong(&rt, "it gets nothing", after);
        assert!(rt; gets_nothing);
        sessions.close(&rt);
    }
    drop(key);
    Ok(())
}
