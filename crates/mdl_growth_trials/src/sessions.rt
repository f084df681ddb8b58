//! Sessions of a space that threads share, on one thread: fast tickets, waits, a deadlock, and a key's definition. If a call runs out of memory,
//! all is unchanged, except that fast tickets may have become slow ones, those of a place together. Then the call is made again.
use crate::acts::{Act, Reply, make};
use crate::alike::are_alike;
use crate::passes::{closes, new_passes, pays};
use mdl_key::Mode;
use mdl_shared::{Audited, Fast, Session};
use mdl_space::{Place, Settled};
use mdl_word::Word;
use std::alloc::Global;
use std::mem::drop;
use std::sync::Wait;

// The number of places of the space: those of two tables.
const PLACES: u16 = 2;

// A session, its call, and the right answer.
type Row = (u16, Act, Reply);

// Three sessions of a space. The third one keeps no ticket, and only observes the others.
struct Trio<R> {
    one: Session<R>,
    two: Session<R>,
    three: Session<R>,
}

impl<R: Wait> Trio<R> {
    // Makes a call of a session.
    fn make(&mut self, alloc: Global, who: u16, act: Act) -> Reply {
        match who {
            1 => make(&mut self.one, alloc, act),
            2 => make(&mut self.two, alloc, act),
            _ => make(&mut self.three, alloc, act),
        }
    }

    // Whether the first `count` rows have the right answers.
    fn answers(&mut self, alloc: Global, count: usize) -> bool {
        for at in 0..count {
            let Some((who, act, want)) = row(at) else {
                return false;
            };
            if self.make(alloc, who, act) != want {
                return false;
            }
        }
        true
    }

    // Whether all is the same here as in another trio, except that fast tickets of the session `who` may have become slow ones, at some places
    // and not at others.
    fn stands_as(&mut self, other: &mut Trio<R>, alloc: Global, who: u16) -> bool {
        if !self.has_the_same(other) {
            return false;
        }
        let first = self.place_stands_as(other, 1);
        let second = self.place_stands_as(other, 2);
        let _slow = other.make(alloc, who, Act::Materialise);
        (first || self.place_stands_as(other, 1)) && (second || self.place_stands_as(other, 2))
    }

    // Whether each session has the same tickets here as in another trio, a wait in the same state, and owes the same places reschedules.
    fn has_the_same(&mut self, other: &mut Trio<R>) -> bool {
        for who in 1..=3 {
            if self.three.wait_of(who) != other.three.wait_of(who) {
                return false;
            }
        }
        has_the_same(&mut self.one, &mut other.one)
            && has_the_same(&mut self.two, &mut other.two)
            && has_the_same(&mut self.three, &mut other.three)
    }

    // Whether a place is the same here as in another trio: its key, its lists, the key's version and definition, and its word if that closes the
    // fast path.
    fn place_stands_as(&mut self, other: &mut Trio<R>, place: Place) -> bool {
        audits_the_same(&mut self.three, &mut other.three, place)
            && word_at(&mut self.three, place) == word_at(&mut other.three, place)
    }
}

// Whether a session has the same tickets as another one, a wait in the same state, and owes the same places reschedules.
fn has_the_same<R: Wait>(here: &mut Session<R>, there: &mut Session<R>) -> bool {
    are_alike(here.held(), there.held())
        && here.poll_wait() == there.poll_wait()
        && here.owes(1) == there.owes(1)
        && here.owes(2) == there.owes(2)
}

// Whether the audits of two sessions have the same book of a place.
fn audits_the_same<R: Wait>(here: &mut Session<R>, there: &mut Session<R>, place: Place) -> bool {
    let (here, there) = (here.audit(), there.audit());
    let is_so = match (&here, &there) {
        (Ok(here), Ok(there)) => have_the_same(here, there, place),
        _ => false,
    };
    drop(here);
    drop(there);
    is_so
}

// Whether two audits have the same book of a place, or neither has one.
fn have_the_same(here: &[Audited], there: &[Audited], place: Place) -> bool {
    let at = usize::from(place.saturating_sub(1));
    match (here.get(at), there.get(at)) {
        (Some(here), Some(there)) => here.place == there.place
            && here.book.key == there.book.key
            && here.book.granted == there.book.granted
            && here.book.waiting == there.book.waiting
            && here.book.standing == there.book.standing,
        (None, None) => true,
        _ => false,
    }
}

// Returns the word of a place, if its flag is set that closes the fast path to a session without tickets.
fn word_at<R: Wait>(session: &mut Session<R>, place: Place) -> Option<Word> {
    match session.try_fast(place, Mode::S) {
        Ok(Fast::Obtruded(word)) => Some(word),
        Ok(Fast::Granted(id)) => {
            let _released = session.release(id);
            None
        }
        _ => None,
    }
}

// Opens the sessions of a new space.
fn open<'r, R>(rt: &'r R, alloc: Global) -> Option<Trio<&'r R>> {
    let Ok((manager, mut passes)) = new_passes(alloc, PLACES) else {
        return None;
    };
    let three = Session::open(rt, &manager, passes.remove(2));
    let two = Session::open(rt, &manager, passes.remove(1));
    let one = Session::open(rt, &manager, passes.remove(0));
    drop(passes);
    drop(manager);
    Some(Trio { one, two, three })
}

// Closes the sessions. Whether they had nothing.
fn close<R: Wait>(rt: &R, trio: Trio<&R>) -> bool {
    let Trio { one, two, three } = trio;
    let first = closes(rt, one);
    let second = closes(rt, two);
    let third = closes(rt, three);
    first && second && third
}

const ROWS: &[Row] = &[
    (1, Act::Resolve("a"), Reply::At(1)),
    (1, Act::Resolve("b"), Reply::At(2)),
    (2, Act::Resolve("a"), Reply::At(1)),
    (2, Act::Resolve("b"), Reply::At(2)),
    (3, Act::Resolve("a"), Reply::At(1)),
    (3, Act::Resolve("b"), Reply::At(2)),
    // A pin is given up, and had again.
    (1, Act::Unpin(2), Reply::Done),
    (1, Act::TryNow(2, Mode::SR), Reply::Refused),
    (1, Act::Resolve("b"), Reply::At(2)),
    // A definition, under an exclusive ticket.
    (1, Act::TryNow(1, Mode::X), Reply::Granted(1)),
    (1, Act::Create, Reply::Changed(1)),
    (1, Act::AddColumn, Reply::Changed(2)),
    // A deadlock. One release grants the waiter.
    (2, Act::TryNow(2, Mode::X), Reply::Granted(1)),
    (2, Act::BeginWait(1, Mode::SR), Reply::Waiting(1)),
    (1, Act::BeginWait(2, Mode::SR), Reply::Waiting(1)),
    (1, Act::Search, Reply::Victim(2)),
    (1, Act::Search, Reply::NoCycle),
    (2, Act::EndWait, Reply::Lost(Settled::Victim)),
    (2, Act::Release(1, 1), Reply::Done),
    (1, Act::EndWait, Reply::Granted(2)),
    // A ticket gets other modes, and is merged with another.
    (1, Act::Downgrade(1, Mode::SU), Reply::Done),
    (1, Act::Upgrade(1, Mode::SNW), Reply::Done),
    (1, Act::Clone(1, Mode::SU), Reply::Granted(3)),
    (1, Act::Merge(3, 1), Reply::Done),
    (1, Act::Release(2, 3), Reply::Done),
    // Fast tickets, for which room was made, become slow ones.
    (1, Act::Reserve(27), Reply::Done),
    (1, Act::TryFast(1, Mode::SR, 25), Reply::Granted(28)),
    (1, Act::TryFast(2, Mode::SW, 2), Reply::Granted(30)),
    (1, Act::Materialise, Reply::Done),
    // A session with a fast ticket waits for another ticket, at a place whose book has no room yet. The last release grants it.
    (2, Act::Reserve(1), Reply::Done),
    (2, Act::TryFast(1, Mode::S, 1), Reply::Granted(3)),
    (2, Act::BeginWait(2, Mode::X), Reply::Waiting(2)),
    (2, Act::Search, Reply::NoCycle),
    (1, Act::Release(4, 30), Reply::Done),
    (2, Act::EndWait, Reply::Granted(4)),
    (2, Act::Release(3, 4), Reply::Done),
    // A wait behind a fast ticket, and its end.
    (1, Act::Reserve(1), Reply::Done),
    (1, Act::TryFast(1, Mode::SR, 1), Reply::Granted(31)),
    (2, Act::BeginWait(1, Mode::X), Reply::Waiting(3)),
    (1, Act::Release(31, 31), Reply::Done),
    (2, Act::EndWait, Reply::Granted(5)),
    (2, Act::Release(5, 5), Reply::Done),
    // Fast releases at a place where another session waits, and at one where it has a slow ticket. Both places are owed reschedules, and one is paid.
    (1, Act::Reserve(2), Reply::Done),
    (1, Act::TryFast(1, Mode::SR, 1), Reply::Granted(32)),
    (1, Act::TryFast(2, Mode::SW, 1), Reply::Granted(33)),
    (2, Act::Reserve(1), Reply::Done),
    (2, Act::TryFast(2, Mode::S, 1), Reply::Granted(6)),
    (2, Act::BeginWait(1, Mode::X), Reply::Waiting(4)),
    (1, Act::ReleaseFast(32), Reply::Owes(true)),
    (1, Act::ReleaseFast(33), Reply::Owes(true)),
    (1, Act::Owes(1), Reply::Owes(true)),
    (1, Act::Reschedule(1), Reply::Done),
    (1, Act::Owes(1), Reply::Owes(false)),
    (2, Act::EndWait, Reply::Granted(7)),
    (2, Act::Release(6, 7), Reply::Done),
    // Another session's reschedule doesn't pay the other.
    (2, Act::Reschedule(2), Reply::Done),
    (1, Act::Owes(2), Reply::Owes(true)),
];

// The place to which session 1 owes a reschedule in the end.
const OWED: Place = 2;

/// Whether sessions do what they should.
pub(crate) fn calls_are_answered<R: Wait>(rt: &R, alloc: Global) -> bool {
    let Some(mut trio) = open(rt, alloc) else {
        return false;
    };
    let go_well = all_outlive(rt, alloc, &mut trio);
    let Trio { one, two, three } = trio;
    let first = pays(rt, one, OWED);
    let second = closes(rt, two);
    let third = closes(rt, three);
    first && second && third && go_well
}

fn all_outlive<'r, R: Wait>(rt: &'r R, alloc: Global, trio: &mut Trio<&'r R>) -> bool {
    for at in 0..ROWS.len() {
        if !outlives(rt, alloc, trio, at) {
            return false;
        }
    }
    true
}

fn row(at: usize) -> Option<Row> {
    match ROWS.get(at) {
        Some(row) => Some(*row),
        None => None,
    }
}

// Whether a row has its answer: at once, or at the second try if the first ran out of memory and left all unchanged.
fn outlives<'r, R: Wait>(rt: &'r R, alloc: Global, trio: &mut Trio<&'r R>, at: usize) -> bool {
    let Some((who, act, want)) = row(at) else {
        return false;
    };
    let reply = trio.make(alloc, who, act);
    if reply != Reply::NoMemory || act.takes_none() {
        return reply == want;
    }
    nothing_is_lost(rt, alloc, trio, at, who) && trio.make(alloc, who, act) == want
}

// Whether all is the same as in another trio that has made the rows before a row of this session.
fn nothing_is_lost<'r, R: Wait>(
    rt: &'r R,
    alloc: Global,
    trio: &mut Trio<&'r R>,
    at: usize,
    who: u16,
) -> bool {
    let Some(mut other) = open(rt, alloc) else {
        return false;
    };
    let is_so = other.answers(alloc, at) && trio.stands_as(&mut other, alloc, who);
    let _had_nothing = close(rt, other);
    is_so
}
