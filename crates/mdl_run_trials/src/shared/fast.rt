//! Sessions try for fast tickets, release them and make them slow.
use crate::shared::acts::{Act, Lock, Memory, Reply};
use crate::shared::audits::Shown;
use crate::shared::rows::{Case, Row, are_right};
use mdl_book::Ticket;
use mdl_calls::{Ended, Held, Settled, SpaceError};
use mdl_key::Mode;
use mdl_word::Word;
use std::test::Fail;

const NOT_HELD: Reply = Reply::Refused(SpaceError::NotHeld);

const BAD_MODE: Reply = Reply::Refused(SpaceError::BadMode);

// A session can have at most 1,023 fast tickets at a place, and more at other places. The lock's word counts each of them.
const MOST: &[Row] = &[
    (1, Act::Resolve(Lock::Sales), Reply::Place(1)),
    (1, Act::Resolve(Lock::Orders), Reply::Place(2)),
    (2, Act::Resolve(Lock::Sales), Reply::Place(1)),
    (3, Act::Resolve(Lock::Sales), Reply::Place(1)),
    (1, Act::Reserve(1024), Reply::Done),
    (1, Act::TryFastOften(1, Mode::S, 1023), Reply::Granted(1023)),
    (1, Act::TryFast(1, Mode::S), Reply::Limit),
    (1, Act::TryFast(1, Mode::SR), Reply::Limit),
    (1, Act::TryFast(2, Mode::S), Reply::Granted(1024)),
    (1, Act::ReleaseFast(1024), Reply::Owes(false)),
    (2, Act::Begin(1, Mode::X), Reply::Waiting(1)),
    (
        3,
        Act::TryFast(1, Mode::S),
        Reply::Obtruded(Word(0x3000_0000_0000_03ff)),
    ),
    (2, Act::TimeOut, Reply::Done),
    (2, Act::End, Reply::Ended(Ended::Timeout)),
    (1, Act::ReleaseAll, Reply::Count(1023)),
];

// A wait keeps new fast tickets away. It is granted once the session that released the last one reschedules the place.
const OWED: &[Row] = &[
    (1, Act::Resolve(Lock::Sales), Reply::Place(1)),
    (2, Act::Resolve(Lock::Sales), Reply::Place(1)),
    (3, Act::Resolve(Lock::Sales), Reply::Place(1)),
    (1, Act::TryFast(1, Mode::SR), Reply::Granted(1)),
    (2, Act::Begin(1, Mode::X), Reply::Waiting(1)),
    (
        3,
        Act::TryFast(1, Mode::S),
        Reply::Obtruded(Word(0x3000_0000_0010_0000)),
    ),
    (1, Act::ReleaseFast(1), Reply::Owes(true)),
    (2, Act::Poll, Reply::Pending),
    (
        3,
        Act::TryFast(1, Mode::S),
        Reply::Obtruded(Word(0x3000_0000_0000_0000)),
    ),
    (1, Act::Reschedule(1), Reply::Done),
    (2, Act::Poll, Reply::Settled(Settled::Granted)),
    (2, Act::End, Reply::Ended(Ended::Granted(1))),
    (2, Act::Release(1), Reply::Done),
];

// A wait that was killed isn't granted, and keeps no ticket away once it has ended.
const KILLED: &[Row] = &[
    (1, Act::Resolve(Lock::Sales), Reply::Place(1)),
    (2, Act::Resolve(Lock::Sales), Reply::Place(1)),
    (3, Act::Resolve(Lock::Sales), Reply::Place(1)),
    (1, Act::TryFast(1, Mode::SR), Reply::Granted(1)),
    (2, Act::Begin(1, Mode::X), Reply::Waiting(1)),
    (3, Act::Kill(2, 1), Reply::Is(true)),
    (1, Act::ReleaseFast(1), Reply::Owes(true)),
    (1, Act::Reschedule(1), Reply::Done),
    (2, Act::Poll, Reply::Settled(Settled::Killed)),
    (2, Act::End, Reply::Ended(Ended::Killed)),
    (3, Act::Audit(&[NOBODY]), Reply::Is(true)),
    (3, Act::TryFast(1, Mode::S), Reply::Granted(1)),
    (3, Act::ReleaseFast(1), Reply::Owes(false)),
];

const TICKETS: &[Held] = &[
    Held {
        id: 1,
        place: 1,
        mode: Mode::S,
    },
    Held {
        id: 2,
        place: 1,
        mode: Mode::S,
    },
    Held {
        id: 3,
        place: 1,
        mode: Mode::SR,
    },
];

const NOBODY: Shown = Shown {
    place: 1,
    lock: Lock::Sales,
    granted: &[],
};

const THREE: Shown = Shown {
    place: 1,
    lock: Lock::Sales,
    granted: &[
        Ticket {
            session: 1,
            number: 1,
            mode: Mode::S,
        },
        Ticket {
            session: 1,
            number: 2,
            mode: Mode::S,
        },
        Ticket {
            session: 1,
            number: 3,
            mode: Mode::SR,
        },
    ],
};

// Tickets that become slow are in the books, and are otherwise unchanged.
const MADE_SLOW: &[Row] = &[
    (1, Act::Resolve(Lock::Sales), Reply::Place(1)),
    (1, Act::TryFast(1, Mode::S), Reply::Granted(1)),
    (1, Act::TryFast(1, Mode::S), Reply::Granted(2)),
    (1, Act::TryFast(1, Mode::SR), Reply::Granted(3)),
    (1, Act::Holds(TICKETS), Reply::Is(true)),
    (1, Act::Audit(&[NOBODY]), Reply::Is(true)),
    (1, Act::Materialise, Reply::Done),
    (1, Act::Holds(TICKETS), Reply::Is(true)),
    (1, Act::Audit(&[THREE]), Reply::Is(true)),
    (1, Act::ReleaseFast(1), NOT_HELD),
    (1, Act::Release(1), Reply::Done),
    (1, Act::Release(2), Reply::Done),
    (1, Act::Release(3), Reply::Done),
    (1, Act::Materialise, Reply::Done),
];

// An obtrusive ticket makes the fast tickets of its session slow, and closes the fast path to all until it is released.
const BESIDE_READ_ONLY: &[Row] = &[
    (1, Act::Resolve(Lock::Sales), Reply::Place(1)),
    (2, Act::Resolve(Lock::Sales), Reply::Place(1)),
    (1, Act::TryFast(1, Mode::SW), Reply::Granted(1)),
    (1, Act::Try(1, Mode::SRO), Reply::Granted(2)),
    (
        2,
        Act::TryFast(1, Mode::S),
        Reply::Obtruded(Word(0x3000_0000_0000_0000)),
    ),
    (2, Act::Try(1, Mode::S), Reply::Granted(1)),
    (
        2,
        Act::TryFast(1, Mode::S),
        Reply::Obtruded(Word(0x3000_0000_0000_0000)),
    ),
    (1, Act::Release(2), Reply::Done),
    (2, Act::TryFast(1, Mode::S), Reply::Granted(2)),
    (2, Act::ReleaseFast(2), Reply::Owes(true)),
    (2, Act::Release(1), Reply::Done),
    (1, Act::Release(1), Reply::Done),
];

// Only modes that aren't obtrusive can be tried for on the fast path, and only fast tickets can be released on it.
const REFUSED: &[Row] = &[
    (
        1,
        Act::TryFast(1, Mode::S),
        Reply::Refused(SpaceError::NoPlace),
    ),
    (1, Act::Resolve(Lock::Sales), Reply::Place(1)),
    (2, Act::Resolve(Lock::Sales), Reply::Place(1)),
    (1, Act::TryFast(1, Mode::X), BAD_MODE),
    (1, Act::TryFast(1, Mode::IX), BAD_MODE),
    (1, Act::ReleaseFast(1), NOT_HELD),
    (1, Act::Try(1, Mode::X), Reply::Granted(1)),
    (1, Act::ReleaseFast(1), NOT_HELD),
    (2, Act::Begin(1, Mode::S), Reply::Waiting(1)),
    (
        2,
        Act::TryFast(1, Mode::S),
        Reply::Refused(SpaceError::AlreadyWaiting),
    ),
    (2, Act::Materialise, Reply::Done),
    (1, Act::Release(1), Reply::Done),
    (2, Act::End, Reply::Ended(Ended::Granted(1))),
    (2, Act::ReleaseFast(1), NOT_HELD),
    (2, Act::Release(1), Reply::Done),
];

// All calls that request an unobtrusive mode get a fast ticket, which the lock's word counts. The release of the last one that blocks a wait
// grants the wait.
const WAITED_FOR: &[Row] = &[
    (1, Act::Resolve(Lock::Sales), Reply::Place(1)),
    (2, Act::Resolve(Lock::Sales), Reply::Place(1)),
    (3, Act::Resolve(Lock::Sales), Reply::Place(1)),
    (1, Act::Try(1, Mode::SR), Reply::Granted(1)),
    (1, Act::Begin(1, Mode::SW), Reply::Granted(2)),
    (1, Act::Clone(2, Mode::S), Reply::Granted(3)),
    (2, Act::Begin(1, Mode::X), Reply::Waiting(1)),
    (
        3,
        Act::TryFast(1, Mode::S),
        Reply::Obtruded(Word(0x3000_0100_0010_0001)),
    ),
    (1, Act::ReleaseFast(3), Reply::Owes(true)),
    (1, Act::Release(2), Reply::Done),
    (2, Act::Poll, Reply::Pending),
    (
        3,
        Act::TryFast(1, Mode::S),
        Reply::Obtruded(Word(0x3000_0000_0010_0000)),
    ),
    (1, Act::Release(1), Reply::Done),
    (2, Act::Poll, Reply::Settled(Settled::Granted)),
    (2, Act::End, Reply::Ended(Ended::Granted(1))),
    (
        3,
        Act::TryFast(1, Mode::S),
        Reply::Obtruded(Word(0x3000_0000_0000_0000)),
    ),
    (2, Act::Release(1), Reply::Done),
    (3, Act::TryFast(1, Mode::S), Reply::Granted(1)),
    (3, Act::ReleaseFast(1), Reply::Owes(false)),
];

// A session's guess of the lock's word is old: another session has gained and released tickets since. It is granted a ticket all the same, and
// finds an obtrusive wait or ticket, also where the word is otherwise the one that it left.
const OLD_GUESS: &[Row] = &[
    (1, Act::Resolve(Lock::Sales), Reply::Place(1)),
    (2, Act::Resolve(Lock::Sales), Reply::Place(1)),
    (3, Act::Resolve(Lock::Sales), Reply::Place(1)),
    (1, Act::TryFast(1, Mode::SR), Reply::Granted(1)),
    (2, Act::TryFast(1, Mode::S), Reply::Granted(1)),
    (2, Act::TryFast(1, Mode::SW), Reply::Granted(2)),
    (1, Act::TryFast(1, Mode::S), Reply::Granted(2)),
    (2, Act::ReleaseFast(1), Reply::Owes(false)),
    (2, Act::ReleaseFast(2), Reply::Owes(false)),
    (2, Act::Begin(1, Mode::X), Reply::Waiting(1)),
    (
        1,
        Act::TryFast(1, Mode::S),
        Reply::Obtruded(Word(0x3000_0000_0010_0001)),
    ),
    (1, Act::ReleaseFast(1), Reply::Owes(true)),
    (1, Act::ReleaseFast(2), Reply::Owes(true)),
    (1, Act::Reschedule(1), Reply::Done),
    (2, Act::End, Reply::Ended(Ended::Granted(3))),
    (
        1,
        Act::TryFast(1, Mode::S),
        Reply::Obtruded(Word(0x3000_0000_0000_0000)),
    ),
    (2, Act::Release(3), Reply::Done),
    (2, Act::TryFast(1, Mode::SW), Reply::Granted(4)),
    (2, Act::Materialise, Reply::Done),
    (1, Act::TryFast(1, Mode::S), Reply::Granted(3)),
    (3, Act::Begin(1, Mode::X), Reply::Waiting(1)),
    (
        1,
        Act::TryFast(1, Mode::S),
        Reply::Obtruded(Word(0x3000_0000_0000_0001)),
    ),
    (3, Act::TimeOut, Reply::Done),
    (3, Act::End, Reply::Ended(Ended::Timeout)),
    (1, Act::TryFast(1, Mode::S), Reply::Granted(4)),
    (1, Act::ReleaseFast(3), Reply::Owes(true)),
    (1, Act::ReleaseFast(4), Reply::Owes(true)),
    (1, Act::Reschedule(1), Reply::Done),
    (2, Act::Release(4), Reply::Done),
];

const READER: Shown = Shown {
    place: 1,
    lock: Lock::Sales,
    granted: &[Ticket {
        session: 1,
        number: 3,
        mode: Mode::SR,
    }],
};

const UPGRADABLE: Shown = Shown {
    place: 2,
    lock: Lock::Orders,
    granted: &[
        Ticket {
            session: 1,
            number: 1,
            mode: Mode::SU,
        },
        Ticket {
            session: 1,
            number: 2,
            mode: Mode::SU,
        },
    ],
};

const CHANGER: Shown = Shown {
    place: 2,
    lock: Lock::Orders,
    granted: &[
        Ticket {
            session: 1,
            number: 1,
            mode: Mode::SU,
        },
        Ticket {
            session: 1,
            number: 2,
            mode: Mode::X,
        },
    ],
};

const MERGED: Shown = Shown {
    place: 2,
    lock: Lock::Orders,
    granted: &[Ticket {
        session: 1,
        number: 1,
        mode: Mode::X,
    }],
};

// An upgrade, a merge or a clone under the latch of one place first makes the session's fast tickets at all places slow. An upgrade to a mode
// that the ticket has leaves them fast.
const ELSEWHERE: &[Row] = &[
    (1, Act::Resolve(Lock::Sales), Reply::Place(1)),
    (1, Act::Resolve(Lock::Orders), Reply::Place(2)),
    (1, Act::Try(2, Mode::SU), Reply::Granted(1)),
    (1, Act::Try(2, Mode::SU), Reply::Granted(2)),
    (1, Act::TryFast(1, Mode::SR), Reply::Granted(3)),
    (1, Act::Upgrade(2, Mode::SU), Reply::Upgraded),
    (1, Act::Audit(&[NOBODY, UPGRADABLE]), Reply::Is(true)),
    (1, Act::Upgrade(2, Mode::X), Reply::Upgraded),
    (1, Act::ReleaseFast(3), NOT_HELD),
    (1, Act::Audit(&[READER, CHANGER]), Reply::Is(true)),
    (1, Act::Release(3), Reply::Done),
    (1, Act::TryFast(1, Mode::SR), Reply::Granted(4)),
    (1, Act::Merge(1, 2), Reply::Done),
    (1, Act::ReleaseFast(4), NOT_HELD),
    (1, Act::Release(4), Reply::Done),
    (1, Act::Audit(&[NOBODY, MERGED]), Reply::Is(true)),
    (1, Act::TryFast(1, Mode::SR), Reply::Granted(5)),
    (1, Act::Clone(1, Mode::SU), Reply::Granted(6)),
    (1, Act::ReleaseFast(5), NOT_HELD),
    (1, Act::Release(1), Reply::Done),
    (1, Act::Release(5), Reply::Done),
    (1, Act::Release(6), Reply::Done),
];

const CASES: &[Case] = &[
    ("a session has 1023 fast tickets at a place", 2, MOST),
    ("fast tickets become slow ones", 1, MADE_SLOW),
    ("fast tickets elsewhere become slow", 2, ELSEWHERE),
    ("a fast release owes a reschedule", 1, OWED),
    ("a killed wait opens the fast path", 1, KILLED),
];

const CASES_BESIDE_OTHERS: &[Case] = &[
    (
        "an obtrusive ticket closes the fast path",
        1,
        BESIDE_READ_ONLY,
    ),
    ("what is not fast is refused", 1, REFUSED),
    ("unobtrusive wishes take the fast path", 1, WAITED_FOR),
    ("a guess of the word is old", 1, OLD_GUESS),
];

#[test]
fn fast_tickets_come_and_go(rt: HostRuntime) -> Result<(), Fail> {
    are_right(&rt, Memory::Ample, CASES)?;
    are_right(&rt, Memory::Ample, CASES_BESIDE_OTHERS)
}
