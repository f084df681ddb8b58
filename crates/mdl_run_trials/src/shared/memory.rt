//! Allocations refused in turn: if each fails once, each call does at the second try what it would have done at the first.
//!
//! `rt try --test --fail-alloc N` refuses the allocation of that number.
use crate::shared::acts::{Act, Edit, Lock, Memory, Reply};
use crate::shared::audits::Shown;
use crate::shared::rows::{Case, Row, are_right};
use crate::shared::searches::A_CYCLE;
use mdl_book::Ticket;
use mdl_calls::{Ended, Held, Settled};
use mdl_key::Mode;
use std::test::Fail;

const CALLS: &[Row] = &[
    (1, Act::Resolve(Lock::Sales), Reply::Place(1)),
    (2, Act::Resolve(Lock::Sales), Reply::Place(1)),
    (1, Act::Try(1, Mode::SNW), Reply::Granted(1)),
    (2, Act::Try(1, Mode::X), Reply::WouldWait),
    (2, Act::Try(1, Mode::S), Reply::Granted(1)),
    (1, Act::Clone(1, Mode::SU), Reply::Granted(2)),
    (1, Act::Merge(2, 1), Reply::Done),
    (1, Act::Downgrade(2, Mode::SU), Reply::Done),
    (1, Act::Release(2), Reply::Done),
    (2, Act::Release(1), Reply::Done),
];

const WAITS: &[Row] = &[
    (1, Act::Resolve(Lock::Sales), Reply::Place(1)),
    (2, Act::Resolve(Lock::Sales), Reply::Place(1)),
    (1, Act::Try(1, Mode::SW), Reply::Granted(1)),
    (2, Act::Begin(1, Mode::X), Reply::Waiting(1)),
    (1, Act::Release(1), Reply::Done),
    (2, Act::Poll, Reply::Settled(Settled::Granted)),
    (2, Act::End, Reply::Ended(Ended::Granted(1))),
    (1, Act::Begin(1, Mode::S), Reply::Waiting(1)),
    (2, Act::Kill(1, 1), Reply::Is(true)),
    (1, Act::End, Reply::Ended(Ended::Killed)),
    (2, Act::Release(1), Reply::Done),
];

const TICKET: Held = Held {
    id: 1,
    place: 1,
    mode: Mode::SNW,
};

const BOOK: Shown = Shown {
    place: 1,
    lock: Lock::Sales,
    granted: &[Ticket {
        session: 1,
        number: 1,
        mode: Mode::SNW,
    }],
};

const TOLD: &[Row] = &[
    (1, Act::Resolve(Lock::Sales), Reply::Place(1)),
    (1, Act::Try(1, Mode::SNW), Reply::Granted(1)),
    (1, Act::Holds(&[TICKET]), Reply::Is(true)),
    (1, Act::Names(1, Lock::Sales), Reply::Is(true)),
    (1, Act::Audit(&[BOOK]), Reply::Is(true)),
    (1, Act::Release(1), Reply::Done),
];

// An upgrade takes no memory, nor does a drop of a definition.
const CHANGES: &[Row] = &[
    (1, Act::Resolve(Lock::Sales), Reply::Place(1)),
    (1, Act::Try(1, Mode::SU), Reply::Granted(1)),
    (1, Act::Upgrade(1, Mode::X), Reply::Upgraded),
    (
        1,
        Act::Change(1, Edit::CreateTable("id")),
        Reply::Version(1),
    ),
    (1, Act::Change(1, Edit::Drop), Reply::Version(2)),
    (1, Act::Release(1), Reply::Done),
];

const FAST: &[Held] = &[
    Held {
        id: 1,
        place: 1,
        mode: Mode::S,
    },
    Held {
        id: 2,
        place: 2,
        mode: Mode::SR,
    },
    Held {
        id: 3,
        place: 1,
        mode: Mode::SW,
    },
];

const BOOKS: &[Shown] = &[
    Shown {
        place: 1,
        lock: Lock::Sales,
        granted: &[
            Ticket {
                session: 1,
                number: 1,
                mode: Mode::S,
            },
            Ticket {
                session: 1,
                number: 3,
                mode: Mode::SW,
            },
        ],
    },
    Shown {
        place: 2,
        lock: Lock::Orders,
        granted: &[Ticket {
            session: 1,
            number: 2,
            mode: Mode::SR,
        }],
    },
];

// If room was made ahead, fast tickets take no memory. They are unchanged if memory runs out at the first try to make them slow.
const AHEAD: &[Row] = &[
    (1, Act::Resolve(Lock::Sales), Reply::Place(1)),
    (1, Act::Resolve(Lock::Orders), Reply::Place(2)),
    (1, Act::Reserve(3), Reply::Done),
    (1, Act::TryFast(1, Mode::S), Reply::Granted(1)),
    (1, Act::TryFast(2, Mode::SR), Reply::Granted(2)),
    (1, Act::TryFast(1, Mode::SW), Reply::Granted(3)),
    (1, Act::Holds(FAST), Reply::Is(true)),
    (1, Act::Materialise, Reply::Done),
    (1, Act::Holds(FAST), Reply::Is(true)),
    (1, Act::Audit(BOOKS), Reply::Is(true)),
    (1, Act::Release(1), Reply::Done),
    (1, Act::Release(2), Reply::Done),
    (1, Act::Release(3), Reply::Done),
];

// Many of them take none, either.
const ROOM: &[Row] = &[
    (1, Act::Resolve(Lock::Sales), Reply::Place(1)),
    (1, Act::Reserve(100), Reply::Done),
    (1, Act::TryFastOften(1, Mode::S, 100), Reply::Granted(100)),
    (1, Act::ReleaseAll, Reply::Count(100)),
];

// An upgrade to a mode that the ticket covers takes no memory, though there is a fast ticket, which stays one.
const COVERED: &[Row] = &[
    (1, Act::Resolve(Lock::Sales), Reply::Place(1)),
    (1, Act::Resolve(Lock::Orders), Reply::Place(2)),
    (1, Act::Reserve(2), Reply::Done),
    (1, Act::Try(2, Mode::SU), Reply::Granted(1)),
    (1, Act::TryFast(1, Mode::SR), Reply::Granted(2)),
    (1, Act::Upgrade(1, Mode::SR), Reply::Upgraded),
    (1, Act::Upgrade(1, Mode::SU), Reply::Upgraded),
    (1, Act::ReleaseFast(2), Reply::Owes(false)),
    (1, Act::Release(1), Reply::Done),
];

// A call that runs out of memory leaves the session unchanged, and the next one returns the right result.
const TABLES: &[Row] = &[
    (1, Act::Resolve(Lock::Sales), Reply::Place(1)),
    (2, Act::Tables, Reply::Count(0)),
    (2, Act::Names(1, Lock::Sales), Reply::Is(true)),
];

// A key that is already known is looked up for its pin, and a pin is given up without memory.
const PINS: &[Row] = &[
    (1, Act::Resolve(Lock::Sales), Reply::Place(1)),
    (2, Act::Tables, Reply::Count(0)),
    (2, Act::Resolve(Lock::Sales), Reply::Place(1)),
    (2, Act::Unpin(1), Reply::Done),
    (2, Act::Resolve(Lock::Sales), Reply::Place(1)),
    (2, Act::Try(1, Mode::S), Reply::Granted(1)),
    (2, Act::Release(1), Reply::Done),
    (2, Act::Unpin(1), Reply::Done),
];

const CASES: &[Case] = &[
    ("calls outlive want of memory", 2, CALLS),
    ("waits outlive want of memory", 2, WAITS),
    ("what a session has is told at the second try", 2, TOLD),
    ("changes outlive want of memory", 2, CHANGES),
    ("fast tickets outlive want of memory", 2, AHEAD),
];

const MORE_CASES: &[Case] = &[
    ("a hundred reserved tickets take no memory", 1, ROOM),
    ("covered upgrades take no memory", 2, COVERED),
    ("tables are told at the second try", 2, TABLES),
    ("pins outlive want of memory", 1, PINS),
    ("searches outlive want of memory", 2, A_CYCLE),
];

#[test]
fn calls_outlive_want_of_memory(rt: HostRuntime) -> Result<(), Fail> {
    are_right(&rt, Memory::Scarce, CASES)?;
    are_right(&rt, Memory::Scarce, MORE_CASES)
}
