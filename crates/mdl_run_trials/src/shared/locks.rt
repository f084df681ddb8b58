//! Sessions look up keys, try for locks and release them, and read keys, tickets and books.
use crate::shared::acts::{Act, Lock, Memory, Reply};
use crate::shared::audits::Shown;
use crate::shared::rows::{Case, Row, are_right};
use mdl_book::Ticket;
use mdl_calls::{Held, SpaceError};
use mdl_key::Mode;
use std::test::Fail;

const NO_PLACE: Reply = Reply::Refused(SpaceError::NoPlace);

const NOT_HELD: Reply = Reply::Refused(SpaceError::NotHeld);

// One session gives two keys their places, and the other finds them there. A third key gets none, as there are only two places.
const PLACES: &[Row] = &[
    (1, Act::Resolve(Lock::Shop), Reply::Place(1)),
    (1, Act::Resolve(Lock::Sales), Reply::Place(2)),
    (2, Act::Resolve(Lock::Sales), Reply::Place(2)),
    (2, Act::Resolve(Lock::Shop), Reply::Place(1)),
    (2, Act::Resolve(Lock::Global), NO_PLACE),
    (1, Act::Resolve(Lock::Shop), Reply::Place(1)),
    (1, Act::Resolve(Lock::Global), NO_PLACE),
];

// Two readers hold a lock beside each other, and a writer holds it alone. Each session numbers its own tickets.
const WRITERS: &[Row] = &[
    (1, Act::Resolve(Lock::Sales), Reply::Place(1)),
    (2, Act::Resolve(Lock::Sales), Reply::Place(1)),
    (1, Act::Try(1, Mode::S), Reply::Granted(1)),
    (2, Act::Try(1, Mode::S), Reply::Granted(1)),
    (2, Act::Try(1, Mode::X), Reply::WouldWait),
    (2, Act::Release(1), Reply::Done),
    (2, Act::Try(1, Mode::X), Reply::WouldWait),
    (1, Act::Release(1), Reply::Done),
    (2, Act::Try(1, Mode::X), Reply::Granted(2)),
    (1, Act::Try(1, Mode::S), Reply::WouldWait),
    (2, Act::Release(2), Reply::Done),
    (1, Act::Try(1, Mode::S), Reply::Granted(2)),
    (1, Act::Release(2), Reply::Done),
];

// A lock can be requested only by a session that has looked up its key. A table has no intention mode.
const REFUSED: &[Row] = &[
    (1, Act::Resolve(Lock::Sales), Reply::Place(1)),
    (
        1,
        Act::Try(1, Mode::IX),
        Reply::Refused(SpaceError::BadMode),
    ),
    (2, Act::Try(1, Mode::S), Reply::Refused(SpaceError::NoPlace)),
    (1, Act::Release(1), NOT_HELD),
    (1, Act::Try(1, Mode::S), Reply::Granted(1)),
    (2, Act::Release(1), NOT_HELD),
    (1, Act::Release(1), Reply::Done),
    (1, Act::Release(1), NOT_HELD),
];

// Under a ticket a session reads the definition at its place. Without a ticket it reads nothing.
const READS: &[Row] = &[
    (1, Act::Resolve(Lock::Sales), Reply::Place(1)),
    (1, Act::Read(1), NOT_HELD),
    (1, Act::Try(1, Mode::SR), Reply::Granted(1)),
    (1, Act::Read(1), Reply::New),
    (1, Act::Read(2), NOT_HELD),
    (1, Act::Release(1), Reply::Done),
    (1, Act::Read(1), NOT_HELD),
];

const FIRST: Held = Held {
    id: 1,
    place: 2,
    mode: Mode::S,
};

const SECOND: Held = Held {
    id: 2,
    place: 1,
    mode: Mode::IX,
};

// Tickets are listed in the order in which the session got them. A ticket that wasn't granted or was released isn't listed.
const GAINS: &[Row] = &[
    (1, Act::Resolve(Lock::Shop), Reply::Place(1)),
    (1, Act::Resolve(Lock::Sales), Reply::Place(2)),
    (1, Act::Try(2, Mode::S), Reply::Granted(1)),
    (1, Act::Try(1, Mode::IX), Reply::Granted(2)),
    (1, Act::Holds(&[FIRST, SECOND]), Reply::Is(true)),
    (1, Act::Release(1), Reply::Done),
    (1, Act::Holds(&[SECOND]), Reply::Is(true)),
    (1, Act::Release(2), Reply::Done),
    (1, Act::Holds(&[]), Reply::Is(true)),
];

// The tickets of other sessions aren't listed.
const OF_OTHERS: &[Row] = &[
    (1, Act::Resolve(Lock::Sales), Reply::Place(1)),
    (2, Act::Resolve(Lock::Sales), Reply::Place(1)),
    (1, Act::Try(1, Mode::SNW), Reply::Granted(1)),
    (2, Act::Try(1, Mode::X), Reply::WouldWait),
    (2, Act::Holds(&[]), Reply::Is(true)),
    (1, Act::Release(1), Reply::Done),
];

// A place's key is returned only to a session that has looked up the key.
const KEYS: &[Row] = &[
    (1, Act::Names(1, Lock::Shop), NO_PLACE),
    (1, Act::Resolve(Lock::Shop), Reply::Place(1)),
    (1, Act::Resolve(Lock::Sales), Reply::Place(2)),
    (2, Act::Resolve(Lock::Sales), Reply::Place(2)),
    (2, Act::Names(1, Lock::Shop), NO_PLACE),
    (2, Act::Names(0, Lock::Shop), NO_PLACE),
    (2, Act::Names(3, Lock::Shop), NO_PLACE),
    (1, Act::Names(1, Lock::Shop), Reply::Is(true)),
    (1, Act::Names(2, Lock::Sales), Reply::Is(true)),
    (2, Act::Names(2, Lock::Sales), Reply::Is(true)),
];

// Nothing is defined yet, so no table is returned. But the session that asks knows the schema's tables from then on, and no other key. It doesn't pin
// their places, so it can request no lock there.
const ASKED: &[Row] = &[
    (2, Act::Tables, Reply::Count(0)),
    (1, Act::Resolve(Lock::Shop), Reply::Place(1)),
    (1, Act::Resolve(Lock::Sales), Reply::Place(2)),
    (1, Act::Resolve(Lock::Games), Reply::Place(3)),
    (1, Act::Resolve(Lock::Goods), Reply::Place(4)),
    (2, Act::Names(2, Lock::Sales), NO_PLACE),
    (2, Act::Tables, Reply::Count(0)),
    (2, Act::Names(1, Lock::Shop), NO_PLACE),
    (2, Act::Names(2, Lock::Sales), Reply::Is(true)),
    (2, Act::Names(3, Lock::Games), NO_PLACE),
    (2, Act::Names(4, Lock::Goods), Reply::Is(true)),
    (2, Act::Try(2, Mode::S), NO_PLACE),
    (2, Act::TryFast(4, Mode::S), NO_PLACE),
    (2, Act::Unpin(2), NO_PLACE),
    (2, Act::Resolve(Lock::Sales), Reply::Place(2)),
    (2, Act::Try(2, Mode::S), Reply::Granted(1)),
    (2, Act::Try(4, Mode::S), NO_PLACE),
    (2, Act::Tables, Reply::Count(0)),
    (2, Act::Release(1), Reply::Done),
];

const BOOKS: &[Shown] = &[
    Shown {
        place: 1,
        lock: Lock::Shop,
        granted: &[],
    },
    Shown {
        place: 2,
        lock: Lock::Sales,
        granted: &[Ticket {
            session: 2,
            number: 1,
            mode: Mode::SNW,
        }],
    },
];

const FREE_BOOKS: &[Shown] = &[
    Shown {
        place: 1,
        lock: Lock::Shop,
        granted: &[],
    },
    Shown {
        place: 2,
        lock: Lock::Sales,
        granted: &[],
    },
];

// An audit doesn't list a place whose key no session has looked up. It lists the books of all others, in the order of the places, and may be
// repeated.
const AUDITS: &[Row] = &[
    (1, Act::Audit(&[]), Reply::Is(true)),
    (1, Act::Resolve(Lock::Shop), Reply::Place(1)),
    (2, Act::Resolve(Lock::Sales), Reply::Place(2)),
    (2, Act::Try(2, Mode::SNW), Reply::Granted(1)),
    (1, Act::Audit(BOOKS), Reply::Is(true)),
    (2, Act::Release(1), Reply::Done),
    (2, Act::Audit(FREE_BOOKS), Reply::Is(true)),
];

const CASES: &[Case] = &[
    ("keys get places", 2, PLACES),
    ("a writer stands alone", 1, WRITERS),
    ("what cannot be tried is refused", 1, REFUSED),
    ("a ticket lets its session read", 1, READS),
];

const CASES_OF_WHAT_IS_TOLD: &[Case] = &[
    ("tickets are told in order of gain", 2, GAINS),
    ("only tickets of its own are told", 1, OF_OTHERS),
    ("a key is told to whom it is known", 2, KEYS),
    ("who asks for tables knows them", 4, ASKED),
    ("an audit tells each book", 3, AUDITS),
];

#[test]
fn sessions_try_for_locks(rt: HostRuntime) -> Result<(), Fail> {
    are_right(&rt, Memory::Ample, CASES)?;
    are_right(&rt, Memory::Ample, CASES_OF_WHAT_IS_TOLD)
}
