//! Many tickets at many places: a context has room for more than a few. And one place after another, for more tables than there are places.
use crate::contexts::acts::{Act, Lock, Reply};
use crate::contexts::rows::{NO_PLACE, Row, first_wrong_in};
use crate::hall::Hall;
use mdl_key::{Duration, Mode};
use mdl_space::TicketId;

// How many tables are locked: the number of places in the space.
const TABLES: u16 = 256;

// Whether a request of the second session for each table gets the next ticket, beginning with this one.
fn gains_all(hall: &mut Hall, duration: Duration, first: TicketId) -> bool {
    for number in 0..TABLES {
        let wish = Act::Acquire(Lock::Numbered(number), Mode::SR, duration);
        let ticket = first.wrapping_add(u64::from(number));
        if hall.make(2, wish) != Some(Reply::Acquired(ticket)) {
            return false;
        }
    }
    true
}

const READ_ANOTHER: Act = Act::Acquire(Lock::Numbered(TABLES), Mode::SR, Duration::Transaction);

// The end of the transaction leaves the explicit tickets.
const ENDED: &[Row] = &[
    (2, Act::Mark, Reply::Stands(256, 256)),
    (2, Act::EndTransaction, Reply::Done),
    (2, Act::Mark, Reply::Stands(0, 0)),
    (2, Act::MakeTransactional, Reply::Done),
    (2, Act::Mark, Reply::Stands(0, 512)),
    // The 257th table gets a place once there is one at which the session has nothing.
    (3, READ_ANOTHER, NO_PLACE),
    (2, Act::Release(520), Reply::Done),
    (3, READ_ANOTHER, NO_PLACE),
    (2, Act::Release(776), Reply::Done),
    (3, READ_ANOTHER, Reply::Acquired(1)),
];

// New tickets, reused tickets, and clones: their duration, and the number of the first.
const GAINS: &[(Duration, TicketId)] = &[
    (Duration::Statement, 1),
    (Duration::Statement, 1),
    (Duration::Transaction, 257),
    (Duration::Transaction, 257),
    (Duration::Explicit, 513),
    (Duration::Explicit, 769),
];

fn are_locked(hall: &mut Hall) -> bool {
    for (duration, first) in GAINS {
        if !gains_all(hall, *duration, *first) {
            return false;
        }
    }
    first_wrong_in(hall, ENDED, false).is_none()
}

#[test]
fn many_tables_are_locked(rt: HostRuntime) {
    let Ok(mut hall) = Hall::new(rt.alloc(), TABLES) else {
        panic!(rt; "there is memory for a hall");
    };
    let are_locked = are_locked(&mut hall);
    drop(hall);
    assert!(rt; are_locked);
}

// More tables than there are places.
const MORE_TABLES: u16 = 1_000;

// Whether a session locks this many tables, one after another, and releases each at the end of a transaction.
fn are_locked_in_turn(hall: &mut Hall) -> bool {
    for number in 0..MORE_TABLES {
        let wish = Act::Acquire(Lock::Numbered(number), Mode::SR, Duration::Transaction);
        let ticket = u64::from(number).wrapping_add(1);
        if hall.make(1, wish) != Some(Reply::Acquired(ticket))
            || hall.make(1, Act::EndTransaction) != Some(Reply::Done)
        {
            return false;
        }
    }
    true
}

#[test]
fn more_tables_are_locked_in_turn(rt: HostRuntime) {
    let Ok(mut hall) = Hall::new(rt.alloc(), TABLES) else {
        panic!(rt; "there is memory for a hall");
    };
    let are_locked = are_locked_in_turn(&mut hall);
    drop(hall);
    assert!(rt; are_locked);
}
