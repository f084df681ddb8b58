//! The books of a space: which sessions hold each lock and which wait for it, as a tool that shows locks lists them.
use crate::acts::{Act, Row};
use crate::room::{Room, TABLE};
use mdl_book::Ticket;
use mdl_key::Mode;
use mdl_space::{Attempt, Begun, Ended, Place, TimedOut};

const READER: Ticket = Ticket {
    session: 1,
    number: 1,
    mode: Mode::SR,
};

const CHANGE: Ticket = Ticket {
    session: 2,
    number: 1,
    mode: Mode::X,
};

const LATE_READER: Ticket = Ticket {
    session: 3,
    number: 1,
    mode: Mode::SR,
};

// A reader, a change that has timed out, and a reader behind it.
const TIMED_OUT: &[Row] = &[
    (1, Act::TryNow(TABLE, Mode::SR, Ok(Attempt::Granted(1)))),
    (2, Act::BeginWait(TABLE, Mode::X, Ok(Begun::Waiting(1)))),
    (3, Act::BeginWait(TABLE, Mode::SR, Ok(Begun::Waiting(1)))),
    (2, Act::TimeOut(Ok(TimedOut::ByThisCall))),
];

// The session of the change ends its wait, so the reader behind it is granted.
const ENDED: &[Row] = &[(2, Act::EndWait(Ok(Ended::Timeout)))];

// The reader ends its wait, too.
const TAKEN_UP: &[Row] = &[(3, Act::EndWait(Ok(Ended::Granted(1))))];

// Whether the books are those of the places from 1 to `last`, in order.
fn are_of_places(room: &mut Room, last: Place) -> bool {
    for index in 0..last {
        let Ok(key) = room.key_of(index + 1) else {
            return false;
        };
        match room.books().get(usize::from(index)) {
            Some(book) if *book.key() == key => {}
            _ => return false,
        }
    }
    room.books().len() == usize::from(last)
}

// Whether the book of the first place has exactly these tickets.
fn first_has(room: &Room, granted: &[Ticket], waiting: &[Ticket]) -> bool {
    match room.books().first() {
        Some(book) => book.granted() == granted && book.waiting() == waiting,
        None => false,
    }
}

// Calls, the granted and the waiting tickets of the first place after them, and how many waits are settled then. A lost wait is in its book until
// its session ends it.
const LISTED: &[(&[Row], &[Ticket], &[Ticket], usize)] = &[
    (&[], &[], &[], 0),
    (TIMED_OUT, &[READER], &[CHANGE, LATE_READER], 1),
    (ENDED, &[READER, LATE_READER], &[], 1),
    (TAKEN_UP, &[READER, LATE_READER], &[], 0),
];

/// Whether the books are those of all places and list the right tickets, and the right number of waits is settled.
pub(crate) fn list_what_stands(room: &mut Room) -> bool {
    for (rows, granted, waiting, settled) in LISTED {
        if room.first_wrong(rows).is_some() || !first_has(room, granted, waiting) {
            return false;
        }
        if room.settled_waits() != *settled {
            return false;
        }
    }
    are_of_places(room, 5)
}
