//! A lock with as many tickets as it can have.
use crate::acts::{Act, Row};
use crate::room::{Room, SCHEMA, TABLE};
use mdl_key::Mode;
use mdl_space::{Attempt, Begun, SpaceError};

const MOST_TICKETS: u64 = 65_535;

// Clones a session's first ticket until it is refused, and returns the number of the last clone, below `most`.
fn clone_until_refused(room: &mut Room, who: u16, most: u64) -> u64 {
    let mut last = 1;
    for number in 2..most {
        if room.make(who, Act::Clone(1, Mode::SR, Ok(number))) != Some(true) {
            return last;
        }
        last = number;
    }
    last
}

const FULL: SpaceError = SpaceError::Full;

const BAD_MODE: SpaceError = SpaceError::BadMode;

const TWO_LOCKS: &[Row] = &[
    (1, Act::TryNow(SCHEMA, Mode::IX, Ok(Attempt::Granted(1)))),
    (2, Act::TryNow(TABLE, Mode::SR, Ok(Attempt::Granted(1)))),
];

const FULL_UP: &[Row] = &[
    (2, Act::Clone(1, Mode::SR, Err(FULL))),
    (1, Act::TryNow(TABLE, Mode::S, Err(FULL))),
    (1, Act::BeginWait(TABLE, Mode::S, Err(FULL))),
    (1, Act::BeginWait(TABLE, Mode::X, Err(FULL))),
    // If the lock can't be granted now, its number of tickets isn't checked.
    (1, Act::TryNow(TABLE, Mode::X, Ok(Attempt::WouldWait))),
    (1, Act::TryNow(TABLE, Mode::IX, Err(BAD_MODE))),
    (2, Act::Clone(1, Mode::X, Err(BAD_MODE))),
    (1, Act::Clone(1, Mode::IX, Ok(2))),
    (1, Act::WaitOf(1, None)),
    (2, Act::Release(MOST_TICKETS, Ok(()))),
    (1, Act::BeginWait(TABLE, Mode::X, Ok(Begun::Waiting(1)))),
    (2, Act::Clone(1, Mode::SR, Err(FULL))),
];

/// Whether a lock is full at `MOST_TICKETS` tickets.
pub(crate) fn is_full_at_last(room: &mut Room) -> bool {
    room.first_wrong(TWO_LOCKS).is_none()
        && clone_until_refused(room, 2, MOST_TICKETS + 9) == MOST_TICKETS
        && room.first_wrong(FULL_UP).is_none()
}
