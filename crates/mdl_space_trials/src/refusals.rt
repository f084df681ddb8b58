//! Each refusal of each call, alone and together with those that are checked later.
//!
//! Two refusals are in no row. A session runs out of numbers only after 2 to the 60 tickets or waits, which no test can reach. A lock takes 65,535
//! tickets: that has a test of its own.
use crate::acts::{Act, Row};
use crate::room::{GLOBAL, SCHEMA, Story, TABLE};
use mdl_key::Mode;
use mdl_space::{Attempt, Begun, Ended, Poll, SpaceError, TimedOut};

const NO_PLACE: SpaceError = SpaceError::NoPlace;

const BAD_MODE: SpaceError = SpaceError::BadMode;

const HAS_WAIT: SpaceError = SpaceError::AlreadyWaiting;

const NOT_HELD: SpaceError = SpaceError::NotHeld;

const NO_WAIT: SpaceError = SpaceError::NoWait;

const REQUESTS: &[Row] = &[
    (1, Act::TryNow(0, Mode::S, Err(NO_PLACE))),
    (1, Act::BeginWait(6, Mode::S, Err(NO_PLACE))),
    // Without a place, no mode is checked.
    (1, Act::TryNow(6, Mode::SR, Err(NO_PLACE))),
    (1, Act::BeginWait(0, Mode::IX, Err(NO_PLACE))),
    (1, Act::TryNow(TABLE, Mode::IX, Err(BAD_MODE))),
    (1, Act::BeginWait(TABLE, Mode::IX, Err(BAD_MODE))),
    (1, Act::TryNow(SCHEMA, Mode::SR, Err(BAD_MODE))),
    (1, Act::BeginWait(GLOBAL, Mode::SNRW, Err(BAD_MODE))),

    // No refused call has changed anything.
    (1, Act::TryNow(TABLE, Mode::X, Ok(Attempt::Granted(1)))),
    (1, Act::WaitOf(1, None)),
];

const WHILE_WAITING: &[Row] = &[
    (1, Act::TryNow(TABLE, Mode::X, Ok(Attempt::Granted(1)))),
    (2, Act::TryNow(SCHEMA, Mode::IX, Ok(Attempt::Granted(1)))),
    (2, Act::BeginWait(TABLE, Mode::SR, Ok(Begun::Waiting(1)))),
    (2, Act::TryNow(SCHEMA, Mode::IX, Err(HAS_WAIT))),
    (2, Act::BeginWait(SCHEMA, Mode::IX, Err(HAS_WAIT))),
    (2, Act::Clone(1, Mode::IX, Err(HAS_WAIT))),
    // Also with a place that has no key, and with a mode that the lock doesn't have.
    (2, Act::TryNow(9, Mode::IX, Err(NO_PLACE))),
    (2, Act::BeginWait(9, Mode::SR, Err(NO_PLACE))),
    (2, Act::TryNow(TABLE, Mode::IX, Err(HAS_WAIT))),
    (2, Act::BeginWait(SCHEMA, Mode::SR, Err(HAS_WAIT))),
    (2, Act::Clone(1, Mode::X, Err(HAS_WAIT))),
    (2, Act::Clone(9, Mode::IX, Err(SpaceError::NotHeld))),
    // A settled wait is still a wait until it is ended.
    (2, Act::TimeOut(Ok(TimedOut::ByThisCall))),
    (2, Act::TryNow(SCHEMA, Mode::IX, Err(HAS_WAIT))),
    (2, Act::BeginWait(SCHEMA, Mode::IX, Err(HAS_WAIT))),
    (2, Act::Clone(1, Mode::IX, Err(HAS_WAIT))),
    (1, Act::Release(1, Ok(()))),
    (2, Act::TryNow(TABLE, Mode::IX, Err(HAS_WAIT))),
];

const CLONES_AND_RELEASES: &[Row] = &[
    (1, Act::Release(1, Err(NOT_HELD))),
    (1, Act::Clone(1, Mode::S, Err(NOT_HELD))),
    (1, Act::TryNow(TABLE, Mode::SU, Ok(Attempt::Granted(1)))),
    (1, Act::TryNow(SCHEMA, Mode::X, Ok(Attempt::Granted(2)))),
    (2, Act::TryNow(GLOBAL, Mode::S, Ok(Attempt::Granted(1)))),
    // Not strong enough, or in a mode that the lock doesn't have.
    (1, Act::Clone(1, Mode::SW, Err(BAD_MODE))),
    (1, Act::Clone(1, Mode::X, Err(BAD_MODE))),
    (1, Act::Clone(1, Mode::IX, Err(BAD_MODE))),
    (1, Act::Clone(2, Mode::SR, Err(BAD_MODE))),
    (2, Act::Clone(1, Mode::IX, Err(BAD_MODE))),
    // Tickets of another session, or of no session.
    (2, Act::Clone(2, Mode::S, Err(NOT_HELD))),
    (2, Act::Release(2, Err(NOT_HELD))),
    (1, Act::Release(0, Err(NOT_HELD))),
    (1, Act::Clone(3, Mode::SR, Err(NOT_HELD))),
    (1, Act::Release(1, Ok(()))),
    (1, Act::Release(1, Err(NOT_HELD))),
    (1, Act::Clone(1, Mode::SR, Err(NOT_HELD))),
    (1, Act::Clone(2, Mode::S, Ok(3))),
];

const WAITS: &[Row] = &[
    (1, Act::Poll(Err(NO_WAIT))),
    (1, Act::TimeOut(Err(NO_WAIT))),
    (1, Act::EndWait(Err(NO_WAIT))),
    (1, Act::Kill(1, 0, false)),
    (2, Act::TryNow(TABLE, Mode::X, Ok(Attempt::Granted(1)))),
    (2, Act::Poll(Err(NO_WAIT))),
    (1, Act::BeginWait(TABLE, Mode::S, Ok(Begun::Waiting(1)))),
    (1, Act::EndWait(Err(SpaceError::Unsettled))),
    (1, Act::Poll(Ok(Poll::Pending))),
    (2, Act::EndWait(Err(NO_WAIT))),
    (2, Act::Release(1, Ok(()))),
    (1, Act::EndWait(Ok(Ended::Granted(1)))),
    (1, Act::EndWait(Err(NO_WAIT))),
    (1, Act::Poll(Err(NO_WAIT))),
    (1, Act::TimeOut(Err(NO_WAIT))),
    (1, Act::WaitOf(1, None)),
    // Sessions that don't exist.
    (1, Act::WaitOf(0, None)),
    (1, Act::WaitOf(6, None)),
    (1, Act::Kill(0, 1, false)),
    (1, Act::Kill(6, 1, false)),
];

pub(crate) const REFUSALS: &[Story] = &[
    Story("requests are refused", REQUESTS),
    Story("who waits asks for nothing else", WHILE_WAITING),
    Story("clones and releases are refused", CLONES_AND_RELEASES),
    Story("waits are refused", WAITS),
];
