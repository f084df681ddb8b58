//! Pins of places: requests by them, and how sessions give them up. In a new room each session pins all places.
use crate::acts::{Act, Row};
use crate::room::{Of, SCHEMA, Story, TABLE};
use mdl_key::Mode;
use mdl_space::{Attempt, Begun, Ended, SpaceError, TimedOut};

const NO_PLACE: SpaceError = SpaceError::NoPlace;

const IN_USE: SpaceError = SpaceError::InUse;

const HAS_WAIT: SpaceError = SpaceError::AlreadyWaiting;

const BAD_MODE: SpaceError = SpaceError::BadMode;

// The key of the first place keeps it, as other sessions pin it.
const FIND_TABLE: Act = Act::Resolve(Of::Table("test", "t"), Ok(TABLE));

const GIVEN_UP: &[Row] = &[
    (1, Act::Unpin(TABLE, Ok(()))),
    (1, Act::Unpin(TABLE, Err(NO_PLACE))),
    (1, Act::TryNow(TABLE, Mode::SR, Err(NO_PLACE))),
    (1, Act::BeginWait(TABLE, Mode::SR, Err(NO_PLACE))),
    // The session's other pins and those of other sessions stay.
    (1, Act::TryNow(SCHEMA, Mode::IX, Ok(Attempt::Granted(1)))),
    (2, Act::TryNow(TABLE, Mode::X, Ok(Attempt::Granted(1)))),
    (1, FIND_TABLE),
    (1, Act::BeginWait(TABLE, Mode::SR, Ok(Begun::Waiting(1)))),
    (2, Act::Release(1, Ok(()))),
    (1, Act::EndWait(Ok(Ended::Granted(2)))),
    // However often the key was looked up, one call gives the pin up.
    (2, FIND_TABLE),
    (2, FIND_TABLE),
    (2, Act::Unpin(TABLE, Ok(()))),
    (2, Act::Unpin(TABLE, Err(NO_PLACE))),
    // Places without a key.
    (2, Act::Unpin(0, Err(NO_PLACE))),
    (2, Act::Unpin(6, Err(NO_PLACE))),
    (2, Act::Unpin(u16::MAX, Err(NO_PLACE))),
];

const USED: &[Row] = &[
    (1, Act::TryNow(TABLE, Mode::X, Ok(Attempt::Granted(1)))),
    (1, Act::Unpin(TABLE, Err(IN_USE))),
    // Another session's ticket or wait is in nobody's way.
    (3, Act::Unpin(TABLE, Ok(()))),
    (2, Act::BeginWait(TABLE, Mode::SR, Ok(Begun::Waiting(1)))),
    (4, Act::Unpin(TABLE, Ok(()))),
    (2, Act::Unpin(TABLE, Err(IN_USE))),
    (2, Act::Unpin(SCHEMA, Ok(()))),
    // A settled wait is still a wait until it is ended.
    (2, Act::TimeOut(Ok(TimedOut::ByThisCall))),
    (2, Act::Unpin(TABLE, Err(IN_USE))),
    (2, Act::EndWait(Ok(Ended::Timeout))),
    (2, Act::Unpin(TABLE, Ok(()))),
    (5, Act::BeginWait(TABLE, Mode::SR, Ok(Begun::Waiting(1)))),
    (1, Act::Clone(1, Mode::SR, Ok(2))),
    (1, Act::Release(1, Ok(()))),
    // The wait is granted, and the clone is left.
    (5, Act::Unpin(TABLE, Err(IN_USE))),
    (1, Act::Unpin(TABLE, Err(IN_USE))),
    (1, Act::Release(2, Ok(()))),
    (1, Act::Unpin(TABLE, Ok(()))),
    (5, Act::EndWait(Ok(Ended::Granted(1)))),
    (5, Act::Unpin(TABLE, Err(IN_USE))),
    (5, Act::Release(1, Ok(()))),
    (5, Act::Unpin(TABLE, Ok(()))),
];

const IN_ORDER: &[Row] = &[
    (1, Act::TryNow(TABLE, Mode::X, Ok(Attempt::Granted(1)))),
    (2, Act::BeginWait(TABLE, Mode::SR, Ok(Begun::Waiting(1)))),
    (2, Act::Unpin(SCHEMA, Ok(()))),
    // The schema's lock has no such mode.
    (2, Act::TryNow(SCHEMA, Mode::SR, Err(NO_PLACE))),
    (2, Act::BeginWait(SCHEMA, Mode::SR, Err(NO_PLACE))),
    (2, Act::Resolve(Of::Schema("test"), Ok(SCHEMA))),
    (2, Act::TryNow(SCHEMA, Mode::SR, Err(HAS_WAIT))),
    (2, Act::BeginWait(SCHEMA, Mode::SR, Err(HAS_WAIT))),
    (1, Act::Release(1, Ok(()))),
    (2, Act::EndWait(Ok(Ended::Granted(1)))),
    (2, Act::TryNow(SCHEMA, Mode::SR, Err(BAD_MODE))),
    (2, Act::BeginWait(SCHEMA, Mode::SR, Err(BAD_MODE))),
    (2, Act::TryNow(SCHEMA, Mode::S, Ok(Attempt::Granted(2)))),
];

pub(crate) const PINS: &[Story] = &[
    Story("a pin is given up and had again", GIVEN_UP),
    Story("a place in use stays pinned", USED),
    Story("a place that isn't pinned is refused first", IN_ORDER),
];
