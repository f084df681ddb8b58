//! The ordinary life of locks, as rows of calls.
use crate::acts::{Act, Row};
use crate::room::{GLOBAL, SCHEMA, Story, TABLE};
use mdl_key::Mode;
use mdl_space::{Attempt, Begun, Ended, Poll, Settled, SpaceError, TimedOut};

const READERS_AND_A_WRITER: &[Row] = &[
    (1, Act::TryNow(TABLE, Mode::SR, Ok(Attempt::Granted(1)))),
    (2, Act::BeginWait(TABLE, Mode::SR, Ok(Begun::Granted(1)))),
    (3, Act::TryNow(TABLE, Mode::X, Ok(Attempt::WouldWait))),
    (3, Act::BeginWait(TABLE, Mode::X, Ok(Begun::Waiting(1)))),
    (3, Act::Poll(Ok(Poll::Pending))),
    (1, Act::WaitOf(3, Some(1))),
    (1, Act::WaitOf(1, None)),
    (1, Act::Release(1, Ok(()))),
    (3, Act::Poll(Ok(Poll::Pending))),
    (2, Act::Release(1, Ok(()))),
    (3, Act::Poll(Ok(Poll::Settled(Settled::Granted)))),
    (3, Act::EndWait(Ok(Ended::Granted(1)))),
    (1, Act::WaitOf(3, None)),
    (1, Act::TryNow(TABLE, Mode::S, Ok(Attempt::WouldWait))),
    (3, Act::Release(1, Ok(()))),
    (1, Act::TryNow(TABLE, Mode::S, Ok(Attempt::Granted(2)))),
];

const GRANTED_UNENDED: &[Row] = &[
    (1, Act::TryNow(TABLE, Mode::SW, Ok(Attempt::Granted(1)))),
    (2, Act::BeginWait(TABLE, Mode::SNRW, Ok(Begun::Waiting(1)))),
    (1, Act::Release(1, Ok(()))),
    // The wait isn't ended, but the lock is taken.
    (1, Act::TryNow(TABLE, Mode::SR, Ok(Attempt::WouldWait))),
    (2, Act::TimeOut(Ok(TimedOut::Already(Settled::Granted)))),
    (1, Act::Kill(2, 1, false)),
    (2, Act::Release(1, Err(SpaceError::NotHeld))),
    (2, Act::EndWait(Ok(Ended::Granted(1)))),
    (1, Act::TryNow(TABLE, Mode::SR, Ok(Attempt::WouldWait))),
    (2, Act::Release(1, Ok(()))),
    (1, Act::TryNow(TABLE, Mode::SR, Ok(Attempt::Granted(2)))),
];

const BEHIND_A_LOST_WAIT: &[Row] = &[
    (1, Act::TryNow(TABLE, Mode::SR, Ok(Attempt::Granted(1)))),
    (2, Act::BeginWait(TABLE, Mode::X, Ok(Begun::Waiting(1)))),
    (3, Act::BeginWait(TABLE, Mode::SR, Ok(Begun::Waiting(1)))),
    (4, Act::BeginWait(TABLE, Mode::SR, Ok(Begun::Waiting(1)))),
    (2, Act::TimeOut(Ok(TimedOut::ByThisCall))),
    (2, Act::TimeOut(Ok(TimedOut::Already(Settled::Timeout)))),
    (2, Act::Poll(Ok(Poll::Settled(Settled::Timeout)))),
    (3, Act::Poll(Ok(Poll::Pending))),
    (5, Act::TryNow(TABLE, Mode::SR, Ok(Attempt::WouldWait))),
    (2, Act::EndWait(Ok(Ended::Timeout))),
    (3, Act::Poll(Ok(Poll::Settled(Settled::Granted)))),
    (4, Act::Poll(Ok(Poll::Settled(Settled::Granted)))),
    (5, Act::TryNow(TABLE, Mode::SR, Ok(Attempt::Granted(1)))),
    (3, Act::EndWait(Ok(Ended::Granted(1)))),
    (4, Act::EndWait(Ok(Ended::Granted(1)))),
    // The number of the lost ticket isn't used again.
    (2, Act::TryNow(TABLE, Mode::SR, Ok(Attempt::Granted(2)))),
    (2, Act::BeginWait(TABLE, Mode::X, Ok(Begun::Waiting(2)))),
];

const KILLS: &[Row] = &[
    (1, Act::TryNow(TABLE, Mode::X, Ok(Attempt::Granted(1)))),
    (2, Act::BeginWait(TABLE, Mode::SR, Ok(Begun::Waiting(1)))),
    (1, Act::Kill(2, 2, false)),
    (1, Act::Kill(1, 1, false)),
    (1, Act::Kill(2, 1, true)),
    (1, Act::Kill(2, 1, false)),
    (2, Act::TimeOut(Ok(TimedOut::Already(Settled::Killed)))),
    (1, Act::Release(1, Ok(()))),
    (2, Act::Poll(Ok(Poll::Settled(Settled::Killed)))),
    (2, Act::EndWait(Ok(Ended::Killed))),
    (1, Act::TryNow(TABLE, Mode::X, Ok(Attempt::Granted(2)))),
    (2, Act::BeginWait(TABLE, Mode::SR, Ok(Begun::Waiting(2)))),
    // A kill meant for the earlier wait.
    (1, Act::Kill(2, 1, false)),
    (2, Act::Poll(Ok(Poll::Pending))),
    (1, Act::Kill(2, 2, true)),
    (2, Act::EndWait(Ok(Ended::Killed))),
];

const CLONES: &[Row] = &[
    (1, Act::TryNow(TABLE, Mode::SW, Ok(Attempt::Granted(1)))),
    (2, Act::BeginWait(TABLE, Mode::X, Ok(Begun::Waiting(1)))),
    (1, Act::TryNow(TABLE, Mode::SR, Ok(Attempt::WouldWait))),
    (1, Act::Clone(1, Mode::SR, Ok(2))),
    (1, Act::Clone(2, Mode::S, Ok(3))),
    (1, Act::Release(1, Ok(()))),
    (1, Act::Release(2, Ok(()))),
    (2, Act::Poll(Ok(Poll::Pending))),
    (1, Act::Release(3, Ok(()))),
    (2, Act::Poll(Ok(Poll::Settled(Settled::Granted)))),
    (2, Act::EndWait(Ok(Ended::Granted(1)))),
    (2, Act::Clone(1, Mode::X, Ok(2))),
];

const ONE_RELEASE: &[Row] = &[
    (1, Act::TryNow(SCHEMA, Mode::X, Ok(Attempt::Granted(1)))),
    (2, Act::BeginWait(SCHEMA, Mode::IX, Ok(Begun::Waiting(1)))),
    (3, Act::BeginWait(SCHEMA, Mode::S, Ok(Begun::Waiting(1)))),
    (4, Act::BeginWait(SCHEMA, Mode::IX, Ok(Begun::Waiting(1)))),
    (5, Act::BeginWait(SCHEMA, Mode::S, Ok(Begun::Waiting(1)))),
    (1, Act::Release(1, Ok(()))),
    // IX is behind a pending S. Both S are granted, the earlier one first.
    (2, Act::Poll(Ok(Poll::Pending))),
    (3, Act::Poll(Ok(Poll::Settled(Settled::Granted)))),
    (4, Act::Poll(Ok(Poll::Pending))),
    (5, Act::Poll(Ok(Poll::Settled(Settled::Granted)))),
    (3, Act::EndWait(Ok(Ended::Granted(1)))),
    (5, Act::EndWait(Ok(Ended::Granted(1)))),
    (3, Act::Release(1, Ok(()))),
    (2, Act::Poll(Ok(Poll::Pending))),
    (5, Act::Release(1, Ok(()))),
    (2, Act::EndWait(Ok(Ended::Granted(1)))),
    (4, Act::EndWait(Ok(Ended::Granted(1)))),
];

const APART: &[Row] = &[
    (1, Act::TryNow(GLOBAL, Mode::S, Ok(Attempt::Granted(1)))),
    (1, Act::TryNow(TABLE, Mode::SNRW, Ok(Attempt::Granted(2)))),
    (2, Act::TryNow(SCHEMA, Mode::X, Ok(Attempt::Granted(1)))),
    (3, Act::BeginWait(GLOBAL, Mode::IX, Ok(Begun::Waiting(1)))),
    (4, Act::BeginWait(TABLE, Mode::SR, Ok(Begun::Waiting(1)))),
    (5, Act::BeginWait(SCHEMA, Mode::IX, Ok(Begun::Waiting(1)))),
    (1, Act::Release(2, Ok(()))),
    (3, Act::Poll(Ok(Poll::Pending))),
    (4, Act::Poll(Ok(Poll::Settled(Settled::Granted)))),
    (5, Act::Poll(Ok(Poll::Pending))),
    (1, Act::BeginWait(SCHEMA, Mode::IX, Ok(Begun::Waiting(1)))),
    // A session can release what it holds while it waits.
    (1, Act::Release(1, Ok(()))),
    (3, Act::EndWait(Ok(Ended::Granted(1)))),
    (2, Act::Release(1, Ok(()))),
    (5, Act::EndWait(Ok(Ended::Granted(1)))),
    (1, Act::EndWait(Ok(Ended::Granted(3)))),
];

pub(crate) const LIVES: &[Story] = &[
    Story("a writer waits for readers", READERS_AND_A_WRITER),
    Story("a granted wait holds its lock", GRANTED_UNENDED),
    Story(
        "those behind wait until a lost wait is ended",
        BEHIND_A_LOST_WAIT,
    ),
    Story("a kill hits one wait", KILLS),
    Story("a clone overtakes", CLONES),
    Story("one release grants all that can be", ONE_RELEASE),
    Story("places and tickets stand apart", APART),
];
