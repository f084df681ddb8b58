//! A session that has a ticket or a wait isn't closed, whether it owes a reschedule or not: the caller gets it back unchanged, and it goes on.
use crate::shared::acts::{Act, Lock, Memory, Reply};
use crate::shared::rows::{Open, Row, none_is_wrong, open_three};
use mdl_calls::{Ended, Settled};
use mdl_key::Mode;
use mdl_shared::NewError;
use std::process::Abort;
use std::sync::Wait;
use std::test::Fail;

// What rows show, the rows before the attempt to close session 2, and those after it.
type Story = (&'static str, &'static [Row], &'static [Row]);

const HOLDS: &[Row] = &[
    (1, Act::Resolve(Lock::Sales), Reply::Place(1)),
    (2, Act::Resolve(Lock::Sales), Reply::Place(1)),
    (1, Act::Try(1, Mode::SR), Reply::Granted(1)),
    (2, Act::Try(1, Mode::X), Reply::WouldWait),
    (2, Act::Try(1, Mode::SR), Reply::Granted(1)),
];

const GOES_ON: &[Row] = &[
    (2, Act::Try(1, Mode::SU), Reply::Granted(2)),
    (2, Act::Release(1), Reply::Done),
    (2, Act::Release(2), Reply::Done),
    (1, Act::Release(1), Reply::Done),
];

const WAITS: &[Row] = &[
    (1, Act::Resolve(Lock::Sales), Reply::Place(1)),
    (2, Act::Resolve(Lock::Sales), Reply::Place(1)),
    (1, Act::Try(1, Mode::X), Reply::Granted(1)),
    (2, Act::Begin(1, Mode::S), Reply::Waiting(1)),
];

const GIVES_UP: &[Row] = &[
    (2, Act::TimeOut, Reply::Done),
    (2, Act::End, Reply::Ended(Ended::Timeout)),
    (1, Act::Release(1), Reply::Done),
];

const KILLED: &[Row] = &[
    (1, Act::Resolve(Lock::Sales), Reply::Place(1)),
    (2, Act::Resolve(Lock::Sales), Reply::Place(1)),
    (1, Act::Try(1, Mode::X), Reply::Granted(1)),
    (2, Act::Begin(1, Mode::SR), Reply::Waiting(1)),
    (1, Act::Kill(2, 1), Reply::Is(true)),
    (1, Act::Release(1), Reply::Done),
    (2, Act::Poll, Reply::Settled(Settled::Killed)),
];

// A kill by the old number misses the session's next wait, and so does one by its own number once it is granted.
const KILLED_TOO_LATE: &[Row] = &[
    (2, Act::End, Reply::Ended(Ended::Killed)),
    (1, Act::Try(1, Mode::X), Reply::Granted(2)),
    (2, Act::Begin(1, Mode::SR), Reply::Waiting(2)),
    (1, Act::Kill(2, 1), Reply::Is(false)),
    (2, Act::Poll, Reply::Pending),
    (1, Act::Release(2), Reply::Done),
    (1, Act::Kill(2, 2), Reply::Is(false)),
    (2, Act::End, Reply::Ended(Ended::Granted(2))),
    (2, Act::Release(2), Reply::Done),
];

// A lost wait blocks the others until its session ends it.
const LOST: &[Row] = &[
    (1, Act::Resolve(Lock::Sales), Reply::Place(1)),
    (2, Act::Resolve(Lock::Sales), Reply::Place(1)),
    (3, Act::Resolve(Lock::Sales), Reply::Place(1)),
    (1, Act::Try(1, Mode::SR), Reply::Granted(1)),
    (2, Act::Begin(1, Mode::X), Reply::Waiting(1)),
    (1, Act::Kill(2, 1), Reply::Is(true)),
    (3, Act::Try(1, Mode::SR), Reply::WouldWait),
];

const ENDED: &[Row] = &[
    (2, Act::End, Reply::Ended(Ended::Killed)),
    (3, Act::Try(1, Mode::SR), Reply::Granted(1)),
    (3, Act::Release(1), Reply::Done),
    (1, Act::Release(1), Reply::Done),
];

const STORIES: &[Story] = &[
    ("a session with a ticket stays open", HOLDS, GOES_ON),
    ("a session that waits stays open", WAITS, GIVES_UP),
    (
        "a session whose wait was killed stays open",
        KILLED,
        KILLED_TOO_LATE,
    ),
    ("a lost wait stands until it is ended", LOST, ENDED),
];

// Returns the index of the first row with a wrong reply, if there is one, counted over the rows before and after the attempt to close.
fn first_wrong<R: Wait + Abort + AllocGlobal>(
    rt: &R,
    before: &[Row],
    after: &[Row],
) -> Result<Option<usize>, NewError> {
    let mut sessions = open_three(rt, 1)?;
    let wrong_before = sessions.first_wrong(rt.alloc(), before, Memory::Ample);
    let (why, mut sessions) = sessions.keep_two_open(rt);
    assert!(rt; why == Open::HoldsTickets);
    let wrong_after = sessions.first_wrong(rt.alloc(), after, Memory::Ample);
    sessions.close(rt);
    match (wrong_before, wrong_after) {
        (None, Some(row)) => Ok(Some(before.len().saturating_add(row))),
        _ => Ok(wrong_before),
    }
}

#[test]
fn sessions_stay_open(rt: HostRuntime) -> Result<(), Fail> {
    for (shown, before, after) in STORIES {
        none_is_wrong(&rt, shown, first_wrong(&rt, before, after)?);
    }
    Ok(())
}
