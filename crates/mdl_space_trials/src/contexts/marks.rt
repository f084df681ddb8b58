//! Savepoints, and how long tickets last.
use crate::contexts::acts::{Act, Lock, Reply};
use crate::contexts::rows::{NOT_HELD, Row, STALE, Story};
use mdl_context::Resume;
use mdl_key::{Duration, Mode};

const WANTED: &[Row] = &[
    (
        1,
        Act::Acquire(Lock::A, Mode::SR, Duration::Transaction),
        Reply::Acquired(1),
    ),
    (
        1,
        Act::Acquire(Lock::A, Mode::S, Duration::Statement),
        Reply::Acquired(2),
    ),
    (
        1,
        Act::Acquire(Lock::A, Mode::SR, Duration::Transaction),
        Reply::Acquired(1),
    ),
    // Explicit tickets aren't reused.
    (
        1,
        Act::Acquire(Lock::A, Mode::SR, Duration::Explicit),
        Reply::Acquired(3),
    ),
    (
        1,
        Act::Acquire(Lock::A, Mode::SR, Duration::Explicit),
        Reply::Acquired(4),
    ),
    (1, Act::Mark, Reply::Stands(1, 1)),
    (
        1,
        Act::Acquire(Lock::B, Mode::SW, Duration::Transaction),
        Reply::Acquired(5),
    ),
    (1, Act::Mark, Reply::Stands(1, 2)),
    (1, Act::GoBack(1, 1), Reply::Done),
    (1, Act::Release(5), NOT_HELD),
    (1, Act::Mark, Reply::Stands(1, 1)),
    (1, Act::EndStatement, Reply::Done),
    (1, Act::Release(2), NOT_HELD),
    (1, Act::GoBack(1, 1), STALE),
    (1, Act::EndTransaction, Reply::Done),
    (1, Act::Release(1), NOT_HELD),
    (1, Act::Release(3), Reply::Done),
    (1, Act::ReleaseName(Lock::A), Reply::Done),
    (1, Act::Release(4), NOT_HELD),
];

const CHANGED: &[Row] = &[
    (
        1,
        Act::Acquire(Lock::A, Mode::SR, Duration::Statement),
        Reply::Acquired(1),
    ),
    (
        1,
        Act::Acquire(Lock::B, Mode::SR, Duration::Transaction),
        Reply::Acquired(2),
    ),
    // A ticket made explicit before its statement ends outlives the statement and the transaction.
    (1, Act::MakeExplicit, Reply::Done),
    (1, Act::EndStatement, Reply::Done),
    (1, Act::EndTransaction, Reply::Done),
    (1, Act::Mark, Reply::Stands(0, 0)),
    (
        2,
        Act::Acquire(Lock::A, Mode::X, Duration::Transaction),
        Reply::MustWait(1),
    ),
    (1, Act::MakeTransactional, Reply::Done),
    (1, Act::EndStatement, Reply::Done),
    (1, Act::Mark, Reply::Stands(0, 2)),
    (1, Act::Release(1), Reply::Done),
    (1, Act::EndTransaction, Reply::Done),
    (1, Act::Release(2), NOT_HELD),
    // Tickets of the statement keep their duration.
    (
        1,
        Act::Acquire(Lock::B, Mode::SR, Duration::Statement),
        Reply::Acquired(3),
    ),
    (1, Act::MakeTransactional, Reply::Done),
    (1, Act::Mark, Reply::Stands(1, 0)),
];

// One ticket's duration is changed, and the others keep theirs.
const CHANGED_ALONE: &[Row] = &[
    (
        1,
        Act::Acquire(Lock::A, Mode::SR, Duration::Statement),
        Reply::Acquired(1),
    ),
    (
        1,
        Act::Acquire(Lock::B, Mode::SR, Duration::Statement),
        Reply::Acquired(2),
    ),
    (1, Act::SetDuration(1, Duration::Transaction), Reply::Done),
    (1, Act::Mark, Reply::Stands(1, 1)),
    (1, Act::EndStatement, Reply::Done),
    (1, Act::SetDuration(2, Duration::Explicit), NOT_HELD),
    (1, Act::SetDuration(1, Duration::Explicit), Reply::Done),
    (1, Act::EndTransaction, Reply::Done),
    (
        2,
        Act::TryAcquire(Lock::A, Mode::X, Duration::Transaction),
        Reply::WouldWait,
    ),
    // A ticket that was explicit ends with the statement, if that is its duration now.
    (1, Act::SetDuration(1, Duration::Statement), Reply::Done),
    (1, Act::EndStatement, Reply::Done),
    (
        2,
        Act::TryAcquire(Lock::A, Mode::X, Duration::Transaction),
        Reply::Acquired(1),
    ),
];

// The explicit tickets end alone, those of user-level locks, too.
const EXPLICIT_ALONE: &[Row] = &[
    (
        1,
        Act::Acquire(Lock::A, Mode::SR, Duration::Explicit),
        Reply::Acquired(1),
    ),
    (
        1,
        Act::Acquire(Lock::B, Mode::SR, Duration::Transaction),
        Reply::Acquired(2),
    ),
    (
        1,
        Act::Acquire(Lock::User, Mode::X, Duration::Explicit),
        Reply::Acquired(3),
    ),
    (
        1,
        Act::Acquire(Lock::A, Mode::SR, Duration::Statement),
        Reply::Acquired(4),
    ),
    (1, Act::ReleaseExplicit, Reply::Done),
    (1, Act::Mark, Reply::Stands(1, 1)),
    (1, Act::Release(1), NOT_HELD),
    (1, Act::Release(3), NOT_HELD),
    (
        2,
        Act::TryAcquire(Lock::User, Mode::X, Duration::Explicit),
        Reply::Acquired(1),
    ),
    // Without explicit tickets nothing is released.
    (1, Act::ReleaseExplicit, Reply::Done),
    (1, Act::Release(4), Reply::Done),
    (1, Act::Release(2), Reply::Done),
];

// A ticket counts for its own mode and for weaker ones, for its own key and session.
const HELD: &[Row] = &[
    (1, Act::Holds(Lock::A, Mode::SH), Reply::Holds(false)),
    (
        1,
        Act::Acquire(Lock::A, Mode::SW, Duration::Transaction),
        Reply::Acquired(1),
    ),
    (1, Act::Holds(Lock::A, Mode::SW), Reply::Holds(true)),
    (1, Act::Holds(Lock::A, Mode::SR), Reply::Holds(true)),
    (1, Act::Holds(Lock::A, Mode::X), Reply::Holds(false)),
    (1, Act::Holds(Lock::B, Mode::SR), Reply::Holds(false)),
    (2, Act::Holds(Lock::A, Mode::SR), Reply::Holds(false)),
    // What is only waited for isn't held.
    (
        2,
        Act::Acquire(Lock::A, Mode::X, Duration::Transaction),
        Reply::MustWait(1),
    ),
    (2, Act::Holds(Lock::A, Mode::SR), Reply::Holds(false)),
    (1, Act::Release(1), Reply::Done),
    (1, Act::Holds(Lock::A, Mode::SR), Reply::Holds(false)),
    (2, Act::Resume, Reply::Resumed(Resume::Acquired(1))),
    (2, Act::Holds(Lock::A, Mode::SNW), Reply::Holds(true)),
    // IX is no mode of a table, and SR none of the global lock.
    (2, Act::Holds(Lock::A, Mode::IX), Reply::Holds(false)),
    (
        2,
        Act::Acquire(Lock::Global, Mode::X, Duration::Statement),
        Reply::Acquired(2),
    ),
    (2, Act::Holds(Lock::Global, Mode::IX), Reply::Holds(true)),
    (2, Act::Holds(Lock::Global, Mode::SR), Reply::Holds(false)),
];

const TWO_NUMBERS: &[Row] = &[
    (
        1,
        Act::Acquire(Lock::A, Mode::SR, Duration::Transaction),
        Reply::Acquired(1),
    ),
    (
        1,
        Act::Acquire(Lock::B, Mode::SR, Duration::Transaction),
        Reply::Acquired(2),
    ),
    (1, Act::Mark, Reply::Stands(0, 2)),
    // Later tickets move up when an earlier one is released.
    (
        1,
        Act::Acquire(Lock::B, Mode::SW, Duration::Transaction),
        Reply::Acquired(3),
    ),
    (
        1,
        Act::Acquire(Lock::Global, Mode::IX, Duration::Transaction),
        Reply::Acquired(4),
    ),
    (1, Act::Release(1), Reply::Done),
    (1, Act::GoBack(0, 2), Reply::Done),
    (1, Act::Release(4), NOT_HELD),
    (1, Act::Mark, Reply::Stands(0, 2)),
    // Going back to the session's current mark releases nothing.
    (1, Act::GoBack(0, 2), Reply::Done),
    (1, Act::Release(3), Reply::Done),
    (1, Act::Release(2), Reply::Done),
];

// A mark is stale if either number is too great.
const TOO_GREAT: &[Row] = &[
    (
        1,
        Act::Acquire(Lock::A, Mode::SR, Duration::Statement),
        Reply::Acquired(1),
    ),
    (
        1,
        Act::Acquire(Lock::B, Mode::SR, Duration::Transaction),
        Reply::Acquired(2),
    ),
    (1, Act::GoBack(2, 0), STALE),
    (1, Act::GoBack(0, 2), STALE),
    (1, Act::GoBack(2, 2), STALE),
    (1, Act::Mark, Reply::Stands(1, 1)),
    // Explicit tickets aren't counted.
    (1, Act::MakeExplicit, Reply::Done),
    (1, Act::GoBack(1, 1), STALE),
    (1, Act::GoBack(0, 0), Reply::Done),
    (1, Act::Release(1), Reply::Done),
    (1, Act::Release(2), Reply::Done),
    (1, Act::GoBack(0, 0), Reply::Done),
];

const IN_FRONT: &[Row] = &[
    (
        1,
        Act::Acquire(Lock::A, Mode::SR, Duration::Explicit),
        Reply::Acquired(1),
    ),
    (
        1,
        Act::Acquire(Lock::B, Mode::SR, Duration::Transaction),
        Reply::Acquired(2),
    ),
    (1, Act::Mark, Reply::Stands(0, 1)),
    (1, Act::MakeTransactional, Reply::Done),
    (1, Act::Mark, Reply::Stands(0, 2)),
    // The mark counted the second ticket, and now keeps the first.
    (1, Act::GoBack(0, 1), Reply::Done),
    (1, Act::Release(2), NOT_HELD),
    (1, Act::Release(1), Reply::Done),
];

const FREE_AGAIN: &[Row] = &[
    (
        1,
        Act::Acquire(Lock::A, Mode::SR, Duration::Transaction),
        Reply::Acquired(1),
    ),
    (
        1,
        Act::Acquire(Lock::B, Mode::SW, Duration::Transaction),
        Reply::Acquired(2),
    ),
    (
        2,
        Act::Acquire(Lock::B, Mode::SRO, Duration::Transaction),
        Reply::MustWait(1),
    ),
    (1, Act::GoBack(0, 1), Reply::Done),
    (2, Act::Resume, Reply::Resumed(Resume::Acquired(1))),
    (
        2,
        Act::Acquire(Lock::A, Mode::X, Duration::Transaction),
        Reply::MustWait(2),
    ),
    (1, Act::EndTransaction, Reply::Done),
    (2, Act::Resume, Reply::Resumed(Resume::Acquired(2))),
];

pub(super) const STORIES: &[Story] = &[
    Story("tickets last as long as they are wanted", WANTED),
    Story("durations change", CHANGED),
    Story("the duration of one ticket changes", CHANGED_ALONE),
    Story("explicit tickets end alone", EXPLICIT_ALONE),
    Story("a held key is known by its modes", HELD),
    Story("marks are two numbers", TWO_NUMBERS),
    Story("marks are too great", TOO_GREAT),
    Story("explicit tickets slip in front of a mark", IN_FRONT),
    Story("what was locked since a mark is free", FREE_AGAIN),
];
