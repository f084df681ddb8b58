//! Waits, and what is refused during them.
use crate::contexts::acts::{Act, Lock, Reply};
use crate::contexts::rows::{BAD_MODE, NO_PLACE, NO_WAIT, NOT_HELD, Row, STALE, Story, WAITS};
use mdl_context::Resume;
use mdl_key::{Duration, Mode};
use mdl_space::Settled;

const STILL_WAITING: Reply = Reply::Resumed(Resume::Waiting);

const TIMED_OUT: Reply = Reply::Resumed(Resume::Lost(Settled::Timeout));

const VICTIM: Reply = Reply::Resumed(Resume::Lost(Settled::Victim));

const KILLED: Reply = Reply::Resumed(Resume::Lost(Settled::Killed));

// The first session holds a ticket of the statement, and waits for the second. All its requests are refused.
const MEANWHILE: &[Row] = &[
    (
        1,
        Act::Acquire(Lock::B, Mode::SR, Duration::Statement),
        Reply::Acquired(1),
    ),
    (
        2,
        Act::Acquire(Lock::A, Mode::SW, Duration::Statement),
        Reply::Acquired(1),
    ),
    (
        1,
        Act::Acquire(Lock::A, Mode::X, Duration::Transaction),
        Reply::MustWait(1),
    ),
    (
        1,
        Act::Acquire(Lock::B, Mode::SR, Duration::Statement),
        WAITS,
    ),
    (
        1,
        Act::Acquire(Lock::Global, Mode::SR, Duration::Explicit),
        WAITS,
    ),
    (1, Act::Release(1), WAITS),
    (1, Act::ReleaseName(Lock::B), WAITS),
    (1, Act::GoBack(0, 0), WAITS),
    (1, Act::GoBack(1, 0), WAITS),
    (1, Act::EndStatement, WAITS),
    (1, Act::EndTransaction, WAITS),
    (1, Act::ReleaseExplicit, WAITS),
    (1, Act::SetDuration(1, Duration::Explicit), WAITS),
    (1, Act::MakeExplicit, WAITS),
    (1, Act::MakeTransactional, WAITS),
    // These refusals are checked first. The ticket of the wait isn't held, and isn't counted.
    (1, Act::GoBack(2, 0), STALE),
    (1, Act::GoBack(0, 1), STALE),
    (1, Act::Release(2), NOT_HELD),
    (1, Act::SetDuration(2, Duration::Explicit), NOT_HELD),
    (1, Act::Mark, Reply::Stands(1, 0)),
    // None of these calls has changed anything.
    (1, Act::Resume, STILL_WAITING),
    (1, Act::GiveUp, TIMED_OUT),
    (1, Act::GiveUp, NO_WAIT),
    (1, Act::Resume, NO_WAIT),
    (1, Act::Mark, Reply::Stands(1, 0)),
    // The number of the lost ticket is used up.
    (
        1,
        Act::Acquire(Lock::B, Mode::SR, Duration::Transaction),
        Reply::Acquired(3),
    ),
];

// A settled wait is still a wait until it is ended.
const SETTLED: &[Row] = &[
    (
        1,
        Act::Acquire(Lock::B, Mode::SR, Duration::Statement),
        Reply::Acquired(1),
    ),
    (
        2,
        Act::Acquire(Lock::A, Mode::SW, Duration::Statement),
        Reply::Acquired(1),
    ),
    (
        1,
        Act::Acquire(Lock::A, Mode::X, Duration::Transaction),
        Reply::MustWait(1),
    ),
    (3, Act::Kill(1, 1), Reply::Killed(true)),
    (
        1,
        Act::Acquire(Lock::B, Mode::SR, Duration::Statement),
        WAITS,
    ),
    (1, Act::Release(1), WAITS),
    (1, Act::Release(2), NOT_HELD),
    (1, Act::ReleaseName(Lock::A), WAITS),
    (1, Act::GoBack(0, 0), WAITS),
    (1, Act::EndStatement, WAITS),
    (1, Act::EndTransaction, WAITS),
    (1, Act::MakeExplicit, WAITS),
    (1, Act::MakeTransactional, WAITS),
    (1, Act::Mark, Reply::Stands(1, 0)),
    (1, Act::Resume, KILLED),
    (1, Act::EndTransaction, Reply::Done),
];

const ENDS: &[Row] = &[
    (1, Act::Resume, NO_WAIT),
    (1, Act::GiveUp, NO_WAIT),
    (1, Act::Kill(1, 1), Reply::Killed(false)),
    (
        1,
        Act::Acquire(Lock::A, Mode::SW, Duration::Statement),
        Reply::Acquired(1),
    ),
    (
        2,
        Act::Acquire(Lock::A, Mode::SRO, Duration::Statement),
        Reply::MustWait(1),
    ),
    (2, Act::Kill(2, 2), Reply::Killed(false)),
    // A granted ticket has the duration that the request names.
    (1, Act::EndStatement, Reply::Done),
    (2, Act::Kill(2, 1), Reply::Killed(false)),
    (2, Act::Mark, Reply::Stands(0, 0)),
    (2, Act::Resume, Reply::Resumed(Resume::Acquired(1))),
    (2, Act::Mark, Reply::Stands(1, 0)),
    // Giving up too late loses nothing.
    (
        1,
        Act::Acquire(Lock::A, Mode::SW, Duration::Transaction),
        Reply::MustWait(1),
    ),
    (2, Act::Release(1), Reply::Done),
    (1, Act::GiveUp, Reply::Resumed(Resume::Acquired(2))),
    (1, Act::Mark, Reply::Stands(0, 1)),
    (
        2,
        Act::Acquire(Lock::A, Mode::X, Duration::Explicit),
        Reply::MustWait(2),
    ),
    (2, Act::Kill(2, 2), Reply::Killed(true)),
    (2, Act::Kill(2, 2), Reply::Killed(false)),
    (1, Act::EndTransaction, Reply::Done),
    (2, Act::GiveUp, KILLED),
    (2, Act::Resume, NO_WAIT),
];

// A lost wait blocks others until it is ended.
const LOST_IN_THE_WAY: &[Row] = &[
    (
        1,
        Act::Acquire(Lock::A, Mode::SR, Duration::Transaction),
        Reply::Acquired(1),
    ),
    (
        2,
        Act::Acquire(Lock::A, Mode::X, Duration::Transaction),
        Reply::MustWait(1),
    ),
    (3, Act::Kill(2, 1), Reply::Killed(true)),
    (
        3,
        Act::Acquire(Lock::A, Mode::SR, Duration::Transaction),
        Reply::MustWait(1),
    ),
    (3, Act::Resume, STILL_WAITING),
    (2, Act::Resume, KILLED),
    (3, Act::Resume, Reply::Resumed(Resume::Acquired(1))),
];

// A granted wait blocks others as a held ticket does.
const GRANTED_IN_THE_WAY: &[Row] = &[
    (
        3,
        Act::Acquire(Lock::Commit, Mode::S, Duration::Explicit),
        Reply::Acquired(1),
    ),
    (
        2,
        Act::Acquire(Lock::Commit, Mode::IX, Duration::Transaction),
        Reply::MustWait(1),
    ),
    (
        1,
        Act::Acquire(Lock::Commit, Mode::IX, Duration::Transaction),
        Reply::MustWait(1),
    ),
    (3, Act::Release(1), Reply::Done),
    (1, Act::Resume, Reply::Resumed(Resume::Acquired(1))),
    (1, Act::EndTransaction, Reply::Done),
    (
        1,
        Act::Acquire(Lock::Commit, Mode::S, Duration::Explicit),
        Reply::MustWait(2),
    ),
    (1, Act::Resume, STILL_WAITING),
    (2, Act::Resume, Reply::Resumed(Resume::Acquired(1))),
    (2, Act::EndTransaction, Reply::Done),
    (1, Act::Resume, Reply::Resumed(Resume::Acquired(2))),
];

const STRONG: &[Row] = &[
    (
        1,
        Act::Acquire(Lock::A, Mode::SW, Duration::Transaction),
        Reply::Acquired(1),
    ),
    (
        2,
        Act::Acquire(Lock::A, Mode::X, Duration::Transaction),
        Reply::MustWait(1),
    ),
    // Reused if it is strong enough, and cloned for another duration.
    (
        1,
        Act::Acquire(Lock::A, Mode::SR, Duration::Transaction),
        Reply::Acquired(1),
    ),
    (
        1,
        Act::Acquire(Lock::A, Mode::SWLP, Duration::Transaction),
        Reply::Acquired(1),
    ),
    (
        1,
        Act::Acquire(Lock::A, Mode::SR, Duration::Explicit),
        Reply::Acquired(2),
    ),
    (
        1,
        Act::Acquire(Lock::A, Mode::SH, Duration::Statement),
        Reply::Acquired(3),
    ),
    // The clone has the requested mode, which isn't as strong as that of the first ticket.
    (1, Act::Release(1), Reply::Done),
    (
        1,
        Act::Acquire(Lock::A, Mode::SW, Duration::Transaction),
        Reply::MustWait(1),
    ),
    // It waits behind the second session, which waits for it.
    (1, Act::GiveUp, VICTIM),
    // Each ticket counts as a lock of its own.
    (1, Act::EndTransaction, Reply::Done),
    (2, Act::Resume, STILL_WAITING),
    (1, Act::Release(2), Reply::Done),
    (2, Act::Resume, Reply::Resumed(Resume::Acquired(1))),
];

// A weaker ticket isn't enough.
const WEAK: &[Row] = &[
    (
        1,
        Act::Acquire(Lock::A, Mode::SR, Duration::Transaction),
        Reply::Acquired(1),
    ),
    (
        2,
        Act::Acquire(Lock::A, Mode::X, Duration::Transaction),
        Reply::MustWait(1),
    ),
    (
        1,
        Act::Acquire(Lock::A, Mode::SW, Duration::Transaction),
        Reply::MustWait(1),
    ),
];

const REFUSED_BY_THE_SPACE: &[Row] = &[
    (
        1,
        Act::Acquire(Lock::A, Mode::IX, Duration::Transaction),
        BAD_MODE,
    ),
    (
        1,
        Act::Acquire(Lock::A, Mode::X, Duration::Transaction),
        Reply::Acquired(1),
    ),
    // A mode that the lock doesn't have, for which no ticket serves.
    (
        1,
        Act::Acquire(Lock::A, Mode::IX, Duration::Transaction),
        BAD_MODE,
    ),
    (
        1,
        Act::Acquire(Lock::Global, Mode::X, Duration::Statement),
        Reply::Acquired(2),
    ),
    (
        1,
        Act::Acquire(Lock::Global, Mode::SR, Duration::Statement),
        BAD_MODE,
    ),
    (
        1,
        Act::Acquire(Lock::Schema, Mode::SNW, Duration::Statement),
        BAD_MODE,
    ),
    (
        1,
        Act::Acquire(Lock::Schema, Mode::IX, Duration::Statement),
        Reply::Acquired(3),
    ),
    (
        1,
        Act::Acquire(Lock::B, Mode::SU, Duration::Statement),
        Reply::Acquired(4),
    ),
    // There are four places, so the fifth lock is refused, in whatever mode.
    (
        1,
        Act::Acquire(Lock::Commit, Mode::IX, Duration::Statement),
        NO_PLACE,
    ),
    (
        2,
        Act::Acquire(Lock::Commit, Mode::SR, Duration::Statement),
        NO_PLACE,
    ),
    (1, Act::Mark, Reply::Stands(3, 1)),
    (1, Act::Release(0), NOT_HELD),
    (1, Act::Release(5), NOT_HELD),
    (2, Act::Release(1), NOT_HELD),
    (2, Act::ReleaseName(Lock::A), Reply::Done),
    (1, Act::ReleaseName(Lock::Commit), Reply::Done),
    (1, Act::EndTransaction, Reply::Done),
];

pub(super) const STORIES: &[Story] = &[
    Story("who waits does nothing else", MEANWHILE),
    Story("who has a settled wait does nothing else", SETTLED),
    Story("waits end as they are settled", ENDS),
    Story("a lost wait stands in the way", LOST_IN_THE_WAY),
    Story("a granted wait stands in the way", GRANTED_IN_THE_WAY),
    Story("a strong ticket serves behind a waiter", STRONG),
    Story("a weak ticket doesn't serve", WEAK),
    Story("what the space refuses is refused", REFUSED_BY_THE_SPACE),
];
