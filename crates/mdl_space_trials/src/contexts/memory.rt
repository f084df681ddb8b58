//! Refused growths: if an allocation fails once, neither the context nor the space loses anything, and both go on. Calls that release tickets take no memory.
use crate::contexts::acts::{Act, Lock, Reply};
use crate::contexts::rows::{Row, Story};
use mdl_context::Resume;
use mdl_key::{Duration, Mode};
use mdl_space::Settled;

const STAND_IN_THE_WAY: Row = (
    1,
    Act::Acquire(Lock::B, Mode::SW, Duration::Transaction),
    Reply::Acquired(1),
);

const GET_OUT_OF_THE_WAY: Row = (1, Act::EndTransaction, Reply::Done);

const STILL_WAITING: Reply = Reply::Resumed(Resume::Waiting);

const TIMED_OUT: Reply = Reply::Resumed(Resume::Lost(Settled::Timeout));

const READ_A: Act = Act::Acquire(Lock::A, Mode::SR, Duration::Transaction);

const CLONE_A: Act = Act::Acquire(Lock::A, Mode::SR, Duration::Explicit);

const WRITE_B: Act = Act::Acquire(Lock::B, Mode::X, Duration::Transaction);

const TRY_USER: Act = Act::TryAcquire(Lock::User, Mode::X, Duration::Explicit);

// Tickets granted at once, waits that are given up, and releases of each kind.
const GAINS_AND_WAITS: &[Row] = &[
    (2, READ_A, Reply::Acquired(1)),
    (
        2,
        Act::Acquire(Lock::Global, Mode::IX, Duration::Statement),
        Reply::Acquired(2),
    ),
    (
        2,
        Act::Acquire(Lock::A, Mode::SW, Duration::Transaction),
        Reply::Acquired(3),
    ),
    (
        2,
        Act::Acquire(Lock::A, Mode::SH, Duration::Statement),
        Reply::Acquired(4),
    ),
    (2, READ_A, Reply::Acquired(1)),
    (2, CLONE_A, Reply::Acquired(5)),
    (2, CLONE_A, Reply::Acquired(6)),
    (2, CLONE_A, Reply::Acquired(7)),
    (2, CLONE_A, Reply::Acquired(8)),
    (2, CLONE_A, Reply::Acquired(9)),
    STAND_IN_THE_WAY,
    (2, WRITE_B, Reply::MustWait(1)),
    (2, Act::Resume, STILL_WAITING),
    (2, Act::GiveUp, TIMED_OUT),
    (
        2,
        Act::Acquire(Lock::B, Mode::X, Duration::Statement),
        Reply::MustWait(2),
    ),
    GET_OUT_OF_THE_WAY,
    (2, Act::Resume, Reply::Resumed(Resume::Acquired(11))),
    (2, Act::Mark, Reply::Stands(3, 2)),
    (2, Act::GoBack(2, 2), Reply::Done),
    (2, Act::EndStatement, Reply::Done),
    (2, Act::Release(9), Reply::Done),
    (2, Act::MakeTransactional, Reply::Done),
    (2, Act::Mark, Reply::Stands(0, 6)),
    (2, Act::GoBack(0, 3), Reply::Done),
    (2, Act::MakeExplicit, Reply::Done),
    (2, Act::ReleaseName(Lock::Global), Reply::Done),
    (2, Act::MakeTransactional, Reply::Done),
    (2, Act::EndTransaction, Reply::Done),
    (2, Act::Mark, Reply::Stands(0, 0)),
];

// First with another session that blocks the upgrade, and then without.
const UPGRADES: &[Row] = &[
    (
        2,
        Act::Acquire(Lock::B, Mode::SU, Duration::Transaction),
        Reply::Acquired(1),
    ),
    STAND_IN_THE_WAY,
    (2, Act::Upgrade(1, Mode::X), Reply::MustWait(1)),
    (2, Act::Resume, STILL_WAITING),
    (2, Act::GiveUp, TIMED_OUT),
    (2, Act::Upgrade(1, Mode::X), Reply::MustWait(2)),
    GET_OUT_OF_THE_WAY,
    (2, Act::Resume, Reply::Resumed(Resume::Acquired(1))),
    (2, Act::Downgrade(1, Mode::SU), Reply::Done),
    (2, Act::Upgrade(1, Mode::X), Reply::Acquired(1)),
    (2, Act::EndTransaction, Reply::Done),
    (2, Act::Mark, Reply::Stands(0, 0)),
];

const TRIES: &[Row] = &[
    STAND_IN_THE_WAY,
    (2, TRY_USER, Reply::Acquired(1)),
    (2, TRY_USER, Reply::Acquired(2)),
    (2, Act::Last(Lock::User), Reply::Last(Some(2))),
    (
        2,
        Act::TryAcquire(Lock::B, Mode::X, Duration::Transaction),
        Reply::WouldWait,
    ),
    (
        2,
        Act::TryAcquire(Lock::A, Mode::SR, Duration::Transaction),
        Reply::Acquired(3),
    ),
    (
        2,
        Act::TryAcquire(Lock::A, Mode::SR, Duration::Transaction),
        Reply::Acquired(3),
    ),
    (
        2,
        Act::TryAcquire(Lock::A, Mode::SH, Duration::Statement),
        Reply::Acquired(4),
    ),
    (2, Act::Mark, Reply::Stands(1, 1)),
];

/// Memory may be refused once in these stories.
pub(super) const STORIES: &[Story] = &[
    Story("gains and waits outlive it", GAINS_AND_WAITS),
    Story("upgrades outlive it", UPGRADES),
    Story("tries outlive it", TRIES),
];
