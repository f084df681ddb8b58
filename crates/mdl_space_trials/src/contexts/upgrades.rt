//! Tickets that get a stronger or a weaker mode.
use crate::contexts::acts::{Act, Lock, Reply};
use crate::contexts::rows::{NOT_HELD, NOT_UPGRADABLE, Row, Story, WAITS};
use mdl_context::Resume;
use mdl_key::{Duration, Mode};
use mdl_space::Settled;

const STILL_WAITING: Reply = Reply::Resumed(Resume::Waiting);

const TIMED_OUT: Reply = Reply::Resumed(Resume::Lost(Settled::Timeout));

const VICTIM: Reply = Reply::Resumed(Resume::Lost(Settled::Victim));

const KILLED: Reply = Reply::Resumed(Resume::Lost(Settled::Killed));

const HAS_FIRST: Reply = Reply::Resumed(Resume::Acquired(1));

const READ_A: Act = Act::Acquire(Lock::A, Mode::SR, Duration::Transaction);

const READ_B: Act = Act::Acquire(Lock::B, Mode::SR, Duration::Transaction);

const SHARE_A: Act = Act::Acquire(Lock::A, Mode::SU, Duration::Transaction);

const SHARE_B: Act = Act::Acquire(Lock::B, Mode::SU, Duration::Transaction);

// Two upgrades block each other. The victim keeps both its tickets, in their modes.
const CROSSED: &[Row] = &[
    (1, SHARE_A, Reply::Acquired(1)),
    (1, READ_B, Reply::Acquired(2)),
    (2, SHARE_B, Reply::Acquired(1)),
    (2, READ_A, Reply::Acquired(2)),
    (1, Act::Upgrade(1, Mode::X), Reply::MustWait(1)),
    (1, Act::Resume, STILL_WAITING),
    (2, Act::Upgrade(1, Mode::X), Reply::MustWait(1)),
    (2, Act::Resume, VICTIM),
    (2, Act::Mark, Reply::Stands(0, 2)),
    (2, SHARE_B, Reply::Acquired(1)),
    (2, READ_A, Reply::Acquired(2)),
    (2, Act::Downgrade(1, Mode::SU), NOT_UPGRADABLE),
    (1, Act::Resume, STILL_WAITING),
    (2, Act::EndTransaction, Reply::Done),
    (1, Act::Resume, HAS_FIRST),
    (1, Act::Mark, Reply::Stands(0, 2)),
    (1, Act::EndTransaction, Reply::Done),
];

// A session's own ticket of the table doesn't block its upgrade. The downgrade grants the session that waits behind it.
const AT_ONCE: &[Row] = &[
    (1, READ_A, Reply::Acquired(1)),
    (1, SHARE_A, Reply::Acquired(2)),
    (1, Act::Upgrade(2, Mode::X), Reply::Acquired(2)),
    (
        1,
        Act::Acquire(Lock::A, Mode::X, Duration::Transaction),
        Reply::Acquired(2),
    ),
    (2, READ_A, Reply::MustWait(1)),
    // The ticket is as strong already.
    (1, Act::Upgrade(2, Mode::SNRW), Reply::Acquired(2)),
    (2, Act::Resume, STILL_WAITING),
    (1, Act::Downgrade(2, Mode::SU), Reply::Done),
    (2, Act::Resume, HAS_FIRST),
    (1, Act::Upgrade(2, Mode::X), Reply::MustWait(1)),
    (2, Act::EndTransaction, Reply::Done),
    (1, Act::Resume, Reply::Resumed(Resume::Acquired(2))),
    (1, Act::EndTransaction, Reply::Done),
];

// The upgraded ticket keeps its number and its duration. The number of the second ticket is used up.
const MERGED: &[Row] = &[
    (
        1,
        Act::Acquire(Lock::A, Mode::SU, Duration::Statement),
        Reply::Acquired(1),
    ),
    (2, READ_A, Reply::Acquired(1)),
    (1, Act::Upgrade(1, Mode::X), Reply::MustWait(1)),
    (2, Act::EndTransaction, Reply::Done),
    (1, Act::Resume, HAS_FIRST),
    (1, Act::Mark, Reply::Stands(1, 0)),
    (
        1,
        Act::Acquire(Lock::A, Mode::X, Duration::Statement),
        Reply::Acquired(1),
    ),
    (2, READ_A, Reply::MustWait(1)),
    (1, READ_B, Reply::Acquired(3)),
    (1, Act::Release(2), NOT_HELD),
    (1, Act::EndStatement, Reply::Done),
    (1, Act::Mark, Reply::Stands(0, 1)),
    (2, Act::Resume, Reply::Resumed(Resume::Acquired(2))),
];

// However the wait is lost, the ticket keeps its mode and its duration. Until then all else is refused.
const LOST: &[Row] = &[
    (
        1,
        Act::Acquire(Lock::A, Mode::SU, Duration::Explicit),
        Reply::Acquired(1),
    ),
    (2, READ_A, Reply::Acquired(1)),
    (1, Act::Upgrade(1, Mode::SNW), Reply::Acquired(1)),
    (1, Act::Upgrade(1, Mode::X), Reply::MustWait(1)),
    (1, Act::Upgrade(1, Mode::X), WAITS),
    (1, Act::Downgrade(1, Mode::SU), WAITS),
    (1, Act::Upgrade(2, Mode::X), NOT_HELD),
    (1, Act::Downgrade(2, Mode::SU), NOT_HELD),
    (1, Act::Release(1), WAITS),
    (1, Act::EndTransaction, WAITS),
    (1, Act::GiveUp, TIMED_OUT),
    (1, Act::Upgrade(1, Mode::SNRW), Reply::MustWait(2)),
    (2, Act::Kill(1, 2), Reply::Killed(true)),
    (1, Act::Resume, KILLED),
    (1, Act::EndTransaction, Reply::Done),
    (1, Act::Downgrade(1, Mode::SU), Reply::Done),
    (1, Act::Downgrade(1, Mode::SU), NOT_UPGRADABLE),
    (1, Act::Release(1), Reply::Done),
    (1, Act::Upgrade(1, Mode::X), NOT_HELD),
    (1, Act::Downgrade(1, Mode::SU), NOT_HELD),
];

// An upgrade is given up too late: it was granted, and is merged.
const LATE: &[Row] = &[
    (1, SHARE_A, Reply::Acquired(1)),
    (2, READ_A, Reply::Acquired(1)),
    (1, Act::Upgrade(1, Mode::X), Reply::MustWait(1)),
    (2, Act::EndTransaction, Reply::Done),
    (1, Act::GiveUp, HAS_FIRST),
    (1, Act::Downgrade(1, Mode::SNRW), Reply::Done),
    (1, Act::Upgrade(1, Mode::X), Reply::Acquired(1)),
];

// Some changes of a mode are refused.
const REFUSED: &[Row] = &[
    (1, READ_A, Reply::Acquired(1)),
    (1, Act::Upgrade(1, Mode::X), NOT_UPGRADABLE),
    (1, Act::Upgrade(1, Mode::SR), Reply::Acquired(1)),
    (1, Act::Upgrade(1, Mode::IX), NOT_UPGRADABLE),
    (1, Act::Downgrade(1, Mode::SH), NOT_UPGRADABLE),
    (
        1,
        Act::Acquire(Lock::Schema, Mode::X, Duration::Transaction),
        Reply::Acquired(2),
    ),
    (1, Act::Downgrade(2, Mode::SU), NOT_UPGRADABLE),
    (1, Act::Mark, Reply::Stands(0, 2)),
];

pub(super) const STORIES: &[Story] = &[
    Story("an upgrade that waited is merged", MERGED),
    Story("a lost upgrade leaves the ticket", LOST),
    Story("a granted upgrade can not be given up", LATE),
    Story("not each mode becomes each other", REFUSED),
];

/// Memory may be refused once in these stories.
pub(super) const STORIES_OF_TWO: &[Story] = &[
    Story("of two upgrades one is the victim", CROSSED),
    Story("own tickets do not block an upgrade", AT_ONCE),
];
