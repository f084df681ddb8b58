//! Deadlocks and their victims.
use crate::contexts::acts::{Act, Lock, Reply};
use crate::contexts::rows::{Row, Story};
use mdl_context::Resume;
use mdl_key::{Duration, Mode};
use mdl_space::Settled;

const READ_A: Act = Act::Acquire(Lock::A, Mode::SR, Duration::Transaction);

const READ_B: Act = Act::Acquire(Lock::B, Mode::SR, Duration::Transaction);

const LOCK_A: Act = Act::Acquire(Lock::A, Mode::X, Duration::Transaction);

const LOCK_B: Act = Act::Acquire(Lock::B, Mode::X, Duration::Transaction);

const STILL_WAITING: Reply = Reply::Resumed(Resume::Waiting);

const VICTIM: Reply = Reply::Resumed(Resume::Lost(Settled::Victim));

const HAS_SECOND: Reply = Reply::Resumed(Resume::Acquired(2));

const EQUALS: &[Row] = &[
    (1, READ_A, Reply::Acquired(1)),
    (2, READ_B, Reply::Acquired(1)),
    (1, LOCK_B, Reply::MustWait(1)),
    (1, Act::Resume, STILL_WAITING),
    (2, LOCK_A, Reply::MustWait(1)),
    (2, Act::Resume, VICTIM),
    // The victim keeps its tickets.
    (2, READ_B, Reply::Acquired(1)),
    (1, Act::Resume, STILL_WAITING),
    (2, Act::EndTransaction, Reply::Done),
    (1, Act::Resume, HAS_SECOND),
    (1, Act::EndTransaction, Reply::Done),
];

const LIGHTER: &[Row] = &[
    (2, LOCK_A, Reply::Acquired(1)),
    (1, READ_B, Reply::Acquired(1)),
    (1, READ_A, Reply::MustWait(1)),
    (2, LOCK_B, Reply::MustWait(1)),
    (2, Act::Resume, STILL_WAITING),
    (1, Act::Resume, VICTIM),
    (1, Act::EndTransaction, Reply::Done),
    (2, Act::Resume, HAS_SECOND),
];

// The first session is the victim only if the second one's request is for GLOBAL.
const WEAK_IN_GLOBAL: &[Row] = &[
    (
        1,
        Act::Acquire(Lock::Global, Mode::S, Duration::Transaction),
        Reply::Acquired(1),
    ),
    (2, LOCK_A, Reply::Acquired(1)),
    (
        2,
        Act::Acquire(Lock::Global, Mode::IX, Duration::Transaction),
        Reply::MustWait(1),
    ),
    (1, READ_A, Reply::MustWait(1)),
    (1, Act::Resume, VICTIM),
    (2, Act::Resume, STILL_WAITING),
];

const WEAK_IN_COMMIT: &[Row] = &[
    (
        1,
        Act::Acquire(Lock::Commit, Mode::S, Duration::Transaction),
        Reply::Acquired(1),
    ),
    (2, LOCK_A, Reply::Acquired(1)),
    (
        2,
        Act::Acquire(Lock::Commit, Mode::IX, Duration::Transaction),
        Reply::MustWait(1),
    ),
    (1, READ_A, Reply::MustWait(1)),
    (1, Act::Resume, STILL_WAITING),
    (2, Act::Resume, VICTIM),
];

const THREE: &[Row] = &[
    (1, LOCK_A, Reply::Acquired(1)),
    (3, LOCK_B, Reply::Acquired(1)),
    (
        2,
        Act::Acquire(Lock::Commit, Mode::X, Duration::Transaction),
        Reply::Acquired(1),
    ),
    (1, LOCK_B, Reply::MustWait(1)),
    (
        3,
        Act::Acquire(Lock::Commit, Mode::X, Duration::Transaction),
        Reply::MustWait(1),
    ),
    (2, LOCK_A, Reply::MustWait(1)),
    (2, Act::Resume, STILL_WAITING),
    (1, Act::Resume, STILL_WAITING),
    (3, Act::Resume, VICTIM),
    (3, Act::EndTransaction, Reply::Done),
    (1, Act::Resume, HAS_SECOND),
    (1, Act::EndTransaction, Reply::Done),
    (2, Act::Resume, HAS_SECOND),
];

const TWO_CIRCLES: &[Row] = &[
    (1, READ_A, Reply::Acquired(1)),
    (2, READ_A, Reply::Acquired(1)),
    (3, LOCK_B, Reply::Acquired(1)),
    (1, READ_B, Reply::MustWait(1)),
    (2, READ_B, Reply::MustWait(1)),
    (3, LOCK_A, Reply::MustWait(1)),
    // Each cycle has its victim, and neither is the third session.
    (1, Act::Resume, VICTIM),
    (2, Act::Resume, VICTIM),
    (3, Act::Resume, STILL_WAITING),
    (1, Act::EndTransaction, Reply::Done),
    (3, Act::Resume, STILL_WAITING),
    (2, Act::EndTransaction, Reply::Done),
    (3, Act::Resume, HAS_SECOND),
];

/// Memory may be refused once in these stories.
pub(super) const STORIES_OF_TWO: &[Story] = &[
    Story("of equals the greater number is the victim", EQUALS),
    Story("whoever weighs less is the victim", LIGHTER),
];

pub(super) const STORIES: &[Story] = &[
    Story("a weak wish in GLOBAL weighs more", WEAK_IN_GLOBAL),
    Story("a weak wish in COMMIT weighs no more", WEAK_IN_COMMIT),
    Story("three in a circle have one victim", THREE),
    Story("one wait closes two circles", TWO_CIRCLES),
];
