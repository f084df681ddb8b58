//! The order in which tickets are released, which shows in which waiter is granted.
//!
//! A session holds S and X, and others wait for X and then for SH. If X is released first, SH is granted beside S. If S is released first, X is granted.
use crate::contexts::acts::{Act, Lock, Reply};
use crate::contexts::rows::{Row, Story};
use mdl_context::Resume;
use mdl_key::{Duration, Mode};

const WAITING: Reply = Reply::Resumed(Resume::Waiting);

const GRANTED: Reply = Reply::Resumed(Resume::Acquired(1));

const WAIT_FOR_X: Row = (
    2,
    Act::Acquire(Lock::A, Mode::X, Duration::Transaction),
    Reply::MustWait(1),
);

const WAIT_FOR_SH: Row = (
    3,
    Act::Acquire(Lock::A, Mode::SH, Duration::Transaction),
    Reply::MustWait(1),
);

const X_IS_GRANTED: Row = (2, Act::Resume, GRANTED);

const X_WAITS: Row = (2, Act::Resume, WAITING);

const SH_IS_GRANTED: Row = (3, Act::Resume, GRANTED);

const SH_WAITS: Row = (3, Act::Resume, WAITING);

const S_OF_STATEMENT: Row = (
    1,
    Act::Acquire(Lock::A, Mode::S, Duration::Statement),
    Reply::Acquired(1),
);

const S_OF_TRANSACTION: Row = (
    1,
    Act::Acquire(Lock::A, Mode::S, Duration::Transaction),
    Reply::Acquired(1),
);

const S_IS_EXPLICIT: Row = (
    1,
    Act::Acquire(Lock::A, Mode::S, Duration::Explicit),
    Reply::Acquired(1),
);

const X_OF_STATEMENT: Row = (
    1,
    Act::Acquire(Lock::A, Mode::X, Duration::Statement),
    Reply::Acquired(2),
);

const X_OF_TRANSACTION: Row = (
    1,
    Act::Acquire(Lock::A, Mode::X, Duration::Transaction),
    Reply::Acquired(2),
);

const X_IS_EXPLICIT: Row = (
    1,
    Act::Acquire(Lock::A, Mode::X, Duration::Explicit),
    Reply::Acquired(2),
);

// Tickets of the statement are released before those of the transaction.
const X_OF_ENDED_STATEMENT: &[Row] = &[
    S_OF_TRANSACTION,
    X_OF_STATEMENT,
    WAIT_FOR_X,
    WAIT_FOR_SH,
    (1, Act::EndTransaction, Reply::Done),
    X_WAITS,
    SH_IS_GRANTED,
];

const X_OF_STATEMENT_BACK: &[Row] = &[
    S_OF_TRANSACTION,
    X_OF_STATEMENT,
    WAIT_FOR_X,
    WAIT_FOR_SH,
    (1, Act::GoBack(0, 0), Reply::Done),
    X_WAITS,
    SH_IS_GRANTED,
];

const S_OF_ENDED_STATEMENT: &[Row] = &[
    S_OF_STATEMENT,
    X_OF_TRANSACTION,
    WAIT_FOR_X,
    WAIT_FOR_SH,
    (1, Act::EndTransaction, Reply::Done),
    X_IS_GRANTED,
    SH_WAITS,
];

const S_OF_STATEMENT_BACK: &[Row] = &[
    S_OF_STATEMENT,
    X_OF_TRANSACTION,
    WAIT_FOR_X,
    WAIT_FOR_SH,
    (1, Act::GoBack(0, 0), Reply::Done),
    X_IS_GRANTED,
    SH_WAITS,
];

// Tickets of one duration are released from the newest to the oldest.
const STATEMENT: &[Row] = &[
    S_OF_STATEMENT,
    X_OF_STATEMENT,
    WAIT_FOR_X,
    WAIT_FOR_SH,
    (1, Act::EndStatement, Reply::Done),
    X_WAITS,
    SH_IS_GRANTED,
];

const TRANSACTION: &[Row] = &[
    S_OF_TRANSACTION,
    X_OF_TRANSACTION,
    WAIT_FOR_X,
    WAIT_FOR_SH,
    (1, Act::EndTransaction, Reply::Done),
    X_WAITS,
    SH_IS_GRANTED,
];

const TRANSACTION_BACK: &[Row] = &[
    S_OF_TRANSACTION,
    X_OF_TRANSACTION,
    WAIT_FOR_X,
    WAIT_FOR_SH,
    (1, Act::GoBack(0, 0), Reply::Done),
    X_WAITS,
    SH_IS_GRANTED,
];

const NAME_IN_TRANSACTION: &[Row] = &[
    S_OF_TRANSACTION,
    X_OF_TRANSACTION,
    WAIT_FOR_X,
    WAIT_FOR_SH,
    (1, Act::ReleaseName(Lock::A), Reply::Done),
    X_WAITS,
    SH_IS_GRANTED,
];

const EXPLICIT_NAME: &[Row] = &[
    S_IS_EXPLICIT,
    X_IS_EXPLICIT,
    WAIT_FOR_X,
    WAIT_FOR_SH,
    (1, Act::ReleaseName(Lock::A), Reply::Done),
    X_WAITS,
    SH_IS_GRANTED,
];

const EXPLICIT: &[Row] = &[
    S_IS_EXPLICIT,
    X_IS_EXPLICIT,
    WAIT_FOR_X,
    WAIT_FOR_SH,
    (1, Act::ReleaseExplicit, Reply::Done),
    X_WAITS,
    SH_IS_GRANTED,
];

// The same for tickets of one name, whatever their durations are.
const OF_A_NAME: &[Row] = &[
    (
        1,
        Act::Acquire(Lock::A, Mode::X, Duration::Transaction),
        Reply::Acquired(1),
    ),
    (
        1,
        Act::Acquire(Lock::A, Mode::S, Duration::Statement),
        Reply::Acquired(2),
    ),
    (
        1,
        Act::Acquire(Lock::B, Mode::S, Duration::Explicit),
        Reply::Acquired(3),
    ),
    WAIT_FOR_X,
    WAIT_FOR_SH,
    (1, Act::ReleaseName(Lock::A), Reply::Done),
    X_IS_GRANTED,
    SH_WAITS,
    // Tickets of other names stay.
    (1, Act::Release(3), Reply::Done),
];

pub(super) const STORIES: &[Story] = &[
    Story(
        "the statement goes first as the transaction ends",
        X_OF_ENDED_STATEMENT,
    ),
    Story(
        "the statement goes first on the way back",
        X_OF_STATEMENT_BACK,
    ),
    Story(
        "S of the statement goes first as the transaction ends",
        S_OF_ENDED_STATEMENT,
    ),
    Story(
        "S of the statement goes first on the way back",
        S_OF_STATEMENT_BACK,
    ),
    Story("the newest of the statement goes first", STATEMENT),
    Story("the newest of the transaction goes first", TRANSACTION),
    Story(
        "the newest of the transaction goes first on the way back",
        TRANSACTION_BACK,
    ),
    Story(
        "the newest of a name and the transaction goes first",
        NAME_IN_TRANSACTION,
    ),
    Story(
        "the newest explicit one of a name goes first",
        EXPLICIT_NAME,
    ),
    Story("the newest explicit one goes first", EXPLICIT),
    Story("the newest of a name goes first", OF_A_NAME),
];
