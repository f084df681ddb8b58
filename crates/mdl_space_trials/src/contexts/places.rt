//! Places that contexts let go: what is released, refused or lost leaves its place to other keys. The space has four places.
use crate::contexts::acts::{Act, Lock, Reply};
use crate::contexts::rows::{BAD_MODE, NO_PLACE, Row, Story};
use mdl_context::Resume;
use mdl_key::{Duration, Mode};
use mdl_space::Settled;

const READ_A: Act = Act::Acquire(Lock::A, Mode::SR, Duration::Transaction);

const READ_B: Act = Act::Acquire(Lock::B, Mode::SR, Duration::Transaction);

const USE_SCHEMA: Act = Act::Acquire(Lock::Schema, Mode::IX, Duration::Transaction);

const USE_GLOBAL: Act = Act::Acquire(Lock::Global, Mode::IX, Duration::Statement);

const USE_COMMIT: Act = Act::Acquire(Lock::Commit, Mode::IX, Duration::Explicit);

const GET_USER: Act = Act::Acquire(Lock::User, Mode::X, Duration::Explicit);

const TRY_USER: Act = Act::TryAcquire(Lock::User, Mode::X, Duration::Explicit);

const TIMED_OUT: Reply = Reply::Resumed(Resume::Lost(Settled::Timeout));

// The locks of the first session stand at all four places.
const TAKE_A: Row = (1, READ_A, Reply::Acquired(1));

const TAKE_B: Row = (1, READ_B, Reply::Acquired(2));

const TAKE_SCHEMA: Row = (1, USE_SCHEMA, Reply::Acquired(3));

const TAKE_GLOBAL: Row = (1, USE_GLOBAL, Reply::Acquired(4));

// Each call that releases tickets lets go of the places where nothing is left.
const LET_GO: &[Row] = &[
    TAKE_A,
    TAKE_B,
    TAKE_SCHEMA,
    TAKE_GLOBAL,
    (2, USE_COMMIT, NO_PLACE),
    (2, TRY_USER, NO_PLACE),
    (1, Act::EndStatement, Reply::Done),
    (2, USE_COMMIT, Reply::Acquired(1)),
    (1, USE_GLOBAL, NO_PLACE),
    (2, Act::Release(1), Reply::Done),
    (1, USE_GLOBAL, Reply::Acquired(5)),
    (1, Act::GoBack(1, 2), Reply::Done),
    (2, USE_COMMIT, Reply::Acquired(2)),
    (2, GET_USER, NO_PLACE),
    (1, Act::ReleaseName(Lock::A), Reply::Done),
    (2, GET_USER, Reply::Acquired(3)),
    (1, READ_A, NO_PLACE),
    (1, Act::EndTransaction, Reply::Done),
    (1, READ_A, Reply::Acquired(6)),
    (1, READ_B, Reply::Acquired(7)),
    (1, USE_SCHEMA, NO_PLACE),
];

// A place stays as long as a ticket is left there, or another session has something there.
const KEPT: &[Row] = &[
    TAKE_A,
    TAKE_B,
    TAKE_SCHEMA,
    TAKE_GLOBAL,
    (2, READ_A, Reply::Acquired(1)),
    (
        1,
        Act::Acquire(Lock::B, Mode::SR, Duration::Explicit),
        Reply::Acquired(5),
    ),
    (1, Act::Release(1), Reply::Done),
    (1, Act::Release(2), Reply::Done),
    (3, USE_COMMIT, NO_PLACE),
    (2, Act::EndTransaction, Reply::Done),
    (3, USE_COMMIT, Reply::Acquired(1)),
    (3, GET_USER, NO_PLACE),
    (1, Act::Release(5), Reply::Done),
    (3, GET_USER, Reply::Acquired(2)),
];

// A request that is refused keeps no place that was looked up for it. One where the session has a ticket stays.
const REFUSED: &[Row] = &[
    TAKE_A,
    TAKE_B,
    TAKE_SCHEMA,
    (
        1,
        Act::Acquire(Lock::Global, Mode::SR, Duration::Statement),
        BAD_MODE,
    ),
    (2, USE_COMMIT, Reply::Acquired(1)),
    (1, USE_GLOBAL, NO_PLACE),
    (
        1,
        Act::Acquire(Lock::A, Mode::IX, Duration::Statement),
        BAD_MODE,
    ),
    (3, USE_GLOBAL, NO_PLACE),
    (2, Act::Release(1), Reply::Done),
    (
        2,
        Act::TryAcquire(Lock::User, Mode::IX, Duration::Statement),
        BAD_MODE,
    ),
    (
        2,
        Act::TryAcquire(Lock::A, Mode::IX, Duration::Statement),
        BAD_MODE,
    ),
    (1, USE_GLOBAL, Reply::Acquired(4)),
    (1, Act::Release(1), Reply::Done),
    (3, USE_COMMIT, Reply::Acquired(1)),
];

// Nor does one that would have to wait.
const UNTAKEN: &[Row] = &[
    TAKE_A,
    TAKE_B,
    TAKE_SCHEMA,
    (2, GET_USER, Reply::Acquired(1)),
    (3, TRY_USER, Reply::WouldWait),
    (2, Act::Release(1), Reply::Done),
    (1, USE_GLOBAL, Reply::Acquired(4)),
    // The session has a ticket there already.
    (3, READ_A, Reply::Acquired(1)),
    (
        3,
        Act::TryAcquire(Lock::A, Mode::X, Duration::Transaction),
        Reply::WouldWait,
    ),
    (1, Act::Release(1), Reply::Done),
    (2, USE_COMMIT, NO_PLACE),
    (3, Act::Release(1), Reply::Done),
    (2, USE_COMMIT, Reply::Acquired(2)),
];

// A session that waits has the place, and one whose wait is granted keeps it.
const AWAITED: &[Row] = &[
    TAKE_A,
    TAKE_B,
    TAKE_SCHEMA,
    (2, GET_USER, Reply::Acquired(1)),
    (
        3,
        Act::Acquire(Lock::A, Mode::X, Duration::Statement),
        Reply::MustWait(1),
    ),
    (1, Act::Release(1), Reply::Done),
    (1, USE_GLOBAL, NO_PLACE),
    (3, Act::Resume, Reply::Resumed(Resume::Acquired(1))),
    (1, USE_GLOBAL, NO_PLACE),
    (3, Act::EndStatement, Reply::Done),
    (1, USE_GLOBAL, Reply::Acquired(4)),
];

// A wait that is given up or killed leaves its place to others once it is ended.
const LOST: &[Row] = &[
    TAKE_A,
    TAKE_B,
    TAKE_SCHEMA,
    (2, GET_USER, Reply::Acquired(1)),
    (3, GET_USER, Reply::MustWait(1)),
    (3, Act::GiveUp, TIMED_OUT),
    (2, Act::Release(1), Reply::Done),
    (1, USE_GLOBAL, Reply::Acquired(4)),
    (1, Act::Release(4), Reply::Done),
    (2, GET_USER, Reply::Acquired(2)),
    (3, GET_USER, Reply::MustWait(2)),
    (1, Act::Kill(3, 2), Reply::Killed(true)),
    (2, Act::Release(2), Reply::Done),
    (1, USE_GLOBAL, NO_PLACE),
    (
        3,
        Act::Resume,
        Reply::Resumed(Resume::Lost(Settled::Killed)),
    ),
    (1, USE_GLOBAL, Reply::Acquired(5)),
];

// So does that of a victim.
const LOST_BY_A_VICTIM: &[Row] = &[
    (1, USE_SCHEMA, Reply::Acquired(1)),
    (
        2,
        Act::Acquire(Lock::A, Mode::X, Duration::Transaction),
        Reply::Acquired(1),
    ),
    (
        3,
        Act::Acquire(Lock::B, Mode::X, Duration::Transaction),
        Reply::Acquired(1),
    ),
    (2, READ_B, Reply::MustWait(1)),
    (3, READ_A, Reply::MustWait(1)),
    (
        3,
        Act::Resume,
        Reply::Resumed(Resume::Lost(Settled::Victim)),
    ),
    (2, Act::GiveUp, TIMED_OUT),
    (2, Act::Release(1), Reply::Done),
    (1, GET_USER, Reply::Acquired(2)),
    (1, USE_GLOBAL, Reply::Acquired(3)),
    // The victim still has its ticket.
    (1, USE_COMMIT, NO_PLACE),
    (3, Act::EndTransaction, Reply::Done),
    (1, USE_COMMIT, Reply::Acquired(4)),
];

// A lost wait for a stronger mode leaves the ticket, and its place.
const LOST_UPGRADE: &[Row] = &[
    (
        1,
        Act::Acquire(Lock::A, Mode::SU, Duration::Transaction),
        Reply::Acquired(1),
    ),
    (2, READ_A, Reply::Acquired(1)),
    (1, READ_B, Reply::Acquired(2)),
    (1, USE_SCHEMA, Reply::Acquired(3)),
    (1, USE_GLOBAL, Reply::Acquired(4)),
    (1, Act::Upgrade(1, Mode::X), Reply::MustWait(1)),
    (1, Act::GiveUp, TIMED_OUT),
    (2, Act::Release(1), Reply::Done),
    (2, USE_COMMIT, NO_PLACE),
    (1, Act::Upgrade(1, Mode::X), Reply::Acquired(1)),
    (1, Act::Release(1), Reply::Done),
    (2, USE_COMMIT, Reply::Acquired(2)),
];

// A place is given to a lock of the other kind, and what the session knew of the old lock there is gone.
const OF_OTHER_KINDS: &[Row] = &[
    (1, GET_USER, Reply::Acquired(1)),
    (1, READ_A, Reply::Acquired(2)),
    (2, READ_B, Reply::Acquired(1)),
    (2, USE_SCHEMA, Reply::Acquired(2)),
    (1, Act::Release(1), Reply::Done),
    (1, Act::Last(Lock::User), Reply::Last(None)),
    (1, USE_GLOBAL, Reply::Acquired(3)),
    (
        1,
        Act::Acquire(Lock::Global, Mode::SR, Duration::Statement),
        BAD_MODE,
    ),
    (1, Act::Release(3), Reply::Done),
    (
        2,
        Act::Acquire(Lock::Commit, Mode::X, Duration::Statement),
        Reply::Acquired(3),
    ),
    (1, USE_COMMIT, Reply::MustWait(1)),
    (1, Act::AwaitsUserLock, Reply::AwaitsUserLock(false)),
    (2, Act::EndStatement, Reply::Done),
    (1, Act::Resume, Reply::Resumed(Resume::Acquired(4))),
    // It isn't a user-level lock, so it no longer outlasts the transaction.
    (1, Act::MakeTransactional, Reply::Done),
    (1, Act::Mark, Reply::Stands(0, 2)),
];

pub(crate) const STORIES: &[Story] = &[
    Story("places are let go", LET_GO),
    Story("places are kept", KEPT),
    Story("a refused request keeps no place", REFUSED),
    Story("a try that would wait keeps no place", UNTAKEN),
    Story("a wait has its place", AWAITED),
    Story("a lost wait keeps no place", LOST),
    Story("a victim keeps no place", LOST_BY_A_VICTIM),
    Story("a ticket that isn't upgraded keeps its place", LOST_UPGRADE),
    Story("a place of another kind", OF_OTHER_KINDS),
];
