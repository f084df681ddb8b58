//! User-level locks, and requests that don't wait.
use crate::contexts::acts::{Act, Lock, Reply};
use crate::contexts::rows::{BAD_MODE, NO_PLACE, NO_WAIT, NOT_HELD, Row, Story, WAITS};
use mdl_context::Resume;
use mdl_key::{Duration, Mode};
use mdl_space::Settled;

const TRY: Act = Act::TryAcquire(Lock::User, Mode::X, Duration::Explicit);

const GET: Act = Act::Acquire(Lock::User, Mode::X, Duration::Explicit);

const LAST: Act = Act::Last(Lock::User);

const WRITE_A: Act = Act::Acquire(Lock::A, Mode::X, Duration::Transaction);

const READ_A: Act = Act::Acquire(Lock::A, Mode::SR, Duration::Transaction);

const STILL_WAITING: Reply = Reply::Resumed(Resume::Waiting);

const VICTIM: Reply = Reply::Resumed(Resume::Lost(Settled::Victim));

const TRIED: &[Row] = &[
    (1, TRY, Reply::Acquired(1)),
    // Another session doesn't get the lock, doesn't wait, and keeps nothing.
    (2, TRY, Reply::WouldWait),
    (2, Act::Resume, NO_WAIT),
    (2, Act::Release(1), NOT_HELD),
    // The session itself gets a clone.
    (1, TRY, Reply::Acquired(2)),
    (1, Act::Release(1), Reply::Done),
    (2, TRY, Reply::WouldWait),
    (1, Act::Release(2), Reply::Done),
    (2, TRY, Reply::Acquired(1)),
    // A ticket that can be reused is reused.
    (2, READ_A, Reply::Acquired(2)),
    (
        2,
        Act::TryAcquire(Lock::A, Mode::SR, Duration::Transaction),
        Reply::Acquired(2),
    ),
    (
        2,
        Act::TryAcquire(Lock::A, Mode::SR, Duration::Statement),
        Reply::Acquired(3),
    ),
    // The requests that didn't wait held up no session.
    (2, Act::Release(1), Reply::Done),
    (3, GET, Reply::Acquired(1)),
];

const REFUSED: &[Row] = &[
    (
        1,
        Act::TryAcquire(Lock::User, Mode::IX, Duration::Explicit),
        BAD_MODE,
    ),
    (1, TRY, Reply::Acquired(1)),
    (2, GET, Reply::MustWait(1)),
    (
        2,
        Act::TryAcquire(Lock::A, Mode::SR, Duration::Transaction),
        WAITS,
    ),
    (2, TRY, WAITS),
    (2, Act::Resume, STILL_WAITING),
    // There are four places.
    (
        1,
        Act::TryAcquire(Lock::A, Mode::SR, Duration::Transaction),
        Reply::Acquired(2),
    ),
    (
        1,
        Act::TryAcquire(Lock::Schema, Mode::IX, Duration::Transaction),
        Reply::Acquired(3),
    ),
    (
        1,
        Act::TryAcquire(Lock::Global, Mode::IX, Duration::Transaction),
        Reply::Acquired(4),
    ),
    (
        1,
        Act::TryAcquire(Lock::Commit, Mode::IX, Duration::Transaction),
        NO_PLACE,
    ),
];

const GAINED_LAST: &[Row] = &[
    (1, LAST, Reply::Last(None)),
    (1, GET, Reply::Acquired(1)),
    (1, LAST, Reply::Last(Some(1))),
    (1, READ_A, Reply::Acquired(2)),
    (1, GET, Reply::Acquired(3)),
    (1, LAST, Reply::Last(Some(3))),
    (1, Act::Last(Lock::A), Reply::Last(Some(2))),
    // A session doesn't see a ticket that another session holds.
    (2, LAST, Reply::Last(None)),
    (2, TRY, Reply::WouldWait),
    (2, LAST, Reply::Last(None)),
    (1, Act::Release(3), Reply::Done),
    (1, LAST, Reply::Last(Some(1))),
    (1, Act::Release(1), Reply::Done),
    (1, LAST, Reply::Last(None)),
    (1, Act::Last(Lock::A), Reply::Last(Some(2))),
];

const AWAITED: &[Row] = &[
    (1, Act::AwaitsUserLock, Reply::AwaitsUserLock(false)),
    (1, WRITE_A, Reply::Acquired(1)),
    (1, GET, Reply::Acquired(2)),
    (1, Act::AwaitsUserLock, Reply::AwaitsUserLock(false)),
    (2, READ_A, Reply::MustWait(1)),
    (3, GET, Reply::MustWait(1)),
    (2, Act::AwaitsUserLock, Reply::AwaitsUserLock(false)),
    (3, Act::AwaitsUserLock, Reply::AwaitsUserLock(true)),
    (
        3,
        Act::GiveUp,
        Reply::Resumed(Resume::Lost(Settled::Timeout)),
    ),
    (3, Act::AwaitsUserLock, Reply::AwaitsUserLock(false)),
];

const LASTING: &[Row] = &[
    (1, GET, Reply::Acquired(1)),
    (
        1,
        Act::Acquire(Lock::A, Mode::SR, Duration::Explicit),
        Reply::Acquired(2),
    ),
    (1, Act::MakeTransactional, Reply::Done),
    (1, Act::Mark, Reply::Stands(0, 1)),
    (1, Act::EndTransaction, Reply::Done),
    (1, Act::Release(2), NOT_HELD),
    (2, TRY, Reply::WouldWait),
    (1, LAST, Reply::Last(Some(1))),
    (1, Act::EndStatement, Reply::Done),
    (1, Act::GoBack(0, 0), Reply::Done),
    (1, Act::Release(1), Reply::Done),
    (2, TRY, Reply::Acquired(1)),
];

// A wait for a user-level lock weighs more than a weak request, and less than a strong one. The second session waits for a user-level lock, and the
// first closes the cycle.
const BESIDE_A_READ: &[Row] = &[
    (1, GET, Reply::Acquired(1)),
    (2, WRITE_A, Reply::Acquired(1)),
    (2, GET, Reply::MustWait(1)),
    (1, READ_A, Reply::MustWait(1)),
    (1, Act::Resume, VICTIM),
    (2, Act::Resume, STILL_WAITING),
];

const BESIDE_A_WRITE: &[Row] = &[
    (1, GET, Reply::Acquired(1)),
    (2, WRITE_A, Reply::Acquired(1)),
    (2, GET, Reply::MustWait(1)),
    (1, WRITE_A, Reply::MustWait(1)),
    (1, Act::Resume, STILL_WAITING),
    (2, Act::Resume, VICTIM),
];

pub(super) const STORIES: &[Story] = &[
    Story("a wait for a user level lock beside a read", BESIDE_A_READ),
    Story(
        "a wait for a user level lock beside a write",
        BESIDE_A_WRITE,
    ),
    Story("what would be waited for is not had", TRIED),
    Story("a try is refused as a wish is", REFUSED),
    Story(
        "the ticket of a key that was gained last is found",
        GAINED_LAST,
    ),
    Story("a wait for a user level lock is told", AWAITED),
    Story("user level locks outlast transactions", LASTING),
];
