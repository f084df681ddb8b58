//! Sessions wait for locks, are granted them, and lose their waits.
use crate::shared::acts::{Act, Lock, Memory, Reply};
use crate::shared::rows::{Case, Row, are_right};
use mdl_calls::{Ended, Settled, SpaceError};
use mdl_key::Mode;
use std::test::Fail;

const NO_WAIT: Reply = Reply::Refused(SpaceError::NoWait);

const WAITS_ALREADY: Reply = Reply::Refused(SpaceError::AlreadyWaiting);

const BAD_MODE: Reply = Reply::Refused(SpaceError::BadMode);

// A lock that can't be granted now is waited for, and all sessions see the wait's number.
const CLASHING: &[Row] = &[
    (1, Act::Resolve(Lock::Sales), Reply::Place(1)),
    (2, Act::Resolve(Lock::Sales), Reply::Place(1)),
    (1, Act::Try(1, Mode::X), Reply::Granted(1)),
    (2, Act::Begin(1, Mode::S), Reply::Waiting(1)),
    (2, Act::Poll, Reply::Pending),
    (1, Act::WaitOf(2), Reply::Wait(Some(1))),
    (2, Act::WaitOf(1), Reply::Wait(None)),
    (2, Act::TimeOut, Reply::Done),
    (2, Act::TimeOut, Reply::Settled(Settled::Timeout)),
    (2, Act::End, Reply::Ended(Ended::Timeout)),
    (1, Act::WaitOf(2), Reply::Wait(None)),
    (1, Act::Release(1), Reply::Done),
];

// A release grants the wait that only the released ticket blocked. A kill comes too late then.
const MAKING_WAY: &[Row] = &[
    (1, Act::Resolve(Lock::Sales), Reply::Place(1)),
    (2, Act::Resolve(Lock::Sales), Reply::Place(1)),
    (1, Act::Try(1, Mode::SR), Reply::Granted(1)),
    (2, Act::Begin(1, Mode::X), Reply::Waiting(1)),
    (1, Act::Reschedule(1), Reply::Done),
    (2, Act::Poll, Reply::Pending),
    (1, Act::Try(1, Mode::SR), Reply::WouldWait),
    (1, Act::Release(1), Reply::Done),
    (1, Act::Kill(2, 1), Reply::Is(false)),
    (2, Act::Poll, Reply::Settled(Settled::Granted)),
    (2, Act::TimeOut, Reply::Settled(Settled::Granted)),
    (2, Act::End, Reply::Ended(Ended::Granted(1))),
    (2, Act::Upgrade(1, Mode::X), Reply::Upgraded),
    (1, Act::Try(1, Mode::S), Reply::WouldWait),
    (2, Act::Release(1), Reply::Done),
];

// So does a downgrade.
const DOWNGRADED: &[Row] = &[
    (1, Act::Resolve(Lock::Sales), Reply::Place(1)),
    (2, Act::Resolve(Lock::Sales), Reply::Place(1)),
    (1, Act::Try(1, Mode::X), Reply::Granted(1)),
    (2, Act::Begin(1, Mode::SW), Reply::Waiting(1)),
    (1, Act::Downgrade(1, Mode::SU), Reply::Done),
    (2, Act::Poll, Reply::Settled(Settled::Granted)),
    (2, Act::End, Reply::Ended(Ended::Granted(1))),
    (2, Act::Release(1), Reply::Done),
    (1, Act::Release(1), Reply::Done),
];

// A kill hits the wait of its number once, and the session that waits sees it. A wait that was killed isn't granted.
const KILLED: &[Row] = &[
    (1, Act::Resolve(Lock::Sales), Reply::Place(1)),
    (2, Act::Resolve(Lock::Sales), Reply::Place(1)),
    (1, Act::Try(1, Mode::X), Reply::Granted(1)),
    (2, Act::Begin(1, Mode::S), Reply::Waiting(1)),
    (1, Act::Kill(2, 2), Reply::Is(false)),
    (1, Act::Kill(2, 1), Reply::Is(true)),
    (1, Act::Kill(2, 1), Reply::Is(false)),
    (1, Act::Release(1), Reply::Done),
    (2, Act::Poll, Reply::Settled(Settled::Killed)),
    (2, Act::TimeOut, Reply::Settled(Settled::Killed)),
    (2, Act::End, Reply::Ended(Ended::Killed)),
    (2, Act::Try(1, Mode::X), Reply::Granted(2)),
    (2, Act::Release(2), Reply::Done),
];

// A kill that comes late doesn't hit the session's next wait.
const KILLED_LATE: &[Row] = &[
    (1, Act::Resolve(Lock::Sales), Reply::Place(1)),
    (2, Act::Resolve(Lock::Sales), Reply::Place(1)),
    (1, Act::Try(1, Mode::X), Reply::Granted(1)),
    (2, Act::Begin(1, Mode::S), Reply::Waiting(1)),
    (2, Act::TimeOut, Reply::Done),
    (2, Act::End, Reply::Ended(Ended::Timeout)),
    (2, Act::Begin(1, Mode::S), Reply::Waiting(2)),
    (1, Act::Kill(2, 1), Reply::Is(false)),
    (2, Act::Poll, Reply::Pending),
    (2, Act::TimeOut, Reply::Done),
    (2, Act::End, Reply::Ended(Ended::Timeout)),
    (1, Act::Release(1), Reply::Done),
];

// A lock that can be granted now isn't waited for. Calls about a place or a wait that isn't there are refused, or find none.
const ALONE: &[Row] = &[
    (
        1,
        Act::Begin(1, Mode::S),
        Reply::Refused(SpaceError::NoPlace),
    ),
    (1, Act::Reschedule(1), Reply::Refused(SpaceError::NoPlace)),
    (1, Act::Resolve(Lock::Sales), Reply::Place(1)),
    (1, Act::Begin(1, Mode::S), Reply::Granted(1)),
    (1, Act::Poll, NO_WAIT),
    (1, Act::TimeOut, NO_WAIT),
    (1, Act::End, NO_WAIT),
    (1, Act::Begin(1, Mode::IX), BAD_MODE),
    (1, Act::Kill(0, 1), Reply::Is(false)),
    (1, Act::Kill(1, 1), Reply::Is(false)),
    (1, Act::Kill(1, u64::MAX), Reply::Is(false)),
    (1, Act::Kill(4, 1), Reply::Is(false)),
    (1, Act::WaitOf(4), Reply::Wait(None)),
    (1, Act::Release(1), Reply::Done),
];

// A session that waits can't request more, but keeps its tickets, and may release them. Of several causes the first in the order of
// [`SpaceError`] is returned.
const ASKING_MORE: &[Row] = &[
    (1, Act::Resolve(Lock::Sales), Reply::Place(1)),
    (2, Act::Resolve(Lock::Sales), Reply::Place(1)),
    (1, Act::Try(1, Mode::S), Reply::Granted(1)),
    (2, Act::Try(1, Mode::SU), Reply::Granted(1)),
    (2, Act::Begin(1, Mode::X), Reply::Waiting(1)),
    (2, Act::Try(1, Mode::IX), WAITS_ALREADY),
    (2, Act::Begin(1, Mode::S), WAITS_ALREADY),
    (
        2,
        Act::Begin(2, Mode::S),
        Reply::Refused(SpaceError::NoPlace),
    ),
    (2, Act::Clone(1, Mode::SU), WAITS_ALREADY),
    (2, Act::Upgrade(1, Mode::X), WAITS_ALREADY),
    (2, Act::Merge(1, 1), WAITS_ALREADY),
    (2, Act::End, Reply::Refused(SpaceError::Unsettled)),
    (2, Act::Release(1), Reply::Done),
    (2, Act::TimeOut, Reply::Done),
    (2, Act::End, Reply::Ended(Ended::Timeout)),
    (1, Act::Release(1), Reply::Done),
];

// A reader that waits behind a lost request to write gets its lock when that wait ends.
const BEHIND: &[Row] = &[
    (1, Act::Resolve(Lock::Sales), Reply::Place(1)),
    (1, Act::Try(1, Mode::SR), Reply::Granted(1)),
    (2, Act::Resolve(Lock::Sales), Reply::Place(1)),
    (2, Act::Begin(1, Mode::X), Reply::Waiting(1)),
    (3, Act::Resolve(Lock::Sales), Reply::Place(1)),
    (3, Act::Begin(1, Mode::SR), Reply::Waiting(1)),
    (3, Act::Poll, Reply::Pending),
    (2, Act::TimeOut, Reply::Done),
    (2, Act::End, Reply::Ended(Ended::Timeout)),
    (3, Act::Poll, Reply::Settled(Settled::Granted)),
    (3, Act::End, Reply::Ended(Ended::Granted(1))),
    (1, Act::Release(1), Reply::Done),
    (3, Act::Release(1), Reply::Done),
];

const CASES: &[Case] = &[
    ("a wish that clashes with nothing is granted", 1, ALONE),
    ("a wish that clashes waits", 1, CLASHING),
    ("a release grants who waits", 1, MAKING_WAY),
    ("a downgrade grants who waits", 1, DOWNGRADED),
    ("a kill settles a wait", 1, KILLED),
    ("a late kill misses", 1, KILLED_LATE),
    ("a session that waits has its tickets", 1, ASKING_MORE),
    ("a lost wait that ends makes way", 1, BEHIND),
];

#[test]
fn sessions_wait(rt: HostRuntime) -> Result<(), Fail> {
    are_right(&rt, Memory::Ample, CASES)
}
