//! Tickets get weaker modes and stronger ones, are cloned and merged.
use crate::shared::acts::{Act, Lock, Memory, Reply};
use crate::shared::rows::{Case, Row, are_right};
use mdl_calls::SpaceError;
use mdl_key::Mode;
use std::test::Fail;

const NOT_HELD: Reply = Reply::Refused(SpaceError::NotHeld);

const NOT_UPGRADABLE: Reply = Reply::Refused(SpaceError::NotUpgradable);

const BAD_MODE: Reply = Reply::Refused(SpaceError::BadMode);

// Modes that don't clash with the weaker mode are granted beside it at once.
const DOWNGRADES: &[Row] = &[
    (1, Act::Resolve(Lock::Sales), Reply::Place(1)),
    (2, Act::Resolve(Lock::Sales), Reply::Place(1)),
    (1, Act::Try(1, Mode::X), Reply::Granted(1)),
    (2, Act::Try(1, Mode::SR), Reply::WouldWait),
    (1, Act::Downgrade(1, Mode::SNW), Reply::Done),
    (2, Act::Try(1, Mode::SR), Reply::Granted(1)),
    (2, Act::Try(1, Mode::SW), Reply::WouldWait),
    (1, Act::Downgrade(1, Mode::SU), Reply::Done),
    (2, Act::Try(1, Mode::SW), Reply::Granted(2)),
    (2, Act::Try(1, Mode::SU), Reply::WouldWait),
    (1, Act::Release(1), Reply::Done),
    (2, Act::Release(1), Reply::Done),
    (2, Act::Release(2), Reply::Done),
];

// A schema's lock has none of the modes to which X may be downgraded.
const NO_DOWNGRADES: &[Row] = &[
    (1, Act::Resolve(Lock::Sales), Reply::Place(1)),
    (1, Act::Resolve(Lock::Shop), Reply::Place(2)),
    (1, Act::Downgrade(1, Mode::SU), NOT_HELD),
    (1, Act::Try(1, Mode::SNRW), Reply::Granted(1)),
    (1, Act::Try(2, Mode::X), Reply::Granted(2)),
    (1, Act::Downgrade(1, Mode::SNW), NOT_UPGRADABLE),
    (1, Act::Downgrade(1, Mode::X), NOT_UPGRADABLE),
    (1, Act::Downgrade(2, Mode::SU), NOT_UPGRADABLE),
    (1, Act::Downgrade(3, Mode::SU), NOT_HELD),
    (1, Act::Release(1), Reply::Done),
    (1, Act::Release(2), Reply::Done),
];

// A clone keeps the lock when the first ticket is released. It is granted even if others hold weaker modes.
const CLONES: &[Row] = &[
    (1, Act::Resolve(Lock::Sales), Reply::Place(1)),
    (2, Act::Resolve(Lock::Sales), Reply::Place(1)),
    (1, Act::Try(1, Mode::SNW), Reply::Granted(1)),
    (2, Act::Try(1, Mode::SR), Reply::Granted(1)),
    (1, Act::Clone(1, Mode::SU), Reply::Granted(2)),
    (2, Act::Try(1, Mode::SW), Reply::WouldWait),
    (1, Act::Release(1), Reply::Done),
    (2, Act::Try(1, Mode::SW), Reply::Granted(2)),
    (2, Act::Try(1, Mode::SU), Reply::WouldWait),
    (1, Act::Clone(2, Mode::SU), Reply::Granted(3)),
    (1, Act::Release(2), Reply::Done),
    (1, Act::Release(3), Reply::Done),
    (2, Act::Try(1, Mode::SU), Reply::Granted(3)),
    (2, Act::Release(1), Reply::Done),
    (2, Act::Release(2), Reply::Done),
    (2, Act::Release(3), Reply::Done),
];

// A schema's lock has none of the modes of a table's, and a clone is no stronger than its ticket.
const NO_CLONES: &[Row] = &[
    (1, Act::Resolve(Lock::Sales), Reply::Place(1)),
    (1, Act::Resolve(Lock::Shop), Reply::Place(2)),
    (1, Act::Clone(1, Mode::S), NOT_HELD),
    (1, Act::Try(1, Mode::SNW), Reply::Granted(1)),
    (1, Act::Try(2, Mode::X), Reply::Granted(2)),
    (1, Act::Clone(1, Mode::X), BAD_MODE),
    (1, Act::Clone(1, Mode::IX), BAD_MODE),
    (1, Act::Clone(2, Mode::SR), BAD_MODE),
    (1, Act::Clone(2, Mode::IX), Reply::Granted(3)),
    (1, Act::Release(1), Reply::Done),
    (1, Act::Release(2), Reply::Done),
    (1, Act::Release(3), Reply::Done),
];

// After a merge the first ticket has the mode of the second, and the second is removed.
const MERGES: &[Row] = &[
    (1, Act::Resolve(Lock::Sales), Reply::Place(1)),
    (2, Act::Resolve(Lock::Sales), Reply::Place(1)),
    (1, Act::Try(1, Mode::SU), Reply::Granted(1)),
    (1, Act::Try(1, Mode::X), Reply::Granted(2)),
    (1, Act::Merge(1, 2), Reply::Done),
    (1, Act::Release(2), NOT_HELD),
    (2, Act::Try(1, Mode::S), Reply::WouldWait),
    (1, Act::Downgrade(1, Mode::SU), Reply::Done),
    (2, Act::Try(1, Mode::S), Reply::Granted(1)),
    (1, Act::Release(1), Reply::Done),
    (2, Act::Release(1), Reply::Done),
];

// Only two tickets of one place are merged, and only if the released one is as strong as the other.
const NO_MERGES: &[Row] = &[
    (1, Act::Resolve(Lock::Sales), Reply::Place(1)),
    (1, Act::Resolve(Lock::Orders), Reply::Place(2)),
    (1, Act::Merge(1, 2), NOT_HELD),
    (1, Act::Try(1, Mode::SU), Reply::Granted(1)),
    (1, Act::Merge(1, 2), NOT_HELD),
    (1, Act::Merge(2, 1), NOT_HELD),
    (1, Act::Merge(1, 1), BAD_MODE),
    (1, Act::Try(1, Mode::SR), Reply::Granted(2)),
    (1, Act::Try(2, Mode::X), Reply::Granted(3)),
    (1, Act::Merge(1, 2), BAD_MODE),
    (1, Act::Merge(1, 3), BAD_MODE),
    (1, Act::Release(1), Reply::Done),
    (1, Act::Release(2), Reply::Done),
    (1, Act::Release(3), Reply::Done),
];

// A stronger mode is granted at once if no other session blocks it, and blocks the others then. A session doesn't block itself.
const UPGRADES: &[Row] = &[
    (1, Act::Resolve(Lock::Sales), Reply::Place(1)),
    (2, Act::Resolve(Lock::Sales), Reply::Place(1)),
    (1, Act::Try(1, Mode::SU), Reply::Granted(1)),
    (1, Act::Try(1, Mode::SR), Reply::Granted(2)),
    (2, Act::Try(1, Mode::SR), Reply::Granted(1)),
    (1, Act::Upgrade(1, Mode::X), Reply::WouldWait),
    (1, Act::Upgrade(1, Mode::SNW), Reply::Upgraded),
    (2, Act::Try(1, Mode::SW), Reply::WouldWait),
    (1, Act::Upgrade(1, Mode::SNRW), Reply::WouldWait),
    (2, Act::Release(1), Reply::Done),
    (1, Act::Upgrade(1, Mode::X), Reply::Upgraded),
    (2, Act::Try(1, Mode::S), Reply::WouldWait),
    (1, Act::Release(1), Reply::Done),
    (2, Act::Try(1, Mode::S), Reply::Granted(2)),
    (1, Act::Release(2), Reply::Done),
    (2, Act::Release(2), Reply::Done),
];

// A reader's ticket can't be upgraded to X. An upgrade to a mode that the held one covers succeeds.
const NO_UPGRADES: &[Row] = &[
    (1, Act::Resolve(Lock::Sales), Reply::Place(1)),
    (1, Act::Upgrade(1, Mode::X), NOT_HELD),
    (1, Act::Try(1, Mode::SR), Reply::Granted(1)),
    (1, Act::Upgrade(1, Mode::X), NOT_UPGRADABLE),
    (1, Act::Upgrade(1, Mode::S), Reply::Upgraded),
    (1, Act::Try(1, Mode::X), Reply::Granted(2)),
    (1, Act::Upgrade(2, Mode::SNW), Reply::Upgraded),
    (1, Act::Upgrade(2, Mode::IX), NOT_UPGRADABLE),
    (1, Act::Release(2), Reply::Done),
    (1, Act::Upgrade(2, Mode::X), NOT_HELD),
    (1, Act::Release(1), Reply::Done),
];

const CASES: &[Case] = &[
    ("a downgraded ticket lets others in", 1, DOWNGRADES),
    ("other modes are no downgrades", 2, NO_DOWNGRADES),
    ("a clone outlives its ticket", 1, CLONES),
    ("no clone is stronger", 2, NO_CLONES),
    ("merged tickets are one", 1, MERGES),
    ("others are not merged", 2, NO_MERGES),
    ("an upgrade is had at once or not at all", 1, UPGRADES),
    (
        "an upgrade that cannot be asked for is refused",
        1,
        NO_UPGRADES,
    ),
];

#[test]
fn tickets_get_other_modes(rt: HostRuntime) -> Result<(), Fail> {
    are_right(&rt, Memory::Ample, CASES)
}
