//! Why a call of a lock space is refused.
ghost use Rattle.std.specs.Prelude.{◌≡◌};
ghost use Rattle.mdl_calls.specs.Reads.{cause_of};

use mdl_defs::{ChangeError, DefError};
use thiserror::Error;

/// Why a call of a lock space is refused.
///
/// Of several causes the first in this order is returned, except that `WrongKind` comes before `Def`, and `OutOfMemory`
/// may come before any. A refused call changes no held ticket, no definition, no wait and no pin.
#[derive(Clone, Copy, Debug, PartialEq, Eq, Error)]
pub enum SpaceError {
    /// The session doesn't pin the place. Or no place is left for a new key. Or the key of a place was asked for, and the
    /// place has none, or (in the table that threads share) the session doesn't know it.
    #[error("no such place")]
    NoPlace,
    /// The session holds no such ticket.
    #[error("no such ticket is held")]
    NotHeld,
    /// The held mode can't be upgraded to the requested one, or can't be downgraded to it, or the requested mode isn't
    /// one of the place's kind.
    #[error("the held mode can't be changed so")]
    NotUpgradable,
    /// The ticket isn't held in mode `X`, which a change of the definition requires.
    #[error("not locked exclusively")]
    NotExclusive,
    /// The session has a wait that it hasn't ended.
    #[error("the session has a wait")]
    AlreadyWaiting,
    /// The mode isn't one of the place's kind, or the held ticket isn't strong enough to be cloned in it. Or two tickets
    /// can't be merged: they are the same ticket, or of different places, or the one to be released isn't as strong as
    /// the other.
    #[error("not a mode that the ticket can have")]
    BadMode,
    /// The key has had as many versions as it can have.
    #[error("no version is left")]
    VersionFull,
    /// The session has no wait.
    #[error("the session has no wait")]
    NoWait,
    /// The session's wait isn't settled.
    #[error("the wait isn't settled")]
    Unsettled,
    /// The session has used up the numbers of its tickets or its waits.
    #[error("no number is left")]
    CounterFull,
    /// The lock has as many tickets as it can have.
    #[error("the lock has as many tickets as it can have")]
    Full,
    /// The change can't be made to the key's definition.
    #[error("{0}")]
    Def(DefError),
    /// The key can't have a definition of this kind.
    #[error("no definition for such a key")]
    WrongKind,
    /// Memory ran out.
    #[error("out of memory")]
    OutOfMemory,
    /// The session has a ticket or a wait at the place, or (in the table that threads share) owes it a reschedule.
    #[error("the place is in use")]
    InUse,
}

impl From<ChangeError> for SpaceError {
    ghost from_gives = { λ why cause. cause ≡ cause_of why };

    fn from(why: ChangeError) -> SpaceError {
        match why {
            ChangeError::VersionFull => SpaceError::VersionFull,
            ChangeError::WrongKind => SpaceError::WrongKind,
            ChangeError::Def(why) => SpaceError::Def(why),
            ChangeError::OutOfMemory => SpaceError::OutOfMemory,
        }
    }
}
