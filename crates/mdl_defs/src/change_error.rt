//! Why a key's definition can't be changed.
use crate::DefError;
use thiserror::Error;

/// Why a key's definition can't be changed. Of several causes [`VersionedDefinition::change`](crate::VersionedDefinition::change) returns the first
/// in this order. A refused call changes nothing.
#[derive(Clone, Copy, Debug, PartialEq, Eq, Error)]
pub enum ChangeError {
    /// The key already has the greatest version that it can have.
    #[error("no version is left")]
    VersionFull,
    /// The key can't have a definition of this kind.
    #[error("no definition for such a key")]
    WrongKind,
    /// The definition can't be changed in this way.
    #[error("{0}")]
    Def(DefError),
    /// Memory ran out.
    #[error("out of memory")]
    OutOfMemory,
}
