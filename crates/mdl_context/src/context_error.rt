//! Why a call of a context is refused.
use mdl_space::SpaceError;
use thiserror::Error;

/// Why a call of a context is refused. If there are several causes, the call returns the first in this order.
///
/// A refused call leaves the kept tickets and the wait unchanged, except in two cases, in which it ends the wait: a search for
/// deadlocks runs out of memory, or the second ticket of an upgrade is granted but can't be merged into the first.
#[derive(Clone, Copy, Debug, PartialEq, Eq, Error)]
pub enum ContextError {
    /// The context keeps fewer tickets of a duration than the mark counted.
    #[error("the savepoint's tickets are gone")]
    StaleSavepoint,
    /// The context keeps no such ticket.
    #[error("no such ticket is held")]
    NotHeld,
    /// The context has a wait that it hasn't ended.
    #[error("the session waits")]
    Waiting,
    /// The lock space refused a call.
    #[error("{0}")]
    Space(SpaceError),
}
