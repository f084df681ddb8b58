//! Why a call of a book is refused.
use thiserror::Error;

/// Why a call of a book is refused. Of several causes the first in this order is returned. A refused call changes nothing.
#[derive(Clone, Copy, Debug, PartialEq, Eq, Error)]
pub enum BookError {
    /// The book has no such ticket.
    #[error("no such ticket")]
    NotHere,
    /// The mode clashes with a granted ticket of another session, or with a fast ticket that the lock's word counts.
    #[error("another session holds the lock in a mode that conflicts")]
    WouldConflict,
    /// The book has 65,535 tickets.
    #[error("the lock has as many tickets as it can have")]
    Full,
    /// Memory ran out.
    #[error("out of memory")]
    OutOfMemory,
}
