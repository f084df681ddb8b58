//! Why a lock space can't be made.
use thiserror::Error;

/// Why a lock space can't be made. Of several causes the first in this order is returned.
#[derive(Clone, Copy, Debug, PartialEq, Eq, Error)]
pub enum NewError {
    /// A space has 1 to [`MOST_PLACES`](mdl_key::MOST_PLACES) places.
    #[error("not a number of places")]
    BadPlaces,
    /// A space has 1 to [`MOST_SESSIONS`](mdl_key::MOST_SESSIONS) sessions.
    #[error("not a number of sessions")]
    BadSessions,
    /// Memory ran out.
    #[error("out of memory")]
    OutOfMemory,
}
