//! Why a key has no place.
use thiserror::Error;

/// Why a key has no place. A refused call gives no key a place.
#[derive(Clone, Copy, Debug, PartialEq, Eq, Error)]
pub enum ResolveError {
    /// Each place is in use, and this key has none.
    #[error("no place is left")]
    NoPlace,
    /// Memory ran out.
    #[error("out of memory")]
    OutOfMemory,
}
