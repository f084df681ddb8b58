//! What the flags of a lock's word must say.

/// What the flags of a lock's word must say of its lists, for sessions that take fast tickets.
#[derive(Clone, Copy, Debug, PartialEq, Eq)]
pub struct Needs {
    /// Whether a granted or a waiting ticket is obtrusive.
    pub obtrusive: bool,
    /// Whether there is a ticket, granted or waiting.
    pub slow: bool,
}
