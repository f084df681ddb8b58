//! How statements end.
use crate::{ErrorNumber, Reply};

/// How a statement ends.
#[derive(Drop)]
pub enum Ending {
    /// The statement was done, or one of its checks failed.
    Answers(Reply),
    /// The statement didn't get a lock that it requested, and fails with this error.
    Misses(ErrorNumber),
    /// The session was the victim of a deadlock, in a wait for a lock that isn't a user-level lock.
    Falls,
    /// The statement ran out of memory.
    Starves,
}
