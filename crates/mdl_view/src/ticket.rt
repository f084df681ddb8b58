//! Tickets.
use crate::lock_mode::LockMode;

/// A ticket of a lock: its session holds the lock, or waits for it.
///
/// After MySQL 5.7, `MDL_ticket` of `sql/mdl.h`.
#[derive(Clone, Copy, Debug, PartialEq, Eq)]
pub struct Ticket {
    /// The number of the ticket: of rows, that of its line.
    pub number: u64,
    /// The session, numbered from 1.
    pub session: usize,
    /// The mode that is held or requested.
    pub mode: LockMode,
    /// Whether the ticket goes if the session's statement is killed: the request of a waiting ticket does, and what the statement itself has
    /// acquired.
    pub of_statement: bool,
}
