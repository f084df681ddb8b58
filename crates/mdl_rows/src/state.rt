//! A session's state beside its tickets.
use mdl_context::Mark;
use mdl_key::Key;
use mdl_space::TicketId;
use mdl_syntax::Name;

/// A table that LOCK TABLES locked.
#[derive(Drop)]
pub struct Locked {
    /// The table.
    pub key: Key,
    /// Whether it is locked for writing, not only for reading.
    pub may_write: bool,
    /// The ticket by which it is locked.
    pub ticket: TicketId,
}

/// The global read lock: no other session can write or change definitions, or commit what it wrote.
#[derive(Clone, Copy)]
pub struct ReadLock {
    /// The ticket of the GLOBAL lock.
    pub global: TicketId,
    /// The ticket of the COMMIT lock, once it is held too.
    pub commit: Option<TicketId>,
}

/// A savepoint of a transaction.
#[derive(Drop)]
pub struct Savepoint {
    /// Its name.
    pub name: Name,
    /// The session's mark at the savepoint.
    pub mark: Mark,
}
