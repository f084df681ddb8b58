//! Requests for locks, and the answers to them.
use mdl_key::{Duration, Key, Mode};
use mdl_space::{Settled, TicketId};

/// A request for a lock.
///
/// After MySQL 5.7, `MDL_request` of `sql/mdl.h`.
#[derive(Clone, Copy)]
pub struct Request<'a> {
    /// The key to lock.
    pub key: &'a Key,
    /// The mode in which to lock it.
    pub mode: Mode,
    /// How long to keep the ticket.
    pub duration: Duration,
}

/// A point in a session's work to which it can go back: the number of tickets it kept then, by duration.
///
/// After MySQL 5.7, `MDL_savepoint` of `sql/mdl.h`.
#[derive(Clone, Copy, Debug, PartialEq, Eq)]
pub struct Mark {
    /// The number of tickets kept for the statement.
    pub statement: usize,
    /// The number of tickets kept for the transaction.
    pub transaction: usize,
}

/// The result of a request for a lock.
#[derive(Clone, Copy, Debug, PartialEq, Eq)]
pub enum Acquire {
    /// The lock is held, by the ticket of this number.
    Acquired(TicketId),
    /// The session has to wait. This is the number of its wait.
    MustWait(u64),
}

/// The result of a request for a lock for which the session doesn't wait.
#[derive(Clone, Copy, Debug, PartialEq, Eq)]
pub enum Tried {
    /// The lock is held, by the ticket of this number.
    Acquired(TicketId),
    /// The lock can't be granted now.
    WouldWait,
}

/// The result of continuing or giving up a wait.
#[derive(Clone, Copy, Debug, PartialEq, Eq)]
pub enum Resume {
    /// The wait isn't settled.
    Waiting,
    /// The lock is held, by the ticket of this number.
    Acquired(TicketId),
    /// The wait has ended without the lock.
    Lost(Settled),
}
