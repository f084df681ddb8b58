//! Tickets with their locks.
use crate::ticket::Ticket;

/// A ticket at one of the locks examined.
#[derive(Clone, Copy, Debug, PartialEq, Eq)]
pub struct AtLock {
    /// The index of its lock among those examined, counted from 0.
    pub lock: usize,
    /// The ticket.
    pub ticket: Ticket,
}
