//! What the calls of a lock space return.
use mdl_key::Mode;

/// The place of a key in a lock space, from 1.
pub type Place = u16;

/// The number that a session gave a ticket, from 1.
pub type TicketId = u64;

/// A ticket that a session holds: its lock on the key of a place, in a mode.
///
/// After MySQL 5.7, `MDL_ticket` of `sql/mdl.h`.
#[derive(Clone, Copy, Debug, PartialEq, Eq)]
pub struct Held {
    /// The number that the session gave the ticket.
    pub id: TicketId,
    /// The place of the key that is locked.
    pub place: Place,
    /// The mode in which it is locked.
    pub mode: Mode,
}

/// The result of `LockSpace::try_now`, a request for a lock without waiting.
#[derive(Clone, Copy, Debug, PartialEq, Eq)]
pub enum Attempt {
    /// The lock is held, by the ticket of this number.
    Granted(TicketId),
    /// The lock can't be granted now. Nothing has changed.
    WouldWait,
}

/// The result of `LockSpace::begin_wait`, a request for a lock that waits if the lock can't be granted now.
#[derive(Clone, Copy, Debug, PartialEq, Eq)]
pub enum Begun {
    /// The lock is held, by the ticket of this number.
    Granted(TicketId),
    /// The session waits, with a wait of this number.
    Waiting(u64),
}

/// The result of `LockSpace::upgrade_now`, a request for a stronger mode of a held ticket without waiting.
#[derive(Clone, Copy, Debug, PartialEq, Eq)]
pub enum Upgrade {
    /// The ticket's mode is now at least as strong as the requested one.
    Upgraded,
    /// The mode can't be granted now. Nothing has changed.
    WouldWait,
}

/// How a wait is settled. A settled wait stays so until it is ended.
///
/// After MySQL 5.7, `MDL_wait::enum_wait_status` of `sql/mdl.h`.
#[derive(Clone, Copy, Debug, PartialEq, Eq)]
pub enum Settled {
    /// The lock was granted.
    Granted,
    /// The session was chosen as the victim of a deadlock.
    Victim,
    /// The wait timed out, by `LockSpace::settle_timeout`.
    Timeout,
    /// The wait was killed, by `LockSpace::kill`.
    Killed,
}

/// The result of a search for a deadlock.
#[derive(Clone, Copy, Debug, PartialEq, Eq)]
pub enum Search {
    /// The session is part of no cycle.
    NoCycle,
    /// The session is part of a cycle. The session of this number is its victim, whose wait is now settled.
    Victim(u16),
}

/// The state of a wait.
#[derive(Clone, Copy, Debug, PartialEq, Eq)]
pub enum Poll {
    /// Not settled.
    Pending,
    /// Settled, in this way.
    Settled(Settled),
}

/// The result of `LockSpace::settle_timeout`.
#[derive(Clone, Copy, Debug, PartialEq, Eq)]
pub enum TimedOut {
    /// The wait is settled as a timeout, by this call.
    ByThisCall,
    /// The wait was settled before, in this way.
    Already(Settled),
}

/// How a wait ended.
#[derive(Clone, Copy, Debug, PartialEq, Eq)]
pub enum Ended {
    /// The lock is held, by the ticket of this number.
    Granted(TicketId),
    /// Lost: the session was the victim of a deadlock.
    Victim,
    /// Lost: the wait timed out.
    Timeout,
    /// Lost: the wait was killed.
    Killed,
}
