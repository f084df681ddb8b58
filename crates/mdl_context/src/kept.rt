//! A context's entries for a ticket and for a wait.
ghost use Rattle.std.specs.Prelude.{◌≡◌, false};
ghost use Rattle.mdl_context.specs.Contexts.{held_of, lasts};
ghost use Rattle.mdl_context.specs.Holdings.{wanted_upgrade};

use mdl_key::{Duration, Mode};
use mdl_space::{Held, Place, TicketId};

/// A ticket that a session holds, with its duration.
#[derive(Drop)]
pub struct Kept {
    /// The number that the session gave the ticket.
    pub id: TicketId,
    /// The place of the key that is locked.
    pub place: Place,
    /// The mode in which it is locked.
    pub mode: Mode,
    /// How long the ticket is kept.
    pub duration: Duration,
}

impl Kept {
    /// The ticket as the lock space shows it.
    pub(crate) fn held(&self) -> Held
        ensures { result ≡ held_of self.now }
    {
        Held {
            id: self.id,
            place: self.place,
            mode: self.mode,
        }
    }

    /// The wait by which this ticket is upgraded to a mode. No search for deadlocks was made for it yet.
    pub(crate) fn upgrade_wish(&self, mode: Mode) -> Wanted
        ensures { result ≡ wanted_upgrade self.now mode false }
    {
        Wanted {
            place: self.place,
            mode,
            duration: self.duration,
            upgrades: Some(self.id),
            searched: false,
        }
    }

    /// Whether the ticket is kept for this duration.
    pub(crate) fn lasts(&self, duration: Duration) -> bool
        ensures { result ≡ lasts duration self.now }
    {
        self.duration == duration
    }
}

/// A ticket that a session waits for.
#[derive(Clone, Copy, Debug, PartialEq, Eq)]
pub struct Wanted {
    /// The place of the key to lock.
    pub place: Place,
    /// The mode in which to lock it.
    pub mode: Mode,
    /// How long to keep the ticket.
    pub duration: Duration,
    /// The held ticket to upgrade, if the wait is for an upgrade. Once the new ticket is granted, it is merged into this
    /// one.
    pub upgrades: Option<TicketId>,
    /// Whether the searches for deadlocks are over. If not, they were cut off, and the next `Context::resume` continues
    /// them.
    pub searched: bool,
}
