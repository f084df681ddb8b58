//! Which tickets a context releases.
ghost use Rattle.std.specs.Prelude.{◌≡◌};
ghost use Rattle.mdl_context.specs.Goings.{goes};

use crate::Kept;
use mdl_key::Duration;
use mdl_space::{Place, TicketId};

/// Which tickets to release.
#[derive(Clone, Copy)]
pub(crate) enum Going {
    /// The tickets of a duration, from this number on.
    From(Duration, TicketId),
    /// The tickets at a place.
    At(Place),
}

impl Going {
    /// Whether a ticket is to be released.
    pub(crate) fn names(&self, ticket: &Kept) -> bool
        ensures { result ≡ goes self.now ticket.now }
    {
        match self {
            Going::From(duration, id) => ticket.lasts(*duration) && *id <= ticket.id,
            Going::At(place) => ticket.place == *place,
        }
    }
}
