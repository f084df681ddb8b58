//! What a session's own lists say about modes and numbers.
ghost use Rattle.std.specs.Prelude.{◌≡◌, true};
ghost use Rattle.mdl_visits.specs.KnownLists.{has_pin};
ghost use Rattle.mdl_shared.specs.Modes.{is_fit};

use crate::member::Member;
use mdl_key::Mode;

// The greatest number of a ticket.
pub(crate) const MOST_NUMBERS: u64 = (1 << 60) - 1;

impl Member {
    /// Whether the mode is one of the kind of the lock at a pinned place.
    pub(crate) fn is_fit(&self, place: usize, mode: Mode) -> bool
        requires pinned { has_pin place self.now.known.pins ≡ true }
        ensures { result ≡ is_fit place mode self.now.known.known }
    {
        self.known.kind_at(place).has_mode(mode)
    }
}
