//! The places that a session owes a reschedule.
ghost use Rattle.std.specs.Prelude.{◌≡◌, ◌==◌};
ghost use Rattle.std.specs.List.{list_any};

use crate::Session;
use mdl_calls::Place;

impl<R> Session<R> {
    /// Whether the session owes a place a [`Session::reschedule`]: a [`Session::release_fast`] there found that tickets may wait, and the
    /// session hasn't rescheduled the place since. It takes no memory.
    pub fn owes(&self, place: Place) -> bool
        ensures { result ≡ list_any (λ p. p == place) self.now.me.0.owes }
    {
        self.member.tickets.owes(usize::from(place))
    }
}
