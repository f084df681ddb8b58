//! Waits that are settled, and how many there are.
ghost use Rattle.std.specs.Prelude.{◌≡◌, true, Some, IsSome};
ghost use Rattle.mdl_core.specs.Changes.{ending_granted, losing};
ghost use Rattle.mdl_core.specs.Seats.{seat_without_wait};
ghost use Rattle.mdl_core.specs.Words.{has_session, seat_at, seating};
ghost use Rattle.mdl_space.specs.SettledWaits.{settled_waits};

use crate::Settled;
use crate::core_space::CoreSpace;
use mdl_core::Pending;

impl CoreSpace {
    /// Returns how many sessions have a wait that is settled and that they haven't ended. It looks at no session.
    pub fn settled_waits(&self) -> usize
        ensures { result ≡ settled_waits self.now.seats }
    {
        self.settled
    }

    /// Settles a session's wait, if it has one.
    pub(crate) fn settle(&mut self, who: u16, how: Settled)
        requires { has_session who self.old ≡ true }
        ensures { self.new ≡ losing who how self.old }
    {
        let seat = &mut self.seats[usize::from(who) - 1];
        if seat.is_waiting() {
            self.settled += 1;
        }
        seat.settle(how);
    }

    /// Ends a session's settled wait with the ticket that it was for. It takes no memory.
    pub(crate) fn take_up(&mut self, who: u16, wait: Pending)
        requires session { has_session who self.old ≡ true }
        requires wait { (seat_at who self.old).wait ≡ Some wait }
        requires settled { IsSome wait.settled }
        ensures { self.new ≡ ending_granted who wait self.old }
    {
        self.seats[usize::from(who) - 1].take_up(wait);
        self.settled -= 1;
    }

    /// Ends a session's wait, if it has one, without a ticket.
    pub(crate) fn drop_wait(&mut self, who: u16)
        requires { has_session who self.old ≡ true }
        ensures { self.new ≡ seating who (seat_without_wait (seat_at who self.old)) self.old }
    {
        let seat = &mut self.seats[usize::from(who) - 1];
        if seat.is_settled() {
            self.settled -= 1;
        }
        seat.drop_wait();
    }
}
