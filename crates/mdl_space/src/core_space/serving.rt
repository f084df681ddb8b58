//! Granting the waiters of a place.
ghost use Rattle.std.specs.Prelude.{◌≡◌, is_some, true};
ghost use Rattle.std.specs.Option.{option_map};
ghost use Rattle.mdl_book.specs.Tickets.{ticket_id};
ghost use Rattle.mdl_core.specs.Words.{has_key, has_unsettled_wait, next_ready, admitting_if, serving};
ghost use Rattle.mdl_space.specs.SettledWaits.{TellsUnsettled};

use crate::core_space::CoreSpace;
use crate::granting::NO_FAST;
use crate::{Place, Settled};
use mdl_book::Sessions;

impl CoreSpace {
    /// Grants waiters of a place, each time the first in order of arrival that can be granted, until there is none. It takes no memory.
    pub(crate) fn serve(&mut self, place: Place)
        requires { has_key place self.old ≡ true }
        ensures { self.new ≡ serving place self.old }
    {
        let waiting = self.books[usize::from(place) - 1].waiting().len();
        if waiting == 0 {
            return;
        }
        let mut unsettled = self.unsettled_waiters(place);
        for _turn in 0..waiting {
            if !self.serve_next(place, &mut unsettled) {
                return;
            }
        }
    }

    /// Grants the first waiter of a place that can be granted. Returns whether there was one.
    fn serve_next(&mut self, place: Place, unsettled: &mut Sessions) -> bool
        requires key { has_key place self.old ≡ true }
        requires unsettled { TellsUnsettled unsettled.old place self.old }
        ensures found { result ≡ is_some (next_ready place self.old) }
        ensures served { self.new ≡ admitting_if place (next_ready place self.old) self.old }
        ensures unsettled { TellsUnsettled unsettled.new place self.new }
    {
        let Some((who, number)) = self.next_waiter(place, unsettled) else {
            return false;
        };
        let book = &mut self.books[usize::from(place) - 1];
        book.admit(who, number).unwrap();
        self.settle(who, Settled::Granted);
        unsettled.remove(who);
        true
    }

    /// Returns the first waiter of a place that can be granted, as its session and the number of its ticket.
    fn next_waiter(&self, place: Place, unsettled: &Sessions) -> Option<(u16, u64)>
        requires key { has_key place self.now ≡ true }
        requires unsettled { TellsUnsettled unsettled.now place self.now }
        ensures { result ≡ option_map ticket_id (next_ready place self.now) }
    {
        self.books[usize::from(place) - 1].next_grantable(NO_FAST, unsettled)
    }

    /// Returns the sessions that wait at a place and whose waits aren't settled.
    fn unsettled_waiters(&self, place: Place) -> Sessions
        requires { has_key place self.now ≡ true }
        ensures { TellsUnsettled result place self.now }
    {
        let waiting = self.books[usize::from(place) - 1].waiting();
        let mut unsettled = Sessions::new();
        for ticket in waiting {
            if self.has_unsettled_wait(ticket.session) {
                unsettled.insert(ticket.session);
            }
        }
        unsettled
    }

    /// Whether there is a session of this number, and its wait isn't settled.
    fn has_unsettled_wait(&self, who: u16) -> bool
        ensures { result ≡ has_unsettled_wait who self.now }
    {
        if who == 0 || usize::from(who) > self.seats.len() {
            return false;
        }
        self.seats[usize::from(who) - 1].is_waiting()
    }
}
