//! Which waiters are granted, in the plain program.
use super::{Plain, Ticket};
use crate::contexts::acts::Lock;
use mdl_key::{conflicts_granted, conflicts_waiting};
use mdl_space::{Settled, TicketId};

impl Plain {
    // Releases a session's ticket, and grants waiters of its lock.
    pub(super) fn let_go(&mut self, who: u16, number: TicketId) {
        let index = self.index_of(who, number);
        if index < self.tickets.len() {
            let gone = self.tickets.remove(index);
            self.serve(gone.lock);
        }
    }

    // Grants waiters of a lock: again and again the first in order of arrival whose wait isn't settled and whose request can be granted, until there is none.
    fn serve(&mut self, lock: Lock) {
        for _grant in 0..self.tickets.len() {
            let index = self.next_waiter(lock);
            let Some(ticket) = self.tickets.get_mut(index) else {
                return;
            };
            ticket.is_granted = true;
            let who = ticket.session;
            self.settle(who, Settled::Granted);
        }
    }

    // Returns the index of the first waiter of a lock, in order of arrival, whose wait isn't settled and whose request can be granted. If there is
    // none, it is the number of all tickets.
    fn next_waiter(&self, lock: Lock) -> usize {
        for (index, ticket) in self.tickets.iter().enumerate() {
            if ticket.lock == lock
                && !ticket.is_granted
                && self.wish(ticket.session).is_some()
                && self.is_grantable(ticket)
            {
                return index;
            }
        }
        self.tickets.len()
    }

    // Whether a request can be granted: it clashes with no granted ticket of another session, and is behind no waiting one.
    pub(super) fn is_grantable(&self, wish: &Ticket) -> bool {
        for other in &self.tickets {
            if other.session != wish.session && other.is_in_the_way_of(wish) {
                return false;
            }
        }
        true
    }
}

impl Ticket {
    // Whether the ticket blocks another session's request.
    pub(super) fn is_in_the_way_of(&self, wish: &Ticket) -> bool {
        let kind = wish.lock.kind();
        if self.lock != wish.lock {
            false
        } else if self.is_granted {
            conflicts_granted(kind, wish.mode, self.mode)
        } else {
            conflicts_waiting(kind, wish.mode, self.mode)
        }
    }
}
