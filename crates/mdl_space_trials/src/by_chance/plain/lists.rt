//! What the plain program reads in its lists, and puts there.
use super::{Plain, Ticket, Wait};
use crate::contexts::acts::Lock;
use mdl_context::ContextError;
use mdl_key::Mode;
use mdl_space::{Held, Settled, SpaceError, TicketId};

const NO_MEMORY: ContextError = ContextError::Space(SpaceError::OutOfMemory);

impl Plain {
    /// Whether exactly these are the tickets that a session holds, by rising number: its granted ones, except that of a wait that isn't ended.
    pub(crate) fn holds(&self, who: u16, tickets: &[Held]) -> bool {
        let mut count: usize = 0;
        for ticket in &self.tickets {
            if self.is_held(ticket, who) {
                let wanted = Held {
                    id: ticket.number,
                    place: self.place_of(ticket.lock),
                    mode: ticket.mode,
                };
                match tickets.get(count) {
                    Some(held) if *held == wanted => count = count.wrapping_add(1),
                    _ => return false,
                }
            }
        }
        count == tickets.len()
    }

    /// Returns the number of the ticket at this index among those that a session holds. Past the end it is that of the last.
    pub(crate) fn held_at(&self, who: u16, index: usize) -> Option<TicketId> {
        let mut left = index;
        let mut last = None;
        for ticket in &self.tickets {
            if self.is_held(ticket, who) {
                last = Some(ticket.number);
                if left == 0 {
                    return last;
                }
                left -= 1;
            }
        }
        last
    }

    /// Returns the number of a ticket of a lock that a session holds in mode X.
    pub(crate) fn exclusive(&self, who: u16, lock: Lock) -> Option<TicketId> {
        for ticket in &self.tickets {
            if self.is_held(ticket, who) && ticket.lock == lock && ticket.mode == Mode::X {
                return Some(ticket.number);
            }
        }
        None
    }

    /// Returns a session's wait, if it has one that isn't ended.
    pub(crate) fn wait(&self, who: u16) -> Option<Wait> {
        for seat in &self.seats {
            if seat.session == who {
                return seat.wait;
            }
        }
        None
    }

    // Replaces a session's wait.
    pub(super) fn put_wait(&mut self, who: u16, wait: Option<Wait>) {
        for seat in &mut self.seats {
            if seat.session == who {
                seat.wait = wait;
            }
        }
    }

    // Settles a session's wait.
    pub(super) fn settle(&mut self, who: u16, how: Settled) {
        if let Some(wait) = self.wait(who) {
            let settled = Some(how);
            self.put_wait(who, Some(Wait { settled, ..wait }));
        }
    }

    // Returns the ticket that a session waits for, if its wait isn't settled.
    pub(super) fn wish(&self, who: u16) -> Option<Ticket> {
        match self.wait(who) {
            Some(wait) if wait.settled.is_none() => self.ticket(who, wait.ticket),
            _ => None,
        }
    }

    // Returns the index of a session's ticket with this number. If there is none, it is the number of all tickets.
    pub(super) fn index_of(&self, who: u16, number: TicketId) -> usize {
        for (index, ticket) in self.tickets.iter().enumerate() {
            if ticket.session == who && ticket.number == number {
                return index;
            }
        }
        self.tickets.len()
    }

    // Returns that ticket.
    pub(super) fn ticket(&self, who: u16, number: TicketId) -> Option<Ticket> {
        match self.tickets.get(self.index_of(who, number)) {
            Some(ticket) => Some(*ticket),
            None => None,
        }
    }

    // Whether a session holds a ticket.
    pub(super) fn is_held(&self, ticket: &Ticket, who: u16) -> bool {
        let is_awaited = match self.wait(who) {
            Some(wait) => wait.ticket == ticket.number,
            None => false,
        };
        ticket.session == who && ticket.is_granted && !is_awaited
    }

    // Adds a new ticket of this request, in the last place, and returns its number, which is used up.
    pub(super) fn add(&mut self, wish: Ticket, is_granted: bool) -> Result<TicketId, ContextError> {
        let mut number = 0;
        for seat in &mut self.seats {
            if seat.session == wish.session {
                seat.tickets = seat.tickets.wrapping_add(1);
                number = seat.tickets;
            }
        }
        let ticket = Ticket {
            number,
            is_granted,
            ..wish
        };
        match self.tickets.push(ticket) {
            Ok(()) => Ok(number),
            Err(_) => Err(NO_MEMORY),
        }
    }

    // Begins a session's wait for a ticket, and returns the wait's number, which is the next one.
    pub(super) fn add_wait(&mut self, who: u16, ticket: TicketId) -> u64 {
        let mut number = 0;
        for seat in &mut self.seats {
            if seat.session == who {
                seat.waits = seat.waits.wrapping_add(1);
                number = seat.waits;
                seat.wait = Some(Wait {
                    number,
                    ticket,
                    settled: None,
                });
            }
        }
        number
    }
}
