//! A list of tickets from which the first one is cheap to remove.
ghost use Rattle.std.specs.Prelude.{◌≡◌, ◌+◌, ◌<◌, ◌≤◌, [], ◌∷◌, ◌++◌, length, drop, slice_set, slice_index_or, OnOk, OnErr, IsOk};
ghost use Rattle.std.specs.List.{remove};
ghost use Rattle.smallvec.specs.SmallVec.{small_vec_len};

use crate::Ticket;
use smallvec::SmallVec;
use std::alloc::{AllocError, Global};
use std::marker::Model;

// How many tickets a list can have without an allocation.
const INLINE_TICKETS: usize = 2;

/// Tickets in order. Removing the first of many costs no more than removing the only one.
#[derive(Drop)]
pub(crate) struct TicketQueue {
    tickets: SmallVec<Ticket, INLINE_TICKETS>,
    // How many tickets at the front were removed, but are still stored there.
    gone: usize,
}

impl Model for TicketQueue {
    ghost use Rattle.std.specs.Prelude.{◌≤◌, drop};
    ghost use Rattle.smallvec.specs.SmallVec.{small_vec_len};
    ghost use Rattle.mdl_book.specs.TicketLists.{Roll};

    ghost Value = { Roll };

    ghost view = { λ queue. record { tickets = drop queue.gone queue.tickets.items; room = queue.tickets.capacity } };

    ghost invariant = { λ queue. queue.gone ≤ small_vec_len queue.tickets };
}

impl TicketQueue {
    /// Returns an empty list. It takes no memory.
    pub(crate) fn new(alloc: Global) -> TicketQueue
        ensures { result.tickets ≡ [] }
    {
        TicketQueue {
            tickets: SmallVec::new(alloc),
            gone: 0,
        }
    }

    /// Returns the tickets, in order.
    #[inline]
    pub(crate) fn as_slice(&self) -> &[Ticket]
        ensures { result.now ≡ self.now.tickets }
    {
        &self.tickets.as_slice()[self.gone..]
    }

    /// Returns how many tickets there are.
    #[inline]
    pub(crate) fn len(&self) -> usize
        ensures value { result ≡ length self.now.tickets }
        ensures fits { result ≤ self.now.room }
    {
        self.tickets.len() - self.gone
    }

    /// Returns the ticket at an index.
    pub(crate) fn get(&self, at: usize) -> Ticket
        requires { at < length self.now.tickets }
        ensures { result ≡ slice_index_or self.now.tickets at result }
    {
        self.as_slice()[at]
    }

    /// Makes room for that many more tickets.
    #[inline]
    pub(crate) fn reserve(&mut self, more: usize) -> Result<(), AllocError>
        ensures tickets { self.new.tickets ≡ self.old.tickets }
        ensures ok { OnOk result (length self.new.tickets + more ≤ self.new.room) }
        ensures room { self.old.room ≤ self.new.room }
        ensures succeeds { length self.old.tickets + more ≤ self.old.room → IsOk result }
        ensures err { OnErr result (self.new ≡ self.old) }
    {
        if self.tickets.capacity() - self.tickets.len() < more {
            close_gap(&mut self.tickets, &mut self.gone);
        }
        self.tickets.reserve(more)
    }

    /// Adds a ticket at the end, where there must be room. It takes no memory.
    #[inline]
    pub(crate) fn push_reserved(&mut self, ticket: Ticket)
        requires { length self.old.tickets < self.old.room }
        ensures tickets { self.new.tickets ≡ self.old.tickets ++ ticket ∷ [] }
        ensures room { self.new.room ≡ self.old.room }
    {
        if self.tickets.len() == self.tickets.capacity() {
            close_gap(&mut self.tickets, &mut self.gone);
        }
        self.tickets.push_reserved(ticket);
    }

    /// Removes the ticket at an index, and returns it.
    #[inline]
    pub(crate) fn remove(&mut self, at: usize) -> Ticket
        requires { at < length self.old.tickets }
        ensures value { result ≡ slice_index_or self.old.tickets at result }
        ensures tickets { self.new.tickets ≡ remove self.old.tickets at }
        ensures len { length self.new.tickets + 1 ≡ length self.old.tickets }
        ensures room { self.new.room ≡ self.old.room }
    {
        let first = self.tickets.as_slice()[self.gone];
        if at == 0 {
            self.gone += 1;
            if self.gone == self.tickets.len() {
                self.tickets.truncate(0);
                self.gone = 0;
            }
            return first;
        }
        self.tickets.remove(self.gone + at)
    }

    /// Replaces the ticket at an index.
    pub(crate) fn replace(&mut self, at: usize, ticket: Ticket)
        requires { at < length self.old.tickets }
        ensures tickets { self.new.tickets ≡ slice_set self.old.tickets at ticket }
        ensures room { self.new.room ≡ self.old.room }
    {
        self.tickets.as_mut_slice()[self.gone + at] = ticket;
    }
}

// Moves the tickets to the front.
fn close_gap(tickets: &mut SmallVec<Ticket, INLINE_TICKETS>, gone: &mut usize)
    requires { gone.old ≤ small_vec_len tickets.old }
    ensures tickets { tickets.new.items ≡ drop gone.old tickets.old.items }
    ensures capacity { tickets.new.capacity ≡ tickets.old.capacity }
    ensures gone { gone.new ≡ 0 }
{
    let live = tickets.len() - *gone;
    tickets.as_mut_slice().copy_within(*gone.., 0);
    tickets.truncate(live);
    *gone = 0;
}
