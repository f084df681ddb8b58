//! A list of tickets, counted by mode.
ghost use Rattle.std.specs.Prelude.{◌≡◌, ◌+◌, ◌<◌, ◌≤◌, [], ◌∷◌, ◌++◌, length, OnOk, OnErr, IsOk, is_some, None, ◌==◌, if◌then◌else◌, position, slice_index_or};
ghost use Rattle.std.specs.List.{list_any, remove};
ghost use Rattle.std.specs.Option.{option_map};
ghost use Rattle.mdl_key.specs.Classes.{is_obtrusive};
ghost use Rattle.mdl_book.specs.Granting.{is_compatible, goes_first};
ghost use Rattle.mdl_book.specs.Tickets.{is_ticket, ticket_of, without, with_mode};

use crate::Ticket;
use crate::mode_counts::ModeCounts;
use crate::ticket_queue::TicketQueue;
use mdl_key::{Kind, Mode, conflicts_granted, conflicts_waiting};
use std::alloc::{AllocError, Global};
use std::marker::Model;

/// At most 65,535 tickets, in order, counted by mode.
///
/// The counts decide most requests, however many tickets there are. The tickets are read only if one of their modes blocks
/// the request, as the session's own tickets don't block it.
#[derive(Drop)]
pub(crate) struct TicketList {
    tickets: TicketQueue,
    counts: ModeCounts,
}

impl Model for TicketList {
    ghost use Rattle.std.specs.Prelude.{◌≤◌, length};
    ghost use Rattle.mdl_book.specs.TicketLists.{Roll, CountsModes, MarksModes};

    ghost Value = { Roll };

    ghost view = { λ list. list.tickets };

    ghost invariant = { λ list. record {
      limit : length list.tickets.tickets ≤ 65535;
      counted : CountsModes list.counts.counts list.tickets.tickets;
      marked : MarksModes list.counts.present list.counts.counts;
    } };
}

impl TicketList {
    /// Returns an empty list. It takes no memory.
    pub(crate) fn new(alloc: Global) -> TicketList
        ensures { result.tickets ≡ [] }
    {
        TicketList {
            tickets: TicketQueue::new(alloc),
            counts: ModeCounts::new(),
        }
    }

    /// Returns the tickets, in order.
    pub(crate) fn as_slice(&self) -> &[Ticket]
        ensures { result.now ≡ self.now.tickets }
    {
        self.tickets.as_slice()
    }

    /// Returns how many tickets there are.
    pub(crate) fn len(&self) -> usize
        ensures value { result ≡ length self.now.tickets }
        ensures limit { result ≤ 65535 }
        ensures fits { result ≤ self.now.room }
    {
        self.tickets.len()
    }

    /// Whether there is no ticket.
    pub(crate) fn is_empty(&self) -> bool
        ensures { result ≡ (length self.now.tickets == 0) }
    {
        self.tickets.len() == 0
    }

    /// Whether there is a ticket of this session and number.
    pub(crate) fn contains(&self, session: u16, number: u64) -> bool
        ensures { result ≡ is_some (ticket_of session number self.now.tickets) }
    {
        place_of(self.tickets.as_slice(), session, number).is_some()
    }

    /// Makes room for that many more tickets.
    #[inline]
    pub(crate) fn reserve(&mut self, more: usize) -> Result<(), AllocError>
        ensures tickets { self.new.tickets ≡ self.old.tickets }
        ensures ok { OnOk result (length self.new.tickets + more ≤ self.new.room) }
        ensures room { self.old.room ≤ self.new.room }
        ensures succeeds { length self.old.tickets + more ≤ self.old.room → IsOk result }
        ensures err { OnErr result (self.new ≡ self.old) }
    {
        self.tickets.reserve(more)
    }

    /// Adds a ticket at the end.
    #[inline]
    pub(crate) fn push(&mut self, ticket: Ticket) -> Result<(), AllocError>
        requires { length self.old.tickets < 65535 }
        ensures ok { OnOk result (self.new.tickets ≡ self.old.tickets ++ ticket ∷ []) }
        ensures room { self.old.room ≤ self.new.room }
        ensures succeeds { length self.old.tickets < self.old.room → IsOk result }
        ensures err { OnErr result (self.new ≡ self.old) }
    {
        self.reserve(1)?;
        self.push_reserved(ticket);
        Ok(())
    }

    /// Adds a ticket at the end, where there must be room. It takes no memory.
    #[inline]
    pub(crate) fn push_reserved(&mut self, ticket: Ticket)
        requires limit { length self.old.tickets < 65535 }
        requires room { length self.old.tickets < self.old.room }
        ensures tickets { self.new.tickets ≡ self.old.tickets ++ ticket ∷ [] }
        ensures room { self.new.room ≡ self.old.room }
    {
        self.counts.add(ticket.mode);
        self.tickets.push_reserved(ticket);
    }

    /// Removes the first ticket of this session and number, and returns it.
    #[inline]
    pub(crate) fn take(&mut self, session: u16, number: u64) -> Option<Ticket>
        ensures answer { result ≡ ticket_of session number self.old.tickets }
        ensures tickets { self.new.tickets ≡ without session number self.old.tickets }
        ensures len { length self.new.tickets + (if is_some result then 1 else 0) ≡ length self.old.tickets }
        ensures room { self.new.room ≡ self.old.room }
        ensures unchanged { result ≡ None → self.new ≡ self.old }
    {
        let at = place_of(self.tickets.as_slice(), session, number)?;
        Some(self.take_at(at))
    }

    /// Removes the ticket at an index, and returns it.
    #[inline]
    pub(crate) fn take_at(&mut self, at: usize) -> Ticket
        requires { at < length self.old.tickets }
        ensures value { result ≡ slice_index_or self.old.tickets at result }
        ensures tickets { self.new.tickets ≡ remove self.old.tickets at }
        ensures len { length self.new.tickets + 1 ≡ length self.old.tickets }
        ensures room { self.new.room ≡ self.old.room }
    {
        let ticket = self.tickets.remove(at);
        self.counts.subtract(ticket.mode);
        ticket
    }

    /// Changes the mode of the first ticket of this session and number, and returns the mode that it had.
    pub(crate) fn set_mode(&mut self, session: u16, number: u64, mode: Mode) -> Option<Mode>
        ensures answer { result ≡ option_map (λ ticket. ticket.mode) (ticket_of session number self.old.tickets) }
        ensures tickets { self.new.tickets ≡ with_mode session number mode self.old.tickets }
        ensures len { length self.new.tickets ≡ length self.old.tickets }
        ensures room { self.new.room ≡ self.old.room }
    {
        let at = place_of(self.tickets.as_slice(), session, number)?;
        let ticket = self.tickets.get(at);
        self.tickets.replace(at, Ticket { mode, ..ticket });
        self.counts.subtract(ticket.mode);
        self.counts.add(mode);
        Some(ticket.mode)
    }

    /// Whether a session's request for a mode clashes with no ticket of another session.
    #[inline]
    pub(crate) fn all_stand_beside(&self, kind: Kind, session: u16, mode: Mode) -> bool
        ensures { result ≡ is_compatible kind self.now.tickets session mode }
    {
        self.counts.none_clashes(kind, mode)
            || self.tickets.as_slice().iter().all(|held| held.session == session
                || !conflicts_granted(kind, mode, held.mode))
    }

    /// Whether a session's request for a mode waits behind no ticket of another session.
    #[inline]
    pub(crate) fn all_overtaken(&self, kind: Kind, session: u16, mode: Mode) -> bool
        ensures { result ≡ goes_first kind self.now.tickets session mode }
    {
        self.counts.none_goes_before(kind, mode)
            || self.tickets.as_slice().iter().all(|pending| pending.session == session
                || !conflicts_waiting(kind, mode, pending.mode))
    }

    /// Whether one of the tickets is obtrusive.
    pub(crate) fn has_obtrusive(&self, kind: Kind) -> bool
        ensures { result ≡ list_any (λ ticket. is_obtrusive kind ticket.mode) self.now.tickets }
    {
        !self.counts.none_obtrusive(kind)
    }
}

// Returns the index of the first ticket of this session and number.
#[inline]
fn place_of(tickets: &[Ticket], session: u16, number: u64) -> Option<usize>
    ensures { result ≡ position (is_ticket session number) tickets.now }
{
    tickets.iter().position(|ticket| ticket.session == session && ticket.number == number)
}
