//! The tickets that a context keeps, the places that it knows, and its wait.
ghost use Rattle.std.specs.Prelude.{◌≡◌, ◌⊎◌, ℕ, List, true, false, Some, None, [], ◌∷◌, ◌++◌, if◌then◌else◌, map, filter, find, length, is_some, OnOk, OnErr, slice_get, position, take, not, ◌-◌, ◌<◌, ◌≤◌};
ghost use Rattle.std.specs.Vec.{vec_capacity};
ghost use Rattle.std.specs.Option.{option_copied, option_map};
ghost use Rattle.std.specs.List.{list_any};
ghost use Rattle.mdl_key.specs.declared.mode.Duration.TheVariants.{Explicit};
ghost use Rattle.mdl_key.specs.Keys.{KeyName};
ghost use Rattle.mdl_calls.specs.SessionLocks.{upgraded};
ghost use Rattle.mdl_context.specs.Contexts.{AreRising, covers_at, lasts, tickets_for, has_number, held_of, is_user_lock, last_at, place_known, ticket_kept};
ghost use Rattle.mdl_context.specs.Goings.{goes};
ghost use Rattle.mdl_context.specs.Holdings.{context_of, without_number, is_kept_at, has_ticket_number, IsIndexOf, has_room, earliest, kept_for, lasting, with_duration, in_transaction, transactional, kept_ticket, wanted_of, wanted_upgrade, awaited_upgrade, with_kept_mode, with_wanted, search_over};
ghost use Rattle.mdl_context.specs.Indexes.{has_room_for, ticket_numbers};
ghost use Rattle.mdl_context.specs.declared.spare.Spare.TheVariants.{At};
ghost use Rattle.mdl_context.specs.Spares.{AreMarked, HasOneKey, marks};
ghost use Rattle.mdl_context.specs.Waits.{is_searched};
ghost use Rattle.mdl_context.specs.Terms.{meets, serves_again};
ghost use Rattle.mdl_context.specs.Tidying.{is_needed, tidied, unneeded};

use crate::by_place::ByPlace;
use crate::going::Going;
use crate::known::Known;
use crate::spare::Spare;
use crate::wishes::{Terms, covers};
use crate::{Kept, Wanted};
use mdl_key::{Duration, Key, Mode};
use mdl_space::{Held, Place, TicketId};
use std::alloc::{AllocError, Global};
use std::marker::Model;

/// The tickets that a context keeps, in the order in which the session got them, the keys whose places it knows, and its
/// wait.
///
/// Each request looks up its key once. From then on tickets are found by place, not by key. An index gives the tickets at a
/// place, and a binary search the ticket of a number, unless that is the last one. So neither walks all tickets. While there is
/// a wait, room is reserved for its ticket, so taking it up takes no memory. A mark says where there may be places that aren't
/// needed, so that not all known places are looked at after each release.
#[derive(Drop)]
pub(crate) struct Holdings {
    tickets: Vec<Kept>,
    by_place: ByPlace,
    known: Known,
    wait: Option<Wanted>,
    // Each known place is needed or marked.
    spare: Spare,
}

impl Model for Holdings {
    ghost use Rattle.std.specs.Prelude.{◌≡◌, true, ◌<◌, nat_lt, length};
    ghost use Rattle.std.specs.Option.{IfSome};
    ghost use Rattle.std.specs.Vec.{vec_capacity};
    ghost use Rattle.mdl_context.specs.Holdings.{HoldingsView, IsIndexOf, needs_place};
    ghost use Rattle.mdl_context.specs.Indexes.{has_room_for};
    ghost use Rattle.mdl_context.specs.Spares.{AreMarked};

    ghost Value = { HoldingsView };

    ghost view = { λ holdings. record {
      kept = holdings.tickets.items;
      known = holdings.known;
      index = holdings.by_place;
      wait = holdings.wait;
      has_place = nat_lt (length holdings.tickets.items) (vec_capacity holdings.tickets);
    } };

    ghost invariant = { λ holdings. IsIndexOf holdings.tickets.items holdings.by_place
        × IfSome holdings.wait (λ wanted. (length holdings.tickets.items < vec_capacity holdings.tickets) × (has_room_for wanted.place holdings.by_place ≡ true))
        × AreMarked holdings.spare (needs_place holdings.by_place holdings.wait) holdings.known };
}

impl Holdings {
    /// Creates holdings without tickets, known places or wait. Takes no memory.
    pub(crate) fn new(alloc: Global) -> Holdings
        ensures kept { result.kept ≡ [] }
        ensures known { result.known ≡ [] }
        ensures wait { result.wait ≡ None }
    {
        Holdings {
            tickets: Vec::new(alloc),
            by_place: ByPlace::new(alloc),
            known: Known::new(alloc),
            wait: None,
            spare: Spare::Nowhere,
        }
    }

    /// The tickets, in the order in which the session got them.
    pub(crate) fn tickets(&self) -> &[Kept]
        ensures { result.now ≡ self.now.kept }
    {
        &self.tickets
    }

    /// The wait.
    pub(crate) fn wait(&self) -> Option<Wanted>
        ensures { result ≡ self.now.wait }
    {
        self.wait
    }

    /// Whether there is a wait.
    pub(crate) fn is_waiting(&self) -> bool
        ensures { result ≡ is_some self.now.wait }
    {
        self.wait.is_some()
    }

    /// The ticket that the wait is to upgrade, and the new mode, if there is a wait for an upgrade.
    pub(crate) fn upgrade(&self) -> Option<(TicketId, Mode)>
        ensures { result ≡ awaited_upgrade self.now.wait }
    {
        let wanted = self.wait?;
        let id = wanted.upgrades?;
        Some((id, wanted.mode))
    }

    /// Whether the searches for deadlocks are over, if there is a wait.
    pub(crate) fn is_searched(&self) -> Option<bool>
        ensures { result ≡ is_searched self.now.wait }
    {
        self.wait.as_ref().map(|wanted| wanted.searched)
    }

    /// Notes that the searches for deadlocks are over, if there is a wait.
    pub(crate) fn end_searches(&mut self)
        ensures kept { self.new.kept ≡ self.old.kept }
        ensures known { self.new.known ≡ self.old.known }
        ensures wait { self.new.wait ≡ option_map search_over self.old.wait }
    {
        if let Some(wanted) = &mut self.wait {
            wanted.searched = true;
        }
    }

    /// The place of a key, if it is known.
    pub(crate) fn place_known(&self, key: &Key) -> Option<Place>
        ensures { result ≡ place_known key.now self.now.known }
    {
        self.known.place_of(key)
    }

    /// Whether a place is that of a user-level lock.
    pub(crate) fn is_user_lock(&self, place: Place) -> bool
        ensures { result ≡ is_user_lock self.now.known place }
    {
        self.known.is_user_lock(place)
    }

    /// Remembers the place of a new key.
    pub(crate) fn remember(&mut self, key: &Key, place: Place) -> Result<(), AllocError>
        requires { place_known key.now self.old.known ≡ None }
        ensures done { OnOk result (self.new.known ≡ self.old.known ++ (key.now, place) ∷ []) }
        ensures refused { OnErr result (self.new.known ≡ self.old.known) }
        ensures kept { self.new.kept ≡ self.old.kept }
        ensures wait { self.new.wait ≡ self.old.wait }
    {
        self.known.add(key, place)?;
        self.spare.mark(place);
        Ok(())
    }

    /// Forgets the place that became known last. Takes no memory.
    pub(crate) fn forget_last(&mut self)
        ensures kept { self.new.kept ≡ self.old.kept }
        ensures known { (before : List (KeyName × ℕ)) (last : KeyName × ℕ) → self.old.known ≡ before ++ last ∷ [] → self.new.known ≡ before }
        ensures wait { self.new.wait ≡ self.old.wait }
    {
        self.known.forget_last();
    }

    /// The number of known places.
    pub(crate) fn known_count(&self) -> usize
        ensures { result ≡ length self.now.known }
    {
        self.known.len()
    }

    /// A known place by its index, in the order in which the places became known.
    pub(crate) fn known_place(&self, index: usize) -> Place
        requires { index < length self.now.known }
        ensures { slice_get (map (λ entry. entry.1) self.now.known) index ≡ Some result }
    {
        self.known.place(index)
    }

    /// Whether a ticket is at a place, or the wait is for it.
    pub(crate) fn is_needed(&self, place: Place) -> bool
        ensures { (who : ℕ) → result ≡ is_needed (context_of who self.now) place }
    {
        self.by_place.needs(self.wait, place)
    }

    /// Forgets the known places that aren't needed. Takes no memory.
    pub(crate) fn forget_unneeded(&mut self)
        ensures kept { self.new.kept ≡ self.old.kept }
        ensures known { (who : ℕ) → self.new.known ≡ (tidied (context_of who self.old)).known }
        ensures wait { self.new.wait ≡ self.old.wait }
    {
        self.spare = Spare::Nowhere;
        if self.tickets.is_empty() && self.wait.is_none() {
            return self.known.forget_all();
        }
        self.known.forget_unneeded(&self.by_place, self.wait);
    }

    /// Where there may be known places that aren't needed.
    pub(crate) fn spare(&self) -> Spare
        ensures { (who : ℕ) → AreMarked result (is_needed (context_of who self.now)) self.now.known }
    {
        self.spare
    }

    /// Forgets a place that isn't needed. No other known place is like that. Returns whether the place was known. Takes no memory.
    pub(crate) fn forget_spare(&mut self, place: Place) -> bool
        requires one { HasOneKey place self.old.known }
        requires spare { (who : ℕ) → is_needed (context_of who self.old) place ≡ false }
        requires others { (who : ℕ) → AreMarked (At place) (is_needed (context_of who self.old)) self.old.known }
        ensures kept { self.new.kept ≡ self.old.kept }
        ensures known { (who : ℕ) → self.new.known ≡ (tidied (context_of who self.old)).known }
        ensures spare { (who : ℕ) → unneeded (context_of who self.old) ≡ (if result then place ∷ [] else []) }
        ensures wait { self.new.wait ≡ self.old.wait }
    {
        self.spare = Spare::Nowhere;
        self.known.forget_at(place)
    }

    /// Notes that each known place is needed.
    pub(crate) fn note_tidy(&mut self)
        requires { (who : ℕ) → unneeded (context_of who self.old) ≡ [] }
        ensures kept { self.new.kept ≡ self.old.kept }
        ensures known { self.new.known ≡ self.old.known }
        ensures wait { self.new.wait ≡ self.old.wait }
    {
        self.spare = Spare::Nowhere;
    }

    /// Makes room for one more ticket at a place.
    pub(crate) fn reserve(&mut self, place: Place) -> Result<(), AllocError>
        requires { self.old.wait ≡ None }
        ensures room { OnOk result (has_room place self.new ≡ true) }
        ensures kept { self.new.kept ≡ self.old.kept }
        ensures known { self.new.known ≡ self.old.known }
        ensures wait { self.new.wait ≡ None }
    {
        if self.has_room(place) {
            return Ok(());
        }
        self.reserve_more(place)
    }

    // Whether there is room for one more ticket at a place.
    fn has_room(&self, place: Place) -> bool
        ensures { result ≡ has_room place self.now }
    {
        self.tickets.len() < self.tickets.capacity() && self.by_place.has_room(place)
    }

    // The same as `reserve`. It is apart so that the check for room is inlined.
    #[cold]
    #[inline(never)]
    fn reserve_more(&mut self, place: Place) -> Result<(), AllocError>
        requires { self.old.wait ≡ None }
        ensures room { OnOk result (has_room place self.new ≡ true) }
        ensures kept { self.new.kept ≡ self.old.kept }
        ensures known { self.new.known ≡ self.old.known }
        ensures wait { self.new.wait ≡ None }
    {
        self.tickets.reserve(1)?;
        self.by_place.reserve(place)
    }

    /// Adds a new ticket at the end. Takes no memory.
    pub(crate) fn keep(&mut self, ticket: Kept)
        requires room { has_room ticket.place self.old ≡ true }
        requires idle { self.old.wait ≡ None }
        ensures kept { self.new.kept ≡ self.old.kept ++ ticket ∷ [] }
        ensures known { self.new.known ≡ self.old.known }
        ensures wait { self.new.wait ≡ None }
    {
        self.by_place.push(ticket.place, ticket.id);
        self.spare.unmark(ticket.place);
        self.tickets.push_reserved(ticket);
    }

    /// Begins a wait.
    pub(crate) fn begin_wait(&mut self, wanted: Wanted)
        requires { has_room wanted.place self.old ≡ true }
        ensures kept { self.new.kept ≡ self.old.kept }
        ensures known { self.new.known ≡ self.old.known }
        ensures wait { self.new.wait ≡ Some wanted }
    {
        self.drop_wait();
        self.spare.unmark(wanted.place);
        self.wait = Some(wanted);
    }

    /// Ends the wait, if there is one, and keeps the ticket of this number for it. Takes no memory.
    pub(crate) fn take_up(&mut self, id: TicketId)
        ensures kept { self.new.kept ≡ with_wanted id self.old.wait self.old.kept }
        ensures known { self.new.known ≡ self.old.known }
        ensures wait { self.new.wait ≡ None }
    {
        if let Some(wanted) = self.wait.take() {
            let ticket = Kept {
                id,
                place: wanted.place,
                mode: wanted.mode,
                duration: wanted.duration,
            };
            self.by_place.push(wanted.place, id);
            self.tickets.push(ticket).unwrap();
        }
    }

    /// Ends the wait, if there is one, without a ticket.
    pub(crate) fn drop_wait(&mut self)
        ensures room { (place : ℕ) → has_room place self.new ≡ has_room place self.old }
        ensures kept { self.new.kept ≡ self.old.kept }
        ensures known { self.new.known ≡ self.old.known }
        ensures wait { self.new.wait ≡ None }
    {
        if let Some(wanted) = self.wait.take() {
            self.spare.mark(wanted.place);
        }
    }

    /// The index of the ticket with a number, if there is one.
    pub(crate) fn position(&self, id: TicketId) -> Option<usize>
        requires { AreRising self.now.kept }
        ensures here { result ≡ position (has_ticket_number id) self.now.kept }
        ensures has { is_some result ≡ has_number self.now.kept id }
    {
        index_of(&self.tickets, id)
    }

    /// The wait by which the ticket of a number is upgraded, if there is one. No search for deadlocks was made for it yet.
    pub(crate) fn upgrade_wish(&self, id: TicketId, mode: Mode) -> Option<Wanted>
        requires { AreRising self.now.kept }
        ensures { result ≡ option_map (λ ticket. wanted_upgrade ticket mode false) (ticket_kept id self.now.kept) }
    {
        let ticket = numbered(&self.tickets, id)?;
        Some(ticket.upgrade_wish(mode))
    }

    /// Sets the mode of the ticket of a number, if there is one. Takes no memory.
    pub(crate) fn set_mode(&mut self, id: TicketId, mode: Mode)
        requires { AreRising self.old.kept }
        ensures kept { self.new.kept ≡ with_kept_mode id (λ _. mode) self.old.kept }
        ensures known { self.new.known ≡ self.old.known }
        ensures wait { self.new.wait ≡ self.old.wait }
    {
        if let Some(at) = index_of(&self.tickets, id) {
            self.tickets[at].mode = mode;
        }
    }

    /// Sets the mode of the ticket of a number, if there is one and its own mode isn't at least as strong.
    pub(crate) fn strengthen(&mut self, id: TicketId, mode: Mode)
        requires { AreRising self.old.kept }
        ensures kept { self.new.kept ≡ with_kept_mode id (upgraded mode) self.old.kept }
        ensures known { self.new.known ≡ self.old.known }
        ensures wait { self.new.wait ≡ self.old.wait }
    {
        if let Some(at) = index_of(&self.tickets, id) {
            let ticket = &mut self.tickets[at];
            if !covers(ticket.mode, mode) {
                ticket.mode = mode;
            }
        }
    }

    /// The number of tickets of a duration.
    pub(crate) fn count(&self, duration: Duration) -> usize
        ensures { result ≡ length (tickets_for duration self.now.kept) }
    {
        self.tickets
            .iter()
            .filter(|ticket| ticket.lasts(duration))
            .count()
    }

    /// The number of the ticket after the first `most` of a duration, if there is one.
    pub(crate) fn nth_for(&self, duration: Duration, most: usize) -> Option<TicketId>
        ensures { result ≡ option_map (λ ticket. ticket.id) (slice_get (tickets_for duration self.now.kept) most) }
    {
        let mut left = most;
        for ticket in &self.tickets {
            if ticket.lasts(duration) {
                if left == 0 {
                    return Some(ticket.id);
                }
                left -= 1;
            }
        }
        None
    }

    /// Removes the ticket of a number, which is at index `at`. Takes no memory.
    pub(crate) fn remove(&mut self, at: usize, id: TicketId)
        requires rising { AreRising self.old.kept }
        requires here { position (has_ticket_number id) self.old.kept ≡ Some at }
        ensures kept { self.new.kept ≡ without_number id self.old.kept }
        ensures known { self.new.known ≡ self.old.known }
        ensures wait { self.new.wait ≡ self.old.wait }
    {
        let len = self.tickets.len();
        if at + 1 == len {
            return self.remove_last();
        }
        self.remove_earlier(at, id);
    }

    // Removes the ticket that the session got last.
    fn remove_last(&mut self)
        requires { 0 < length self.old.kept }
        ensures kept { self.new.kept ≡ take (length self.old.kept - 1) self.old.kept }
        ensures known { self.new.known ≡ self.old.known }
        ensures wait { self.new.wait ≡ self.old.wait }
    {
        let ticket = self.tickets.pop().unwrap();
        self.by_place.remove_last(ticket.place);
        self.spare.mark(ticket.place);
    }

    // The same as `remove`, for a ticket that may be before others. It is apart so that the removal of the last one is inlined.
    #[inline(never)]
    fn remove_earlier(&mut self, at: usize, id: TicketId)
        requires rising { AreRising self.old.kept }
        requires here { position (has_ticket_number id) self.old.kept ≡ Some at }
        ensures kept { self.new.kept ≡ without_number id self.old.kept }
        ensures known { self.new.known ≡ self.old.known }
        ensures wait { self.new.wait ≡ self.old.wait }
    {
        let ticket = self.tickets.remove(at);
        self.by_place.remove(ticket.place, id);
        self.spare.mark(ticket.place);
    }

    /// Removes the tickets that `going` names. Takes no memory.
    pub(crate) fn remove_all(&mut self, going: &Going)
        requires { AreRising self.old.kept }
        ensures kept { self.new.kept ≡ filter (λ ticket. not (goes going.now ticket)) self.old.kept }
        ensures known { self.new.known ≡ self.old.known }
        ensures wait { self.new.wait ≡ self.old.wait }
    {
        drop_numbers(&mut self.by_place, &mut self.spare, &self.tickets, going);
        keep_others(&mut self.tickets, going);
    }

    /// Whether one of the tickets has this number.
    pub(crate) fn has(&self, id: TicketId) -> bool
        ensures { result ≡ has_number self.now.kept id }
    {
        self.tickets.iter().any(|ticket| ticket.id == id)
    }

    /// Whether one of the tickets at a place has a mode at least as strong as this one.
    pub(crate) fn has_covering(&self, place: Place, mode: Mode) -> bool
        ensures { result ≡ list_any (covers_at place mode) self.now.kept }
    {
        self.tickets.iter().any(|ticket| ticket.place == place && covers(ticket.mode, mode))
    }

    /// Keeps the ticket of a number for this duration.
    pub(crate) fn set_duration(&mut self, id: TicketId, duration: Duration)
        ensures kept { self.new.kept ≡ with_duration id duration self.old.kept }
        ensures known { self.new.known ≡ self.old.known }
        ensures wait { self.new.wait ≡ self.old.wait }
    {
        keep_one_for(&mut self.tickets, id, duration);
    }

    /// Makes all tickets explicit.
    pub(crate) fn make_explicit(&mut self)
        ensures kept { self.new.kept ≡ map (kept_for Explicit) self.old.kept }
        ensures known { self.new.known ≡ self.old.known }
        ensures wait { self.new.wait ≡ self.old.wait }
    {
        make_all_explicit(&mut self.tickets);
    }

    /// Keeps the explicit tickets until the transaction ends, except those of user-level locks.
    pub(crate) fn make_transactional(&mut self)
        ensures kept { self.new.kept ≡ map (transactional self.old.known) self.old.kept }
        ensures known { self.new.known ≡ self.old.known }
        ensures wait { self.new.wait ≡ self.old.wait }
    {
        make_all_transactional(&mut self.tickets, &self.known);
    }

    /// The number of the last-gained ticket at a place.
    pub(crate) fn last_at(&self, place: Place) -> Option<TicketId>
        ensures { result ≡ last_at place self.now.kept }
    {
        self.by_place.numbers(place).last().copied()
    }

    /// The earliest ticket at a place that can be used again on these terms, given the earliest one that suffices. Without that, there
    /// is none.
    pub(crate) fn reusable(
        &self,
        place: Place,
        terms: &Terms,
        sufficient: Option<Held>,
    ) -> Option<Held>
        requires rising { AreRising self.now.kept }
        requires sufficient { sufficient ≡ earliest (meets place terms.now) self.now.kept }
        ensures { result ≡ earliest (serves_again place terms.now) self.now.kept }
    {
        if sufficient.is_none() {
            return None;
        }
        self.first_reusable(place, terms)
    }

    // The same by a look at the tickets there. It is apart so that the test of what suffices is inlined.
    #[inline(never)]
    fn first_reusable(&self, place: Place, terms: &Terms) -> Option<Held>
        requires { AreRising self.now.kept }
        ensures { result ≡ earliest (serves_again place terms.now) self.now.kept }
    {
        for id in self.by_place.numbers(place) {
            let ticket = numbered(&self.tickets, *id)?;
            if terms.can_reuse(place, ticket) {
                return Some(ticket.held());
            }
        }
        None
    }

    /// The earliest ticket at a place that suffices on these terms.
    pub(crate) fn sufficient(&self, place: Place, terms: &Terms) -> Option<Held>
        requires { AreRising self.now.kept }
        ensures { result ≡ earliest (meets place terms.now) self.now.kept }
    {
        if self.by_place.numbers(place).is_empty() {
            return None;
        }
        self.first_sufficient(place, terms)
    }

    // The same by a look at the tickets there. It is apart so that the check for a ticket is inlined.
    #[inline(never)]
    fn first_sufficient(&self, place: Place, terms: &Terms) -> Option<Held>
        requires { AreRising self.now.kept }
        ensures { result ≡ earliest (meets place terms.now) self.now.kept }
    {
        for id in self.by_place.numbers(place) {
            let ticket = numbered(&self.tickets, *id)?;
            if terms.is_met_by(place, ticket) {
                return Some(ticket.held());
            }
        }
        None
    }
}

// The index of the ticket with a number, among tickets whose numbers rise.
fn index_of(tickets: &[Kept], id: TicketId) -> Option<usize>
    requires { AreRising tickets.now }
    ensures { result ≡ position (has_ticket_number id) tickets.now }
{
    if let Some(last) = tickets.last() {
        if last.id == id {
            return Some(tickets.len() - 1);
        }
    }
    search(tickets, id)
}

// The same by binary search. It is apart so that the check of the last ticket is inlined.
#[inline(never)]
fn search(tickets: &[Kept], id: TicketId) -> Option<usize>
    requires { AreRising tickets.now }
    ensures { result ≡ position (has_ticket_number id) tickets.now }
{
    tickets.binary_search_by_key(&id, |ticket| ticket.id).ok()
}

// The ticket with a number, among tickets whose numbers rise.
fn numbered(tickets: &[Kept], id: TicketId) -> Option<&Kept>
    requires { AreRising tickets.now }
    ensures { option_copied result ≡ find (has_ticket_number id) tickets.now }
{
    let at = index_of(tickets, id)?;
    Some(&tickets[at])
}

// Keeps the ticket of a number for this duration.
fn keep_one_for(tickets: &mut [Kept], id: TicketId, duration: Duration)
    ensures { tickets.new ≡ with_duration id duration tickets.old }
{
    for ticket in tickets.iter_mut() {
        keep_if_numbered(ticket, id, duration);
    }
}

// Keeps a ticket for this duration, if it has this number.
fn keep_if_numbered(ticket: &mut Kept, id: TicketId, duration: Duration)
    ensures { ticket.new ≡ lasting id duration ticket.old }
{
    if ticket.id == id {
        ticket.duration = duration;
    }
}

// Makes tickets explicit.
fn make_all_explicit(tickets: &mut [Kept])
    ensures { tickets.new ≡ map (kept_for Explicit) tickets.old }
{
    for ticket in tickets.iter_mut() {
        ticket.duration = Duration::Explicit;
    }
}

// Keeps the explicit tickets until the transaction ends, except those of user-level locks.
fn make_all_transactional(tickets: &mut [Kept], known: &Known)
    ensures { tickets.new ≡ map (transactional known.now) tickets.old }
{
    for ticket in tickets.iter_mut() {
        make_one_transactional(ticket, known);
    }
}

// Keeps a ticket until the transaction ends, if it is explicit and not of a user-level lock.
fn make_one_transactional(ticket: &mut Kept, known: &Known)
    ensures { ticket.new ≡ transactional known.now ticket.old }
{
    if !known.is_user_lock(ticket.place) {
        ticket.duration = in_transaction(ticket.duration);
    }
}

// The duration of a ticket once it may last no longer than the transaction.
fn in_transaction(duration: Duration) -> Duration
    ensures { result ≡ in_transaction duration }
{
    match duration {
        Duration::Explicit => Duration::Transaction,
        shorter => shorter,
    }
}

// Keeps the tickets that `going` doesn't name.
fn keep_others(tickets: &mut Vec<Kept>, going: &Going)
    ensures kept { tickets.new.items ≡ filter (λ ticket. not (goes going.now ticket)) tickets.old.items }
    ensures bound { length tickets.new.items ≤ length tickets.old.items }
    ensures capacity { vec_capacity tickets.new ≡ vec_capacity tickets.old }
{
    tickets.retain(|ticket| !going.names(ticket));
}

// Removes from the index the numbers of the tickets that `going` names, and marks their places.
fn drop_numbers(by_place: &mut ByPlace, spare: &mut Spare, tickets: &[Kept], going: &Going)
    requires rising { AreRising tickets.now }
    requires index { IsIndexOf tickets.now by_place.old }
    ensures index { IsIndexOf (filter (λ ticket. not (goes going.now ticket)) tickets.now) by_place.new }
    ensures room { (place : ℕ) → has_room_for place by_place.old ≡ true → has_room_for place by_place.new ≡ true }
    ensures others { (place : ℕ) → (marks spare.new place ≡ true) ⊎ (ticket_numbers place by_place.new ≡ ticket_numbers place by_place.old) }
    ensures marked { (place : ℕ) → marks spare.old place ≡ true → marks spare.new place ≡ true }
{
    for at in (0..tickets.len()).rev() {
        let ticket = &tickets[at];
        if going.names(ticket) {
            by_place.remove(ticket.place, ticket.id);
            spare.mark(ticket.place);
        }
    }
}
