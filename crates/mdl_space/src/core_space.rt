//! The lock space of one thread.
ghost use Rattle.std.specs.Prelude.{◌≡◌, ℕ, ◌<◌, ◌≤◌, ◌+◌, ◌^◌, Some, None, IfOk, OnOk, MatchResult, IsSome, IsTrue, length, true, false};
ghost use Rattle.mdl_key.specs.Words.{Refuses, is_mode_of};
ghost use Rattle.mdl_book.specs.Books.{lock_kind};
ghost use Rattle.mdl_book.specs.Granting.{is_compatible};
ghost use Rattle.mdl_book.specs.Tickets.{ticket_of};
ghost use Rattle.mdl_system.specs.Strength.{covers};
ghost use Rattle.mdl_core.specs.Words.{empty_core, book_at, has_key, has_session, seat_at, first_cause, request_causes, clone_causes, list_held_outcome, key_of_outcome, resolve_outcome, try_now_outcome, begin_wait_outcome, search_deadlock_outcome, poll_wait_outcome, settle_timeout_outcome, end_wait_outcome, wait_of_outcome, kill_outcome, release_outcome, granted_unless_full, clone_ticket_outcome, Makes, SpeaksFor, ending_lost, freeing, serving};
ghost use Rattle.mdl_calls.specs.Words.{are_rising, new_fault, Has_wait, Has_killed, keyed, placed, attempted, begun, searched, polled, timed_out, ended, done, cloned, listed};

use crate::core_space::pins::no_pins;
use crate::granting::{give, is_free, queue};
use crate::seat::Seat;
use crate::{
    Attempt, Begun, Ended, Held, NewError, Place, Poll, Search, Settled, SpaceError, TicketId,
    TimedOut,
};
use mdl_book::Book;
use mdl_core::Pending;
use mdl_key::{Key, MOST_PLACES, MOST_SESSIONS, Mode};
use mdl_system::covers;
use std::alloc::Global;
use std::collections::HashMap;
use std::marker::Model;

// The most tickets, and the most waits, that a session can number.
const MOST_NUMBERS: u64 = (1 << 60) - 1;

/// The lock space of one thread. Its owner makes the calls of all its sessions.
#[derive(Drop)]
pub struct CoreSpace {
    alloc: Global,
    books: Vec<Book>,
    known: HashMap<Key, Place>,
    seats: Vec<Seat>,
    // How many seats have a settled wait.
    settled: usize,
    // By place, how many seats pin it, and 0 for place 0. So the search for an unused place looks at no seat.
    pinned: Vec<u16>,
    places: usize,
}

impl Model for CoreSpace {
    ghost use Rattle.std.specs.Prelude.{◌≡◌, ◌+◌, ◌≤◌, length};
    ghost use Rattle.std.specs.Vec.{vec_capacity};
    ghost use Rattle.mdl_key.specs.Words.{most_places, most_sessions};
    ghost use Rattle.mdl_core.specs.Cores.{Core};
    ghost use Rattle.mdl_space.specs.KnownKeys.{TellsPlaces};
    ghost use Rattle.mdl_space.specs.PinCounts.{CountsPins};
    ghost use Rattle.mdl_space.specs.SettledWaits.{settled_waits};

    ghost Value = { Core };

    ghost view = { λ space. record { books = space.books.items; seats = space.seats.items; places = space.places } };

    ghost invariant = { λ space. record {
      fewest : length space.books.items ≤ space.places;
      most : space.places ≤ most_places;
      room : space.places ≤ vec_capacity space.books;
      known : TellsPlaces space.known.entries space.books.items;
      sessions : length space.seats.items ≤ most_sessions;
      settled : space.settled ≡ settled_waits space.seats.items;
      counts : length space.pinned.items ≡ space.places + 1;
      pinned : CountsPins space.pinned.items space.seats.items;
    } };
}

impl CoreSpace {
    /// Makes a space of this number of places and sessions, where no key has a place and no session has a ticket or a wait.
    ///
    /// Fails with [`NewError::BadPlaces`] unless there are 1 to [`MOST_PLACES`] places, and with [`NewError::BadSessions`] unless there
    /// are 1 to [`MOST_SESSIONS`] sessions.
    pub fn new(alloc: Global, places: u16, sessions: u16) -> Result<CoreSpace, NewError>
        ensures made { IfOk result (λ space. space ≡ empty_core places sessions) }
        ensures speaks { IfOk result (λ space. (who : ℕ) → 1 ≤ who → who ≤ sessions → SpeaksFor space who) }
        ensures refused { Refuses (new_fault places sessions) NewError.OutOfMemory result }
    {
        if places == 0 || places > MOST_PLACES {
            return Err(NewError::BadPlaces);
        }
        if sessions == 0 || sessions > MOST_SESSIONS {
            return Err(NewError::BadSessions);
        }
        let mut books = Vec::new(alloc);
        if books.reserve(usize::from(places)).is_err() {
            return Err(NewError::OutOfMemory);
        }
        let Ok(pinned) = no_pins(alloc, places) else {
            return Err(NewError::OutOfMemory);
        };
        let mut seats = Vec::new(alloc);
        for _session in 0..sessions {
            if seats.push(Seat::new(alloc)).is_err() {
                return Err(NewError::OutOfMemory);
            }
        }
        Ok(CoreSpace {
            alloc,
            books,
            known: HashMap::new(alloc),
            seats,
            settled: 0,
            pinned,
            places: usize::from(places),
        })
    }

    /// Returns the books of all places that have a key, place 1 first. It takes no memory.
    ///
    /// This is for tools that show locks: who holds each lock, and who waits for it. The ticket of a granted wait is among the granted
    /// tickets, even before its session ends the wait. The ticket of a lost wait (a victim, timed out or killed) stays among the waiting ones
    /// until its session ends the wait by `LockSpace::end_wait`. How a wait is settled isn't in the book: `LockSpace::poll_wait` returns that.
    ///
    /// ```
    /// for book in space.books() {
    ///     for ticket in book.granted() {
    ///         println!(rt; "{} is held by session {} in {}", book.key(), ticket.session, ticket.mode)?;
    ///     }
    ///     for ticket in book.waiting() {
    ///         println!(rt; "{} is waited for by session {} in {}", book.key(), ticket.session, ticket.mode)?;
    ///     }
    /// }
    /// ```
    pub fn books(&self) -> &[Book]
        ensures { result.now ≡ self.now.books }
    {
        self.books.as_slice()
    }

    /// Returns how many places have a key: those from 1 to this number. It takes no memory.
    pub fn place_count(&self) -> Place
        ensures { result ≡ length self.now.books }
    {
        self.books.len() as Place
    }

    /// Returns the place of a key, which the session then pins.
    ///
    /// A key that has no place gets the next one. Once every place has a key, it gets the least place that isn't in use, and the key that was
    /// there has no place any more. A place is in use while a session pins it, and for good once its key had a definition. Fails with
    /// [`SpaceError::NoPlace`] if every place is in use.
    pub(crate) fn resolve(&mut self, who: u16, key: &Key) -> Result<Place, SpaceError>
        requires { SpeaksFor self.old who }
        ensures { Makes true (resolve_outcome who key.now) self.old (placed result) self.new }
    {
        if let Some(place) = self.known.get(key) {
            let place = *place;
            self.pin(who, place)?;
            return Ok(place);
        }
        if self.books.len() < self.places {
            let place = self.place_count() + 1;
            self.give_place(who, place, key)?;
            return Ok(place);
        }
        let Some(place) = self.unused_place() else {
            return Err(SpaceError::NoPlace);
        };
        self.give_place(who, place, key)?;
        Ok(place)
    }

    /// Returns the key of a place.
    pub(crate) fn key_of(&self, place: Place) -> Result<Key, SpaceError>
        ensures { Makes true (key_of_outcome place) self.now (keyed result) self.now }
    {
        let place = usize::from(place);
        if place == 0 || place > self.books.len() {
            return Err(SpaceError::NoPlace);
        }
        match self.books[place - 1].key().clone() {
            Ok(key) => Ok(key),
            Err(_) => Err(SpaceError::OutOfMemory),
        }
    }

    /// Grants a session a lock, if it can be granted now. Fails with [`SpaceError::NoPlace`] unless the session pins the place.
    pub(crate) fn try_now(
        &mut self,
        who: u16,
        place: Place,
        mode: Mode,
    ) -> Result<Attempt, SpaceError>
        requires { SpeaksFor self.old who }
        ensures { Makes true (try_now_outcome who place mode) self.old (attempted result) self.new }
    {
        self.check_request(who, place, mode)?;
        let book = &mut self.books[usize::from(place) - 1];
        if !is_free(book, who, mode) {
            return Ok(Attempt::WouldWait);
        }
        let seat = &mut self.seats[usize::from(who) - 1];
        match give(seat, book, who, place, mode) {
            Ok(id) => Ok(Attempt::Granted(id)),
            Err(cause) => Err(cause),
        }
    }

    /// Grants a session a lock, or begins its wait for it if it can't be granted now. Fails with [`SpaceError::NoPlace`] unless the session
    /// pins the place.
    pub(crate) fn begin_wait(
        &mut self,
        who: u16,
        place: Place,
        mode: Mode,
    ) -> Result<Begun, SpaceError>
        requires { SpeaksFor self.old who }
        ensures { Makes true (begin_wait_outcome who place mode) self.old (begun result) self.new }
    {
        self.check_request(who, place, mode)?;
        let book = &mut self.books[usize::from(place) - 1];
        let seat = &mut self.seats[usize::from(who) - 1];
        if !is_free(book, who, mode) {
            return match queue(seat, book, who, place, mode) {
                Ok(number) => Ok(Begun::Waiting(number)),
                Err(cause) => Err(cause),
            };
        }
        match give(seat, book, who, place, mode) {
            Ok(id) => Ok(Begun::Granted(id)),
            Err(cause) => Err(cause),
        }
    }

    /// Searches for a deadlock that a session is part of, and settles the wait of its victim.
    pub(crate) fn search_deadlock(&mut self, who: u16) -> Result<Search, SpaceError>
        requires { SpeaksFor self.old who }
        ensures { Makes true (search_deadlock_outcome who) self.old (searched result) self.new }
    {
        match self.victim_of(who) {
            Ok(Some(victim)) => {
                self.settle(victim, Settled::Victim);
                Ok(Search::Victim(victim))
            }
            Ok(None) => Ok(Search::NoCycle),
            Err(_) => Err(SpaceError::OutOfMemory),
        }
    }

    /// Returns the state of a session's wait.
    pub(crate) fn poll_wait(&self, who: u16) -> Result<Poll, SpaceError>
        requires { has_session who self.now ≡ true }
        ensures { Makes false (poll_wait_outcome who) self.now (polled result) self.now }
    {
        match self.seats[usize::from(who) - 1].wait() {
            Some(wait) => match wait.settled {
                Some(how) => Ok(Poll::Settled(how)),
                None => Ok(Poll::Pending),
            },
            None => Err(SpaceError::NoWait),
        }
    }

    /// Settles a session's wait as a timeout, unless it is settled already.
    pub(crate) fn settle_timeout(&mut self, who: u16) -> Result<TimedOut, SpaceError>
        requires { has_session who self.old ≡ true }
        ensures { Makes false (settle_timeout_outcome who) self.old (timed_out result) self.new }
    {
        let Some(wait) = self.seats[usize::from(who) - 1].wait() else {
            return Err(SpaceError::NoWait);
        };
        if let Some(how) = wait.settled {
            return Ok(TimedOut::Already(how));
        }
        self.settle(who, Settled::Timeout);
        Ok(TimedOut::ByThisCall)
    }

    /// Ends a session's settled wait. If it was granted, the session then holds the ticket.
    pub(crate) fn end_wait(&mut self, who: u16) -> Result<Ended, SpaceError>
        requires { SpeaksFor self.old who }
        ensures { Makes false (end_wait_outcome who) self.old (ended result) self.new }
    {
        let Some(wait) = self.seats[usize::from(who) - 1].wait() else {
            return Err(SpaceError::NoWait);
        };
        let Some(how) = wait.settled else {
            return Err(SpaceError::Unsettled);
        };
        match how {
            Settled::Granted => {
                self.take_up(who, wait);
                Ok(Ended::Granted(wait.id))
            }
            Settled::Victim => {
                self.leave(who, wait);
                Ok(Ended::Victim)
            }
            Settled::Timeout => {
                self.leave(who, wait);
                Ok(Ended::Timeout)
            }
            Settled::Killed => {
                self.leave(who, wait);
                Ok(Ended::Killed)
            }
        }
    }

    /// Returns the number of any session's wait.
    pub(crate) fn wait_of(&self, target: u16) -> Option<u64>
        ensures { Makes false (wait_of_outcome target) self.now (Has_wait result) self.now }
    {
        if target == 0 || usize::from(target) > self.seats.len() {
            return None;
        }
        match self.seats[usize::from(target) - 1].wait() {
            Some(wait) => Some(wait.number),
            None => None,
        }
    }

    /// Settles any session's wait of this number as killed, unless it is settled already. Returns whether this call settled it.
    pub(crate) fn kill(&mut self, target: u16, number: u64) -> bool
        ensures { Makes false (kill_outcome target number) self.old (Has_killed result) self.new }
    {
        if target == 0 || usize::from(target) > self.seats.len() {
            return false;
        }
        let Some(wait) = self.seats[usize::from(target) - 1].wait() else {
            return false;
        };
        if wait.number != number || wait.settled.is_some() {
            return false;
        }
        self.settle(target, Settled::Killed);
        true
    }

    /// Releases a held ticket.
    pub(crate) fn release(&mut self, who: u16, id: TicketId) -> Result<(), SpaceError>
        requires { SpeaksFor self.old who }
        ensures { Makes false (release_outcome who id) self.old (done result) self.new }
    {
        let Some(ticket) = self.seats[usize::from(who) - 1].ticket(id) else {
            return Err(SpaceError::NotHeld);
        };
        self.free(who, ticket);
        Ok(())
    }

    /// Grants a second ticket at a held one's place.
    pub(crate) fn clone_ticket(
        &mut self,
        who: u16,
        id: TicketId,
        mode: Mode,
    ) -> Result<TicketId, SpaceError>
        requires { SpeaksFor self.old who }
        ensures { Makes true (clone_ticket_outcome who id mode) self.old (cloned result) self.new }
    {
        let Some(ticket) = self.seats[usize::from(who) - 1].ticket(id) else {
            return Err(SpaceError::NotHeld);
        };
        self.check_clone(who, ticket, mode)?;
        self.grant_at(who, ticket.place, mode)
    }

    /// Returns the tickets that a session holds.
    pub(crate) fn held(&self, who: u16) -> Result<Vec<Held>, SpaceError>
        requires { has_session who self.now ≡ true }
        ensures { Makes true (list_held_outcome who) self.now (listed result) self.now }
    {
        let mut tickets = Vec::new(self.alloc);
        let held = self.seats[usize::from(who) - 1].held();
        if tickets.extend_from_slice(held).is_err() {
            return Err(SpaceError::OutOfMemory);
        }
        Ok(tickets)
    }

    /// Checks that a session can clone a held ticket.
    fn check_clone(&self, who: u16, ticket: Held, mode: Mode) -> Result<(), SpaceError>
        requires session { has_session who self.now ≡ true }
        requires key { has_key ticket.place self.now ≡ true }
        ensures refused { MatchResult result
            (λ _. first_cause (clone_causes who mode ticket self.now) ≡ None)
            (λ e. first_cause (clone_causes who mode ticket self.now) ≡ Some e) }
        ensures covers { OnOk result (covers ticket.mode mode ≡ true) }
        ensures fits { OnOk result (is_mode_of (lock_kind (book_at ticket.place self.now)) mode ≡ true) }
        ensures numbers { OnOk result ((seat_at who self.now).last_ticket + 1 < 2 ^ 60) }
        ensures idle { OnOk result ((seat_at who self.now).wait ≡ None) }
    {
        let seat = &self.seats[usize::from(who) - 1];
        if seat.wait().is_some() {
            return Err(SpaceError::AlreadyWaiting);
        }
        let kind = self.books[usize::from(ticket.place) - 1].key().kind();
        if !covers(ticket.mode, mode) || !kind.has_mode(mode) {
            return Err(SpaceError::BadMode);
        }
        if seat.last_ticket() >= MOST_NUMBERS {
            return Err(SpaceError::CounterFull);
        }
        Ok(())
    }

    /// Grants a session a lock that clashes with no granted ticket of another session.
    fn grant_at(&mut self, who: u16, place: Place, mode: Mode) -> Result<TicketId, SpaceError>
        requires session { has_session who self.old ≡ true }
        requires key { has_key place self.old ≡ true }
        requires numbers { (seat_at who self.old).last_ticket + 1 < 2 ^ 60 }
        requires idle { (seat_at who self.old).wait ≡ None }
        requires compatible { is_compatible (lock_kind (book_at place self.old)) (book_at place self.old).granted who mode ≡ true }
        ensures { Makes true (granted_unless_full who place mode) self.old (cloned result) self.new }
    {
        let book = &mut self.books[usize::from(place) - 1];
        let seat = &mut self.seats[usize::from(who) - 1];
        match give(seat, book, who, place, mode) {
            Ok(id) => Ok(id),
            Err(cause) => Err(cause),
        }
    }

    /// Ends a session's lost wait, and then grants waiters of its place.
    fn leave(&mut self, who: u16, wait: Pending)
        requires session { has_session who self.old ≡ true }
        requires key { has_key wait.place self.old ≡ true }
        requires waits { IsSome (ticket_of who wait.id (book_at wait.place self.old).waiting) }
        ensures { self.new ≡ serving wait.place (ending_lost who wait self.old) }
    {
        let book = &mut self.books[usize::from(wait.place) - 1];
        book.cancel(who, wait.id).unwrap();
        self.drop_wait(who);
        self.serve(wait.place);
    }

    /// Releases a session's held ticket, and then grants waiters of its place.
    fn free(&mut self, who: u16, ticket: Held)
        requires session { has_session who self.old ≡ true }
        requires key { has_key ticket.place self.old ≡ true }
        requires stands { IsSome (ticket_of who ticket.id (book_at ticket.place self.old).granted) }
        requires rising { IsTrue (are_rising (seat_at who self.old).held) }
        ensures { self.new ≡ serving ticket.place (freeing who ticket self.old) }
    {
        self.seats[usize::from(who) - 1].give_up(ticket.id);
        let book = &mut self.books[usize::from(ticket.place) - 1];
        book.remove(who, ticket.id).unwrap();
        self.serve(ticket.place);
    }

    /// Checks that a session can request a lock. The place then has a key.
    fn check_request(&self, who: u16, place: Place, mode: Mode) -> Result<(), SpaceError>
        requires { SpeaksFor self.now who }
        ensures refused { MatchResult result
            (λ _. first_cause (request_causes who place mode self.now) ≡ None)
            (λ e. first_cause (request_causes who place mode self.now) ≡ Some e) }
        ensures key { OnOk result (has_key place self.now ≡ true) }
        ensures numbers { OnOk result ((seat_at who self.now).last_ticket + 1 < 2 ^ 60) }
        ensures idle { OnOk result ((seat_at who self.now).wait ≡ None) }
    {
        if !self.has_pin(who, place) {
            return Err(SpaceError::NoPlace);
        }
        let seat = &self.seats[usize::from(who) - 1];
        if seat.wait().is_some() {
            return Err(SpaceError::AlreadyWaiting);
        }
        let kind = self.books[usize::from(place) - 1].key().kind();
        if !kind.has_mode(mode) {
            return Err(SpaceError::BadMode);
        }
        if seat.last_ticket() >= MOST_NUMBERS {
            return Err(SpaceError::CounterFull);
        }
        Ok(())
    }
}

mod calls;
mod deadlocks;
mod definitions;
mod modes;
mod pins;
mod places;
mod serving;
mod settling;
mod tables;
