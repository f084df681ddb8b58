//! What a manager shows of the locks. It changes nothing.
ghost use Rattle.std.specs.Prelude.{◌≡◌, MatchOption, map, slice_get, slice_set};
ghost use Rattle.std.specs.Option.{option_and_then, option_copied};
ghost use Rattle.mdl_calls.specs.Words.{List_held, listed};
ghost use Rattle.mdl_core.specs.Words.{SpeaksFor, seat_at};
ghost use Rattle.mdl_core.specs.declared.pending.Pending.{Pending};
ghost use Rattle.mdl_c_parts.specs.Rows.{IsListWritten, room_written};
ghost use Rattle.mdl_c_calls.specs.Listings.{LockTold, duration_told, granted_row, has_settled_wait, how_settled, keyed_book, settled_sessions, waiting_at, waiting_row};
ghost use Rattle.mdl_c_calls.specs.Managers.{IsOutside, JoinsFor, session_count_of};
ghost use Rattle.mdl_space.specs.SettledWaits.{settled_waits};

use super::ServedSpace;
use mdl_book::{Book, Ticket};
use mdl_c_parts::{GRANTED, LockRow, UNKEPT, waiting_status};
use mdl_space::{CoreSpace, Held, LockSpace, Place, Poll, Settled, SpaceError};

impl ServedSpace {
    /// Writes the sessions whose waits are settled and not ended, in rising order: as many as there is room for. Returns how many there are.
    pub fn tell_settled(&mut self, room: &mut [u16]) -> usize
        ensures told { IsListWritten (settled_sessions self.old) room.old room.new result }
        ensures unchanged { self.new ≡ self.old }
    {
        if self.settled_waits() == 0 {
            return 0;
        }
        let sessions = self.session_count();
        let mut count = 0;
        for index in 0..sessions {
            if self.has_settled_wait(index + 1) {
                write_at(room, count, index + 1);
                count += 1;
            }
        }
        count
    }

    // How many waits are settled and not ended. It looks at no session.
    pub(super) fn settled_waits(&self) -> usize
        ensures { result ≡ settled_waits self.now.space.seats }
    {
        self.space.settled_waits()
    }

    pub(super) fn session_count(&self) -> u16
        ensures { result ≡ session_count_of self.now }
    {
        self.sessions
    }

    pub(super) fn has_settled_wait(&mut self, who: u16) -> bool
        ensures told { result ≡ has_settled_wait self.old who }
        ensures unchanged { self.new ≡ self.old }
    {
        self.how_settled(who).is_some()
    }

    /// Returns the tickets that a session holds, in the order in which it got them.
    pub fn held(&self, who: u16) -> Option<Result<Vec<Held>, SpaceError>>
        ensures { MatchOption result (IsOutside who self.now self.now) (λ r. JoinsFor who (List_held who) (listed r) self.now self.now) }
    {
        if !self.has(who) {
            return None;
        }
        Some(self.space.held(who))
    }

    /// Returns the books of all places that have keys, that of place 1 first.
    pub fn books(&self) -> &[Book]
        ensures { result.now ≡ self.now.space.books }
    {
        self.space.books()
    }

    /// Returns the book of a place, if the place has a key.
    pub fn book(&self, place: Place) -> Option<&Book>
        ensures { option_copied result ≡ keyed_book place self.now.space }
    {
        book_at(&self.space, place)
    }

    /// Writes as many tickets of a place's lock as there is room for, the granted ones first. Returns the number of all, if the place has a key.
    pub fn tell_lock(&mut self, place: Place, room: &mut [LockRow]) -> Option<usize>
        ensures told { LockTold self.old (keyed_book place self.old.space) room.old room.new result }
        ensures unchanged { self.new ≡ self.old }
    {
        let book = self.book(place)?;
        let granted = book.granted();
        let count = granted.len() + book.waiting().len();
        let front = granted.len().min(room.len());
        self.write_granted(granted, room);
        self.write_waiting(place, &mut room[front..]);
        Some(count)
    }

    // Writes as many granted tickets as there is room for.
    fn write_granted(&self, tickets: &[Ticket], room: &mut [LockRow])
        ensures { room.new ≡ room_written (map (granted_row self.now) tickets.now) room.old }
    {
        let fitting = &tickets[..tickets.len().min(room.len())];
        for (at, ticket) in fitting.iter().enumerate() {
            room[at] = LockRow::of(*ticket, GRANTED, self.duration_of(*ticket));
        }
    }

    // Writes as many waiting tickets of a place as there is room for.
    fn write_waiting(&mut self, place: Place, room: &mut [LockRow])
        ensures written { room.new ≡ room_written (map (waiting_row self.old) (waiting_at place self.old.space)) room.old }
        ensures unchanged { self.new ≡ self.old }
    {
        for at in 0..room.len() {
            let Some(ticket) = self.waiting_at(place, at) else {
                return;
            };
            room[at] = self.waiting_row(ticket);
        }
    }

    // The waiting ticket of a place at an index, if there is one.
    fn waiting_at(&self, place: Place, at: usize) -> Option<Ticket>
        ensures { result ≡ slice_get (waiting_at place self.now.space) at }
    {
        self.book(place)?.waiting().get(at).copied()
    }

    fn waiting_row(&mut self, ticket: Ticket) -> LockRow
        ensures told { result ≡ waiting_row self.old ticket }
        ensures unchanged { self.new ≡ self.old }
    {
        let status = waiting_status(self.how_settled(ticket.session));
        LockRow::of(ticket, status, self.duration_of(ticket))
    }

    // How a session's wait is settled, if it has one that is.
    fn how_settled(&mut self, who: u16) -> Option<Settled>
        ensures told { result ≡ how_settled who self.old }
        ensures unchanged { self.new ≡ self.old }
    {
        if !self.has(who) {
            return None;
        }
        how_settled(&mut self.space, who)
    }

    // How long a context keeps a ticket, as a number.
    fn duration_of(&self, ticket: Ticket) -> u8
        ensures { result ≡ duration_told self.now ticket }
    {
        match self.index_of(ticket.session) {
            Ok(index) => self.seats[index].duration_of(ticket.number),
            Err(_) => UNKEPT,
        }
    }
}

// The book of a place, if the place has a key.
pub(super) fn book_at(space: &CoreSpace, place: Place) -> Option<&Book>
    ensures { option_copied result ≡ keyed_book place space.now }
{
    if place == 0 {
        return None;
    }
    space.books().get(usize::from(place) - 1)
}

// Writes a session at an index of the room, if there is one.
#[tactic(auto, using(crate::proofs::SettledLemmas::left_past))]
pub(super) fn write_at(room: &mut [u16], index: usize, who: u16)
    ensures { room.new ≡ slice_set room.old index who }
{
    if index < room.len() {
        room[index] = who;
    }
}

// How a session's wait is settled, if it has one that is. It changes nothing: only the type of `poll_wait` requires `&mut`.
fn how_settled(space: &mut CoreSpace, who: u16) -> Option<Settled>
    requires { SpeaksFor space.old who }
    ensures told { result ≡ option_and_then (λ (wait : Pending). wait.settled) (seat_at who space.old).wait }
    ensures unchanged { space.new ≡ space.old }
{
    match space.poll_wait(who) {
        Ok(Poll::Settled(how)) => Some(how),
        Ok(Poll::Pending) | Err(_) => None,
    }
}
