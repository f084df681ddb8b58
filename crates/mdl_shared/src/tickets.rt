//! A session's own list of its tickets.
ghost use Rattle.std.specs.Prelude.{not, ◌^◌, MatchOption, None, OnErr, OnOk, IfOk, IfSome, Some, [], drop, false, find, length, map, nat_lt, position, remove, slice_get, slice_index_or, take, true, ◌+◌, ◌-◌, ◌++◌, ◌<◌, ◌==◌, ◌∷◌, ◌≡◌, ◌≤◌, ◌&&◌, ◌||◌, ℕ, if◌then◌else◌};
ghost use Rattle.std.specs.List.{list_all};
ghost use Rattle.std.specs.List.Sorted.{IsNonDecreasingBy};
ghost use Rattle.std.specs.Option.{option_map};
ghost use Rattle.std.specs.Vec.{vec_capacity, vec_len};
ghost use Rattle.mdl_calls.specs.declared.answers.Held.{Held};
ghost use Rattle.mdl_steps.specs.Cells.{note_at, own_at};
ghost use Rattle.mdl_steps.specs.declared.view.SessionTicket.{SessionTicket};
ghost use Rattle.mdl_steps.specs.Deeds.{is_own};
ghost use Rattle.mdl_steps.specs.FastPlays.{but_at, fast_own, first_note};
ghost use Rattle.mdl_steps.specs.Interleavings.{interleaved};
ghost use Rattle.mdl_steps.specs.Limits.{most_fast};
ghost use Rattle.mdl_steps.specs.Plays.{noting_version};
ghost use Rattle.mdl_visits.specs.Numbers.{numbered};
ghost use Rattle.mdl_shared.specs.Debts.{owed_in};
ghost use Rattle.mdl_shared.specs.Members.{without_at};
ghost use Rattle.mdl_shared.specs.Modes.{in_mode_at};
ghost use Rattle.mdl_shared.specs.OwnLists.{as_held, has_ticket_at};
ghost use Rattle.mdl_shared.specs.Waitings.{are_below_next};
ghost use Rattle.mdl_shared.specs.LastFast.{EndsInFast};
ghost use Rattle.mdl_shared.specs.TicketLists.{AreByPlace, HasRoom, HasRoomFor, KeepsRest, KeepsRoom};
ghost use Rattle.mdl_shared.specs.OwnTickets.{KeepsCounts, IsLastGained, IsNumbered, StandsAt, counted_at, fast_counted_at, fast_found, flags_of, noted_in, with_note, HaveRisingNumbers, AreAt, slowed, slowed_as};

use mdl_calls::{Held, Place, TicketId};
use mdl_key::Mode;
use mdl_steps::SessionTicket;
use mdl_word::Word;
use std::alloc::{AllocError, Global};
use std::marker::Model;

/// What is kept of a place: how many tickets the session has there, how many of them are fast, the version that is noted under all of them
/// if one is, whether the session owes the place a reschedule, and a guess of the place's word: as the session's last fast step there left
/// or met it. Nothing is promised of the guess. Two of these fit a cache line; an `Option` of the version, or a `usize` of the fast tickets,
/// would take eight bytes more.
#[derive(Clone, Copy)]
pub(crate) struct OfPlace {
    pub(crate) tickets: usize,
    pub(crate) version: u64,
    pub(crate) guess: Word,
    pub(crate) fast: u32,
    pub(crate) is_noted: bool,
    pub(crate) owes: bool,
}

/// A ticket. A fast one is counted by its lock's word, and is in no book.
#[derive(Clone, Copy)]
pub(crate) struct Gained {
    pub(crate) id: TicketId,
    pub(crate) place: Place,
    pub(crate) mode: Mode,
    pub(crate) fast: bool,
}

/// A session's tickets, in the order in which it got them. A ticket is found by its number: the last ticket is compared first, then a binary
/// search follows. An array has what is kept of each place, so most calls walk no tickets.
#[derive(Drop)]
pub(crate) struct Tickets {
    gained: Vec<Gained>,
    places: Vec<OfPlace>,
    fast: usize,
}

impl Model for Tickets {
    ghost use Rattle.std.specs.Prelude.{length, ◌-◌};
    ghost use Rattle.std.specs.Vec.{vec_capacity};
    ghost use Rattle.mdl_shared.specs.TicketLists.{TicketList};
    ghost use Rattle.mdl_shared.specs.OwnTickets.{AreKept, flags_of, slow_of, fast_of};

    ghost Value = { TicketList };

    ghost view = { λ s. record {
      slow = slow_of s.places.items s.gained.items;
      fast = fast_of s.places.items s.gained.items;
      owes = flags_of s.places.items;
      room = record { spare = vec_capacity s.gained - length s.gained.items; reach = length s.places.items };
    } };

    ghost invariant = { λ s. AreKept s.gained.items s.places.items s.fast };
}

impl Tickets {
    /// An empty list, without debts. It takes no memory.
    pub(crate) fn new(alloc: Global) -> Tickets
        ensures { (result.slow ≡ []) × (result.fast ≡ []) × (result.owes ≡ []) }
    {
        Tickets {
            gained: Vec::new(alloc),
            places: Vec::new(alloc),
            fast: 0,
        }
    }

    /// Whether there is no ticket.
    pub(crate) fn is_empty(&self) -> bool
        ensures { result ≡ (length (interleaved self.now.slow self.now.fast) == 0) }
    {
        self.gained.is_empty()
    }

    /// Returns the ticket with a number. The last one is found without its index.
    pub(crate) fn get(&self, id: TicketId) -> Option<SessionTicket>
        ensures found { result ≡ numbered id (interleaved self.now.slow self.now.fast) }
        ensures reached { IfSome result (λ held. held.place < self.now.room.reach) }
    {
        let ticket = ticket_of(&self.gained, id)?;
        Some(own_of(&self.places, ticket))
    }

    /// Returns the ticket with a number, and whether it is fast.
    pub(crate) fn find(&self, id: TicketId) -> Option<(SessionTicket, bool)>
        ensures found { option_map (λ t. t.0) result ≡ numbered id (interleaved self.now.slow self.now.fast) }
        ensures fast { fast_found result ≡ numbered id self.now.fast }
    {
        let at = index_of(&self.gained, id)?;
        let ticket = self.gained[at];
        Some((own_of(&self.places, ticket), ticket.fast))
    }

    /// Returns the fast ticket with a number.
    pub(crate) fn get_fast(&self, id: TicketId) -> Option<SessionTicket>
        ensures found { result ≡ numbered id self.now.fast }
    {
        let at = index_of(&self.gained, id)?;
        let ticket = self.gained[at];
        if ticket.fast {
            Some(own_of(&self.places, ticket))
        } else {
            None
        }
    }

    /// Returns the last ticket, if it is a fast one with this number.
    pub(crate) fn last_fast(&self, id: TicketId) -> Option<SessionTicket>
        ensures { IfSome result (λ held. (held.number ≡ id) × EndsInFast held self.now) }
    {
        let last = last_of(&self.gained, id)?;
        Some(own_of(&self.places, last))
    }

    /// Returns the number of fast tickets at a place that the list reaches.
    pub(crate) fn fast_at(&self, place: usize) -> usize
        requires reached { place < self.now.room.reach }
        ensures { result ≡ length (own_at place self.now.fast) }
    {
        fast_counted(&self.places, place)
    }

    /// Whether there is a ticket at a place, fast or slow.
    pub(crate) fn has_at(&self, place: usize) -> bool
        ensures { result ≡ has_ticket_at place (interleaved self.now.slow self.now.fast) }
    {
        counted(&self.places, place) > 0
    }

    /// Returns the version that is noted under the tickets at a place, fast or slow.
    pub(crate) fn note_of(&self, place: usize) -> Option<u64>
        ensures { result ≡ first_note (own_at place self.now.fast ++ own_at place self.now.slow) }
    {
        note_counted(&self.places, place)
    }

    /// Returns a guess of the word of a place: what the session's last fast step there left or met, or 0. Nothing is promised of it.
    pub(crate) fn guess_of(&self, place: usize) -> Word {
        guessed(&self.places, place)
    }

    /// Keeps a guess of the word of a place that the list reaches.
    pub(crate) fn keep_guess(&mut self, place: usize, guess: Word)
        requires reached { place < self.old.room.reach }
        ensures { self.new ≡ self.old }
    {
        set_guess(&mut self.places, place, guess);
    }

    /// Whether there is a fast ticket.
    pub(crate) fn has_fast(&self) -> bool
        ensures { result ≡ nat_lt 0 (length self.now.fast) }
    {
        self.fast > 0
    }

    /// Returns the fast tickets, by their places.
    pub(crate) fn list_fast(&self) -> Result<Vec<SessionTicket>, AllocError>
        ensures { IfOk result (λ listed. AreByPlace self.now.fast listed.items) }
    {
        let mut listed = Vec::with_capacity(*self.gained.allocator(), self.fast)?;
        for gained in self.gained.iter() {
            if gained.fast {
                listed.push(own_of(&self.places, *gained))?;
            }
        }
        listed.sort_by_key(|ticket| ticket.place)?;
        Ok(listed)
    }

    /// Whether a place is owed a reschedule.
    pub(crate) fn owes(&self, place: usize) -> bool
        ensures { result ≡ owed_in place self.now.owes }
    {
        owed(&self.places, place)
    }

    /// The first place that is owed a reschedule.
    pub(crate) fn first_owed(&self) -> Option<usize>
        ensures { MatchOption result ((q : ℕ) → owed_in q self.now.owes ≡ false)
            (λ place. (place < 65536) × (owed_in place self.now.owes ≡ true) × ((q : ℕ) → q < place → owed_in q self.now.owes ≡ false)) }
    {
        first_owed(&self.places)
    }

    /// Notes that a place is owed a reschedule. It takes no memory.
    pub(crate) fn owe(&mut self, place: usize)
        requires reached { place < self.old.room.reach }
        ensures owes { (q : ℕ) → owed_in q self.new.owes ≡ (owed_in q self.old.owes || q == place) }
        ensures same { (self.new.slow ≡ self.old.slow) × (self.new.fast ≡ self.old.fast) × (self.new.room ≡ self.old.room) }
    {
        set_owes(&mut self.places, place, true);
    }

    /// Notes that a place isn't owed a reschedule.
    pub(crate) fn pay(&mut self, place: usize)
        ensures owes { (q : ℕ) → owed_in q self.new.owes ≡ (owed_in q self.old.owes && not (q == place)) }
        ensures same { (self.new.slow ≡ self.old.slow) × (self.new.fast ≡ self.old.fast) × (self.new.room ≡ self.old.room) }
    {
        set_owes(&mut self.places, place, false);
    }

    /// Makes room for one more ticket at a place.
    pub(crate) fn reserve(&mut self, place: usize) -> Result<(), AllocError>
        requires { place < 65536 }
        ensures same { (self.new.slow ≡ self.old.slow) × (self.new.fast ≡ self.old.fast) }
        ensures owes { (q : ℕ) → owed_in q self.new.owes ≡ owed_in q self.old.owes }
        ensures kept { KeepsRoom 0 self.old.room self.new.room }
        ensures room { OnOk result (HasRoom place self.new.room) }
        ensures lacked { OnErr result (HasRoom place self.old.room → ⊥) }
    {
        if self.has_room(place) {
            return Ok(());
        }
        self.reserve_many(1, place + 1)
    }

    /// Whether there is room for one more ticket at a place.
    pub(crate) fn has_room(&self, place: usize) -> bool
        ensures room { result ≡ true → HasRoom place self.now.room }
        ensures none { result ≡ false → HasRoom place self.now.room → ⊥ }
    {
        place < self.places.len() && self.gained.len() < self.gained.capacity()
    }

    /// Makes room for `count` more tickets, at places below `places`. It isn't inlined, so that [`Tickets::reserve`] is, for when there is
    /// room.
    #[cold]
    #[inline(never)]
    pub(crate) fn reserve_many(&mut self, count: usize, places: usize) -> Result<(), AllocError>
        requires { places ≤ 65536 }
        ensures same { (self.new.slow ≡ self.old.slow) × (self.new.fast ≡ self.old.fast) }
        ensures owes { (q : ℕ) → owed_in q self.new.owes ≡ owed_in q self.old.owes }
        ensures kept { KeepsRoom 0 self.old.room self.new.room }
        ensures room { OnOk result (HasRoomFor count places self.new.room) }
        ensures lacked { OnErr result (HasRoomFor count places self.old.room → ⊥) }
    {
        reach(&mut self.places, places)?;
        self.gained.reserve(count)
    }

    /// Adds a new slow ticket at the end, with the note of those at its place. It takes no memory.
    pub(crate) fn push_reserved(&mut self, number: TicketId, place: usize, mode: Mode)
        requires room { HasRoom place self.old.room }
        requires below { are_below_next number (interleaved self.old.slow self.old.fast) ≡ true }
        requires slow { own_at place self.old.fast ≡ [] }
        ensures gained { self.new.slow ≡ self.old.slow ++ record { number = number; place = place; mode = mode; noted = note_at place self.old.slow } ∷ [] }
        ensures same { self.new.fast ≡ self.old.fast }
        ensures owes { self.new.owes ≡ self.old.owes }
        ensures room { KeepsRoom 1 self.old.room self.new.room }
    {
        count_one(&mut self.places, place);
        self.gained
            .push_reserved(new_ticket(number, place, mode, false));
    }

    /// Adds a new fast ticket at the end, with the note of those at its place. It takes no memory.
    pub(crate) fn push_fast(&mut self, number: TicketId, place: usize, mode: Mode)
        requires room { HasRoom place self.old.room }
        requires fewer { length (own_at place self.old.fast) < most_fast }
        requires below { are_below_next number (interleaved self.old.slow self.old.fast) ≡ true }
        ensures gained { self.new.fast ≡ self.old.fast ++ fast_own number place mode (first_note (own_at place self.old.fast ++ own_at place self.old.slow)) ∷ [] }
        ensures same { self.new.slow ≡ self.old.slow }
        ensures owes { self.new.owes ≡ self.old.owes }
        ensures room { KeepsRoom 1 self.old.room self.new.room }
    {
        count_one(&mut self.places, place);
        count_fast(&mut self.places, place);
        self.fast += 1;
        self.gained
            .push_reserved(new_ticket(number, place, mode, true));
    }

    /// Removes the last ticket, which is this fast one.
    pub(crate) fn pop_fast(&mut self, held: SessionTicket)
        requires last { EndsInFast held self.old }
        ensures struck { (self.new.slow ≡ without_at held.place held.number self.old.slow) × (self.new.fast ≡ without_at held.place held.number self.old.fast) }
        ensures freed { (self.old.room.spare < self.new.room.spare) × (held.place < self.new.room.reach) }
        ensures rest { KeepsRest self.old self.new }
    {
        let gained = &mut self.gained;
        take_last(gained);
        uncount_one(&mut self.places, held.place);
        uncount_fast(&mut self.places, held.place);
        self.fast -= 1;
    }

    /// Removes the ticket with a number at a place, if there is one.
    pub(crate) fn strike(&mut self, place: usize, id: TicketId)
        ensures struck { (self.new.slow ≡ without_at place id self.old.slow) × (self.new.fast ≡ without_at place id self.old.fast) }
        ensures freed { (t : SessionTicket) → numbered id self.old.fast ≡ Some t → t.place ≡ place → (self.old.room.spare < self.new.room.spare) × (place < self.new.room.reach) }
        ensures rest { KeepsRest self.old self.new }
    {
        let Some(fast) = last_at(&self.gained, place, id) else {
            return self.strike_earlier(place, id);
        };
        take_last(&mut self.gained);
        uncount_one(&mut self.places, place);
        if fast {
            uncount_fast(&mut self.places, place);
            self.fast -= 1;
        }
    }

    // The same for a ticket that may be before others. It is apart so that the check of the last ticket is inlined.
    #[inline(never)]
    fn strike_earlier(&mut self, place: usize, id: TicketId)
        ensures struck { (self.new.slow ≡ without_at place id self.old.slow) × (self.new.fast ≡ without_at place id self.old.fast) }
        ensures freed { (t : SessionTicket) → numbered id self.old.fast ≡ Some t → t.place ≡ place → (self.old.room.spare < self.new.room.spare) × (place < self.new.room.reach) }
        ensures rest { KeepsRest self.old self.new }
    {
        if let Some(at) = index_at(&self.gained, place, id) {
            let fast = self.gained[at].fast;
            take_out(&mut self.gained, at);
            uncount_one(&mut self.places, place);
            if fast {
                uncount_fast(&mut self.places, place);
                self.fast -= 1;
            }
        }
    }

    /// Changes the mode of the ticket with a number at a place, if there is one. It isn't a fast one.
    pub(crate) fn set_mode(&mut self, place: usize, id: TicketId, mode: Mode)
        requires slow { numbered id self.old.fast ≡ None }
        ensures changed { (self.new.slow ≡ in_mode_at place id mode self.old.slow) × (self.new.fast ≡ self.old.fast) }
        ensures rest { KeepsRest self.old self.new }
    {
        if let Some(at) = index_at(&self.gained, place, id) {
            self.gained[at].mode = mode;
        }
    }

    /// Makes the fast tickets at a place, which are these, slow. It takes no memory.
    pub(crate) fn make_slow(&mut self, place: usize, here: &[SessionTicket])
        requires these { here.now ≡ own_at place self.old.fast }
        ensures slow { self.new.slow ≡ interleaved self.old.slow (own_at place self.old.fast) }
        ensures fast { self.new.fast ≡ but_at place self.old.fast }
        ensures rest { KeepsRest self.old self.new }
    {
        self.fast -= clear_fast(&mut self.places, place);
        slow_down(&mut self.gained, here);
    }

    /// Notes a version under each ticket at a place.
    pub(crate) fn note_all(&mut self, place: usize, version: u64)
        ensures noted { (self.new.slow ≡ noting_version place version self.old.slow) × (self.new.fast ≡ noting_version place version self.old.fast) }
        ensures rest { KeepsRest self.old self.new }
    {
        note(&mut self.places, place, version);
    }

    /// The same at a place that the list reaches.
    pub(crate) fn note_reached(&mut self, place: usize, version: u64)
        requires reached { place < self.old.room.reach }
        ensures noted { (self.new.slow ≡ noting_version place version self.old.slow) × (self.new.fast ≡ noting_version place version self.old.fast) }
        ensures rest { KeepsRest self.old self.new }
    {
        note_inside(&mut self.places, place, version);
    }

    /// Returns the tickets in the form that callers get.
    pub(crate) fn held(&self) -> Result<Vec<Held>, AllocError>
        ensures { IfOk result (λ held. held.items ≡ map as_held (interleaved self.now.slow self.now.fast)) }
    {
        let mut held = Vec::with_capacity(*self.gained.allocator(), self.gained.len())?;
        for ticket in self.gained.iter() {
            held.push(told(*ticket))?;
        }
        Ok(held)
    }
}

// ---- tickets

// A ticket without its note.
fn new_ticket(number: TicketId, place: usize, mode: Mode, fast: bool) -> Gained
    requires { place < 65536 }
    ensures { result ≡ record { id = number; place = place; mode = mode; fast = fast } }
{
    Gained {
        id: number,
        place: place as Place,
        mode,
        fast,
    }
}

// The ticket with a number, among tickets whose numbers rise. The last one is returned where it is compared: an index of it would be tested and
// looked up again.
fn ticket_of(tickets: &[Gained], id: TicketId) -> Option<Gained>
    requires { HaveRisingNumbers tickets.now }
    ensures { MatchOption result (list_all (λ t. not (t.id == id)) tickets.now ≡ true) (λ t. IsNumbered id t tickets.now) }
{
    if let Some(last) = tickets.last() {
        if last.id == id {
            return Some(*last);
        }
    }
    let at = search(tickets, id)?;
    Some(tickets[at])
}

// The index of the ticket with a number, among tickets whose numbers rise.
fn index_of(tickets: &[Gained], id: TicketId) -> Option<usize>
    requires { HaveRisingNumbers tickets.now }
    ensures { MatchOption result (list_all (λ t. not (t.id == id)) tickets.now ≡ true) (λ at. StandsAt id at tickets.now) }
{
    if let Some(last) = tickets.last() {
        if last.id == id {
            return Some(tickets.len() - 1);
        }
    }
    search(tickets, id)
}

// The same by binary search. It is apart so that the check of the last ticket is inlined.
#[inline(never)]
fn search(tickets: &[Gained], id: TicketId) -> Option<usize>
    requires { HaveRisingNumbers tickets.now }
    ensures { MatchOption result (list_all (λ t. not (t.id == id)) tickets.now ≡ true) (λ at. StandsAt id at tickets.now) }
{
    tickets.binary_search_by_key(&id, |ticket| ticket.id).ok()
}

// The same, if the ticket is at this place.
fn index_at(tickets: &[Gained], place: usize, id: TicketId) -> Option<usize>
    requires { HaveRisingNumbers tickets.now }
    ensures { MatchOption result (list_all (λ t. not (is_own place id (with_note [] t))) tickets.now ≡ true)
        (λ at. StandsAt id at tickets.now × ((d : Gained) → (slice_index_or tickets.now at d).place ≡ place)) }
{
    let at = index_of(tickets, id)?;
    if usize::from(tickets[at].place) == place {
        Some(at)
    } else {
        None
    }
}

// The last ticket, if it is a fast one with this number.
fn last_of(tickets: &[Gained], id: TicketId) -> Option<Gained>
    ensures { IfSome result (λ t. IsLastGained t.place id true tickets.now × (t ≡ slice_index_or tickets.now (length tickets.now - 1) t)) }
{
    let last = tickets.last()?;
    if last.id == id && last.fast {
        Some(*last)
    } else {
        None
    }
}

// Whether the last ticket is fast, if it has this number and is at this place.
fn last_at(tickets: &[Gained], place: usize, id: TicketId) -> Option<bool>
    ensures { IfSome result (λ fast. IsLastGained place id fast tickets.now) }
{
    let last = tickets.last()?;
    if last.id == id && usize::from(last.place) == place {
        Some(last.fast)
    } else {
        None
    }
}

// A ticket with the note of its place.
fn own_of(places: &[OfPlace], ticket: Gained) -> SessionTicket
    ensures { result ≡ with_note places.now ticket }
{
    let place = usize::from(ticket.place);
    SessionTicket {
        number: ticket.id,
        place,
        mode: ticket.mode,
        noted: noted_at(places, place),
    }
}

// A ticket in the form that callers get.
fn told(ticket: Gained) -> Held
    ensures { result ≡ as_held (with_note [] ticket) }
{
    Held {
        id: ticket.id,
        place: ticket.place,
        mode: ticket.mode,
    }
}

// Removes the last ticket.
fn take_last(tickets: &mut Vec<Gained>)
    requires { 0 < length tickets.old.items }
    ensures items { tickets.new.items ≡ remove tickets.old.items (length tickets.old.items - 1) }
    ensures capacity { vec_capacity tickets.new ≡ vec_capacity tickets.old }
{
    tickets.pop();
}

// Removes the ticket at an index, and moves the later ones.
fn take_out(tickets: &mut Vec<Gained>, at: usize)
    requires { at < length tickets.old.items }
    ensures items { tickets.new.items ≡ remove tickets.old.items at }
    ensures capacity { vec_capacity tickets.new ≡ vec_capacity tickets.old }
{
    tickets.remove(at);
}

// Makes the tickets with these tickets' numbers slow, among tickets whose numbers rise.
fn slow_down(tickets: &mut Vec<Gained>, these: &[SessionTicket])
    requires { HaveRisingNumbers tickets.old.items }
    ensures items { tickets.new.items ≡ map (slowed_as these.now) tickets.old.items }
    ensures capacity { vec_capacity tickets.new ≡ vec_capacity tickets.old }
{
    for own in these.iter() {
        slow_one(tickets, own.number);
    }
}

// Makes the ticket with a number slow, if there is one.
fn slow_one(tickets: &mut Vec<Gained>, id: TicketId)
    requires { HaveRisingNumbers tickets.old.items }
    ensures items { tickets.new.items ≡ map (slowed id) tickets.old.items }
    ensures capacity { vec_capacity tickets.new ≡ vec_capacity tickets.old }
{
    if let Some(at) = index_of(tickets, id) {
        tickets[at].fast = false;
    }
}

/// The place of the first ticket, if there is one.
pub(crate) fn first_place(listed: &[SessionTicket]) -> Option<usize>
    ensures { MatchOption result (listed.now ≡ []) (λ place. (0 < length listed.now) × ((d : SessionTicket) → (slice_index_or listed.now 0 d).place ≡ place)) }
{
    let first = listed.first()?;
    Some(first.place)
}

/// How many tickets there are at the place of the first ones. They are listed by their places.
pub(crate) fn count_first(listed: &[SessionTicket], place: usize) -> usize
    requires rising { IsNonDecreasingBy (λ t. t.place) listed.now }
    requires least { (i : ℕ) (d : SessionTicket) → i < length listed.now → place ≤ (slice_index_or listed.now i d).place }
    ensures inside { result ≤ length listed.now }
    ensures these { take result listed.now ≡ own_at place listed.now }
    ensures others { drop result listed.now ≡ but_at place listed.now }
{
    match first_elsewhere(listed, place) {
        Some(other) => other,
        None => listed.len(),
    }
}

// The first ticket at another place.
fn first_elsewhere(tickets: &[SessionTicket], place: usize) -> Option<usize>
    ensures { result ≡ position (λ t. not (t.place == place)) tickets.now }
{
    tickets.iter().position(|ticket| ticket.place != place)
}

// ---- places

// How many tickets are counted at a place.
fn counted(places: &[OfPlace], place: usize) -> usize
    ensures { result ≡ counted_at place places.now }
{
    places.get(place).map_or(0, |here| here.tickets)
}

// How many fast tickets are counted at a place.
fn fast_counted(places: &[OfPlace], place: usize) -> usize
    requires inside { place < length places.now }
    ensures { result ≡ fast_counted_at place places.now }
{
    places[place].fast as usize
}

// The guess of the word of a place.
fn guessed(places: &[OfPlace], place: usize) -> Word {
    places.get(place).map_or(Word(0), |here| here.guess)
}

// Sets the guess of the word of a place.
#[tactic(auto, using(crate::proofs::OwedFlags::flags_kept))]
fn set_guess(places: &mut Vec<OfPlace>, place: usize, guess: Word)
    requires inside { place < length places.old.items }
    ensures owes { flags_of places.new.items ≡ flags_of places.old.items }
    ensures tickets { KeepsCounts places.old.items places.new.items }
    ensures fast { (q : ℕ) → fast_counted_at q places.new.items ≡ fast_counted_at q places.old.items }
{
    places[place].guess = guess;
}

// The version that is noted at a place.
fn noted_at(places: &[OfPlace], place: usize) -> Option<u64>
    ensures { result ≡ noted_in place places.now }
{
    let here = places.get(place)?;
    if here.is_noted {
        Some(here.version)
    } else {
        None
    }
}

// The version that is noted at a place, if tickets are counted there.
fn note_counted(places: &[OfPlace], place: usize) -> Option<u64>
    ensures { result ≡ (if counted_at place places.now == 0 then None else noted_in place places.now) }
{
    let here = places.get(place)?;
    if here.tickets > 0 && here.is_noted {
        Some(here.version)
    } else {
        None
    }
}

// Whether a place is owed a reschedule.
fn owed(places: &[OfPlace], place: usize) -> bool
    ensures { result ≡ owed_in place (flags_of places.now) }
{
    places.get(place).map_or(false, |here| here.owes)
}

// The first place that is owed a reschedule.
fn first_owed(places: &[OfPlace]) -> Option<usize>
    ensures { result ≡ position (λ here. here.owes) places.now }
{
    places.iter().position(|here| here.owes)
}

// Adds places without tickets and debts until there are at least `count`.
fn reach(places: &mut Vec<OfPlace>, count: usize) -> Result<(), AllocError>
    ensures length { length places.old.items ≤ length places.new.items }
    ensures narrow { count ≤ 65536 → length places.old.items ≤ 65536 → length places.new.items ≤ 65536 }
    ensures reach { OnOk result (count ≤ length places.new.items) }
    ensures lacked { OnErr result (length places.old.items < count) }
    ensures same { (q : ℕ) → AreAt q places.old.items places.new.items }
    ensures owes { (q : ℕ) → owed_in q (flags_of places.new.items) ≡ owed_in q (flags_of places.old.items) }
{
    if count <= places.len() {
        return Ok(());
    }
    let none = OfPlace {
        tickets: 0,
        version: 0,
        guess: Word(0),
        fast: 0,
        is_noted: false,
        owes: false,
    };
    places.resize(count, none)
}

// Counts one more ticket at a place. The first one there has no note.
#[tactic(auto, using(crate::proofs::OwedFlags::flags_kept))]
fn count_one(places: &mut Vec<OfPlace>, place: usize)
    requires inside { place < length places.old.items }
    requires few { counted_at place places.old.items < 2 ^ 63 }
    ensures length { length places.new.items ≡ length places.old.items }
    ensures owes { flags_of places.new.items ≡ flags_of places.old.items }
    ensures counted { (q : ℕ) → counted_at q places.new.items ≡ counted_at q places.old.items + (if q == place then 1 else 0) }
    ensures fast { (q : ℕ) → fast_counted_at q places.new.items ≡ fast_counted_at q places.old.items }
    ensures noted { (q : ℕ) → noted_in q places.new.items ≡ (if q == place && counted_at q places.old.items == 0 then None else noted_in q places.old.items) }
{
    let here = &mut places[place];
    if here.tickets == 0 {
        here.is_noted = false;
    }
    here.tickets += 1;
}

// Counts one ticket less at a place.
#[tactic(auto, using(crate::proofs::OwedFlags::flags_kept))]
fn uncount_one(places: &mut Vec<OfPlace>, place: usize)
    requires some { 0 < counted_at place places.old.items }
    ensures length { length places.new.items ≡ length places.old.items }
    ensures owes { flags_of places.new.items ≡ flags_of places.old.items }
    ensures counted { (q : ℕ) → counted_at q places.old.items ≡ counted_at q places.new.items + (if q == place then 1 else 0) }
    ensures fast { (q : ℕ) → fast_counted_at q places.new.items ≡ fast_counted_at q places.old.items }
    ensures noted { (q : ℕ) → noted_in q places.new.items ≡ noted_in q places.old.items }
    ensures inside { place < length places.new.items }
{
    places[place].tickets -= 1;
}

// Counts one more of the tickets at a place as a fast one.
#[tactic(auto, using(crate::proofs::OwedFlags::flags_kept))]
fn count_fast(places: &mut Vec<OfPlace>, place: usize)
    requires inside { place < length places.old.items }
    requires few { fast_counted_at place places.old.items < 2 ^ 31 }
    ensures owes { flags_of places.new.items ≡ flags_of places.old.items }
    ensures tickets { KeepsCounts places.old.items places.new.items }
    ensures fast { (q : ℕ) → fast_counted_at q places.new.items ≡ fast_counted_at q places.old.items + (if q == place then 1 else 0) }
{
    places[place].fast += 1;
}

// Counts one fast ticket less at a place.
#[tactic(auto, using(crate::proofs::OwedFlags::flags_kept))]
fn uncount_fast(places: &mut Vec<OfPlace>, place: usize)
    requires some { 0 < fast_counted_at place places.old.items }
    ensures owes { flags_of places.new.items ≡ flags_of places.old.items }
    ensures tickets { KeepsCounts places.old.items places.new.items }
    ensures fast { (q : ℕ) → fast_counted_at q places.old.items ≡ fast_counted_at q places.new.items + (if q == place then 1 else 0) }
{
    places[place].fast -= 1;
}

// Counts no ticket at a place as fast any more, and returns how many were.
#[tactic(auto, using(crate::proofs::OwedFlags::flags_kept))]
fn clear_fast(places: &mut Vec<OfPlace>, place: usize) -> usize
    ensures fast { result ≡ fast_counted_at place places.old.items }
    ensures owes { flags_of places.new.items ≡ flags_of places.old.items }
    ensures tickets { KeepsCounts places.old.items places.new.items }
    ensures cleared { (q : ℕ) → fast_counted_at q places.new.items ≡ (if q == place then 0 else fast_counted_at q places.old.items) }
{
    if place < places.len() {
        let fast = places[place].fast;
        places[place].fast = 0;
        fast as usize
    } else {
        0
    }
}

// Notes a version at a place, if the list has this place.
fn note(places: &mut Vec<OfPlace>, place: usize, version: u64)
    ensures length { length places.new.items ≡ length places.old.items }
    ensures owes { flags_of places.new.items ≡ flags_of places.old.items }
    ensures counted { (q : ℕ) → counted_at q places.new.items ≡ counted_at q places.old.items }
    ensures fast { (q : ℕ) → fast_counted_at q places.new.items ≡ fast_counted_at q places.old.items }
    ensures noted { (q : ℕ) → 0 < counted_at q places.old.items → noted_in q places.new.items ≡ (if q == place then Some version else noted_in q places.old.items) }
{
    if place < places.len() {
        note_inside(places, place, version);
    }
}

// Notes a version at a place that the list has.
#[tactic(auto, using(crate::proofs::OwedFlags::flags_kept))]
fn note_inside(places: &mut Vec<OfPlace>, place: usize, version: u64)
    requires inside { place < length places.old.items }
    ensures length { length places.new.items ≡ length places.old.items }
    ensures owes { flags_of places.new.items ≡ flags_of places.old.items }
    ensures counted { (q : ℕ) → counted_at q places.new.items ≡ counted_at q places.old.items }
    ensures fast { (q : ℕ) → fast_counted_at q places.new.items ≡ fast_counted_at q places.old.items }
    ensures noted { (q : ℕ) → 0 < counted_at q places.old.items
        → noted_in q places.new.items ≡ (if q == place then Some version else noted_in q places.old.items) }
{
    let here = &mut places[place];
    here.version = version;
    here.is_noted = true;
}

// Notes whether a place is owed a reschedule, if the list has this place.
fn set_owes(places: &mut Vec<OfPlace>, place: usize, owes: bool)
    ensures tickets { KeepsCounts places.old.items places.new.items }
    ensures fast { (q : ℕ) → fast_counted_at q places.new.items ≡ fast_counted_at q places.old.items }
    ensures owes { (q : ℕ) → owed_in q (flags_of places.new.items)
        ≡ (if q == place && nat_lt place (length places.old.items) then owes else owed_in q (flags_of places.old.items)) }
{
    if place < places.len() {
        places[place].owes = owes;
    }
}
