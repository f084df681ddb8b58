//! Tries to get a ticket without the latch of its place.
//!
//! After MySQL 5.7, sql/mdl.cc: the fast path of `MDL_context::try_acquire_lock_impl`.
ghost use Rattle.std.specs.Prelude.{◌≡◌, ℕ, MatchResult, None, Some, true, IfErr, IfOk};
ghost use Rattle.mdl_visits.specs.Visits.{StaysOn};
ghost use Rattle.mdl_shared.specs.FastCalls.{HasTriedFast, RefusesFast, fast_fault};
ghost use Rattle.mdl_visits.specs.KnownLists.{has_pin, kind_pinned};
ghost use Rattle.mdl_shared.specs.LatchCalls.{MayGainFast};
ghost use Rattle.mdl_shared.specs.Members.{increment_at, wish_fault};
ghost use Rattle.mdl_shared.specs.Passes.{view_of};
ghost use Rattle.mdl_shared.specs.SessionViews.{lists_seen};

use crate::Session;
use crate::fast_path::{NotFast, weight};
use crate::holdings::MOST_NUMBERS;
use crate::member::Member;
use mdl_calls::{Place, SpaceError, TicketId};
use mdl_key::Mode;
use mdl_word::Word;

/// The result of a try for a fast ticket.
#[derive(Clone, Copy, Debug, PartialEq, Eq)]
pub enum Fast {
    /// The session has a fast ticket with this number.
    Granted(TicketId),
    /// The lock's word, which is this one, has the flag OBTRUSIVE up: the lock has, or may have, a ticket or a wait in an obtrusive mode.
    Obtruded(Word),
    /// Other sessions changed the lock's word before each of eight tries. This is the word that was found last.
    Contended(Word),
    /// The session has 1,023 fast tickets there, the most that it may have.
    Limit,
}

impl<R> Session<R> {
    /// Tries to get a fast ticket in an unobtrusive mode, without the latch of the place. Fails with [`SpaceError::NoPlace`] if the session
    /// doesn't pin the place. If no ticket is granted, nothing changes, and [`Session::try_now`] may be called for it.
    ///
    /// It takes memory only if there is no room for one more ticket. [`Session::reserve_tickets`] makes room in advance.
    pub fn try_fast(&mut self, place: Place, mode: Mode) -> Result<Fast, SpaceError>
        ensures tried { IfOk result (λ fast. HasTriedFast place mode fast self.old self.new) }
        ensures fit { IfOk result (λ fast. fast_fault place mode self.old.pins (lists_seen self.old.me.0) ≡ None) }
        ensures refused { IfErr result (λ why. RefusesFast place mode why self.old self.new) }
        ensures stays { StaysOn self.old.me self.new.me }
    {
        let place = place as usize;
        let one = self.member.fast_wished(place, mode)?;
        if self.member.tickets.has_room(place) {
            return Ok(self.member.try_with_room(place, mode, one));
        }
        if self.member.tickets.reserve(place).is_err() {
            return Err(SpaceError::OutOfMemory);
        }
        Ok(self.member.try_reserved(place, mode))
    }
}

impl Member {
    // What a ticket in a mode adds to the word of a place, if the session pins the place and may request it.
    fn fast_wished(&self, place: usize, mode: Mode) -> Result<u64, SpaceError>
        ensures { MatchResult result
            (λ one. (has_pin place self.now.known.pins ≡ true) × (increment_at place mode self.now.known.known ≡ Some one)
            × (wish_fault (kind_pinned place self.now.known.pins self.now.known.known) self.now.asks mode self.now.next ≡ None)
            × (fast_fault place mode self.now.known.pins (lists_seen self.now.seat.me.0) ≡ None))
            (λ why. fast_fault place mode self.now.known.pins (lists_seen self.now.seat.me.0) ≡ Some why) }
    {
        let Some(kind) = self.known.kind_pinned(place) else {
            return Err(SpaceError::NoPlace);
        };
        if self.asks.is_some() {
            return Err(SpaceError::AlreadyWaiting);
        }
        let Some(one) = Word::increment(kind, mode) else {
            return Err(SpaceError::BadMode);
        };
        if self.next > MOST_NUMBERS {
            return Err(SpaceError::CounterFull);
        }
        Ok(one)
    }

    // Tries to get a fast ticket, for which there is room.
    #[inline(always)]
    fn try_with_room(&mut self, place: usize, mode: Mode, one: u64) -> Fast
        requires may { MayGainFast place mode one self.old }
        ensures tried { HasTriedFast place mode result (view_of self.old) (view_of self.new) }
        ensures stays { StaysOn self.old.seat.me self.new.seat.me }
    {
        match self.gain_fast(place, mode, one) {
            Ok(number) => Fast::Granted(number),
            Err(NotFast::Obtruded(word)) => Fast::Obtruded(word),
            Err(NotFast::Contended(word)) => Fast::Contended(word),
            Err(NotFast::Limit) => Fast::Limit,
        }
    }

    // The same where the room was made just now. It is apart, and is passed little, so that a try that finds room calls no function.
    #[cold]
    #[inline(never)]
    fn try_reserved(&mut self, place: usize, mode: Mode) -> Fast
        requires may { (one : ℕ) × MayGainFast place mode one self.old }
        ensures tried { HasTriedFast place mode result (view_of self.old) (view_of self.new) }
        ensures stays { StaysOn self.old.seat.me self.new.seat.me }
    {
        self.try_with_room(place, mode, weight(mode))
    }
}
