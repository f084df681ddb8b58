//! The fast path: if the flag OBTRUSIVE of the lock's word is down, a ticket in an unobtrusive mode is granted without the latch of its
//! place. It is released without the latch, too. The lock's word counts it, and no book has it. Before the session requests a ticket or a
//! mode under the latch of a place, its fast tickets become slow: they are entered in the books.
//!
//! After MySQL 5.7, sql/mdl.cc: `MDL_context::try_acquire_lock_impl`, `MDL_context::release_lock` and
//! `MDL_context::materialize_fast_path_locks`.
ghost use Rattle.std.specs.Prelude.{ℕ, ◌≡◌, ◌⊎◌, Err, ◌<◌, ◌≤◌, ◌∷◌, [], None, Some, length, true, is_some, IfErr, IfOk, OnErr, OnOk};
ghost use Rattle.mdl_key.specs.declared.namespace.Kind.{Kind};
ghost use Rattle.mdl_word.specs.Words.{increment_of};
ghost use Rattle.mdl_steps.specs.declared.deed.Deed.TheVariants.{Gain, Lose};
ghost use Rattle.mdl_steps.specs.Cells.{own_at};
ghost use Rattle.mdl_steps.specs.FastPlays.{but_at};
ghost use Rattle.mdl_steps.specs.Limits.{most_fast};
ghost use Rattle.mdl_visits.specs.FastTries.{GrantsAtLast, ReleasesFast};
ghost use Rattle.mdl_visits.specs.Numbers.{numbered};
ghost use Rattle.mdl_visits.specs.Visits.{StaysOn, VisitsOnce};
ghost use Rattle.mdl_shared.specs.declared.fast_path.NotFast.TheVariants.{Limit};
ghost use Rattle.mdl_shared.specs.Debts.{but_owing};
ghost use Rattle.mdl_shared.specs.DeedsDone.{DoesQuietly};
ghost use Rattle.mdl_shared.specs.LatchCalls.{MayGainFast};
ghost use Rattle.mdl_shared.specs.FastDeeds.{AreSameOrSlow, AreSlowBefore, HasNoFast};
ghost use Rattle.mdl_shared.specs.Members.{increment_at};
ghost use Rattle.mdl_shared.specs.Passes.{view_of};
ghost use Rattle.mdl_shared.specs.Steps.{ShowsStep};
ghost use Rattle.mdl_shared.specs.WishSteps.{AllMadeSlow, LacksRoomForFast, MakesSlow, SlowsAll, StopsSlowing};
ghost use Rattle.mdl_shared.specs.LastFast.{EndsInFast};
ghost use Rattle.mdl_shared.specs.TicketLists.{KeepsRoom};

use crate::member::Member;
use crate::tickets::{count_first, first_place};
use crate::wishes::refusal;
use mdl_calls::{SpaceError, TicketId};
use mdl_key::Mode;
use mdl_steps::SessionTicket;
use mdl_visits::{FastTried, materialise, release_fast, try_fast};
use mdl_word::Word;
use std::sync::Wait;

/// Why the session got no fast ticket. Nothing has changed.
#[derive(Clone, Copy, Debug, PartialEq, Eq)]
pub(crate) enum NotFast {
    /// The lock's word, which is this one, has the flag OBTRUSIVE up.
    Obtruded(Word),
    /// Each try found that the lock's word had changed. This is the word that was found last.
    Contended(Word),
    /// The session has as many fast tickets there as it may have.
    Limit,
}

// The most fast tickets that a session may have at a place.
const MOST_FAST: usize = 1023;

impl Member {
    /// Grants a fast ticket with the next number, for which there is room, unless the fast path is closed. It needs no latch and takes no
    /// memory.
    ///
    /// `one` is what the ticket adds to the word of the place.
    #[inline(always)]
    pub(crate) fn gain_fast(
        &mut self,
        place: usize,
        mode: Mode,
        one: u64,
    ) -> Result<TicketId, NotFast>
        requires may { MayGainFast place mode one self.old }
        ensures granted { IfOk result (λ id. (id ≡ self.old.next)
            × DoesQuietly place (Gain id mode ∷ []) (view_of self.old) (view_of self.new)
            × GrantsAtLast place (Gain id mode) self.old.seat.me self.new.seat.me
            × (is_some (numbered id self.new.tickets.fast) ≡ true)) }
        ensures room { KeepsRoom 1 self.old.tickets.room self.new.tickets.room }
        ensures unchanged { OnErr result (DoesQuietly place [] (view_of self.old) (view_of self.new) × (self.new.tickets ≡ self.old.tickets)) }
        ensures closed { IfErr result (λ why. HasNoFast why place (view_of self.old) (view_of self.new)) }
        ensures fewer { (result ≡ Err Limit) ⊎ (length (own_at place self.old.tickets.fast) < most_fast) }
        ensures stays { StaysOn self.old.seat.me self.new.seat.me }
    {
        if self.tickets.fast_at(place) >= MOST_FAST {
            return Err(NotFast::Limit);
        }
        let noted = self.tickets.note_of(place);
        let mut guess = self.tickets.guess_of(place);
        let tried = try_fast(&mut self.seat, place, mode, noted, &mut guess, one);
        self.tickets.keep_guess(place, guess);
        match tried {
            FastTried::Granted => {}
            FastTried::Obtruded(word) => return Err(NotFast::Obtruded(word)),
            FastTried::Contended(word) => return Err(NotFast::Contended(word)),
        }
        let number = self.next;
        self.tickets.push_fast(number, place, mode);
        self.next += 1;
        Ok(number)
    }

    /// Releases a fast ticket of the session. Returns whether waits at its place may have become grantable: then the session owes the place a
    /// reschedule. It needs no latch and takes no memory.
    #[inline(always)]
    pub(crate) fn lose_fast(&mut self, held: SessionTicket) -> bool
        requires held { numbered held.number self.old.tickets.fast ≡ Some held }
        ensures lost { DoesQuietly held.place (Lose held.number ∷ []) (view_of self.old) (but_owing (view_of self.old) (view_of self.new)) }
        ensures released { ReleasesFast held.place held.number result self.old.seat.me self.new.seat.me }
        ensures room { (self.old.tickets.room.spare < self.new.tickets.room.spare) × (self.old.tickets.room.reach ≤ self.new.tickets.room.reach) }
        ensures stays { StaysOn self.old.seat.me self.new.seat.me }
    {
        let one = self.increment(held);
        let mut guess = self.tickets.guess_of(held.place);
        let owes = release_fast(&mut self.seat, held.place, held.number, &mut guess, one);
        self.tickets.strike(held.place, held.number);
        self.tickets.keep_guess(held.place, guess);
        if owes {
            self.tickets.owe(held.place);
        }
        owes
    }

    /// The same for the last ticket of the session.
    #[inline(always)]
    pub(crate) fn lose_last(&mut self, held: SessionTicket) -> bool
        requires last { EndsInFast held self.old.tickets }
        ensures lost { DoesQuietly held.place (Lose held.number ∷ []) (view_of self.old) (but_owing (view_of self.old) (view_of self.new)) }
        ensures released { ReleasesFast held.place held.number result self.old.seat.me self.new.seat.me }
        ensures room { (self.old.tickets.room.spare < self.new.tickets.room.spare) × (self.old.tickets.room.reach ≤ self.new.tickets.room.reach) }
        ensures stays { StaysOn self.old.seat.me self.new.seat.me }
    {
        let place = held.place;
        let one = self.increment(held);
        let mut guess = self.tickets.guess_of(place);
        let owes = release_fast(&mut self.seat, place, held.number, &mut guess, one);
        self.tickets.pop_fast(held);
        self.tickets.keep_guess(place, guess);
        if owes {
            self.tickets.owe(place);
        }
        owes
    }

    /// Makes the session's fast tickets slow, place by place: they are granted in the books, and the words no longer count them. The session
    /// has no wait. If there is no room for those of a place, they stay fast, as do those of the places after it.
    pub(crate) fn materialise<R: Wait>(&mut self, rt: &R) -> Result<(), SpaceError>
        requires idle { self.old.asks ≡ None }
        ensures done { DoesQuietly 0 [] (view_of self.old) (view_of self.new) }
        ensures slow { OnOk result ((self.new.tickets.fast ≡ []) × AllMadeSlow (view_of self.old) (view_of self.new)) }
        ensures turn { OnOk result (SlowsAll self.old.seat.me self.new.seat.me) }
        ensures stops { OnErr result (StopsSlowing self.old.seat.me self.new.seat.me) }
        ensures refused { IfErr result (λ why. LacksRoomForFast why (view_of self.old) (view_of self.new)) }
        ensures partly { OnErr result (AreSameOrSlow (view_of self.old) (view_of self.new)) }
        ensures order { OnErr result (AreSlowBefore (view_of self.old) (view_of self.new)) }
        ensures room { KeepsRoom 0 self.old.tickets.room self.new.tickets.room }
    {
        if self.tickets.has_fast() {
            self.materialise_all(rt)
        } else {
            Ok(())
        }
    }

    // The same where the session has a fast ticket. It is apart so that the check for one is inlined.
    #[inline(never)]
    fn materialise_all<R: Wait>(&mut self, rt: &R) -> Result<(), SpaceError>
        requires idle { self.old.asks ≡ None }
        requires some { 0 < length self.old.tickets.fast }
        ensures done { DoesQuietly 0 [] (view_of self.old) (view_of self.new) }
        ensures slow { OnOk result ((self.new.tickets.fast ≡ []) × AllMadeSlow (view_of self.old) (view_of self.new)) }
        ensures turn { OnOk result (SlowsAll self.old.seat.me self.new.seat.me) }
        ensures stops { OnErr result (StopsSlowing self.old.seat.me self.new.seat.me) }
        ensures refused { IfErr result (λ why. LacksRoomForFast why (view_of self.old) (view_of self.new)) }
        ensures partly { OnErr result (AreSameOrSlow (view_of self.old) (view_of self.new)) }
        ensures order { OnErr result (AreSlowBefore (view_of self.old) (view_of self.new)) }
        ensures room { KeepsRoom 0 self.old.tickets.room self.new.tickets.room }
    {
        let Ok(listed) = self.tickets.list_fast() else {
            return Err(SpaceError::OutOfMemory);
        };
        let mut rest: &[SessionTicket] = &listed;
        while let Some(place) = first_place(rest) {
            let (here, later) = rest.split_at(count_first(rest, place));
            self.materialise_at(rt, place, here)?;
            rest = later;
        }
        Ok(())
    }

    // The same at one place, where the session has these fast tickets.
    fn materialise_at<R: Wait>(
        &mut self,
        rt: &R,
        place: usize,
        here: &[SessionTicket],
    ) -> Result<(), SpaceError>
        requires idle { self.old.asks ≡ None }
        requires some { 0 < length (own_at place self.old.tickets.fast) }
        requires these { here.now ≡ own_at place self.old.tickets.fast }
        ensures done { DoesQuietly 0 [] (view_of self.old) (view_of self.new) }
        ensures slow { OnOk result ((self.new.tickets.fast ≡ but_at place self.old.tickets.fast) × ShowsStep (view_of self.old) (view_of self.new) (MakesSlow place)) }
        ensures once { OnOk result (VisitsOnce place self.old.seat.me self.new.seat.me) }
        ensures stops { OnErr result ((self.new.seat.me ≡ self.old.seat.me) ⊎ VisitsOnce place self.old.seat.me self.new.seat.me) }
        ensures fast { OnErr result (self.new.tickets.fast ≡ self.old.tickets.fast) }
        ensures refused { IfErr result (λ why. LacksRoomForFast why (view_of self.old) (view_of self.new)) }
        ensures room { KeepsRoom 0 self.old.tickets.room self.new.tickets.room }
    {
        let kind = self.known.kind_at(place);
        if let Err(cause) = materialise(rt, &mut self.seat, place, kind, here) {
            return Err(refusal(cause));
        }
        self.tickets.make_slow(place, here);
        Ok(())
    }

    // What a fast ticket adds to the word of its place.
    #[inline(always)]
    fn increment(&self, held: SessionTicket) -> u64
        requires held { numbered held.number self.now.tickets.fast ≡ Some held }
        ensures { increment_at held.place held.mode self.now.known.known ≡ Some result }
    {
        weight(held.mode)
    }
}

/// What a fast ticket in a mode adds to the word of its place, whatever kind the lock is: no mode is counted in two classes.
pub(crate) fn weight(mode: Mode) -> u64
    ensures { (kind : Kind) (one : ℕ) → increment_of kind mode ≡ Some one → result ≡ one }
{
    match mode {
        Mode::IX | Mode::S | Mode::SH => 1,
        Mode::SR => 1 << 20,
        Mode::SW | Mode::SWLP => 1 << 40,
        _ => 0,
    }
}
