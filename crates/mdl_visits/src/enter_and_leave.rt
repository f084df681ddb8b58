//! Takes the latch of a place for a request (a wish), and gives it back. Before that, the flags of the lock's word that the lists don't
//! need are lowered.
ghost use Rattle.std.specs.Prelude.{◌≡◌, ℕ, Bool, true, false, IfNone, MatchResult, OnOk, OnErr};
ghost use Rattle.mdl_key.specs.declared.namespace.Kind.{Kind};
ghost use Rattle.mdl_key.specs.Refusals.{Refuses};
ghost use Rattle.mdl_key.specs.Words.{is_obtrusive};
ghost use Rattle.mdl_steps.specs.declared.deed.Deed.TheVariants.{Gain};
ghost use Rattle.mdl_steps.specs.Deeds.{booked};
ghost use Rattle.mdl_steps.specs.SeatStates.{HoldsBook, OfBook, SeatState};
ghost use Rattle.mdl_steps.specs.Seats.{written};
ghost use Rattle.mdl_visits.specs.Leavings.{HasLowered, HasWorked, LeavesAfter};
ghost use Rattle.mdl_visits.specs.Visits.{EndsRequest, HasEntered, MayVisit, RequestsMode, StaysWithin, VisitsOnce, request_fault};

use crate::latches::await_latch;
use mdl_book::BookError;
use mdl_key::Mode;
use mdl_steps::{Deed, Latched, TableSeat};
use mdl_word::Word;
use std::sync::Wait;

/// Takes the latch of a place for a request, raises the flag SLOW of the lock's word, and OBTRUSIVE if the mode is obtrusive, and then
/// reads the word. Returns the latch and the word.
pub(crate) fn enter<R: Wait>(
    rt: &R,
    seat: &mut TableSeat,
    place: usize,
    mode: Mode,
    obtrusive: bool,
) -> (Latched, Word)
    requires at { MayVisit place seat.old }
    requires wish { (kind : Kind) × RequestsMode place kind mode seat.old.me.0 × (obtrusive ≡ is_obtrusive kind mode) }
    ensures entered { (can : Bool) × HasEntered place result.0.place result.1.0 mode can seat.old seat.new }
    ensures within { StaysWithin obtrusive seat.old.me seat.new.me }
{
    let latch = await_latch(rt, seat, place);
    seat.raise_flags(&latch, true, obtrusive);
    let word = seat.read_word(&latch);
    (latch, word)
}

/// Gives the session a ticket at the place that it entered, and gives the latch back, if the request can be granted. If it can't, nothing
/// changes, and the latch is returned. If there is no room, nothing changes, and the latch is given back.
#[inline]
pub(crate) fn gain(
    seat: &mut TableSeat,
    latch: Latched,
    number: u64,
    mode: Mode,
    word: Word,
) -> Result<Option<Latched>, BookError>
    requires entered { (place : ℕ) × (can : Bool) × (s : SeatState) × HasEntered place latch.place word.0 mode can s seat.old }
    requires number { number ≡ seat.old.me.0.next }
    ensures done { EndsRequest latch.place word.0 mode (Gain number mode) result seat.old seat.new }
    ensures once { MatchResult result (λ back. IfNone back (VisitsOnce latch.place seat.old.me seat.new.me)) (λ _. VisitsOnce latch.place seat.old.me seat.new.me) }
{
    let Err(cause) = write_if_grantable(seat, &latch, number, mode, word) else {
        seat.put_latch(latch, &[Deed::Gain(number, mode)]);
        return Ok(None);
    };
    match cause {
        BookError::WouldConflict => Ok(Some(latch)),
        _ => {
            lower_flags_and_put(seat, latch, &[]);
            Err(cause)
        }
    }
}

// Adds a granted ticket of the session to the book in hand, if its request can be granted by the book and the place's word. Where nobody
// waits, the book itself tells that as it grants.
#[inline]
fn write_if_grantable(
    seat: &mut TableSeat,
    latch: &Latched,
    number: u64,
    mode: Mode,
    word: Word,
) -> Result<(), BookError>
    requires carried { HoldsBook latch.now.place seat.old }
    ensures written { OfBook latch.now.place seat.old (λ book. OnOk result (seat.new ≡ record seat.old { me = written latch.now.place (booked seat.old.me.0.number (Gain number mode) book) seat.old.me })) }
    ensures unchanged { OnErr result (seat.new ≡ seat.old) }
    ensures refused { OfBook latch.now.place seat.old (λ book. Refuses (request_fault (record { session = seat.old.me.0.number; number = number; mode = mode }) word.0 book) BookError.OutOfMemory result) }
{
    if seat.has_waiters(latch) && !seat.can_grant(latch, mode, word) {
        return Err(BookError::WouldConflict);
    }
    seat.write_gain(latch, number, mode, word)
}

/// Gives the latch back after some deeds, with just those flags up that the book in hand needs. No waiter was let in.
pub(crate) fn lower_flags_and_put(seat: &mut TableSeat, latch: Latched, deeds: &[Deed])
    requires worked { HasWorked latch.place deeds.now false seat.old }
    ensures left { LeavesAfter latch.place deeds.now seat.old seat.new }
{
    lower_flags(seat, &latch, deeds);
    seat.put_latch(latch, &[]);
}

/// Lowers the flags that the book in hand doesn't need, after some deeds.
pub(crate) fn lower_flags(seat: &mut TableSeat, latch: &Latched, deeds: &[Deed])
    requires worked { (freed : Bool) × HasWorked latch.now.place deeds.now freed seat.old }
    ensures lowered { HasLowered latch.now.place deeds.now seat.old seat.new }
{
    let needs = seat.needs(latch);
    seat.lower_flags(latch, needs.slow, needs.obtrusive, deeds);
}
