//! Releases a fast ticket: the lock's word no longer counts it.
ghost use Rattle.mdl_steps.specs.FastPlays.{MayReleaseFast};
ghost use Rattle.mdl_steps.specs.SeatStates.{AtItsTable};
ghost use Rattle.mdl_steps.specs.Seats.{IsPlace};
ghost use Rattle.mdl_visits.specs.FastTries.{ReleasesFast};

use mdl_steps::TableSeat;
use mdl_word::Word;

/// Releases the session's fast ticket with a number at a place, by one step. It needs no latch and takes no memory.
///
/// Returns whether waits at the place may have become grantable: whether the word that the step found had its flag
/// [`SLOW`](Word::SLOW) up. If so, [`reschedule`](crate::reschedule) grants them. `one` is what [`Word::increment`] returns for the ticket's
/// mode. `guess` becomes the word that the step left, for [`try_fast`](crate::try_fast). After the fast path of `MDL_context::release_lock`.
pub fn release_fast(
    seat: &mut TableSeat,
    place: usize,
    number: u64,
    guess: &mut Word,
    one: u64,
) -> bool
    requires place { IsPlace seat.old.table place }
    requires lost { MayReleaseFast place number one seat.old.me }
    ensures released { AtItsTable seat.old seat.new (ReleasesFast place number result) }
{
    let found = seat.release_fast(place, number, one);
    *guess = Word(found.0.wrapping_sub(one));
    found.slow()
}
