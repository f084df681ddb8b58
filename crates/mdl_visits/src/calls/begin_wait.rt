//! Grants a request for a lock at once, or begins to wait for it.
ghost use Rattle.std.specs.Prelude.{◌≡◌, ℕ, Ok, IfErr, false};
ghost use Rattle.mdl_key.specs.Words.{is_obtrusive};
ghost use Rattle.mdl_steps.specs.declared.deed.Deed.TheVariants.{Gain};
ghost use Rattle.mdl_steps.specs.SeatStates.{SeatState};
ghost use Rattle.mdl_visits.specs.declared.calls.begin_wait.Queued.TheVariants.{Granted, Waiting};
ghost use Rattle.mdl_visits.specs.WaitOpenings.{IsNewWait, SeatBeginsWait};
ghost use Rattle.mdl_visits.specs.Visits.{EndsWish, HasEntered, IsVisit, MayRequest, VisitsOnce, WasGranted, WasRefused};

use crate::enter_and_leave::{enter, gain, lower_flags_and_put};
use mdl_book::BookError;
use mdl_key::{Kind, Mode, is_obtrusive};
use mdl_steps::{Latched, TableSeat};
use std::sync::Wait;

/// The result of a request for a lock that may be waited for.
#[derive(Clone, Copy, Debug, PartialEq, Eq)]
pub enum Queued {
    /// The session has the ticket.
    Granted,
    /// The session waits for it.
    Waiting,
}

/// Grants the session a ticket with this number in this mode, if it clashes with no granted ticket of another session and needn't wait behind a
/// waiting one. Otherwise adds the ticket there as the last waiting one, and begins the wait with the number `wait`. After
/// `MDL_context::acquire_lock`, which waits itself.
pub fn begin_wait<R: Wait>(
    rt: &R,
    seat: &mut TableSeat,
    place: usize,
    kind: Kind,
    number: u64,
    mode: Mode,
    wait: u64,
) -> Result<Queued, BookError>
    requires may { MayRequest place kind mode seat.old }
    requires new { IsNewWait number wait seat.old.me.0 }
    ensures granted { result ≡ Ok Granted → WasGranted place mode (Gain number mode) seat.old seat.new }
    ensures waiting { result ≡ Ok Waiting → SeatBeginsWait place mode number seat.old seat.new }
    ensures once { IsVisit place (is_obtrusive kind mode) seat.old.me seat.new.me }
    ensures refused { IfErr result (λ cause. WasRefused place cause seat.old seat.new) }
{
    let (latch, word) = enter(rt, seat, place, mode, is_obtrusive(kind, mode));
    match gain(seat, latch, number, mode, word) {
        Ok(None) => Ok(Queued::Granted),
        Ok(Some(latch)) => {
            if let Err(cause) = enqueue(seat, latch, number, mode, wait) {
                return Err(cause);
            }
            Ok(Queued::Waiting)
        }
        Err(cause) => Err(cause),
    }
}

// Opens a wait at the place that the session entered with a request that can't be granted, and gives the latch back. If there is no room,
// nothing changes.
fn enqueue(
    seat: &mut TableSeat,
    latch: Latched,
    number: u64,
    mode: Mode,
    wait: u64,
) -> Result<(), BookError>
    requires entered { (place word : ℕ) × (s : SeatState) × HasEntered place latch.place word mode false s seat.old }
    requires new { IsNewWait number wait seat.old.me.0 }
    ensures done { (word : ℕ) → EndsWish latch.place word mode false result (λ place s. SeatBeginsWait place mode number s seat.new) seat.old seat.new }
    ensures once { VisitsOnce latch.place seat.old.me seat.new.me }
{
    if let Err(cause) = seat.write_wish(&latch, number, mode) {
        lower_flags_and_put(seat, latch, &[]);
        return Err(cause);
    }
    seat.open_wait(&latch, mode, wait);
    seat.put_latch(latch, &[]);
    Ok(())
}
