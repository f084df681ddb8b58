//! Ends a lost wait, under the latch of its place.
ghost use Rattle.std.specs.Prelude.{◌≡◌, ℕ, ◌^◌, ◌<◌, Some};
ghost use Rattle.mdl_steps.specs.SeatStates.{AtItsTable};
ghost use Rattle.mdl_steps.specs.WaitStates.{IsLost};
ghost use Rattle.mdl_visits.specs.WaitEndings.{EndsLost, ShowsEnd};
ghost use Rattle.mdl_visits.specs.Visits.{MayVisit, VisitsOnce};

use crate::calls::reschedule::lower_flags_and_reschedule;
use crate::latches::await_latch;
use mdl_steps::{Ask, TableSeat};
use std::sync::Wait;

/// Removes the ticket of the session's lost wait from the list of its place, ends the wait, and grants the waits there that can be
/// granted then. `wait` is the wait's number. It takes no memory. After `MDL_lock::remove_ticket`.
pub fn end_lost_wait<R: Wait>(rt: &R, seat: &mut TableSeat, ask: Ask, wait: u64)
    requires at { MayVisit ask.place seat.old }
    requires asks { seat.old.me.0.asks ≡ Some ask }
    requires lost { (state : ℕ) × (seat.old.me.0.told ≡ Some state) × IsLost state }
    requires wait { (wait ≡ seat.old.me.0.waits) × (wait < 2 ^ 60) }
    ensures ended { AtItsTable seat.old seat.new (EndsLost seat.old.table ask.place) }
    ensures once { VisitsOnce ask.place seat.old.me seat.new.me }
    ensures met { ShowsEnd seat.old seat.new }
{
    let latch = await_latch(rt, seat, ask.place);
    let _withdrawn = seat.write_withdrawal(&latch, ask.number);
    seat.end_lost(&latch, wait);
    lower_flags_and_reschedule(seat, latch, &[]);
}
