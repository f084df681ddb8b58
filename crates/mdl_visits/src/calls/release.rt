//! Releases a ticket.
ghost use Rattle.std.specs.Prelude.{◌∷◌, []};
ghost use Rattle.mdl_steps.specs.declared.deed.Deed.TheVariants.{Lose};
ghost use Rattle.mdl_steps.specs.Deeds.{KnowsPlace, NotWaited};
ghost use Rattle.mdl_steps.specs.SeatStates.{AtItsTable};
ghost use Rattle.mdl_visits.specs.Grantings.{VisitsAndReschedules};
ghost use Rattle.mdl_visits.specs.Leavings.{DoesToOwn, HasTicket};
ghost use Rattle.mdl_visits.specs.Visits.{MayVisit, VisitsOnce};

use crate::calls::reschedule::lower_flags_and_reschedule;
use crate::latches::await_latch;
use mdl_steps::{Deed, TableSeat};
use std::sync::Wait;

/// Releases the session's ticket with a number at a place, whose key it knows, and grants the waits there that can be granted then. It
/// takes no memory. After `MDL_context::release_lock`.
pub fn release<R: Wait>(rt: &R, seat: &mut TableSeat, place: usize, number: u64)
    requires at { MayVisit place seat.old }
    requires known { KnowsPlace seat.old.me.0 place }
    requires unwaited { NotWaited seat.old.me.0 number }
    requires held { HasTicket place number seat.old.me.0.slow }
    ensures released { AtItsTable seat.old seat.new (VisitsAndReschedules seat.old.table place (Lose number ∷ [])) }
    ensures step { DoesToOwn place number (Lose number ∷ []) seat.old seat.new }
    ensures once { VisitsOnce place seat.old.me seat.new.me }
{
    let latch = await_latch(rt, seat, place);
    let _gone = seat.write_loss(&latch, number);
    lower_flags_and_reschedule(seat, latch, &[Deed::Lose(number)]);
}
