//! Grants the waits at a place that can be granted, before its latch is given back.
ghost use Rattle.std.specs.Prelude.{Bool, []};
ghost use Rattle.mdl_steps.specs.SeatStates.{AtItsTable};
ghost use Rattle.mdl_visits.specs.Grantings.{IsOrderlyLatch, LeavesServed, VisitsAndReschedules};
ghost use Rattle.mdl_visits.specs.Leavings.{HasWorked, LeavesRescheduled};
ghost use Rattle.mdl_visits.specs.Visits.{HasLatched, MayVisit, VisitsOnce};

use crate::enter_and_leave::lower_flags;
use crate::grant_waiters::grant_waiters;
use crate::latches::await_latch;
use mdl_steps::{Deed, Latched, TableSeat};
use std::sync::Wait;

/// Takes the latch of a place, grants the waits there that can be granted, and gives the latch back. The session doesn't owe the place a
/// reschedule any more. It takes no memory. After `MDL_lock::reschedule_waiters`.
pub fn reschedule<R: Wait>(rt: &R, seat: &mut TableSeat, place: usize)
    requires at { MayVisit place seat.old }
    ensures rescheduled { AtItsTable seat.old seat.new (VisitsAndReschedules seat.old.table place []) }
    ensures once { VisitsOnce place seat.old.me seat.new.me }
{
    let latch = await_latch(rt, seat, place);
    reschedule_and_put(seat, latch);
}

/// Lowers the flags that the book in hand doesn't need, after some deeds, grants the waits there that can be granted then, and gives the
/// latch back.
pub(crate) fn lower_flags_and_reschedule(seat: &mut TableSeat, latch: Latched, deeds: &[Deed])
    requires worked { (freed : Bool) × HasWorked latch.place deeds.now freed seat.old }
    ensures left { LeavesRescheduled latch.place deeds.now seat.old seat.new }
{
    lower_flags(seat, &latch, deeds);
    reschedule_and_put(seat, latch);
}

// Grants the waits at the latched place that can be granted, and gives the latch back, also after something was freed.
fn reschedule_and_put(seat: &mut TableSeat, latch: Latched)
    requires here { HasLatched latch.place seat.old IsOrderlyLatch }
    ensures served { LeavesServed latch.place seat.old seat.new }
{
    if seat.has_waiters(&latch) {
        grant_waiters(seat, &latch);
    }
    seat.put_latch_served(latch);
}
