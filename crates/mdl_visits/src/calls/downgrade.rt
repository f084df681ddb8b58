//! Gives a ticket a weaker mode.
ghost use Rattle.std.specs.Prelude.{◌≡◌, ◌∷◌, [], Some, true};
ghost use Rattle.mdl_steps.specs.declared.deed.Deed.TheVariants.{Alter};
ghost use Rattle.mdl_steps.specs.Deeds.{NotWaited};
ghost use Rattle.mdl_steps.specs.SeatStates.{AtItsTable};
ghost use Rattle.mdl_visits.specs.Coverings.{FitsAt};
ghost use Rattle.mdl_visits.specs.Grantings.{VisitsAndReschedules};
ghost use Rattle.mdl_visits.specs.Leavings.{DoesToOwn};
ghost use Rattle.mdl_visits.specs.Numbers.{numbered};
ghost use Rattle.mdl_visits.specs.Visits.{MayVisit, VisitsOnce};
ghost use Rattle.mdl_system.specs.Strength.{may_downgrade};

use crate::calls::reschedule::lower_flags_and_reschedule;
use crate::latches::await_latch;
use crate::no_fast_tickets::NO_FAST_TICKETS;
use mdl_key::Mode;
use mdl_steps::{Deed, SessionTicket, TableSeat};
use std::sync::Wait;

/// Gives a ticket of the session a mode to which its own may be downgraded, also while the session waits for another ticket, and grants
/// the waits at the place that can be granted then. It takes no memory. After `MDL_ticket::downgrade_lock`.
pub fn downgrade<R: Wait>(rt: &R, seat: &mut TableSeat, held: SessionTicket, mode: Mode)
    requires at { MayVisit held.place seat.old }
    requires unwaited { NotWaited seat.old.me.0 held.number }
    requires held { numbered held.number seat.old.me.0.slow ≡ Some held }
    requires fits { FitsAt seat.old.me.0 held.place mode }
    requires weaker { may_downgrade held.mode mode ≡ true }
    ensures downgraded { AtItsTable seat.old seat.new (VisitsAndReschedules seat.old.table held.place (Alter held.number mode ∷ [])) }
    ensures step { DoesToOwn held.place held.number (Alter held.number mode ∷ []) seat.old seat.new }
    ensures once { VisitsOnce held.place seat.old.me seat.new.me }
{
    let latch = await_latch(rt, seat, held.place);
    let _altered = seat.write_mode(&latch, held.number, mode, NO_FAST_TICKETS);
    lower_flags_and_reschedule(seat, latch, &[Deed::Alter(held.number, mode)]);
}
