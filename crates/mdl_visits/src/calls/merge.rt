//! Merges two tickets of a place.
ghost use Rattle.std.specs.Prelude.{◌∷◌, []};
ghost use Rattle.mdl_steps.specs.declared.deed.Deed.TheVariants.{Alter, Lose};
ghost use Rattle.mdl_steps.specs.Deeds.{KnowsPlace};
ghost use Rattle.mdl_steps.specs.SeatStates.{AtItsTable};
ghost use Rattle.mdl_visits.specs.Coverings.{CanMerge};
ghost use Rattle.mdl_visits.specs.Leavings.{MergesOwn};
ghost use Rattle.mdl_visits.specs.Visits.{MayVisit, Visits, VisitsOnce};

use crate::enter_and_leave::lower_flags_and_put;
use crate::latches::await_latch;
use crate::no_fast_tickets::NO_FAST_TICKETS;
use mdl_steps::{Deed, SessionTicket, TableSeat};
use std::sync::Wait;

/// Gives a ticket of the session the mode of another one at its place, which covers its own, and releases that other one. The session has
/// no wait. It takes no memory.
pub fn merge<R: Wait>(rt: &R, seat: &mut TableSeat, kept: SessionTicket, gone: SessionTicket)
    requires at { MayVisit kept.place seat.old }
    requires known { KnowsPlace seat.old.me.0 kept.place }
    requires may { CanMerge kept gone seat.old.me.0 }
    ensures merged { AtItsTable seat.old seat.new (Visits kept.place (Alter kept.number gone.mode ∷ Lose gone.number ∷ [])) }
    ensures step { MergesOwn kept gone seat.old seat.new }
    ensures once { VisitsOnce kept.place seat.old.me seat.new.me }
{
    let latch = await_latch(rt, seat, kept.place);
    let _altered = seat.write_mode(&latch, kept.number, gone.mode, NO_FAST_TICKETS);
    let _gone = seat.write_loss(&latch, gone.number);
    let deeds = [Deed::Alter(kept.number, gone.mode), Deed::Lose(gone.number)];
    lower_flags_and_put(seat, latch, &deeds);
}
