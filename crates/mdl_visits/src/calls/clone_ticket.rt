//! Makes a second ticket of one that the session has.
ghost use Rattle.std.specs.Prelude.{◌≡◌, ◌∷◌, [], OnOk, IfErr};
ghost use Rattle.mdl_steps.specs.declared.deed.Deed.TheVariants.{Gain};
ghost use Rattle.mdl_steps.specs.declared.view.StepRecord.{StepRecord};
ghost use Rattle.mdl_steps.specs.SeatStates.{AtItsTable};
ghost use Rattle.mdl_visits.specs.Coverings.{CanClone};
ghost use Rattle.mdl_visits.specs.Leavings.{MeetsOwn};
ghost use Rattle.mdl_visits.specs.Visits.{IsStepOf, MayVisit, Visits, VisitsOnce, WasRefused};

use crate::enter_and_leave::lower_flags_and_put;
use crate::latches::await_latch;
use crate::no_fast_tickets::NO_FAST_TICKETS;
use mdl_book::BookError;
use mdl_key::Mode;
use mdl_steps::{Deed, SessionTicket, TableSeat};
use std::sync::Wait;

/// Makes a second ticket, with this number and in this mode, of one that the session has and whose mode covers it. The session has no
/// wait. The new ticket waits behind no other. After `MDL_context::clone_ticket`.
pub fn clone_ticket<R: Wait>(
    rt: &R,
    seat: &mut TableSeat,
    held: SessionTicket,
    number: u64,
    mode: Mode,
) -> Result<(), BookError>
    requires at { MayVisit held.place seat.old }
    requires may { CanClone held number mode seat.old.me.0 }
    ensures cloned { OnOk result (AtItsTable seat.old seat.new (Visits held.place (Gain number mode ∷ []))) }
    ensures step { (e : StepRecord) × IsStepOf seat.old.me seat.new.me e × MeetsOwn held.place seat.old.me.0.number held.number e
        × OnOk result (e.deeds ≡ Gain number mode ∷ []) }
    ensures once { VisitsOnce held.place seat.old.me seat.new.me }
    ensures refused { IfErr result (λ cause. WasRefused held.place cause seat.old seat.new) }
{
    let latch = await_latch(rt, seat, held.place);
    match seat.write_gain(&latch, number, mode, NO_FAST_TICKETS) {
        Ok(()) => {
            lower_flags_and_put(seat, latch, &[Deed::Gain(number, mode)]);
            Ok(())
        }
        Err(cause) => {
            lower_flags_and_put(seat, latch, &[]);
            Err(cause)
        }
    }
}
