//! Reads the definition of a key, under the latch of its place.
ghost use Rattle.std.specs.Prelude.{[], IfOk, OnErr};
ghost use Rattle.mdl_steps.specs.SeatStates.{AtItsTable};
ghost use Rattle.mdl_steps.specs.VersionPlays.{Follows};
ghost use Rattle.mdl_visits.specs.Readings.{ReadsStanding};
ghost use Rattle.mdl_visits.specs.Visits.{MayVisit, StaysQuiet, Visits, VisitsOnce};

use crate::latches::await_latch;
use mdl_defs::VersionedDefinition;
use mdl_steps::TableSeat;
use std::alloc::AllocError;
use std::sync::Wait;

/// Returns the version of the key at a place, with its definition if there is one. The session notes the version under each ticket that
/// it has there.
pub fn read_definition<R: Wait>(
    rt: &R,
    seat: &mut TableSeat,
    place: usize,
) -> Result<VersionedDefinition, AllocError>
    requires at { MayVisit place seat.old }
    ensures learnt { IfOk result (λ standing. ReadsStanding place standing seat.old seat.new) }
    ensures follows { IfOk result (λ standing. Follows place standing seat.old.me) }
    ensures unchanged { OnErr result (Visits place [] seat.old.me seat.new.me) }
    ensures once { VisitsOnce place seat.old.me seat.new.me }
    ensures quiet { AtItsTable seat.old seat.new StaysQuiet }
{
    let latch = await_latch(rt, seat, place);
    match seat.standing(&latch) {
        Ok(standing) => {
            seat.put_latch_reading(latch);
            Ok(standing)
        }
        Err(AllocError) => {
            seat.put_latch(latch, &[]);
            Err(AllocError)
        }
    }
}
