//! Changes the definition of a key, under the latch of its place.
ghost use Rattle.std.specs.Prelude.{◌≡◌, [], true, IfOk, IfErr, OnErr};
ghost use Rattle.mdl_steps.specs.SeatStates.{AtItsTable};
ghost use Rattle.mdl_visits.specs.Leavings.{LearnsWithVersion};
ghost use Rattle.mdl_visits.specs.Numbers.{is_ask_apart};
ghost use Rattle.mdl_visits.specs.Redefinitions.{HasExclusiveAt, IsChangeRefused, Redefines};
ghost use Rattle.mdl_visits.specs.Visits.{MayVisit, Visits, VisitsOnce};

use crate::latches::await_latch;
use mdl_defs::{Change, ChangeError};
use mdl_steps::TableSeat;
use std::sync::Wait;

/// Changes the definition at a place, where the session has an exclusive ticket, and returns the new version. The session notes it under
/// each ticket that it has there. `Drop` takes no memory.
pub fn change_definition<R: Wait>(
    rt: &R,
    seat: &mut TableSeat,
    place: usize,
    change: &Change,
) -> Result<u64, ChangeError>
    requires at { MayVisit place seat.old }
    requires apart { is_ask_apart seat.old.me.0.next seat.old.me.0.slow seat.old.me.0.asks ≡ true }
    requires held { HasExclusiveAt place seat.old.me.0.slow }
    ensures changed { IfOk result (λ version. AtItsTable seat.old seat.new (Redefines place change.now version) × LearnsWithVersion place version seat.old.me seat.new.me) }
    ensures unchanged { OnErr result (AtItsTable seat.old seat.new (Visits place [])) }
    ensures once { VisitsOnce place seat.old.me seat.new.me }
    ensures refused { IfErr result (λ why. IsChangeRefused place seat.old.me.0.number change.now why seat.old.me seat.new.me) }
{
    let latch = await_latch(rt, seat, place);
    match seat.write_change(&latch, change) {
        Ok(version) => {
            seat.write_version(&latch);
            seat.put_latch(latch, &[]);
            Ok(version)
        }
        Err(why) => {
            seat.put_latch(latch, &[]);
            Err(why)
        }
    }
}
