//! Gives a ticket a stronger mode at once, or leaves it unchanged.
ghost use Rattle.std.specs.Prelude.{◌≡◌, true};
ghost use Rattle.mdl_key.specs.declared.namespace.Kind.{Kind};
ghost use Rattle.mdl_key.specs.Words.{is_obtrusive};
ghost use Rattle.mdl_steps.specs.declared.deed.Deed.TheVariants.{Alter};
ghost use Rattle.mdl_visits.specs.declared.calls.try_now.TryOutcome.TheVariants.{Granted, Blocked};
ghost use Rattle.mdl_visits.specs.Coverings.{MayRise};
ghost use Rattle.mdl_visits.specs.Visits.{IsVisit, MayVisit, RequestsMode, WasBlocked, WasGranted};

use crate::calls::try_now::TryOutcome;
use crate::enter_and_leave::{enter, lower_flags_and_put};
use mdl_key::Mode;
use mdl_steps::{Deed, TableSeat};
use std::sync::Wait;

/// Gives the ticket with this number at a place an obtrusive mode that covers its own, if that clashes with no granted ticket of another session and needn't wait
/// behind a waiting one. Otherwise nothing changes. The session has no wait, and a fast ticket of its own there counts as another
/// session's. It takes no memory. After `MDL_context::upgrade_shared_lock`.
pub fn upgrade_now<R: Wait>(
    rt: &R,
    seat: &mut TableSeat,
    place: usize,
    number: u64,
    mode: Mode,
) -> TryOutcome
    requires at { MayVisit place seat.old }
    requires wish { (kind : Kind) × RequestsMode place kind mode seat.old.me.0 × (is_obtrusive kind mode ≡ true) }
    requires held { MayRise place number mode seat.old.me.0 }
    ensures granted { result ≡ Granted → WasGranted place mode (Alter number mode) seat.old seat.new }
    ensures once { IsVisit place true seat.old.me seat.new.me }
    ensures blocked { result ≡ Blocked → WasBlocked place mode seat.old seat.new }
{
    let (latch, word) = enter(rt, seat, place, mode, true);
    if !seat.can_grant(&latch, mode, word) {
        lower_flags_and_put(seat, latch, &[]);
        return TryOutcome::Blocked;
    }
    let _altered = seat.write_mode(&latch, number, mode, word);
    seat.put_latch(latch, &[Deed::Alter(number, mode)]);
    TryOutcome::Granted
}
