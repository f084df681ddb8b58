//! Grants a request for a lock at once, or not at all.
ghost use Rattle.std.specs.Prelude.{◌≡◌, true, Ok, IfErr};
ghost use Rattle.mdl_key.specs.Words.{is_obtrusive};
ghost use Rattle.mdl_steps.specs.declared.deed.Deed.TheVariants.{Gain};
ghost use Rattle.mdl_visits.specs.declared.calls.try_now.TryOutcome.TheVariants.{Granted, Blocked};
ghost use Rattle.mdl_visits.specs.Visits.{IsVisit, MayRequest, WasBlocked, WasGranted, WasRefusedWish};

use crate::enter_and_leave::{enter, gain, lower_flags_and_put};
use mdl_book::BookError;
use mdl_key::{Kind, Mode, is_obtrusive};
use mdl_steps::TableSeat;
use std::sync::Wait;

/// The result of a request for a lock that isn't waited for.
#[derive(Clone, Copy, Debug, PartialEq, Eq)]
pub enum TryOutcome {
    /// The session has the ticket.
    Granted,
    /// The request can't be granted now. Nothing has changed.
    Blocked,
}

/// Grants the session a ticket with this number in this mode, if it clashes with no granted ticket of another session and needn't wait behind a
/// waiting one. Otherwise nothing changes. The session has no wait. A fast ticket of its own there counts as another session's. After
/// `MDL_context::try_acquire_lock`.
pub fn try_now<R: Wait>(
    rt: &R,
    seat: &mut TableSeat,
    place: usize,
    kind: Kind,
    number: u64,
    mode: Mode,
) -> Result<TryOutcome, BookError>
    requires may { MayRequest place kind mode seat.old }
    requires number { number ≡ seat.old.me.0.next }
    ensures granted { result ≡ Ok Granted → WasGranted place mode (Gain number mode) seat.old seat.new }
    ensures blocked { result ≡ Ok Blocked → WasBlocked place mode seat.old seat.new }
    ensures once { IsVisit place (is_obtrusive kind mode) seat.old.me seat.new.me }
    ensures refused { IfErr result (λ cause. WasRefusedWish place mode true cause seat.old seat.new) }
{
    let (latch, word) = enter(rt, seat, place, mode, is_obtrusive(kind, mode));
    match gain(seat, latch, number, mode, word) {
        Ok(None) => Ok(TryOutcome::Granted),
        Ok(Some(latch)) => {
            lower_flags_and_put(seat, latch, &[]);
            Ok(TryOutcome::Blocked)
        }
        Err(cause) => Err(cause),
    }
}
