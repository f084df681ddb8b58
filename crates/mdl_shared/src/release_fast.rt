//! Releases a fast ticket without the latch of its place.
//!
//! After MySQL 5.7, sql/mdl.cc: the fast path of `MDL_context::release_lock`.
ghost use Rattle.std.specs.Prelude.{◌≡◌, None, IfErr, IfNone, IfOk, IfSome};
ghost use Rattle.mdl_visits.specs.Numbers.{numbered};
ghost use Rattle.mdl_visits.specs.Visits.{StaysOn};
ghost use Rattle.mdl_calls.specs.declared.space_error.SpaceError.TheVariants.{NotHeld};
ghost use Rattle.mdl_shared.specs.FastCalls.{GaveUpFast};

use crate::Session;
use mdl_calls::{SpaceError, TicketId};

/// The result of a fast release.
#[derive(Clone, Copy, Debug, PartialEq, Eq)]
pub struct Released {
    /// Whether waits at the place of the ticket may have become grantable. If so, the session owes the place a [`Session::reschedule`].
    pub owes: bool,
}

impl<R> Session<R> {
    /// Releases a fast ticket without the latch of its place. It takes no memory.
    ///
    /// The session owes the ticket's place a [`Session::reschedule`] if its one step found the flag SLOW of the word up. Until it makes that
    /// call, waits there that could be granted may be left ungranted.
    pub fn release_fast(&mut self, id: TicketId) -> Result<Released, SpaceError>
        ensures released { IfOk result (λ released. GaveUpFast id released.owes self.old self.new) }
        ensures refused { IfErr result (λ why. (why ≡ NotHeld) × (numbered id self.old.me.0.fast ≡ None) × (self.new ≡ self.old)) }
        ensures stays { StaysOn self.old.me self.new.me }
    {
        if let Some(held) = self.member.tickets.last_fast(id) {
            let owes = self.member.lose_last(held);
            return Ok(Released { owes });
        }
        match self.release_earlier(id) {
            Some(owes) => Ok(Released { owes }),
            None => Err(SpaceError::NotHeld),
        }
    }

    // The same for a ticket that may be before others, if there is one with this number. Returns whether the session owes its place a
    // reschedule. It is apart so that the release of the last one calls no function.
    #[inline(never)]
    fn release_earlier(&mut self, id: TicketId) -> Option<bool>
        ensures released { IfSome result (λ owes. GaveUpFast id owes self.old self.new) }
        ensures refused { IfNone result ((numbered id self.old.me.0.fast ≡ None) × (self.new ≡ self.old)) }
        ensures stays { StaysOn self.old.me self.new.me }
    {
        let held = self.member.tickets.get_fast(id)?;
        let owes = self.member.lose_fast(held);
        Some(owes)
    }
}
