//! Tries a request for a ticket on the fast path first.
//!
//! After MySQL 5.7, sql/mdl.cc: `MDL_context::try_acquire_lock_impl`, which makes the session's fast tickets slow before it takes the latch.
ghost use Rattle.std.specs.Prelude.{◌≡◌, None, Ok, IfErr, IfNone, IfOk, IfSome, [], OnErr};
ghost use Rattle.mdl_shared.specs.DeedsDone.{DoesQuietly};
ghost use Rattle.mdl_shared.specs.FastWishes.{GainsFast};
ghost use Rattle.mdl_shared.specs.LatchCalls.{LacksRoomFirst, MayTryFastFirst, SlowsFirst};
ghost use Rattle.mdl_shared.specs.Passes.{view_of};
ghost use Rattle.mdl_shared.specs.WishSteps.{FindsClosed};
ghost use Rattle.mdl_shared.specs.TicketLists.{HasRoom, KeepsRoom};

use crate::member::Member;
use mdl_calls::{SpaceError, TicketId};
use mdl_key::{Kind, Mode};
use mdl_word::Word;
use std::sync::Wait;

impl Member {
    /// Makes room for a ticket with the next number at a place of this kind, and grants it if the fast path is open to the mode. If not, it
    /// makes the session's fast tickets slow, and returns no ticket: the request goes on under the latch of the place.
    pub(crate) fn try_fast_first<R: Wait>(
        &mut self,
        rt: &R,
        place: usize,
        kind: Kind,
        mode: Mode,
    ) -> Result<Option<TicketId>, SpaceError>
        requires may { MayTryFastFirst place kind self.old }
        ensures granted { IfOk result (λ ticket. IfSome ticket (λ id. GainsFast place mode id (view_of self.old) (view_of self.new))) }
        ensures slow { result ≡ Ok None → SlowsFirst place mode self.old self.new }
        ensures unchanged { OnErr result (DoesQuietly 0 [] (view_of self.old) (view_of self.new) × KeepsRoom 0 self.old.tickets.room self.new.tickets.room) }
        ensures refused { IfErr result (λ why. LacksRoomFirst place mode why (view_of self.old) (view_of self.new)) }
    {
        if self.tickets.reserve(place).is_err() {
            return Err(SpaceError::OutOfMemory);
        }
        if let Some(number) = self.gain_unobtrusive(place, kind, mode) {
            return Ok(Some(number));
        }
        self.materialise(rt)?;
        Ok(None)
    }

    // Grants a fast ticket, for which there is room, if the mode is an unobtrusive one of the kind and the fast path is open.
    fn gain_unobtrusive(&mut self, place: usize, kind: Kind, mode: Mode) -> Option<TicketId>
        requires may { MayTryFastFirst place kind self.old }
        requires room { HasRoom place self.old.tickets.room }
        ensures granted { IfSome result (λ id. GainsFast place mode id (view_of self.old) (view_of self.new)) }
        ensures unchanged { IfNone result (DoesQuietly place [] (view_of self.old) (view_of self.new) × (self.new.tickets ≡ self.old.tickets)) }
        ensures closed { IfNone result (FindsClosed place mode (view_of self.old) self.new.seat.me) }
    {
        let one = Word::increment(kind, mode)?;
        self.gain_fast(place, mode, one).ok()
    }
}
