//! Merges two tickets.
ghost use Rattle.std.specs.Prelude.{◌≡◌, IfOk, Some};
ghost use Rattle.mdl_key.specs.Refusals.{RefusesJust};
ghost use Rattle.mdl_calls.specs.CallSpec.{Transition};
ghost use Rattle.mdl_calls.specs.calls.Merge as call;
ghost use Rattle.mdl_calls.specs.Words.{done};
ghost use Rattle.mdl_steps.specs.Interleavings.{interleaved};
ghost use Rattle.mdl_visits.specs.Numbers.{numbered};
ghost use Rattle.mdl_shared.specs.LatchCalls.{MayMergeByLatch, WasMergedByLatch};
ghost use Rattle.mdl_shared.specs.Modes.{can_merge, merge_fault};
ghost use Rattle.mdl_shared.specs.SessionViews.{data_of};
ghost use Rattle.mdl_shared.specs.StepSpec.{TakesSteps};
ghost use Rattle.mdl_shared.specs.calls.Merge as steps;

use crate::Session;
use crate::member::Member;
use mdl_calls::{SpaceError, TicketId};
use mdl_steps::SessionTicket;
use mdl_system::covers;
use mdl_visits::merge;
use std::sync::Wait;

impl<R: Wait> Session<R> {
    /// Gives a held ticket the mode of another one at its place, which is at least as strong, and releases the other one. The first ticket
    /// keeps its number. If the session has fast tickets, they become slow first: that takes memory, and the call is refused if there is no
    /// room for them.
    pub fn merge(&mut self, old: TicketId, new: TicketId) -> Result<(), SpaceError>
        ensures joined { Transition (call.merge self.old.me.0.number old new) (done result) (data_of self.old) (data_of self.new) }
        ensures shown { TakesSteps (steps.merge old new) (done result) self.old self.new }
    {
        let (kept, gone) = self.member.mergeable(old, new)?;
        self.member.materialise(&self.rt)?;
        self.member.merge_by_latch(&self.rt, kept, gone);
        Ok(())
    }
}

impl Member {
    // The tickets with these two numbers, if the first may take the mode of the second.
    fn mergeable(
        &self,
        old: TicketId,
        new: TicketId,
    ) -> Result<(SessionTicket, SessionTicket), SpaceError>
        ensures found { IfOk result (λ two. (numbered old (interleaved self.now.tickets.slow self.now.tickets.fast) ≡ Some two.0) × (numbered new (interleaved self.now.tickets.slow self.now.tickets.fast) ≡ Some two.1)) }
        ensures just { RefusesJust (merge_fault (numbered old (interleaved self.now.tickets.slow self.now.tickets.fast)) (numbered new (interleaved self.now.tickets.slow self.now.tickets.fast)) self.now.asks) result }
    {
        let Some(kept) = self.tickets.get(old) else {
            return Err(SpaceError::NotHeld);
        };
        let Some(gone) = self.tickets.get(new) else {
            return Err(SpaceError::NotHeld);
        };
        if self.asks.is_some() {
            return Err(SpaceError::AlreadyWaiting);
        }
        if !may_merge(kept, gone) {
            return Err(SpaceError::BadMode);
        }
        Ok((kept, gone))
    }

    // Gives a slow ticket the mode of another slow one at its place, and releases the other one, under the latch of the place. The session
    // has no fast ticket.
    fn merge_by_latch<R: Wait>(&mut self, rt: &R, kept: SessionTicket, gone: SessionTicket)
        requires may { MayMergeByLatch kept gone self.old }
        ensures done { WasMergedByLatch kept gone self.old self.new }
    {
        merge(rt, &mut self.seat, kept, gone);
        self.tickets.set_mode(kept.place, kept.number, gone.mode);
        self.tickets.strike(kept.place, gone.number);
    }
}

// Whether a ticket may take the mode of another.
fn may_merge(kept: SessionTicket, gone: SessionTicket) -> bool
    ensures { result ≡ can_merge kept gone }
{
    kept.number != gone.number && kept.place == gone.place && covers(gone.mode, kept.mode)
}
