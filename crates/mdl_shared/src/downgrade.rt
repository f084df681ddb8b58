//! Gives a ticket a weaker mode.
ghost use Rattle.std.specs.Prelude.{IfOk, Some, ◌≡◌};
ghost use Rattle.mdl_key.specs.Refusals.{RefusesJust};
ghost use Rattle.mdl_calls.specs.CallSpec.{Transition};
ghost use Rattle.mdl_calls.specs.calls.Downgrade as call;
ghost use Rattle.mdl_calls.specs.Words.{done};
ghost use Rattle.mdl_steps.specs.Interleavings.{interleaved};
ghost use Rattle.mdl_visits.specs.Numbers.{numbered};
ghost use Rattle.mdl_shared.specs.Modes.{downgrade_fault};
ghost use Rattle.mdl_shared.specs.SessionViews.{data_of};
ghost use Rattle.mdl_shared.specs.StepSpec.{TakesSteps};
ghost use Rattle.mdl_shared.specs.calls.Downgrade as steps;

use crate::Session;
use crate::member::Member;
use mdl_calls::{SpaceError, TicketId};
use mdl_key::Mode;
use mdl_steps::SessionTicket;
use mdl_system::may_downgrade;
use mdl_visits::downgrade;
use std::sync::Wait;

impl<R: Wait> Session<R> {
    /// Gives a held ticket a weaker mode: X becomes SU, SNW or SNRW, and SNW becomes SU. Grants the waits at its place that can be granted
    /// then. It takes no memory.
    pub fn downgrade(&mut self, id: TicketId, mode: Mode) -> Result<(), SpaceError>
        ensures joined { Transition (call.downgrade self.old.me.0.number id mode) (done result) (data_of self.old) (data_of self.new) }
        ensures shown { TakesSteps (steps.downgrade id mode) (done result) self.old self.new }
    {
        let held = self.member.downgradable(id, mode)?;
        let member = &mut self.member;
        downgrade(&self.rt, &mut member.seat, held, mode);
        member.tickets.set_mode(held.place, held.number, mode);
        member.tickets.pay(held.place);
        Ok(())
    }
}

impl Member {
    // The ticket with a number, if it may be downgraded to a mode.
    fn downgradable(&self, id: TicketId, mode: Mode) -> Result<SessionTicket, SpaceError>
        ensures found { IfOk result (λ held. numbered id (interleaved self.now.tickets.slow self.now.tickets.fast) ≡ Some held) }
        ensures just { RefusesJust (downgrade_fault (numbered id (interleaved self.now.tickets.slow self.now.tickets.fast)) mode self.now.known.known) result }
    {
        let Some(held) = self.tickets.get(id) else {
            return Err(SpaceError::NotHeld);
        };
        if !may_downgrade(held.mode, mode) || !self.is_fit(held.place, mode) {
            return Err(SpaceError::NotUpgradable);
        }
        Ok(held)
    }
}
