//! Releases a ticket.
ghost use Rattle.std.specs.Prelude.{◌≡◌, ◌∷◌, [], Some};
ghost use Rattle.mdl_calls.specs.CallSpec.{Transition};
ghost use Rattle.mdl_calls.specs.calls.Release as call;
ghost use Rattle.mdl_calls.specs.Words.{done};
ghost use Rattle.mdl_steps.specs.declared.deed.Deed.TheVariants.{Lose};
ghost use Rattle.mdl_visits.specs.Numbers.{numbered};
ghost use Rattle.mdl_visits.specs.Visits.{Does};
ghost use Rattle.mdl_shared.specs.DeedsDone.{DidDeeds};
ghost use Rattle.mdl_shared.specs.Passes.{view_of};
ghost use Rattle.mdl_shared.specs.SessionViews.{data_of};
ghost use Rattle.mdl_shared.specs.StepSpec.{TakesSteps};
ghost use Rattle.mdl_shared.specs.Steps.{GivesUpFast};
ghost use Rattle.mdl_shared.specs.TicketLists.{KeepsRoom};
ghost use Rattle.mdl_shared.specs.calls.Release as steps;

use crate::Session;
use crate::member::Member;
use mdl_calls::{SpaceError, TicketId};
use mdl_steps::SessionTicket;
use mdl_visits::release;
use std::sync::Wait;

impl<R: Wait> Session<R> {
    /// Releases a ticket, and grants the waits at its place that can be granted then. A fast ticket is released by one step on the word of
    /// its place. The latch is taken then only if that step finds that a session may be waiting there. It takes no memory.
    pub fn release(&mut self, id: TicketId) -> Result<(), SpaceError>
        ensures joined { Transition (call.release self.old.me.0.number id) (done result) (data_of self.old) (data_of self.new) }
        ensures shown { TakesSteps (steps.release id) (done result) self.old self.new }
    {
        let Some((held, fast)) = self.member.tickets.find(id) else {
            return Err(SpaceError::NotHeld);
        };
        if fast {
            self.member.give_up_fast(&self.rt, held);
            return Ok(());
        }
        let member = &mut self.member;
        release(&self.rt, &mut member.seat, held.place, id);
        member.tickets.strike(held.place, id);
        member.tickets.pay(held.place);
        Ok(())
    }
}

impl Member {
    // Releases a fast ticket, and grants the waits at its place if any may have become grantable.
    fn give_up_fast<R: Wait>(&mut self, rt: &R, held: SessionTicket)
        requires held { numbered held.number self.old.tickets.fast ≡ Some held }
        ensures lost { DidDeeds held.place (Lose held.number ∷ []) (view_of self.old) (view_of self.new) }
        ensures did { Does (Lose held.number ∷ []) self.old.seat.me self.new.seat.me }
        ensures given_up { GivesUpFast held.number (view_of self.old) (view_of self.new) held }
        ensures searches { self.new.seat.me.0.searches ≡ self.old.seat.me.0.searches }
        ensures room { KeepsRoom 0 self.old.tickets.room self.new.tickets.room }
    {
        if self.lose_fast(held) {
            self.pay(rt, held.place);
        }
    }
}
