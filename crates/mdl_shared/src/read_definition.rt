//! Reads the definition of a key, under a ticket.
ghost use Rattle.mdl_calls.specs.CallSpec.{Transition};
ghost use Rattle.mdl_calls.specs.calls.ReadDefinition as call;
ghost use Rattle.mdl_calls.specs.Words.{read};
ghost use Rattle.mdl_shared.specs.SessionViews.{data_of};
ghost use Rattle.mdl_shared.specs.StepSpec.{TakesSteps};
ghost use Rattle.mdl_shared.specs.calls.ReadDefinition as steps;

use crate::Session;
use mdl_calls::{SpaceError, TicketId};
use mdl_defs::VersionedDefinition;
use mdl_visits::read_definition;
use std::sync::Wait;

impl<R: Wait> Session<R> {
    /// Returns the version of the key of a ticket's place, with its definition if there is one.
    pub fn read_definition(&mut self, id: TicketId) -> Result<VersionedDefinition, SpaceError>
        ensures joined { Transition (call.read_definition self.old.me.0.number id) (read result) (data_of self.old) (data_of self.new) }
        ensures shown { TakesSteps (steps.read_definition id) (read result) self.old self.new }
    {
        let Some(held) = self.member.tickets.get(id) else {
            return Err(SpaceError::NotHeld);
        };
        let member = &mut self.member;
        let Ok(standing) = read_definition(&self.rt, &mut member.seat, held.place) else {
            return Err(SpaceError::OutOfMemory);
        };
        member.tickets.note_all(held.place, standing.version);
        Ok(standing)
    }
}
