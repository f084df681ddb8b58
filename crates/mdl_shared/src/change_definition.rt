//! Changes the definition of a key, under an exclusive ticket.
ghost use Rattle.mdl_calls.specs.CallSpec.{Transition};
ghost use Rattle.mdl_calls.specs.calls.ChangeDefinition as call;
ghost use Rattle.mdl_calls.specs.Words.{redefined};
ghost use Rattle.mdl_shared.specs.SessionViews.{data_of};
ghost use Rattle.mdl_shared.specs.StepSpec.{TakesSteps};
ghost use Rattle.mdl_shared.specs.calls.ChangeDefinition as steps;

use crate::Session;
use mdl_calls::{SpaceError, TicketId};
use mdl_defs::Change;
use mdl_key::Mode;
use mdl_visits::change_definition;
use std::sync::Wait;

impl<R: Wait> Session<R> {
    /// Changes the definition of the key of the place of an exclusive ticket, and returns the key's new version, one greater than before.
    /// `Drop` takes no memory.
    pub fn change_definition(&mut self, id: TicketId, change: &Change) -> Result<u64, SpaceError>
        ensures joined { Transition (call.change_definition self.old.me.0.number id change.now) (redefined result) (data_of self.old) (data_of self.new) }
        ensures shown { TakesSteps (steps.change_definition id change.now) (redefined result) self.old self.new }
    {
        let Some(held) = self.member.tickets.get(id) else {
            return Err(SpaceError::NotHeld);
        };
        if held.mode != Mode::X {
            return Err(SpaceError::NotExclusive);
        }
        let member = &mut self.member;
        let version = match change_definition(&self.rt, &mut member.seat, held.place, change) {
            Ok(version) => version,
            Err(why) => return Err(SpaceError::from(why)),
        };
        member.tickets.note_all(held.place, version);
        Ok(version)
    }
}
