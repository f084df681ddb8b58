//! The tickets that a session holds. Listing them takes no step.
ghost use Rattle.mdl_calls.specs.CallSpec.{Transition};
ghost use Rattle.mdl_calls.specs.calls.ListHeld as call;
ghost use Rattle.mdl_calls.specs.Words.{listed};
ghost use Rattle.mdl_shared.specs.SessionViews.{data_of};
ghost use Rattle.mdl_shared.specs.StepSpec.{TakesSteps};
ghost use Rattle.mdl_shared.specs.calls.ListHeld as steps;

use crate::Session;
use mdl_calls::{Held, SpaceError};
use std::alloc::AllocError;

impl<R> Session<R> {
    /// Returns the tickets that the session holds, in the order in which it got them.
    pub fn held(&self) -> Result<Vec<Held>, SpaceError>
        ensures joined { Transition (call.list_held self.now.me.0.number) (listed result) (data_of self.now) (data_of self.now) }
        ensures shown { TakesSteps steps.list_held (listed result) self.now self.now }
    {
        match self.member.tickets.held() {
            Ok(held) => Ok(held),
            Err(AllocError) => Err(SpaceError::OutOfMemory),
        }
    }
}
