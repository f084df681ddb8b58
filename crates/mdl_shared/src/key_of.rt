//! The key of a place that the session has looked up. Finding it takes no step.
ghost use Rattle.mdl_calls.specs.CallSpec.{Transition};
ghost use Rattle.mdl_calls.specs.calls.KeyOf as call;
ghost use Rattle.mdl_calls.specs.Words.{keyed};
ghost use Rattle.mdl_shared.specs.SessionViews.{data_of};
ghost use Rattle.mdl_shared.specs.StepSpec.{TakesSteps};
ghost use Rattle.mdl_shared.specs.calls.KeyOf as steps;

use crate::Session;
use mdl_calls::{Place, SpaceError};
use mdl_key::Key;
use std::alloc::AllocError;

impl<R> Session<R> {
    /// Returns the key of a place that the session has looked up.
    pub fn key_of(&mut self, place: Place) -> Result<Key, SpaceError>
        ensures joined { Transition (call.key_of self.old.me.0.number place) (keyed result) (data_of self.old) (data_of self.new) }
        ensures shown { TakesSteps (steps.key_of place) (keyed result) self.old self.new }
    {
        let Some(key) = self.member.known.key_at(place as usize) else {
            return Err(SpaceError::NoPlace);
        };
        match key.clone() {
            Ok(key) => Ok(key),
            Err(AllocError) => Err(SpaceError::OutOfMemory),
        }
    }
}
