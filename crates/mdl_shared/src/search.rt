//! Searches for a deadlock.
ghost use Rattle.mdl_calls.specs.CallSpec.{Transition};
ghost use Rattle.mdl_calls.specs.calls.Search as call;
ghost use Rattle.mdl_calls.specs.Words.{searched};
ghost use Rattle.mdl_shared.specs.SessionViews.{data_of};
ghost use Rattle.mdl_shared.specs.StepSpec.{TakesSteps};
ghost use Rattle.mdl_shared.specs.calls.Search as steps;

use crate::Session;
use crate::wait_words::settled_in;
use mdl_calls::{Search, SpaceError};
use mdl_visits::search_deadlock;
use std::alloc::AllocError;
use std::sync::Wait;

impl<R: Wait> Session<R> {
    /// Searches for a deadlock that the session waits in, by the books of all places at one moment, and the words of the waits there. If there is
    /// one, the wait of its victim is settled, which may be the session's own. If another session settles that wait first, the search is
    /// repeated.
    ///
    /// It holds the latches of all places that have a key, so other sessions' calls there wait meanwhile. But a session without a wait, or
    /// whose wait is settled, is in no deadlock, and takes no latch.
    pub fn search_deadlock(&mut self) -> Result<Search, SpaceError>
        ensures joined { Transition (call.search_deadlock self.old.me.0.number) (searched result) (data_of self.old) (data_of self.new) }
        ensures shown { TakesSteps steps.search_deadlock (searched result) self.old self.new }
    {
        if self.member.asks.is_none() {
            return Ok(Search::NoCycle);
        }
        let session = self.member.seat.number();
        let word = self.member.seat.read_wait(session);
        if settled_in(word.state()).is_some() {
            return Ok(Search::NoCycle);
        }
        let alloc = self.member.alloc;
        match search_deadlock(&self.rt, &mut self.member.seat, alloc) {
            Ok(found) => Ok(found),
            Err(AllocError) => Err(SpaceError::OutOfMemory),
        }
    }
}
