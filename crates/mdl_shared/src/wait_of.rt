//! The number of a wait.
ghost use Rattle.std.specs.Prelude.{None, Some, ◌<◌, ◌≡◌};
ghost use Rattle.mdl_visits.specs.Polls.{number_of_wait};
ghost use Rattle.mdl_shared.specs.SessionViews.{data_of};
ghost use Rattle.mdl_calls.specs.CallSpec.{Transition};
ghost use Rattle.mdl_calls.specs.calls.WaitOf as call;
ghost use Rattle.mdl_calls.specs.Words.{Has_wait};
ghost use Rattle.mdl_shared.specs.StepSpec.{TakesSteps};
ghost use Rattle.mdl_shared.specs.calls.WaitOf as steps;

use crate::Session;
use crate::wait_words::is_session;
use mdl_steps::WaitWord;

// The number of a session's wait, by the wait's word, if there is a wait.
fn number_in(word: WaitWord) -> Option<u64>
    ensures { result ≡ number_of_wait word.0 }
{
    if word.state() == WaitWord::IDLE {
        None
    } else {
        Some(word.number())
    }
}

impl<R> Session<R> {
    /// Returns the number of any session's wait, if it has one. It takes no memory.
    pub fn wait_of(&mut self, target: u16) -> Option<u64>
        ensures joined { Transition (call.wait_of target) (Has_wait result) (data_of self.old) (data_of self.new) }
        ensures shown { TakesSteps (steps.wait_of target) (Has_wait result) self.old self.new }
    {
        if !is_session(target, self.member.sessions) {
            return None;
        }
        number_in(self.member.seat.read_wait(target))
    }
}
