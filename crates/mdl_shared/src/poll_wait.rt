//! The state of the session's own wait.
ghost use Rattle.mdl_calls.specs.CallSpec.{Transition};
ghost use Rattle.mdl_calls.specs.calls.PollWait as call;
ghost use Rattle.mdl_calls.specs.Words.{polled};
ghost use Rattle.mdl_shared.specs.SessionViews.{data_of};
ghost use Rattle.mdl_shared.specs.StepSpec.{TakesSteps};
ghost use Rattle.mdl_shared.specs.calls.PollWait as steps;

use crate::Session;
use crate::wait_words::settled_in;
use mdl_calls::{Poll, SpaceError};

impl<R> Session<R> {
    /// Returns the state of the session's wait. It takes no memory.
    pub fn poll_wait(&mut self) -> Result<Poll, SpaceError>
        ensures joined { Transition (call.poll_wait self.old.me.0.number) (polled result) (data_of self.old) (data_of self.new) }
        ensures shown { TakesSteps steps.poll_wait (polled result) self.old self.new }
    {
        if self.member.asks.is_none() {
            return Err(SpaceError::NoWait);
        }
        let session = self.member.seat.number();
        let word = self.member.seat.read_wait(session);
        match settled_in(word.state()) {
            Some(how) => Ok(Poll::Settled(how)),
            None => Ok(Poll::Pending),
        }
    }
}
