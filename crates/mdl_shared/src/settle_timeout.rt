//! Settles the session's own wait as a timeout.
ghost use Rattle.mdl_calls.specs.CallSpec.{Transition};
ghost use Rattle.mdl_calls.specs.calls.SettleTimeout as call;
ghost use Rattle.mdl_calls.specs.Words.{timed_out};
ghost use Rattle.mdl_shared.specs.SessionViews.{data_of};
ghost use Rattle.mdl_shared.specs.StepSpec.{TakesSteps};
ghost use Rattle.mdl_shared.specs.calls.SettleTimeout as steps;

use crate::Session;
use crate::wait_words::settled_in;
use mdl_calls::{SpaceError, TimedOut};
use mdl_steps::Loss;

impl<R> Session<R> {
    /// Settles the session's wait as a timeout, unless it is settled already. Returns whether this call settled it, or how it was settled
    /// before. It takes no memory.
    pub fn settle_timeout(&mut self) -> Result<TimedOut, SpaceError>
        ensures joined { Transition (call.settle_timeout self.old.me.0.number) (timed_out result) (data_of self.old) (data_of self.new) }
        ensures shown { TakesSteps steps.settle_timeout (timed_out result) self.old self.new }
    {
        if self.member.asks.is_none() {
            return Err(SpaceError::NoWait);
        }
        let session = self.member.seat.number();
        let wait = self.member.waits;
        let word = self.member.seat.settle_wait(session, wait, Loss::Timeout);
        match settled_in(word.state()) {
            Some(how) => Ok(TimedOut::Already(how)),
            None => Ok(TimedOut::ByThisCall),
        }
    }
}
