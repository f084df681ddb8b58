//! Settles a session's wait as killed.
ghost use Rattle.mdl_calls.specs.CallSpec.{Transition};
ghost use Rattle.mdl_calls.specs.calls.Kill as call;
ghost use Rattle.mdl_calls.specs.Words.{Has_killed};
ghost use Rattle.mdl_shared.specs.SessionViews.{data_of};
ghost use Rattle.mdl_shared.specs.StepSpec.{TakesSteps};
ghost use Rattle.mdl_shared.specs.calls.Kill as steps;

use crate::Session;
use crate::wait_words::{is_open, is_session};
use mdl_steps::Loss;

impl<R> Session<R> {
    /// Settles any session's wait with this number as killed, unless it is settled already. Returns whether this call settled it. It takes no
    /// memory.
    pub fn kill(&mut self, target: u16, number: u64) -> bool
        ensures joined { Transition (call.kill target number) (Has_killed result) (data_of self.old) (data_of self.new) }
        ensures shown { TakesSteps (steps.kill target number) (Has_killed result) self.old self.new }
    {
        if !is_session(target, self.member.sessions) {
            return false;
        }
        let member = &mut self.member;
        if !is_open(member.seat.read_wait(target), number) {
            return false;
        }
        is_open(
            member.seat.settle_wait(target, number, Loss::Killed),
            number,
        )
    }
}
