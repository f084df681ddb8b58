//! Ends the session's wait.
ghost use Rattle.std.specs.Prelude.{◌≡◌};
ghost use Rattle.mdl_calls.specs.CallSpec.{Transition};
ghost use Rattle.mdl_calls.specs.calls.EndWait as call;
ghost use Rattle.mdl_calls.specs.Words.{ended};
ghost use Rattle.mdl_shared.specs.Endings.{lost_end};
ghost use Rattle.mdl_shared.specs.SessionViews.{data_of};
ghost use Rattle.mdl_shared.specs.StepSpec.{TakesSteps};
ghost use Rattle.mdl_shared.specs.calls.EndWait as steps;

use crate::Session;
use crate::wait_words::settled_in;
use mdl_calls::{Ended, Settled, SpaceError};
use mdl_visits::end_lost_wait;
use std::sync::Wait;

// How a lost wait has ended, by how it was settled.
fn lost_end(how: Settled) -> Option<Ended>
    ensures { result ≡ lost_end how }
{
    match how {
        Settled::Granted => None,
        Settled::Victim => Some(Ended::Victim),
        Settled::Timeout => Some(Ended::Timeout),
        Settled::Killed => Some(Ended::Killed),
    }
}

impl<R: Wait> Session<R> {
    /// Ends the session's wait. If it was granted, the session holds the ticket. If it was lost, the ticket is removed, and the waits at its
    /// place that can be granted then are granted. Refused with [`SpaceError::Unsettled`] while the wait isn't settled. It takes no memory.
    pub fn end_wait(&mut self) -> Result<Ended, SpaceError>
        ensures joined { Transition (call.end_wait self.old.me.0.number) (ended result) (data_of self.old) (data_of self.new) }
        ensures shown { TakesSteps steps.end_wait (ended result) self.old self.new }
    {
        let member = &mut self.member;
        let Some(ask) = member.asks else {
            return Err(SpaceError::NoWait);
        };
        let session = member.seat.number();
        let Some(how) = settled_in(member.seat.read_wait(session).state()) else {
            return Err(SpaceError::Unsettled);
        };
        if let Some(ended) = lost_end(how) {
            end_lost_wait(&self.rt, &mut member.seat, ask, member.waits);
            member.tickets.pay(ask.place);
            member.asks = None;
            return Ok(ended);
        }
        member.seat.end_granted(member.waits);
        member
            .tickets
            .push_reserved(ask.number, ask.place, ask.mode);
        member.asks = None;
        Ok(Ended::Granted(ask.number))
    }
}
