//! Requests a lock, and begins to wait for it if it can't be granted now.
ghost use Rattle.std.specs.Prelude.{◌≡◌, ◌⊎◌, [], IfErr, IfOk, OnErr};
ghost use Rattle.mdl_calls.specs.CallSpec.{Transition};
ghost use Rattle.mdl_calls.specs.calls.BeginWait as call;
ghost use Rattle.mdl_calls.specs.declared.space_error.SpaceError.TheVariants.{Full, OutOfMemory};
ghost use Rattle.mdl_calls.specs.Words.{begun};
ghost use Rattle.mdl_key.specs.Words.{is_obtrusive};
ghost use Rattle.mdl_visits.specs.Visits.{IsVisit, MeetsFull};
ghost use Rattle.mdl_shared.specs.DeedsDone.{DoesQuietly};
ghost use Rattle.mdl_shared.specs.FastWishes.{HasBegun};
ghost use Rattle.mdl_shared.specs.LatchCalls.{MayAskByLatch};
ghost use Rattle.mdl_shared.specs.Passes.{view_of};
ghost use Rattle.mdl_shared.specs.SessionViews.{data_of};
ghost use Rattle.mdl_shared.specs.StepSpec.{TakesSteps};
ghost use Rattle.mdl_shared.specs.Steps.{ShowsStep};
ghost use Rattle.mdl_shared.specs.TicketLists.{KeepsRoom};
ghost use Rattle.mdl_shared.specs.calls.BeginWait as steps;

use crate::Session;
use crate::member::Member;
use crate::wishes::refusal;
use mdl_calls::{Begun, Place, SpaceError};
use mdl_key::{Kind, Mode};
use mdl_steps::Ask;
use mdl_visits::{Queued, begin_wait};
use std::sync::Wait;

impl<R: Wait> Session<R> {
    /// Requests a lock, and begins to wait for it if it can't be granted now. The call itself waits only while another session holds the
    /// latch of a place. It takes all memory that the session's own lists need, also for the end of the wait. Fails with
    /// [`SpaceError::NoPlace`] if the session doesn't pin the place.
    pub fn begin_wait(&mut self, place: Place, mode: Mode) -> Result<Begun, SpaceError>
        ensures joined { Transition (call.begin_wait self.old.me.0.number place mode) (begun result) (data_of self.old) (data_of self.new) }
        ensures shown { TakesSteps (steps.begin_wait place mode) (begun result) self.old self.new }
    {
        let place = place as usize;
        let kind = self.member.kind_wished(place, mode)?;
        let member = &mut self.member;
        if let Some(number) = member.try_fast_first(&self.rt, place, kind, mode)? {
            return Ok(Begun::Granted(number));
        }
        member.begin_by_latch(&self.rt, place, kind, mode)
    }
}

impl Member {
    // The same under the latch of the place. The session's list has room for a ticket there, and the session has no fast ticket.
    fn begin_by_latch<R: Wait>(
        &mut self,
        rt: &R,
        place: usize,
        kind: Kind,
        mode: Mode,
    ) -> Result<Begun, SpaceError>
        requires may { MayAskByLatch place kind mode self.old }
        ensures begun { IfOk result (λ answer. HasBegun place mode answer (view_of self.old) (view_of self.new)) }
        ensures unchanged { OnErr result (DoesQuietly place [] (view_of self.old) (view_of self.new) × KeepsRoom 0 self.old.tickets.room self.new.tickets.room) }
        ensures once { IsVisit place (is_obtrusive kind mode) self.old.seat.me self.new.seat.me }
        ensures refused { IfErr result (λ why. (why ≡ OutOfMemory) ⊎ ((why ≡ Full) × ShowsStep (view_of self.old) (view_of self.new) (MeetsFull place))) }
    {
        let number = self.next;
        let wait = self.waits + 1;
        match begin_wait(rt, &mut self.seat, place, kind, number, mode, wait) {
            Ok(Queued::Granted) => {
                self.tickets.push_reserved(number, place, mode);
                self.next += 1;
                return Ok(Begun::Granted(number));
            }
            Ok(Queued::Waiting) => {}
            Err(cause) => return Err(refusal(cause)),
        }
        self.asks = Some(Ask {
            number,
            place,
            mode,
        });
        self.next += 1;
        self.waits = wait;
        Ok(Begun::Waiting(wait))
    }
}
