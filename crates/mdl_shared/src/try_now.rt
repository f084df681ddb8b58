//! Requests a lock, without waiting.
ghost use Rattle.std.specs.Prelude.{◌≡◌, ◌⊎◌, true, [], IfErr, IfOk, OnErr};
ghost use Rattle.mdl_calls.specs.CallSpec.{Transition};
ghost use Rattle.mdl_calls.specs.calls.TryNow as call;
ghost use Rattle.mdl_calls.specs.declared.space_error.SpaceError.TheVariants.{Full, OutOfMemory};
ghost use Rattle.mdl_calls.specs.Words.{attempted};
ghost use Rattle.mdl_key.specs.Words.{is_obtrusive};
ghost use Rattle.mdl_visits.specs.Visits.{IsVisit, MeetsFullWish};
ghost use Rattle.mdl_shared.specs.DeedsDone.{DoesQuietly};
ghost use Rattle.mdl_shared.specs.FastWishes.{HasTried};
ghost use Rattle.mdl_shared.specs.LatchCalls.{MayAskByLatch};
ghost use Rattle.mdl_shared.specs.Passes.{view_of};
ghost use Rattle.mdl_shared.specs.SessionViews.{data_of};
ghost use Rattle.mdl_shared.specs.StepSpec.{TakesSteps};
ghost use Rattle.mdl_shared.specs.Steps.{ShowsStep};
ghost use Rattle.mdl_shared.specs.TicketLists.{KeepsRoom};
ghost use Rattle.mdl_shared.specs.calls.TryNow as steps;

use crate::Session;
use crate::member::Member;
use crate::wishes::refusal;
use mdl_calls::{Attempt, Place, SpaceError};
use mdl_key::{Kind, Mode};
use mdl_visits::{TryOutcome, try_now};
use std::sync::Wait;

impl<R: Wait> Session<R> {
    /// Requests a lock, without waiting for it. The call waits only while another session holds the latch of a place. Fails with
    /// [`SpaceError::NoPlace`] if the session doesn't pin the place, which [`Session::resolve`] does.
    pub fn try_now(&mut self, place: Place, mode: Mode) -> Result<Attempt, SpaceError>
        ensures joined { Transition (call.try_now self.old.me.0.number place mode) (attempted result) (data_of self.old) (data_of self.new) }
        ensures shown { TakesSteps (steps.try_now place mode) (attempted result) self.old self.new }
    {
        let place = place as usize;
        let kind = self.member.kind_wished(place, mode)?;
        let member = &mut self.member;
        if let Some(number) = member.try_fast_first(&self.rt, place, kind, mode)? {
            return Ok(Attempt::Granted(number));
        }
        member.try_by_latch(&self.rt, place, kind, mode)
    }
}

impl Member {
    // The same under the latch of the place. The session's list has room for a ticket there, and the session has no fast ticket.
    fn try_by_latch<R: Wait>(
        &mut self,
        rt: &R,
        place: usize,
        kind: Kind,
        mode: Mode,
    ) -> Result<Attempt, SpaceError>
        requires may { MayAskByLatch place kind mode self.old }
        ensures tried { IfOk result (λ answer. HasTried place mode answer (view_of self.old) (view_of self.new)) }
        ensures unchanged { OnErr result (DoesQuietly place [] (view_of self.old) (view_of self.new) × KeepsRoom 0 self.old.tickets.room self.new.tickets.room) }
        ensures once { IsVisit place (is_obtrusive kind mode) self.old.seat.me self.new.seat.me }
        ensures refused { IfErr result (λ why. (why ≡ OutOfMemory) ⊎ ((why ≡ Full) × ShowsStep (view_of self.old) (view_of self.new) (MeetsFullWish place self.old.seat.me.0.number mode true))) }
    {
        let number = self.next;
        match try_now(rt, &mut self.seat, place, kind, number, mode) {
            Ok(TryOutcome::Granted) => {}
            Ok(TryOutcome::Blocked) => return Ok(Attempt::WouldWait),
            Err(cause) => return Err(refusal(cause)),
        }
        self.tickets.push_reserved(number, place, mode);
        self.next += 1;
        Ok(Attempt::Granted(number))
    }
}
