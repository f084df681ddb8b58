//! Makes a second ticket of one that the session holds.
ghost use Rattle.std.specs.Prelude.{◌≡◌, ◌⊎◌, [], Some, IfErr, IfOk, OnErr};
ghost use Rattle.mdl_key.specs.Refusals.{RefusesJust};
ghost use Rattle.mdl_calls.specs.CallSpec.{Transition};
ghost use Rattle.mdl_calls.specs.calls.CloneTicket as call;
ghost use Rattle.mdl_calls.specs.declared.space_error.SpaceError.TheVariants.{Full, OutOfMemory};
ghost use Rattle.mdl_calls.specs.Words.{cloned};
ghost use Rattle.mdl_steps.specs.Interleavings.{interleaved};
ghost use Rattle.mdl_visits.specs.KnownLists.{kind_pinned};
ghost use Rattle.mdl_visits.specs.Numbers.{numbered};
ghost use Rattle.mdl_visits.specs.Visits.{MeetsFull, VisitsOnce};
ghost use Rattle.mdl_shared.specs.DeedsDone.{DoesQuietly};
ghost use Rattle.mdl_shared.specs.LatchCalls.{MayCloneByLatch, WasClonedByLatch};
ghost use Rattle.mdl_shared.specs.Modes.{clone_fault};
ghost use Rattle.mdl_shared.specs.Passes.{view_of};
ghost use Rattle.mdl_shared.specs.SessionViews.{data_of};
ghost use Rattle.mdl_shared.specs.StepSpec.{TakesSteps};
ghost use Rattle.mdl_shared.specs.Steps.{ShowsStep};
ghost use Rattle.mdl_shared.specs.TicketLists.{KeepsRoom};
ghost use Rattle.mdl_shared.specs.calls.CloneTicket as steps;

use crate::Session;
use crate::holdings::MOST_NUMBERS;
use crate::member::Member;
use crate::wishes::refusal;
use mdl_calls::{SpaceError, TicketId};
use mdl_key::{Kind, Mode};
use mdl_steps::SessionTicket;
use mdl_system::covers;
use mdl_visits::clone_ticket;
use std::sync::Wait;

impl<R: Wait> Session<R> {
    /// Gives the session a second ticket at the place of a held one, in a mode that the held one covers, and returns its number. The new
    /// ticket overtakes waiters.
    pub fn clone_ticket(&mut self, id: TicketId, mode: Mode) -> Result<TicketId, SpaceError>
        ensures joined { Transition (call.clone_ticket self.old.me.0.number id mode) (cloned result) (data_of self.old) (data_of self.new) }
        ensures shown { TakesSteps (steps.clone_ticket id mode) (cloned result) self.old self.new }
    {
        let (held, kind) = self.member.clonable(id, mode)?;
        let member = &mut self.member;
        if let Some(number) = member.try_fast_first(&self.rt, held.place, kind, mode)? {
            return Ok(number);
        }
        member.clone_by_latch(&self.rt, held, mode)
    }
}

impl Member {
    // The ticket with a number, and the kind of its lock, if a second one in a mode may be made of it.
    fn clonable(&self, id: TicketId, mode: Mode) -> Result<(SessionTicket, Kind), SpaceError>
        ensures found { IfOk result (λ two. (numbered id (interleaved self.now.tickets.slow self.now.tickets.fast) ≡ Some two.0)
            × (kind_pinned two.0.place self.now.known.pins self.now.known.known ≡ Some two.1)) }
        ensures just { RefusesJust (clone_fault (numbered id (interleaved self.now.tickets.slow self.now.tickets.fast)) self.now.asks mode
            self.now.known.known self.now.next) result }
    {
        let Some(held) = self.tickets.get(id) else {
            return Err(SpaceError::NotHeld);
        };
        if self.asks.is_some() {
            return Err(SpaceError::AlreadyWaiting);
        }
        let kind = self.known.kind_at(held.place);
        if !covers(held.mode, mode) || !kind.has_mode(mode) {
            return Err(SpaceError::BadMode);
        }
        if self.next > MOST_NUMBERS {
            return Err(SpaceError::CounterFull);
        }
        Ok((held, kind))
    }

    // Makes a second ticket of a slow one, under the latch of its place. The session's list has room for it, and the session has no fast
    // ticket.
    fn clone_by_latch<R: Wait>(
        &mut self,
        rt: &R,
        held: SessionTicket,
        mode: Mode,
    ) -> Result<TicketId, SpaceError>
        requires may { MayCloneByLatch held mode self.old }
        ensures cloned { IfOk result (λ new. WasClonedByLatch held mode self.old.next new (view_of self.old) (view_of self.new)) }
        ensures unchanged { OnErr result (DoesQuietly held.place [] (view_of self.old) (view_of self.new)
            × KeepsRoom 0 self.old.tickets.room self.new.tickets.room) }
        ensures once { VisitsOnce held.place self.old.seat.me self.new.seat.me }
        ensures refused { IfErr result (λ why. (why ≡ OutOfMemory)
            ⊎ ((why ≡ Full) × ShowsStep (view_of self.old) (view_of self.new) (MeetsFull held.place))) }
    {
        let number = self.next;
        if let Err(cause) = clone_ticket(rt, &mut self.seat, held, number, mode) {
            return Err(refusal(cause));
        }
        self.tickets.push_reserved(number, held.place, mode);
        self.next += 1;
        Ok(number)
    }
}
