//! Gives a ticket a stronger mode, without waiting.
ghost use Rattle.std.specs.Prelude.{◌≡◌, false, true, IfOk, Some};
ghost use Rattle.mdl_key.specs.Refusals.{RefusesJust};
ghost use Rattle.mdl_system.specs.Strength.{covers};
ghost use Rattle.mdl_calls.specs.CallSpec.{Transition};
ghost use Rattle.mdl_calls.specs.calls.UpgradeNow as call;
ghost use Rattle.mdl_calls.specs.declared.answers.Upgrade.TheVariants.{Upgraded, WouldWait};
ghost use Rattle.mdl_calls.specs.Words.{upgrade_tried};
ghost use Rattle.mdl_steps.specs.Interleavings.{interleaved};
ghost use Rattle.mdl_visits.specs.KnownLists.{has_pin};
ghost use Rattle.mdl_visits.specs.Numbers.{numbered};
ghost use Rattle.mdl_visits.specs.Visits.{IsVisit};
ghost use Rattle.mdl_shared.specs.LatchCalls.{MayUpgradeByLatch, WasBlockedByLatch, WasUpgradedByLatch};
ghost use Rattle.mdl_key.specs.KeyLookups.{kind_known};
ghost use Rattle.mdl_shared.specs.Passes.{view_of};
ghost use Rattle.mdl_shared.specs.SessionViews.{data_of};
ghost use Rattle.mdl_shared.specs.StepSpec.{TakesSteps};
ghost use Rattle.mdl_shared.specs.TicketLists.{KeepsRoom};
ghost use Rattle.mdl_shared.specs.Upgrades.{can_have, upgrade_fault};
ghost use Rattle.mdl_shared.specs.calls.UpgradeNow as steps;

use crate::Session;
use crate::member::Member;
use mdl_calls::{SpaceError, TicketId, Upgrade};
use mdl_key::Mode;
use mdl_steps::SessionTicket;
use mdl_system::{covers, may_upgrade};
use mdl_visits::{TryOutcome, upgrade_now};
use std::sync::Wait;

impl<R: Wait> Session<R> {
    /// Requests a stronger mode for a ticket, without waiting: from SU to SNW, SNRW or X, from SNW to SNRW or X, from SNRW to X. The
    /// session's other tickets don't block it. If the ticket's mode covers the requested one, it counts as upgraded, and nothing changes.
    /// Otherwise the session's fast tickets, if it has any, become slow first: that takes memory, and the call is refused if there is no room
    /// for them.
    pub fn upgrade_now(&mut self, id: TicketId, mode: Mode) -> Result<Upgrade, SpaceError>
        ensures joined { Transition (call.upgrade_now self.old.me.0.number id mode) (upgrade_tried result) (data_of self.old) (data_of self.new) }
        ensures shown { TakesSteps (steps.upgrade_now id mode) (upgrade_tried result) self.old self.new }
    {
        let held = self.member.upgradable(id, mode)?;
        if covers(held.mode, mode) {
            return Ok(Upgrade::Upgraded);
        }
        self.member.materialise(&self.rt)?;
        Ok(self.member.upgrade_by_latch(&self.rt, held, mode))
    }
}

impl Member {
    // The ticket with a number, if its mode covers another one or may be upgraded to it.
    fn upgradable(&self, id: TicketId, mode: Mode) -> Result<SessionTicket, SpaceError>
        ensures found { IfOk result (λ held. numbered id (interleaved self.now.tickets.slow self.now.tickets.fast) ≡ Some held) }
        ensures just { RefusesJust (upgrade_fault mode self.now.known.known self.now.asks (numbered id (interleaved self.now.tickets.slow self.now.tickets.fast))) result }
    {
        let Some(held) = self.tickets.get(id) else {
            return Err(SpaceError::NotHeld);
        };
        if !self.can_have(held, mode) {
            return Err(SpaceError::NotUpgradable);
        }
        if self.asks.is_some() {
            return Err(SpaceError::AlreadyWaiting);
        }
        Ok(held)
    }

    // Requests a mode for a slow ticket, under the latch of its place. The ticket's mode doesn't cover it, but may be upgraded to it. The
    // session has no fast ticket.
    fn upgrade_by_latch<R: Wait>(&mut self, rt: &R, held: SessionTicket, mode: Mode) -> Upgrade
        requires may { MayUpgradeByLatch held mode self.old }
        requires short { covers held.mode mode ≡ false }
        ensures upgraded { result ≡ Upgraded → WasUpgradedByLatch held mode (view_of self.old) (view_of self.new) }
        ensures blocked { result ≡ WouldWait → WasBlockedByLatch held mode (view_of self.old) (view_of self.new) }
        ensures once { IsVisit held.place true self.old.seat.me self.new.seat.me }
        ensures room { KeepsRoom 0 self.old.tickets.room self.new.tickets.room }
    {
        match upgrade_now(rt, &mut self.seat, held.place, held.number, mode) {
            TryOutcome::Granted => {}
            TryOutcome::Blocked => return Upgrade::WouldWait,
        }
        self.tickets.set_mode(held.place, held.number, mode);
        Upgrade::Upgraded
    }

    // Whether the mode of a ticket at a pinned place covers a mode or may be upgraded to it, and the mode is one of its lock's kind.
    fn can_have(&self, held: SessionTicket, mode: Mode) -> bool
        requires pinned { has_pin held.place self.now.known.pins ≡ true }
        ensures { result ≡ can_have mode held (kind_known held.place self.now.known.known) }
    {
        let kind = self.known.kind_at(held.place);
        (covers(held.mode, mode) || may_upgrade(held.mode, mode)) && kind.has_mode(mode)
    }
}
