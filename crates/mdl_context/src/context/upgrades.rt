//! How the mode of a held ticket changes.
ghost use Rattle.std.specs.Prelude.{◌≡◌, true, false, Some, None, MatchOption, Err, OnOk, OnErr, IfErr};
ghost use Rattle.std.specs.Option.{IfSome};
ghost use Rattle.mdl_calls.specs.Words.{Runs, giving_up};
ghost use Rattle.mdl_system.specs.Strength.{covers};
ghost use Rattle.mdl_context.specs.Contexts.{Attends, LeavesOthers, ticket_kept};
ghost use Rattle.mdl_context.specs.declared.kept.Kept.{Kept};
ghost use Rattle.mdl_context.specs.Holdings.{wanted_upgrade};
ghost use Rattle.mdl_context.specs.Outcomes.{UpgradeComesTo};
ghost use Rattle.mdl_context.specs.Requests.{IsNoPlace, WaitsAfter};
ghost use Rattle.mdl_context.specs.Releases.{release_fault};
ghost use Rattle.mdl_context.specs.Tidying.{StaysTidy};
ghost use Rattle.mdl_context.specs.Upgrades.{with_ticket_mode, merging_new, is_merge_refusal, HasSecond, upgrading, waiting_to_upgrade, downgrading};

use crate::asking::{AskResult, wait_at};
use crate::merging::merge;
use crate::{Acquire, Context, ContextError, Wanted};
use mdl_key::Mode;
use mdl_space::{LockSpace, SpaceError, TicketId, Upgrade};

impl<S: LockSpace> Context<S> {
    /// Upgrades a held ticket to a stronger mode: SU to SNW, SNRW or X, SNW to SNRW or X, and SNRW to X. If the ticket's mode is
    /// at least as strong already, nothing changes. The session's other tickets at the place don't block the upgrade.
    ///
    /// If the mode can't be granted now, the session begins to wait for a second ticket, in the stronger mode, and searches for
    /// deadlocks as [`Context::acquire`] does. Once the wait is granted, [`Context::resume`] merges that ticket into the first
    /// one, which keeps its number. If the wait ends otherwise, the first ticket is unchanged.
    ///
    /// After MySQL 5.7, `MDL_context::upgrade_shared_lock` of `sql/mdl.cc`.
    pub fn upgrade(
        &mut self,
        space: &mut S,
        id: TicketId,
        mode: Mode,
    ) -> Result<Acquire, ContextError>
        requires { Attends S.LockSpace space.old self.old }
        ensures refused { IfSome (release_fault id self.old) (λ fault. result ≡ Err fault) }
        ensures run { Runs S.joins space.old (upgrading id mode self.old) (result, self.new) space.new }
        ensures attends { Attends S.LockSpace space.new self.new }
        ensures others { LeavesOthers S.LockSpace self.old.who space.old space.new }
        ensures who { self.new.who ≡ self.old.who }
        ensures outcome { UpgradeComesTo id mode self.old (result, self.new) }
        ensures unchanged { OnErr result (self.new ≡ self.old) }
        ensures placed { IsNoPlace result → ⊥ }
        ensures own { OnErr result (S.own space.new self.old.who ≡ S.own space.old self.old.who) }
        ensures tidy { StaysTidy S.LockSpace space.old self.old space.new self.new }
        ensures wait { WaitsAfter result self.old.wait self.new.wait }
    {
        let Some(wanted) = self.holdings.upgrade_wish(id, mode) else {
            return Err(ContextError::NotHeld);
        };
        if self.holdings.is_waiting() {
            return Err(ContextError::Waiting);
        }
        match space.upgrade_now(self.who, id, mode) {
            Ok(Upgrade::Upgraded) => {
                self.holdings.strengthen(id, mode);
                Ok(Acquire::Acquired(id))
            }
            Ok(Upgrade::WouldWait) => self.wait_to_upgrade(space, id, wanted),
            Err(refusal) => Err(ContextError::Space(refusal)),
        }
    }

    /// Downgrades a held ticket to a weaker mode: X to SU, SNW or SNRW, and SNW to SU. Takes no memory.
    ///
    /// After MySQL 5.7, `MDL_ticket::downgrade_lock` of `sql/mdl.cc`.
    pub fn downgrade(&mut self, space: &mut S, id: TicketId, mode: Mode) -> Result<(), ContextError>
        requires { Attends S.LockSpace space.old self.old }
        ensures refused { IfSome (release_fault id self.old) (λ fault. result ≡ Err fault) }
        ensures run { Runs S.joins space.old (downgrading id mode self.old) (result, self.new) space.new }
        ensures attends { Attends S.LockSpace space.new self.new }
        ensures others { LeavesOthers S.LockSpace self.old.who space.old space.new }
        ensures who { self.new.who ≡ self.old.who }
        ensures done { OnOk result (self.new ≡ with_ticket_mode id (λ _. mode) self.old) }
        ensures unchanged { OnErr result (self.new ≡ self.old) }
        ensures own { OnErr result (S.own space.new self.old.who ≡ S.own space.old self.old.who) }
        ensures tidy { StaysTidy S.LockSpace space.old self.old space.new self.new }
    {
        if self.holdings.position(id).is_none() {
            return Err(ContextError::NotHeld);
        }
        if self.holdings.is_waiting() {
            return Err(ContextError::Waiting);
        }
        match space.downgrade(self.who, id, mode) {
            Ok(()) => {
                self.holdings.set_mode(id, mode);
                Ok(())
            }
            Err(refusal) => Err(ContextError::Space(refusal)),
        }
    }

    // Begins to wait for the second ticket, by which a kept one is upgraded.
    fn wait_to_upgrade(
        &mut self,
        space: &mut S,
        id: TicketId,
        wanted: Wanted,
    ) -> Result<Acquire, ContextError>
        requires attends { Attends S.LockSpace space.old self.old }
        requires idle { self.old.wait ≡ None }
        requires kept { MatchOption (ticket_kept id self.old.kept) ⊥ (λ ticket. (wanted ≡ wanted_upgrade ticket wanted.mode false) × (covers wanted.mode ticket.mode ≡ true)) }
        ensures run { (ticket : Kept) → ticket_kept id self.old.kept ≡ Some ticket → Runs S.joins space.old (waiting_to_upgrade ticket wanted.mode self.old) (result, self.new) space.new }
        ensures attends { Attends S.LockSpace space.new self.new }
        ensures who { self.new.who ≡ self.old.who }
        ensures unchanged { OnErr result (self.new ≡ self.old) }
        ensures placed { IsNoPlace result → ⊥ }
        ensures own { OnErr result (S.own space.new self.old.who ≡ S.own space.old self.old.who) }
        ensures wait { WaitsAfter result None self.new.wait }
    {
        if self.holdings.reserve(wanted.place).is_err() {
            return Err(ContextError::Space(SpaceError::OutOfMemory));
        }
        match wait_at(space, self.who, wanted.place, wanted.mode) {
            Ok(AskResult::Granted(new)) => match self.merge_ticket(space, id, new, wanted.mode) {
                Ok(()) => Ok(Acquire::Acquired(id)),
                Err(refusal) => Err(ContextError::Space(refusal)),
            },
            Ok(AskResult::Waits(number, searched)) => {
                self.holdings.begin_wait(Wanted { searched, ..wanted });
                Ok(Acquire::MustWait(number))
            }
            Err(refusal) => Err(ContextError::Space(refusal)),
        }
    }

    /// Merges a new ticket, which isn't kept, into a kept one. If that is refused, the new one is released.
    pub(crate) fn merge_ticket(
        &mut self,
        space: &mut S,
        id: TicketId,
        new: TicketId,
        mode: Mode,
    ) -> Result<(), SpaceError>
        requires idle { self.old.wait ≡ None }
        requires second { HasSecond S.LockSpace id new mode space.old self.old }
        ensures refused { IfErr result (λ refusal. is_merge_refusal refusal ≡ true) }
        ensures run { Runs S.joins space.old (merging_new self.old.who id new) result space.new }
        ensures attends { Attends S.LockSpace space.new self.new }
        ensures who { self.new.who ≡ self.old.who }
        ensures done { OnOk result (self.new ≡ with_ticket_mode id (λ _. mode) self.old) }
        ensures unchanged { OnErr result (self.new ≡ self.old) }
        ensures own { OnErr result (S.own space.new self.old.who ≡ giving_up new (S.own space.old self.old.who)) }
    {
        match merge(space, self.who, id, new) {
            Ok(()) => {
                self.holdings.set_mode(id, mode);
                Ok(())
            }
            Err(refusal) => Err(refusal),
        }
    }
}
