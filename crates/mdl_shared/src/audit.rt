//! An audit of the table.
ghost use Rattle.std.specs.Prelude.{[], IfErr, IfOk, ◌≡◌};
ghost use Rattle.mdl_calls.specs.declared.space_error.SpaceError.TheVariants as cause;
ghost use Rattle.mdl_steps.specs.declared.view.Keys.{Keys};
ghost use Rattle.mdl_visits.specs.Audits.{Audits};
ghost use Rattle.mdl_visits.specs.Lookups.{TookDirectory};
ghost use Rattle.mdl_visits.specs.Polls.{SettlesNothing};
ghost use Rattle.mdl_visits.specs.Visits.{Does};
ghost use Rattle.mdl_shared.specs.Debts.{OwesNoMore};
ghost use Rattle.mdl_shared.specs.SessionViews.{KeepsLists};

use crate::Session;
use mdl_calls::SpaceError;
use mdl_visits::{Audited, audit};
use std::alloc::AllocError;
use std::sync::Wait;

impl<R: Wait> Session<R> {
    /// Returns the books of all places that have a key, from place 1 on, all as they were at one moment. Fast tickets are in none of them.
    ///
    /// It holds the latches of all these places, so other sessions' calls there wait meanwhile.
    pub fn audit(&mut self) -> Result<Vec<Audited>, SpaceError>
        ensures same { KeepsLists self.old self.new × (self.new.me.0.told ≡ self.old.me.0.told) }
        ensures debts { OwesNoMore self.old self.new }
        ensures settles { SettlesNothing self.old.me self.new.me }
        ensures did { Does [] self.old.me self.new.me }
        ensures told { (k : Keys) × TookDirectory self.old.table.slots k k self.old.me self.new.me
            × IfOk result (λ audited. Audits k audited.items self.old.me self.new.me) }
        ensures refused { IfErr result (λ why. why ≡ cause.OutOfMemory) }
    {
        let mut audited = Vec::new(self.member.alloc);
        match audit(&self.rt, &mut self.member.seat, &mut audited) {
            Ok(()) => Ok(audited),
            Err(AllocError) => Err(SpaceError::OutOfMemory),
        }
    }
}
