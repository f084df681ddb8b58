//! ALTER TABLE.
ghost use Rattle.std.specs.Prelude.{◌≡◌, ◌⊎◌, None, Some, Ok, MatchResult};
ghost use Rattle.mdl_defs.specs.declared.def_error.DefError.{DefError};
ghost use Rattle.mdl_stmt.specs.Attendance.{GoesOn, IsReady};
ghost use Rattle.mdl_defs.specs.Changes.{change_fault};
ghost use Rattle.mdl_stmt.specs.Gets.{IsPlayed, IsStep, IdleUnlessPlayed};
ghost use Rattle.mdl_stmt.specs.Stages.{rest_of_altering};
ghost use Rattle.mdl_rows.specs.Statements.{after_commit, alter_after_commit, alter_by_copy, alter_first, alter_in_place, alter_in_schema, alter_under, alter_unlocked, change_table, check_change, fault_number, lock_schema_and_alter, raise_and_change, reopen_and_change};
ghost use Rattle.mdl_rows.specs.declared.ending.Ending.TheVariants.{Answers, Starves};
ghost use Rattle.mdl_rows.specs.declared.reply.Reply.TheVariants.{Error};

use crate::creating::{MOST_VERSIONS, schema_of};
use crate::got::{LockResult, Played};
use crate::player::Player;
use crate::reading::failing;
use crate::stage::{Altering, Stage};
use crate::{ErrorNumber, Reply};
use mdl_context::Request;
use mdl_defs::{Change, DefError, Definition, apply};
use mdl_key::{Duration, Key, Mode};
use mdl_rows::Ending;
use mdl_space::{LockSpace, TicketId};
use mdl_syntax::{Algorithm, Alteration, Statement};
use std::alloc::Global;

impl<S: LockSpace> Player<S> {
    /// Performs an ALTER TABLE of a table: checks the session's locks, commits an open transaction, and then alters
    /// the table.
    pub(crate) fn alter_first<'s>(
        &mut self,
        space: &mut S,
        table: &Key,
        statement: &'s Statement,
    ) -> Played<'s>
        requires ready { IsReady S.LockSpace space.old self.old }
        ensures run { IsPlayed S.LockSpace (alter_first table.now (after_commit statement.now)) space.old self.old result space.new self.new }
        ensures goes_on { GoesOn S.LockSpace space.old self.old space.new self.new }
        ensures idle { IdleUnlessPlayed result self.new }
    {
        if self.explicit.has_read_lock() {
            return Played::Ends(failing(ErrorNumber::ConflictingReadLock));
        }
        if self.explicit.has_locked() {
            return self.alter_among_locked(space, table, statement);
        }
        self.commit_first(space, statement)
    }

    /// Alters a table, once no transaction is open.
    pub(crate) fn alter<'s>(&mut self, space: &mut S, alteration: &'s Alteration) -> Played<'s>
        requires ready { IsReady S.LockSpace space.old self.old }
        ensures run { IsPlayed S.LockSpace (alter_after_commit alteration.now) space.old self.old result space.new self.new }
        ensures goes_on { GoesOn S.LockSpace space.old self.old space.new self.new }
        ensures idle { IdleUnlessPlayed result self.new }
    {
        let writes = Key::global(self.alloc);
        let request = Request {
            key: &writes,
            mode: Mode::IX,
            duration: Duration::Statement,
        };
        match self.get(space, request) {
            LockResult::Had(_) => self.lock_schema_and_alter(space, alteration),
            LockResult::Waits(key) => Played::Waits(
                key,
                Mode::IX,
                Stage::Alter(alteration, Altering::Global),
            ),
            LockResult::Ends(ending) => Played::Ends(ending),
        }
    }

    /// Locks a table's schema, under the GLOBAL lock, and alters the table.
    pub(crate) fn lock_schema_and_alter<'s>(
        &mut self,
        space: &mut S,
        alteration: &'s Alteration,
    ) -> Played<'s>
        requires ready { IsReady S.LockSpace space.old self.old }
        ensures run { IsPlayed S.LockSpace (lock_schema_and_alter alteration.now) space.old self.old result space.new self.new }
        ensures goes_on { GoesOn S.LockSpace space.old self.old space.new self.new }
        ensures idle { IdleUnlessPlayed result self.new }
    {
        let Ok(schema) = schema_of(self.alloc, &alteration.table) else {
            return Played::Ends(Ending::Starves);
        };
        let request = Request {
            key: &schema,
            mode: Mode::IX,
            duration: Duration::Transaction,
        };
        match self.get(space, request) {
            LockResult::Had(_) => self.alter_in_schema(space, alteration),
            LockResult::Waits(key) => Played::Waits(
                key,
                Mode::IX,
                Stage::Alter(alteration, Altering::Schema),
            ),
            LockResult::Ends(ending) => Played::Ends(ending),
        }
    }

    /// Alters a table under its schema's lock.
    pub(crate) fn alter_in_schema<'s>(
        &mut self,
        space: &mut S,
        alteration: &'s Alteration,
    ) -> Played<'s>
        requires ready { IsReady S.LockSpace space.old self.old }
        ensures run { IsPlayed S.LockSpace (alter_in_schema alteration.now) space.old self.old result space.new self.new }
        ensures goes_on { GoesOn S.LockSpace space.old self.old space.new self.new }
        ensures idle { IdleUnlessPlayed result self.new }
    {
        if self.explicit.has_locked() {
            return self.alter_locked(space, alteration);
        }
        self.alter_unlocked(space, alteration)
    }

    /// Locks a table against other changes, and alters it.
    fn alter_unlocked<'s>(&mut self, space: &mut S, alteration: &'s Alteration) -> Played<'s>
        requires ready { IsReady S.LockSpace space.old self.old }
        ensures run { IsPlayed S.LockSpace (alter_unlocked alteration.now) space.old self.old result space.new self.new }
        ensures goes_on { GoesOn S.LockSpace space.old self.old space.new self.new }
        ensures idle { IdleUnlessPlayed result self.new }
    {
        let request = Request {
            key: &alteration.table,
            mode: Mode::SU,
            duration: Duration::Transaction,
        };
        match self.get(space, request) {
            LockResult::Had(ticket) => self.alter_under(space, alteration, ticket),
            LockResult::Waits(key) => Played::Waits(
                key,
                Mode::SU,
                Stage::Alter(alteration, Altering::Table),
            ),
            LockResult::Ends(ending) => Played::Ends(ending),
        }
    }

    /// Alters a table under its lock, if the change can be made.
    pub(crate) fn alter_under<'s>(
        &mut self,
        space: &mut S,
        alteration: &'s Alteration,
        ticket: TicketId,
    ) -> Played<'s>
        requires ready { IsReady S.LockSpace space.old self.old }
        ensures run { IsPlayed S.LockSpace (alter_under alteration.now ticket) space.old self.old result space.new self.new }
        ensures goes_on { GoesOn S.LockSpace space.old self.old space.new self.new }
        ensures idle { IdleUnlessPlayed result self.new }
    {
        if let Err(ending) = self.check_change(space, &alteration.change, ticket) {
            return Played::Ends(ending);
        }
        match alteration.algorithm {
            Algorithm::Copy => self.alter_by_copy(space, alteration, ticket),
            Algorithm::Inplace => self.alter_in_place(space, alteration, ticket),
        }
    }

    /// Upgrades a table's lock so that no other session writes while the table is copied, and then changes the
    /// table.
    fn alter_by_copy<'s>(
        &mut self,
        space: &mut S,
        alteration: &'s Alteration,
        ticket: TicketId,
    ) -> Played<'s>
        requires ready { IsReady S.LockSpace space.old self.old }
        ensures run { IsPlayed S.LockSpace (alter_by_copy alteration.now ticket) space.old self.old result space.new self.new }
        ensures goes_on { GoesOn S.LockSpace space.old self.old space.new self.new }
        ensures idle { IdleUnlessPlayed result self.new }
    {
        match self.raise(space, ticket, &alteration.table, Mode::SNW) {
            LockResult::Had(copied) => self.raise_and_change(space, alteration, copied),
            LockResult::Waits(key) => Played::Waits(
                key,
                Mode::SNW,
                Stage::Alter(alteration, Altering::Copy),
            ),
            LockResult::Ends(ending) => Played::Ends(ending),
        }
    }

    /// Upgrades a table's lock so that no other session uses the table, downgrades it while the table is altered,
    /// and then changes the table.
    fn alter_in_place<'s>(
        &mut self,
        space: &mut S,
        alteration: &'s Alteration,
        ticket: TicketId,
    ) -> Played<'s>
        requires ready { IsReady S.LockSpace space.old self.old }
        ensures run { IsPlayed S.LockSpace (alter_in_place alteration.now ticket) space.old self.old result space.new self.new }
        ensures goes_on { GoesOn S.LockSpace space.old self.old space.new self.new }
        ensures idle { IdleUnlessPlayed result self.new }
    {
        match self.raise(space, ticket, &alteration.table, Mode::X) {
            LockResult::Had(prepared) => self.reopen_and_change(space, alteration, prepared),
            LockResult::Waits(key) => Played::Waits(
                key,
                Mode::X,
                Stage::Alter(alteration, Altering::InPlace),
            ),
            LockResult::Ends(ending) => Played::Ends(ending),
        }
    }

    /// Downgrades a table's lock that was upgraded, and then changes the table.
    pub(crate) fn reopen_and_change<'s>(
        &mut self,
        space: &mut S,
        alteration: &'s Alteration,
        ticket: TicketId,
    ) -> Played<'s>
        requires ready { IsReady S.LockSpace space.old self.old }
        ensures run { IsPlayed S.LockSpace (reopen_and_change alteration.now ticket) space.old self.old result space.new self.new }
        ensures goes_on { GoesOn S.LockSpace space.old self.old space.new self.new }
        ensures idle { IdleUnlessPlayed result self.new }
    {
        self.lower(space, ticket, Mode::SU);
        self.raise_and_change(space, alteration, ticket)
    }

    /// Upgrades a table's lock so that no other session uses the table, and changes the table.
    pub(crate) fn raise_and_change<'s>(
        &mut self,
        space: &mut S,
        alteration: &'s Alteration,
        ticket: TicketId,
    ) -> Played<'s>
        requires ready { IsReady S.LockSpace space.old self.old }
        ensures run { IsPlayed S.LockSpace (raise_and_change alteration.now ticket) space.old self.old result space.new self.new }
        ensures goes_on { GoesOn S.LockSpace space.old self.old space.new self.new }
        ensures idle { IdleUnlessPlayed result self.new }
    {
        match self.raise(space, ticket, &alteration.table, Mode::X) {
            LockResult::Had(alone) => self.change_table(space, alteration, alone),
            LockResult::Waits(key) => Played::Waits(
                key,
                Mode::X,
                Stage::Alter(alteration, Altering::Change),
            ),
            LockResult::Ends(ending) => Played::Ends(ending),
        }
    }

    /// Changes a table that no other session uses.
    pub(crate) fn change_table<'s>(
        &mut self,
        space: &mut S,
        alteration: &'s Alteration,
        ticket: TicketId,
    ) -> Played<'s>
        requires ready { IsReady S.LockSpace space.old self.old }
        ensures run { IsPlayed S.LockSpace (change_table alteration.now ticket) space.old self.old result space.new self.new }
        ensures goes_on { GoesOn S.LockSpace space.old self.old space.new self.new }
        ensures idle { IdleUnlessPlayed result self.new }
    {
        match self.redefine(space, ticket, &alteration.change) {
            Ok(()) => Played::Ends(Ending::Answers(Reply::Ok)),
            Err(ending) => Played::Ends(ending),
        }
    }

    /// Checks that a change of a table's definition can be made, and that its versions haven't reached the limit.
    pub(crate) fn check_change(
        &mut self,
        space: &mut S,
        change: &Change,
        ticket: TicketId,
    ) -> Result<(), Ending>
        requires ready { IsReady S.LockSpace space.old self.old }
        ensures run { IsStep S.LockSpace (check_change change.now ticket) space.old self.old result space.new self.new }
        ensures goes_on { GoesOn S.LockSpace space.old self.old space.new self.new }
        ensures idle { self.new.context.wait ≡ None }
    {
        let standing = match self.read(space, ticket) {
            Ok(standing) => standing,
            Err(ending) => return Err(ending),
        };
        if let Err(ending) = can_become(self.alloc, &standing.definition, change) {
            return Err(ending);
        }
        if standing.version >= MOST_VERSIONS {
            return Err(failing(ErrorNumber::VersionLimit));
        }
        Ok(())
    }

    /// Continues once the awaited lock is held.
    pub(crate) fn go_on_altering<'s>(
        &mut self,
        space: &mut S,
        alteration: &'s Alteration,
        at: Altering,
        ticket: TicketId,
    ) -> Played<'s>
        requires ready { IsReady S.LockSpace space.old self.old }
        ensures run { IsPlayed S.LockSpace (rest_of_altering alteration.now at ticket) space.old self.old result space.new self.new }
        ensures goes_on { GoesOn S.LockSpace space.old self.old space.new self.new }
        ensures idle { IdleUnlessPlayed result self.new }
    {
        match at {
            Altering::Global => self.lock_schema_and_alter(space, alteration),
            Altering::Schema => self.alter_in_schema(space, alteration),
            Altering::Table => self.alter_under(space, alteration, ticket),
            Altering::Copy => self.raise_and_change(space, alteration, ticket),
            Altering::InPlace => self.reopen_and_change(space, alteration, ticket),
            Altering::Change => self.change_table(space, alteration, ticket),
            Altering::Locked => self.alter_locked_under(space, alteration, ticket),
            Altering::ChangeLocked => self.change_and_lower(space, alteration, ticket),
        }
    }
}

/// Checks that a definition can be changed in this way.
fn can_become(alloc: Global, definition: &Option<Definition>, change: &Change) -> Result<(), Ending>
    ensures { MatchResult result
        (λ _. change_fault definition.now change.now ≡ None)
        (λ ending. (ending ≡ Starves) ⊎ ((fault : DefError) × (change_fault definition.now change.now ≡ Some fault) × (ending ≡ Answers (Error (fault_number fault))))) }
{
    match apply(alloc, definition, change) {
        Ok(_) => Ok(()),
        Err(DefError::OutOfMemory) => Err(Ending::Starves),
        Err(fault) => Err(failing(fault_number(fault))),
    }
}

/// The error of a change that can't be made.
fn fault_number(fault: DefError) -> ErrorNumber
    ensures { result ≡ fault_number fault }
{
    match fault {
        DefError::DuplicateColumn => ErrorNumber::DuplicateColumn,
        DefError::NoColumn => ErrorNumber::CantDropColumn,
        DefError::LastColumn => ErrorNumber::LastColumn,
        DefError::ManyColumns => ErrorNumber::TooManyColumns,
        _ => ErrorNumber::NoSuchTable,
    }
}
