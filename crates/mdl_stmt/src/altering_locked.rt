//! ALTER TABLE of a table that the session has locked.
ghost use Rattle.mdl_stmt.specs.Attendance.{GoesOn, IsReady};
ghost use Rattle.mdl_stmt.specs.Gets.{IsPlayed, IdleUnlessPlayed};
ghost use Rattle.mdl_rows.specs.Statements.{after_commit, alter_among_locked, alter_locked, alter_locked_under, change_and_lower};

use crate::got::{LockResult, Played};
use crate::player::Player;
use crate::reading::failing;
use crate::stage::{Altering, Stage};
use crate::{ErrorNumber, Reply};
use mdl_context::Request;
use mdl_key::{Duration, Key, Mode};
use mdl_rows::Ending;
use mdl_space::{LockSpace, TicketId};
use mdl_syntax::{Alteration, Statement};

impl<S: LockSpace> Player<S> {
    /// Performs an ALTER TABLE of a session that has locked tables.
    pub(crate) fn alter_among_locked<'s>(
        &mut self,
        space: &mut S,
        table: &Key,
        statement: &'s Statement,
    ) -> Played<'s>
        requires ready { IsReady S.LockSpace space.old self.old }
        ensures run { IsPlayed S.LockSpace (alter_among_locked table.now (after_commit statement.now)) space.old self.old result space.new self.new }
        ensures goes_on { GoesOn S.LockSpace space.old self.old space.new self.new }
        ensures idle { IdleUnlessPlayed result self.new }
    {
        let Some(locked) = self.explicit.find(table) else {
            return Played::Ends(failing(ErrorNumber::TableNotLocked));
        };
        if !locked.may_write {
            return Played::Ends(failing(ErrorNumber::TableLockedForRead));
        }
        self.commit_first(space, statement)
    }

    /// Clones the session's lock of a table, and alters the table.
    pub(crate) fn alter_locked<'s>(
        &mut self,
        space: &mut S,
        alteration: &'s Alteration,
    ) -> Played<'s>
        requires ready { IsReady S.LockSpace space.old self.old }
        ensures run { IsPlayed S.LockSpace (alter_locked alteration.now) space.old self.old result space.new self.new }
        ensures goes_on { GoesOn S.LockSpace space.old self.old space.new self.new }
        ensures idle { IdleUnlessPlayed result self.new }
    {
        let request = Request {
            key: &alteration.table,
            mode: Mode::SNRW,
            duration: Duration::Transaction,
        };
        match self.get(space, request) {
            LockResult::Had(ticket) => self.alter_locked_under(space, alteration, ticket),
            LockResult::Waits(key) => Played::Waits(
                key,
                Mode::SNRW,
                Stage::Alter(alteration, Altering::Locked),
            ),
            LockResult::Ends(ending) => Played::Ends(ending),
        }
    }

    /// Alters a table that the session has locked, if the change can be made.
    pub(crate) fn alter_locked_under<'s>(
        &mut self,
        space: &mut S,
        alteration: &'s Alteration,
        ticket: TicketId,
    ) -> Played<'s>
        requires ready { IsReady S.LockSpace space.old self.old }
        ensures run { IsPlayed S.LockSpace (alter_locked_under alteration.now ticket) space.old self.old result space.new self.new }
        ensures goes_on { GoesOn S.LockSpace space.old self.old space.new self.new }
        ensures idle { IdleUnlessPlayed result self.new }
    {
        if let Err(ending) = self.check_change(space, &alteration.change, ticket) {
            return Played::Ends(ending);
        }
        match self.raise(space, ticket, &alteration.table, Mode::X) {
            LockResult::Had(alone) => self.change_and_lower(space, alteration, alone),
            LockResult::Waits(key) => Played::Waits(
                key,
                Mode::X,
                Stage::Alter(alteration, Altering::ChangeLocked),
            ),
            LockResult::Ends(ending) => Played::Ends(ending),
        }
    }

    /// Changes a table that no other session uses, and downgrades its lock to the former mode.
    pub(crate) fn change_and_lower<'s>(
        &mut self,
        space: &mut S,
        alteration: &'s Alteration,
        ticket: TicketId,
    ) -> Played<'s>
        requires ready { IsReady S.LockSpace space.old self.old }
        ensures run { IsPlayed S.LockSpace (change_and_lower alteration.now ticket) space.old self.old result space.new self.new }
        ensures goes_on { GoesOn S.LockSpace space.old self.old space.new self.new }
        ensures idle { IdleUnlessPlayed result self.new }
    {
        match self.redefine(space, ticket, &alteration.change) {
            Ok(()) => {
                self.lower(space, ticket, Mode::SNRW);
                Played::Ends(Ending::Answers(Reply::Ok))
            }
            Err(ending) => Played::Ends(ending),
        }
    }
}
