//! DROP TABLE.
ghost use Rattle.std.specs.Prelude.{◌≡◌, None};
ghost use Rattle.mdl_stmt.specs.Attendance.{GoesOn, IsReady};
ghost use Rattle.mdl_defs.specs.declared.change.Change.TheVariants as change;
ghost use Rattle.mdl_stmt.specs.Gets.{IsPlayed, IsStep, IdleUnlessPlayed};
ghost use Rattle.mdl_rows.specs.Rows.{for_each, redefine};
ghost use Rattle.mdl_stmt.specs.Stages.{lock_rest, rest_of_dropping};
ghost use Rattle.mdl_rows.specs.Statements.{drop_after_commit, lock_and_drop, drop_under, can_change, stands};

use crate::creating::MOST_VERSIONS;
use crate::got::{Listed, Played};
use crate::key_lists::{in_key_order, scopes_of};
use crate::lock_list::LockList;
use crate::player::Player;
use crate::reading::failing;
use crate::stage::{Dropping, Stage};
use crate::{ErrorNumber, Reply};
use mdl_defs::Change;
use mdl_rows::Ending;
use mdl_space::{LockSpace, TicketId};
use mdl_syntax::Tables;

impl<S: LockSpace> Player<S> {
    /// Drops tables, once no transaction is open.
    pub(crate) fn drop_tables<'s>(&mut self, space: &mut S, tables: &'s Tables) -> Played<'s>
        requires ready { IsReady S.LockSpace space.old self.old }
        ensures run { IsPlayed S.LockSpace (drop_after_commit tables.now) space.old self.old result space.new self.new }
        ensures goes_on { GoesOn S.LockSpace space.old self.old space.new self.new }
        ensures idle { IdleUnlessPlayed result self.new }
    {
        match scopes_of(self.alloc, tables.as_slice()) {
            Ok(locks) => self.lock_scopes(space, tables, locks),
            Err(_) => Played::Ends(Ending::Starves),
        }
    }

    /// Gets the remaining locks of GLOBAL and the tables' schemas, and drops the tables.
    pub(crate) fn lock_scopes<'s>(
        &mut self,
        space: &mut S,
        tables: &'s Tables,
        locks: LockList,
    ) -> Played<'s>
        requires ready { IsReady S.LockSpace space.old self.old }
        ensures run { IsPlayed S.LockSpace (lock_rest locks (λ scopes. lock_and_drop tables.now)) space.old self.old result space.new self.new }
        ensures goes_on { GoesOn S.LockSpace space.old self.old space.new self.new }
        ensures idle { IdleUnlessPlayed result self.new }
    {
        match self.lock_all(space, locks) {
            Listed::Had(_) => self.lock_and_drop(space, tables),
            Listed::Waits(key, mode, locks) => {
                Played::Waits(key, mode, Stage::Drop(Dropping::Scopes(tables, locks)))
            }
            Listed::Ends(ending) => Played::Ends(ending),
        }
    }

    /// Locks tables under the locks of their schemas, and drops them.
    pub(crate) fn lock_and_drop<'s>(&mut self, space: &mut S, tables: &'s Tables) -> Played<'s>
        requires ready { IsReady S.LockSpace space.old self.old }
        ensures run { IsPlayed S.LockSpace (lock_and_drop tables.now) space.old self.old result space.new self.new }
        ensures goes_on { GoesOn S.LockSpace space.old self.old space.new self.new }
        ensures idle { IdleUnlessPlayed result self.new }
    {
        match in_key_order(self.alloc, tables.as_slice()) {
            Ok(locks) => self.lock_tables(space, locks),
            Err(_) => Played::Ends(Ending::Starves),
        }
    }

    /// Gets the remaining locks of tables, and drops the tables.
    pub(crate) fn lock_tables<'s>(&mut self, space: &mut S, locks: LockList) -> Played<'s>
        requires ready { IsReady S.LockSpace space.old self.old }
        ensures run { IsPlayed S.LockSpace (lock_rest locks drop_under) space.old self.old result space.new self.new }
        ensures goes_on { GoesOn S.LockSpace space.old self.old space.new self.new }
        ensures idle { IdleUnlessPlayed result self.new }
    {
        match self.lock_all(space, locks) {
            Listed::Had(locks) => self.drop_under(space, locks.tickets()),
            Listed::Waits(key, mode, locks) => Played::Waits(
                key,
                mode,
                Stage::Drop(Dropping::Tables(locks)),
            ),
            Listed::Ends(ending) => Played::Ends(ending),
        }
    }

    /// Drops tables under their locks: all, or none if one doesn't exist or can't be changed once more.
    fn drop_under<'s>(&mut self, space: &mut S, tickets: &[TicketId]) -> Played<'s>
        requires ready { IsReady S.LockSpace space.old self.old }
        ensures run { IsPlayed S.LockSpace (drop_under tickets.now) space.old self.old result space.new self.new }
        ensures goes_on { GoesOn S.LockSpace space.old self.old space.new self.new }
        ensures idle { IdleUnlessPlayed result self.new }
    {
        if let Err(ending) = self.all_stand(space, tickets) {
            return Played::Ends(ending);
        }
        if let Err(ending) = self.all_can_change(space, tickets) {
            return Played::Ends(ending);
        }
        match self.drop_all(space, tickets) {
            Ok(()) => Played::Ends(Ending::Answers(Reply::Ok)),
            Err(ending) => Played::Ends(ending),
        }
    }

    /// Checks that all these tables exist.
    pub(crate) fn all_stand(&mut self, space: &mut S, tickets: &[TicketId]) -> Result<(), Ending>
        requires ready { IsReady S.LockSpace space.old self.old }
        ensures run { IsStep S.LockSpace (for_each stands tickets.now) space.old self.old result space.new self.new }
        ensures goes_on { GoesOn S.LockSpace space.old self.old space.new self.new }
        ensures idle { self.new.context.wait ≡ None }
    {
        for ticket in tickets {
            if let Err(ending) = self.stands(space, *ticket) {
                return Err(ending);
            }
        }
        Ok(())
    }

    /// Checks that a table exists.
    fn stands(&mut self, space: &mut S, ticket: TicketId) -> Result<(), Ending>
        requires ready { IsReady S.LockSpace space.old self.old }
        ensures run { IsStep S.LockSpace (stands ticket) space.old self.old result space.new self.new }
        ensures goes_on { GoesOn S.LockSpace space.old self.old space.new self.new }
        ensures idle { self.new.context.wait ≡ None }
    {
        match self.exists(space, ticket) {
            Ok(_) => Ok(()),
            Err(ending) => Err(ending),
        }
    }

    /// Checks that all these tables can be changed once more, before the limit of versions.
    pub(crate) fn all_can_change(
        &mut self,
        space: &mut S,
        tickets: &[TicketId],
    ) -> Result<(), Ending>
        requires ready { IsReady S.LockSpace space.old self.old }
        ensures run { IsStep S.LockSpace (for_each can_change tickets.now) space.old self.old result space.new self.new }
        ensures goes_on { GoesOn S.LockSpace space.old self.old space.new self.new }
        ensures idle { self.new.context.wait ≡ None }
    {
        for ticket in tickets {
            if let Err(ending) = self.can_change(space, *ticket) {
                return Err(ending);
            }
        }
        Ok(())
    }

    /// Checks that a table can be changed once more, before the limit of versions.
    pub(crate) fn can_change(&mut self, space: &mut S, ticket: TicketId) -> Result<(), Ending>
        requires ready { IsReady S.LockSpace space.old self.old }
        ensures run { IsStep S.LockSpace (can_change ticket) space.old self.old result space.new self.new }
        ensures goes_on { GoesOn S.LockSpace space.old self.old space.new self.new }
        ensures idle { self.new.context.wait ≡ None }
    {
        match self.read(space, ticket) {
            Ok(standing) => {
                if standing.version >= MOST_VERSIONS {
                    return Err(failing(ErrorNumber::VersionLimit));
                }
                Ok(())
            }
            Err(ending) => Err(ending),
        }
    }

    /// Removes the definitions of all these tables.
    pub(crate) fn drop_all(&mut self, space: &mut S, tickets: &[TicketId]) -> Result<(), Ending>
        requires ready { IsReady S.LockSpace space.old self.old }
        ensures run { IsStep S.LockSpace (for_each (λ ticket. redefine ticket change.Drop) tickets.now) space.old self.old result space.new self.new }
        ensures goes_on { GoesOn S.LockSpace space.old self.old space.new self.new }
        ensures idle { self.new.context.wait ≡ None }
    {
        for ticket in tickets {
            if let Err(ending) = self.redefine(space, *ticket, &Change::Drop) {
                return Err(ending);
            }
        }
        Ok(())
    }

    /// Continues once the awaited lock is held.
    pub(crate) fn go_on_dropping<'s>(
        &mut self,
        space: &mut S,
        at: Dropping<'s>,
        ticket: TicketId,
    ) -> Played<'s>
        requires ready { IsReady S.LockSpace space.old self.old }
        ensures run { IsPlayed S.LockSpace (rest_of_dropping at.entry ticket) space.old self.old result space.new self.new }
        ensures goes_on { GoesOn S.LockSpace space.old self.old space.new self.new }
        ensures idle { IdleUnlessPlayed result self.new }
    {
        match at {
            Dropping::Scopes(tables, locks) => self.lock_scopes(space, tables, locks.with(ticket)),
            Dropping::Tables(locks) => self.lock_tables(space, locks.with(ticket)),
        }
    }
}
