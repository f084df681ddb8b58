//! LOCK TABLES.
ghost use Rattle.std.specs.Prelude.{◌≡◌, ◌&&◌, None, IfOk, is_some};
ghost use Rattle.mdl_stmt.specs.Attendance.{GoesOn, IsReady};
ghost use Rattle.mdl_stmt.specs.declared.got.Played.TheVariants as played;
ghost use Rattle.mdl_stmt.specs.Gets.{IsPlayed, IdleUnlessPlayed};
ghost use Rattle.mdl_stmt.specs.Stages.{lock_rest, lock_rest_by, rest_of_locking};
ghost use Rattle.mdl_rows.specs.Statements.{after_commit, keep_locked, lock_first, lock_named, lock_tables_after_commit, locked_by, table_lock, writes_any};

use crate::got::{Listed, Played};
use crate::key_lists::{is_write, may_write, named_in_order, scopes_around};
use crate::lock_list::{LockList, Locking};
use crate::player::Player;
use crate::reading::failing;
use crate::stage::{LockingTables, Stage};
use crate::{ErrorNumber, OutOfMemory, Reply};
use mdl_rows::{Ending, Locked};
use mdl_space::{LockSpace, TicketId};
use mdl_syntax::{Statement, TableLock, TableLocks};
use std::alloc::Global;

impl<S: LockSpace> Player<S> {
    /// Performs LOCK TABLES of these tables. `statement` is the whole statement.
    pub(crate) fn lock_first<'s>(
        &mut self,
        space: &mut S,
        statement: &'s Statement,
        tables: &TableLocks,
    ) -> Played<'s>
        requires ready { IsReady S.LockSpace space.old self.old }
        ensures run { IsPlayed S.LockSpace (lock_first tables.now (after_commit statement.now)) space.old self.old result space.new self.new }
        ensures goes_on { GoesOn S.LockSpace space.old self.old space.new self.new }
        ensures idle { IdleUnlessPlayed result self.new }
    {
        if self.locks_out(tables) {
            return Played::Ends(failing(ErrorNumber::ConflictingReadLock));
        }
        self.commit_first(space, statement)
    }

    /// Whether the session's own global read lock forbids it to lock these tables.
    fn locks_out(&self, tables: &TableLocks) -> bool
        ensures { result ≡ (writes_any tables.now && is_some self.now.state.read_lock) }
    {
        writes_any(tables.as_slice()) && self.explicit.has_read_lock()
    }

    /// Releases tables that were locked before, and locks these, once no transaction is open.
    pub(crate) fn lock_these<'s>(&mut self, space: &mut S, tables: &'s TableLocks) -> Played<'s>
        requires ready { IsReady S.LockSpace space.old self.old }
        ensures run { IsPlayed S.LockSpace (lock_tables_after_commit tables.now) space.old self.old result space.new self.new }
        ensures goes_on { GoesOn S.LockSpace space.old self.old space.new self.new }
        ensures idle { IdleUnlessPlayed result self.new }
    {
        self.unlock_tables(space);
        match scopes_around(self.alloc, tables.as_slice()) {
            Ok(locks) => self.lock_around(space, tables, locks),
            Err(_) => Played::Ends(Ending::Starves),
        }
    }

    /// Gets the remaining locks of the tables' scopes, and locks the tables.
    pub(crate) fn lock_around<'s>(
        &mut self,
        space: &mut S,
        tables: &'s TableLocks,
        locks: LockList,
    ) -> Played<'s>
        requires ready { IsReady S.LockSpace space.old self.old }
        ensures run { IsPlayed S.LockSpace (lock_rest locks (lock_named tables.now)) space.old self.old result space.new self.new }
        ensures goes_on { GoesOn S.LockSpace space.old self.old space.new self.new }
        ensures idle { IdleUnlessPlayed result self.new }
    {
        match self.lock_all(space, locks) {
            Listed::Had(scopes) => self.lock_named(space, tables, scopes.into_tickets()),
            Listed::Waits(key, mode, locks) => {
                Played::Waits(key, mode, Stage::Lock(tables, LockingTables::Scopes(locks)))
            }
            Listed::Ends(ending) => Played::Ends(ending),
        }
    }

    /// Locks the tables under these locks of their scopes.
    fn lock_named<'s>(
        &mut self,
        space: &mut S,
        tables: &'s TableLocks,
        scopes: Vec<TicketId>,
    ) -> Played<'s>
        requires ready { IsReady S.LockSpace space.old self.old }
        ensures run { IsPlayed S.LockSpace (lock_named tables.now scopes.items) space.old self.old result space.new self.new }
        ensures goes_on { GoesOn S.LockSpace space.old self.old space.new self.new }
        ensures idle { IdleUnlessPlayed result self.new }
    {
        match named_in_order(self.alloc, tables.as_slice()) {
            Ok(locks) => self.lock_each_named(space, tables, scopes, locks),
            Err(_) => Played::Ends(Ending::Starves),
        }
    }

    /// Gets the remaining locks of tables, and keeps all locks.
    pub(crate) fn lock_each_named<'s>(
        &mut self,
        space: &mut S,
        tables: &'s TableLocks,
        scopes: Vec<TicketId>,
        locks: LockList,
    ) -> Played<'s>
        requires ready { IsReady S.LockSpace space.old self.old }
        ensures run { IsPlayed S.LockSpace (lock_rest_by (table_lock tables.now) locks (keep_locked tables.now locks.keys scopes.items)) space.old self.old result space.new self.new }
        ensures goes_on { GoesOn S.LockSpace space.old self.old space.new self.new }
        ensures idle { IdleUnlessPlayed result self.new }
    {
        match self.lock_each(space, Locking::Tables(tables), locks) {
            Listed::Had(locks) => Played::Ends(self.keep_locked(space, tables, scopes, locks)),
            Listed::Waits(key, mode, locks) => {
                Played::Waits(
                    key,
                    mode,
                    Stage::Lock(tables, LockingTables::Tables(scopes, locks)),
                )
            }
            Listed::Ends(ending) => Played::Ends(ending),
        }
    }

    /// Makes all tickets explicit, and notes that the tables are locked, if all tables exist.
    fn keep_locked(
        &mut self,
        space: &mut S,
        tables: &TableLocks,
        scopes: Vec<TicketId>,
        locks: LockList,
    ) -> Ending
        requires ready { IsReady S.LockSpace space.old self.old }
        ensures run { IsPlayed S.LockSpace (keep_locked tables.now locks.keys scopes.items locks.tickets) space.old self.old (played.Ends result) space.new self.new }
        ensures goes_on { GoesOn S.LockSpace space.old self.old space.new self.new }
        ensures idle { self.new.context.wait ≡ None }
    {
        if let Err(ending) = self.all_stand(space, locks.tickets()) {
            return ending;
        }
        let Ok(locked) = locked_by(self.alloc, tables.as_slice(), &locks) else {
            return Ending::Starves;
        };
        let _kept = self.context.make_explicit();
        self.is_open = false;
        self.has_written = false;
        self.savepoints.clear();
        self.explicit.lock(locked, scopes);
        Ending::Answers(Reply::Ok)
    }

    /// Continues once the awaited lock is held.
    pub(crate) fn go_on_locking<'s>(
        &mut self,
        space: &mut S,
        tables: &'s TableLocks,
        at: LockingTables,
        ticket: TicketId,
    ) -> Played<'s>
        requires ready { IsReady S.LockSpace space.old self.old }
        ensures run { IsPlayed S.LockSpace (rest_of_locking tables.now at ticket) space.old self.old result space.new self.new }
        ensures goes_on { GoesOn S.LockSpace space.old self.old space.new self.new }
        ensures idle { IdleUnlessPlayed result self.new }
    {
        match at {
            LockingTables::Scopes(locks) => self.lock_around(space, tables, locks.with(ticket)),
            LockingTables::Tables(scopes, locks) => {
                self.lock_each_named(space, tables, scopes, locks.with(ticket))
            }
        }
    }
}

/// Whether any table is locked for writing.
fn writes_any(tables: &[TableLock]) -> bool
    ensures { result ≡ writes_any tables.now }
{
    tables.iter().any(|lock| is_write(lock.lock_type))
}

/// The locked tables with their tickets.
fn locked_by(
    alloc: Global,
    tables: &[TableLock],
    locks: &LockList,
) -> Result<Vec<Locked>, OutOfMemory>
    ensures { IfOk result (λ locked. locked.items ≡ locked_by tables.now locks.now.keys locks.now.tickets) }
{
    let mut locked = Vec::new(alloc);
    for (at, key) in locks.keys().iter().enumerate() {
        let Some(ticket) = locks.tickets().get(at) else {
            return Ok(locked);
        };
        let Ok(copy) = key.clone() else {
            return Err(OutOfMemory);
        };
        let table = Locked {
            key: copy,
            may_write: may_write(tables, key),
            ticket: *ticket,
        };
        if locked.push(table).is_err() {
            return Err(OutOfMemory);
        }
    }
    Ok(locked)
}
