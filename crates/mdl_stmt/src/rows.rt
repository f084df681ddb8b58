//! SELECT, and INSERT, UPDATE and DELETE.
ghost use Rattle.std.specs.Prelude.{◌≡◌, None, [], drop};
ghost use Rattle.mdl_stmt.specs.Attendance.{GoesOn, IsReady};
ghost use Rattle.mdl_stmt.specs.Gets.{IsPlayed, IsStep, IdleUnlessPlayed};
ghost use Rattle.mdl_stmt.specs.Stages.{show_next, rest_of_writing};
ghost use Rattle.mdl_rows.specs.Statements.{lock_to_read, lock_held, select, show_held, show_all, write, write_locked, lock_writes, write_mode, write_under, wrote, lock_and_write};
ghost use Rattle.mdl_stmt.specs.declared.got.Played.TheVariants as played;

use crate::got::{LockResult, Played};
use crate::player::Player;
use crate::reading::failing;
use crate::stage::{Stage, Writing};
use crate::{ErrorNumber, Reply, TablesShown};
use mdl_context::Request;
use mdl_key::{Duration, Key, Mode};
use mdl_rows::Ending;
use mdl_space::{LockSpace, TicketId};
use mdl_syntax::Priority;

impl<S: LockSpace> Player<S> {
    /// Reads tables, each under its lock.
    pub(crate) fn select<'s>(&mut self, space: &mut S, tables: &'s [Key]) -> Played<'s>
        requires ready { IsReady S.LockSpace space.old self.old }
        ensures run { IsPlayed S.LockSpace (select tables.now) space.old self.old result space.new self.new }
        ensures goes_on { GoesOn S.LockSpace space.old self.old space.new self.new }
        ensures idle { IdleUnlessPlayed result self.new }
    {
        if self.explicit.has_locked() {
            return Played::Ends(self.show_locked(space, tables));
        }
        let shown = TablesShown::new(self.alloc);
        self.show_from(space, shown, tables, 0)
    }

    /// Shows tables that are locked already.
    fn show_locked(&mut self, space: &mut S, tables: &[Key]) -> Ending
        requires ready { IsReady S.LockSpace space.old self.old }
        ensures run { IsPlayed S.LockSpace (show_all lock_held [] tables.now) space.old self.old (played.Ends result) space.new self.new }
        ensures goes_on { GoesOn S.LockSpace space.old self.old space.new self.new }
        ensures idle { self.new.context.wait ≡ None }
    {
        let mut shown = TablesShown::new(self.alloc);
        for table in tables {
            shown = match self.show_held(space, shown, table) {
                Ok(more) => more,
                Err(ending) => return ending,
            };
        }
        Ending::Answers(Reply::Columns(shown))
    }

    /// Shows a table that the session has locked, after those already shown.
    fn show_held(
        &mut self,
        space: &mut S,
        shown: TablesShown,
        table: &Key,
    ) -> Result<TablesShown, Ending>
        requires ready { IsReady S.LockSpace space.old self.old }
        ensures run { IsStep S.LockSpace (show_held shown table.now) space.old self.old result space.new self.new }
        ensures goes_on { GoesOn S.LockSpace space.old self.old space.new self.new }
        ensures idle { self.new.context.wait ≡ None }
    {
        let Some(locked) = self.explicit.find(table) else {
            return Err(failing(ErrorNumber::TableNotLocked));
        };
        let ticket = locked.ticket;
        self.show(space, shown, table, ticket)
    }

    /// Locks and shows each of these tables, from index `from` on, after those already shown.
    pub(crate) fn show_from<'s>(
        &mut self,
        space: &mut S,
        shown: TablesShown,
        tables: &'s [Key],
        from: usize,
    ) -> Played<'s>
        requires ready { IsReady S.LockSpace space.old self.old }
        ensures run { IsPlayed S.LockSpace (show_all lock_to_read shown (drop from tables.now)) space.old self.old result space.new self.new }
        ensures goes_on { GoesOn S.LockSpace space.old self.old space.new self.new }
        ensures idle { IdleUnlessPlayed result self.new }
    {
        let mut shown = shown;
        for at in from..tables.len() {
            let table = &tables[at];
            let request = Request {
                key: table,
                mode: Mode::SR,
                duration: Duration::Transaction,
            };
            let ticket = match self.get(space, request) {
                LockResult::Had(ticket) => ticket,
                LockResult::Waits(key) => {
                    return Played::Waits(key, Mode::SR, Stage::Select(tables, at, shown));
                }
                LockResult::Ends(ending) => return Played::Ends(ending),
            };
            shown = match self.show(space, shown, table, ticket) {
                Ok(more) => more,
                Err(ending) => return Played::Ends(ending),
            };
        }
        Played::Ends(Ending::Answers(Reply::Columns(shown)))
    }

    /// Shows the table at index `at`, whose lock is held, and then the later ones.
    pub(crate) fn show_next<'s>(
        &mut self,
        space: &mut S,
        shown: TablesShown,
        tables: &'s [Key],
        at: usize,
        ticket: TicketId,
    ) -> Played<'s>
        requires ready { IsReady S.LockSpace space.old self.old }
        ensures run { IsPlayed S.LockSpace (show_next shown (drop at tables.now) ticket) space.old self.old result space.new self.new }
        ensures goes_on { GoesOn S.LockSpace space.old self.old space.new self.new }
        ensures idle { IdleUnlessPlayed result self.new }
    {
        if at >= tables.len() {
            return Played::Ends(Ending::Answers(Reply::Columns(shown)));
        }
        match self.show(space, shown, &tables[at], ticket) {
            Ok(more) => self.show_from(space, more, tables, at + 1),
            Err(ending) => Played::Ends(ending),
        }
    }

    /// Writes to a table.
    pub(crate) fn write<'s>(
        &mut self,
        space: &mut S,
        table: &'s Key,
        priority: Priority,
    ) -> Played<'s>
        requires ready { IsReady S.LockSpace space.old self.old }
        ensures run { IsPlayed S.LockSpace (write table.now priority) space.old self.old result space.new self.new }
        ensures goes_on { GoesOn S.LockSpace space.old self.old space.new self.new }
        ensures idle { IdleUnlessPlayed result self.new }
    {
        if self.explicit.has_locked() {
            return self.write_locked(space, table);
        }
        if self.explicit.has_read_lock() {
            return Played::Ends(failing(ErrorNumber::ConflictingReadLock));
        }
        self.lock_writes(space, table, priority)
    }

    /// Writes to a table that is locked already.
    fn write_locked<'s>(&mut self, space: &mut S, table: &Key) -> Played<'s>
        requires ready { IsReady S.LockSpace space.old self.old }
        ensures run { IsPlayed S.LockSpace (write_locked table.now) space.old self.old result space.new self.new }
        ensures goes_on { GoesOn S.LockSpace space.old self.old space.new self.new }
        ensures idle { IdleUnlessPlayed result self.new }
    {
        let Some(locked) = self.explicit.find(table) else {
            return Played::Ends(failing(ErrorNumber::TableNotLocked));
        };
        if !locked.may_write {
            return Played::Ends(failing(ErrorNumber::TableLockedForRead));
        }
        self.wrote(space)
    }

    /// Gets the GLOBAL lock, and writes to a table.
    fn lock_writes<'s>(&mut self, space: &mut S, table: &'s Key, priority: Priority) -> Played<'s>
        requires ready { IsReady S.LockSpace space.old self.old }
        ensures run { IsPlayed S.LockSpace (lock_writes table.now priority) space.old self.old result space.new self.new }
        ensures goes_on { GoesOn S.LockSpace space.old self.old space.new self.new }
        ensures idle { IdleUnlessPlayed result self.new }
    {
        let writes = Key::global(self.alloc);
        let request = Request {
            key: &writes,
            mode: Mode::IX,
            duration: Duration::Statement,
        };
        match self.get(space, request) {
            LockResult::Had(_) => self.lock_and_write(space, table, priority),
            LockResult::Waits(key) => Played::Waits(
                key,
                Mode::IX,
                Stage::Write(Writing::Global(table, priority)),
            ),
            LockResult::Ends(ending) => Played::Ends(ending),
        }
    }

    /// Locks a table and writes to it, under the GLOBAL lock.
    pub(crate) fn lock_and_write<'s>(
        &mut self,
        space: &mut S,
        table: &'s Key,
        priority: Priority,
    ) -> Played<'s>
        requires ready { IsReady S.LockSpace space.old self.old }
        ensures run { IsPlayed S.LockSpace (lock_and_write table.now priority) space.old self.old result space.new self.new }
        ensures goes_on { GoesOn S.LockSpace space.old self.old space.new self.new }
        ensures idle { IdleUnlessPlayed result self.new }
    {
        let mode = write_mode(priority);
        let request = Request {
            key: table,
            mode,
            duration: Duration::Transaction,
        };
        match self.get(space, request) {
            LockResult::Had(ticket) => self.write_under(space, ticket),
            LockResult::Waits(key) => Played::Waits(key, mode, Stage::Write(Writing::Table)),
            LockResult::Ends(ending) => Played::Ends(ending),
        }
    }

    /// Writes to a table under its lock.
    pub(crate) fn write_under<'s>(&mut self, space: &mut S, ticket: TicketId) -> Played<'s>
        requires ready { IsReady S.LockSpace space.old self.old }
        ensures run { IsPlayed S.LockSpace (write_under ticket) space.old self.old result space.new self.new }
        ensures goes_on { GoesOn S.LockSpace space.old self.old space.new self.new }
        ensures idle { IdleUnlessPlayed result self.new }
    {
        match self.exists(space, ticket) {
            Ok(_) => self.wrote(space),
            Err(ending) => Played::Ends(ending),
        }
    }

    /// Notes that the transaction wrote, or commits a write that is a transaction of its own.
    fn wrote<'s>(&mut self, space: &mut S) -> Played<'s>
        requires ready { IsReady S.LockSpace space.old self.old }
        ensures run { IsPlayed S.LockSpace wrote space.old self.old result space.new self.new }
        ensures goes_on { GoesOn S.LockSpace space.old self.old space.new self.new }
        ensures idle { IdleUnlessPlayed result self.new }
    {
        if self.is_open {
            self.has_written = true;
            return Played::Ends(Ending::Answers(Reply::Ok));
        }
        match self.commit_writes(space) {
            LockResult::Had(()) => Played::Ends(Ending::Answers(Reply::Ok)),
            LockResult::Waits(key) => Played::Waits(key, Mode::IX, Stage::Write(Writing::Commit)),
            LockResult::Ends(ending) => Played::Ends(ending),
        }
    }

    /// Continues once the awaited lock is held.
    pub(crate) fn go_on_writing<'s>(
        &mut self,
        space: &mut S,
        at: Writing<'s>,
        ticket: TicketId,
    ) -> Played<'s>
        requires ready { IsReady S.LockSpace space.old self.old }
        ensures run { IsPlayed S.LockSpace (rest_of_writing at.entry ticket) space.old self.old result space.new self.new }
        ensures goes_on { GoesOn S.LockSpace space.old self.old space.new self.new }
        ensures idle { IdleUnlessPlayed result self.new }
    {
        match at {
            Writing::Global(table, priority) => self.lock_and_write(space, table, priority),
            Writing::Table => self.write_under(space, ticket),
            Writing::Commit => {
                self.end_under(space, ticket);
                Played::Ends(Ending::Answers(Reply::Ok))
            }
        }
    }
}

/// The mode of a write.
fn write_mode(priority: Priority) -> Mode
    ensures { result ≡ write_mode priority }
{
    match priority {
        Priority::Normal => Mode::SW,
        Priority::Low => Mode::SWLP,
    }
}
