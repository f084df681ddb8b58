//! Transactions: their beginnings, savepoints and ends.
ghost use Rattle.std.specs.Prelude.{◌≡◌, None, Ok};
ghost use Rattle.mdl_stmt.specs.Attendance.{GoesOn, IsReady};
ghost use Rattle.mdl_stmt.specs.Gets.{IsStep, IsCommitted, IsPlayed, IdleUnlessGot, IdleUnlessPlayed};
ghost use Rattle.mdl_stmt.specs.declared.got.Played.TheVariants as played;
ghost use Rattle.mdl_rows.specs.Statements.{end_transaction, end_under, commit, commit_writes, rollback, save, rollback_to, after_commit, begin_after_commit, commit_first};

use crate::got::{LockResult, Played};
use crate::player::Player;
use crate::stage::Stage;
use crate::{ErrorNumber, Reply};
use mdl_context::Request;
use mdl_key::{Duration, Key, Mode};
use mdl_rows::Ending;
use mdl_space::{LockSpace, TicketId};
use mdl_syntax::{Name, Statement};

impl<S: LockSpace> Player<S> {
    /// Ends the transaction: releases its tickets, and those of the statement.
    pub(crate) fn end_transaction(&mut self, space: &mut S)
        requires ready { IsReady S.LockSpace space.old self.old }
        ensures run { IsStep S.LockSpace end_transaction space.old self.old (Ok tt) space.new self.new }
        ensures goes_on { GoesOn S.LockSpace space.old self.old space.new self.new }
        ensures idle { self.new.context.wait ≡ None }
    {
        self.context.finish_transaction(space);
        self.is_open = false;
        self.has_written = false;
        self.savepoints.clear();
    }

    /// Ends the transaction under the COMMIT lock, and then releases that lock.
    pub(crate) fn end_under(&mut self, space: &mut S, lock: TicketId)
        requires ready { IsReady S.LockSpace space.old self.old }
        ensures run { IsStep S.LockSpace (end_under lock) space.old self.old (Ok tt) space.new self.new }
        ensures goes_on { GoesOn S.LockSpace space.old self.old space.new self.new }
        ensures idle { self.new.context.wait ≡ None }
    {
        self.end_transaction(space);
        let _released = self.context.release(space, lock);
    }

    /// Commits a transaction that wrote.
    pub(crate) fn commit_writes(&mut self, space: &mut S) -> LockResult<()>
        requires ready { IsReady S.LockSpace space.old self.old }
        ensures run { IsCommitted S.LockSpace commit_writes space.old self.old result space.new self.new }
        ensures goes_on { GoesOn S.LockSpace space.old self.old space.new self.new }
        ensures idle { IdleUnlessGot result self.new }
    {
        let key = Key::commit(self.alloc);
        let request = Request {
            key: &key,
            mode: Mode::IX,
            duration: Duration::Explicit,
        };
        match self.get(space, request) {
            LockResult::Had(lock) => {
                self.end_under(space, lock);
                LockResult::Had(())
            }
            LockResult::Waits(key) => LockResult::Waits(key),
            LockResult::Ends(ending) => LockResult::Ends(ending),
        }
    }

    /// Commits an open transaction.
    fn commit(&mut self, space: &mut S) -> LockResult<()>
        requires ready { IsReady S.LockSpace space.old self.old }
        ensures run { IsCommitted S.LockSpace commit space.old self.old result space.new self.new }
        ensures goes_on { GoesOn S.LockSpace space.old self.old space.new self.new }
        ensures idle { IdleUnlessGot result self.new }
    {
        if !self.is_open {
            return LockResult::Had(());
        }
        if self.has_written {
            return self.commit_writes(space);
        }
        self.end_transaction(space);
        LockResult::Had(())
    }

    /// Commits an open transaction, and then performs the rest of the statement.
    pub(crate) fn commit_first<'s>(&mut self, space: &mut S, statement: &'s Statement) -> Played<'s>
        requires ready { IsReady S.LockSpace space.old self.old }
        ensures run { IsPlayed S.LockSpace (commit_first (after_commit statement.now)) space.old self.old result space.new self.new }
        ensures goes_on { GoesOn S.LockSpace space.old self.old space.new self.new }
        ensures idle { IdleUnlessPlayed result self.new }
    {
        match self.commit(space) {
            LockResult::Had(()) => self.after_commit(space, statement),
            LockResult::Waits(key) => Played::Waits(key, Mode::IX, Stage::Commit(statement)),
            LockResult::Ends(ending) => Played::Ends(ending),
        }
    }

    /// Performs the rest of a statement once an open transaction is committed.
    pub(crate) fn after_commit<'s>(&mut self, space: &mut S, statement: &'s Statement) -> Played<'s>
        requires ready { IsReady S.LockSpace space.old self.old }
        ensures run { IsPlayed S.LockSpace (after_commit statement.now) space.old self.old result space.new self.new }
        ensures goes_on { GoesOn S.LockSpace space.old self.old space.new self.new }
        ensures idle { IdleUnlessPlayed result self.new }
    {
        match statement {
            Statement::Begin => Played::Ends(self.begin(space)),
            Statement::CreateTable { table, columns } => self.create(space, table, columns),
            Statement::CreateSchema(name) => self.create_schema(space, name),
            Statement::DropTables(tables) => self.drop_tables(space, tables),
            Statement::DropSchema(name) => self.drop_schema(space, name),
            Statement::RenameTable { from, to } => self.rename(space, from, to),
            Statement::FlushTablesWithReadLock => self.flush_after_commit(space),
            Statement::AlterTable(alteration) => self.alter(space, alteration),
            Statement::LockTables(tables) => self.lock_these(space, tables),
            _ => Played::Ends(Ending::Answers(Reply::Ok)),
        }
    }

    /// Opens a transaction, and releases locked tables.
    fn begin(&mut self, space: &mut S) -> Ending
        requires ready { IsReady S.LockSpace space.old self.old }
        ensures run { IsPlayed S.LockSpace begin_after_commit space.old self.old (played.Ends result) space.new self.new }
        ensures goes_on { GoesOn S.LockSpace space.old self.old space.new self.new }
        ensures idle { self.new.context.wait ≡ None }
    {
        self.unlock_tables(space);
        self.is_open = true;
        Ending::Answers(Reply::Ok)
    }

    /// Rolls back an open transaction.
    pub(crate) fn rollback(&mut self, space: &mut S)
        requires ready { IsReady S.LockSpace space.old self.old }
        ensures run { IsStep S.LockSpace rollback space.old self.old (Ok tt) space.new self.new }
        ensures goes_on { GoesOn S.LockSpace space.old self.old space.new self.new }
        ensures idle { self.new.context.wait ≡ None }
    {
        if self.is_open {
            self.end_transaction(space);
        }
    }

    /// Saves the session's current mark under a name, if a transaction is open.
    pub(crate) fn save(&mut self, space: &mut S, name: &Name) -> Ending
        requires ready { IsReady S.LockSpace space.old self.old }
        ensures run { IsPlayed S.LockSpace (save name.now) space.old self.old (played.Ends result) space.new self.new }
        ensures goes_on { GoesOn S.LockSpace space.old self.old space.new self.new }
        ensures idle { self.new.context.wait ≡ None }
    {
        if !self.is_open {
            return Ending::Answers(Reply::Ok);
        }
        let mark = self.context.savepoint();
        match self.savepoints.save(name, mark) {
            Ok(()) => Ending::Answers(Reply::Ok),
            Err(_) => Ending::Starves,
        }
    }

    /// Goes back to the savepoint of a name.
    pub(crate) fn rollback_to(&mut self, space: &mut S, name: &Name) -> Ending
        requires ready { IsReady S.LockSpace space.old self.old }
        ensures run { IsPlayed S.LockSpace (rollback_to name.now) space.old self.old (played.Ends result) space.new self.new }
        ensures goes_on { GoesOn S.LockSpace space.old self.old space.new self.new }
        ensures idle { self.new.context.wait ≡ None }
    {
        match self.savepoints.go_back(name) {
            Some(mark) => {
                self.context.return_to(space, mark);
                Ending::Answers(Reply::Ok)
            }
            None => Ending::Answers(Reply::Error(ErrorNumber::NoSuchSavepoint)),
        }
    }
}
