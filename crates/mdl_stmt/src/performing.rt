//! How statements are performed, continued and ended.
ghost use Rattle.std.specs.Prelude.{◌≡◌, None, Ok};
ghost use Rattle.mdl_calls.specs.Words.{Runs};
ghost use Rattle.mdl_stmt.specs.Attendance.{GoesOn, IsReady, cached};
ghost use Rattle.mdl_context.specs.Releases.{releasing_tickets};
ghost use Rattle.mdl_rows.specs.Endings.{closing, gone_at};
ghost use Rattle.mdl_stmt.specs.Gets.{at_rest, ran, IsPlayed, IdleUnlessPlayed};
ghost use Rattle.mdl_stmt.specs.Stages.{rest_of};
ghost use Rattle.mdl_rows.specs.Statements.{row_of, ddl_first, after_commit};

use crate::got::Played;
use crate::player::Player;
use crate::reading::failing;
use crate::stage::Stage;
use crate::{ErrorNumber, OutOfMemory, Progress, Reply};
use mdl_context::Mark;
use mdl_rows::Ending;
use mdl_space::{LockSpace, TicketId};
use mdl_syntax::Statement;

impl<S: LockSpace> Player<S> {
    /// Performs a statement, up to its end or to a wait.
    pub(crate) fn perform<'s>(&mut self, space: &mut S, statement: &'s Statement) -> Played<'s>
        requires ready { IsReady S.LockSpace space.old self.old }
        ensures run { IsPlayed S.LockSpace (row_of statement.now) space.old self.old result space.new self.new }
        ensures goes_on { GoesOn S.LockSpace space.old self.old space.new self.new }
        ensures idle { IdleUnlessPlayed result self.new }
    {
        match statement {
            Statement::Begin => self.commit_first(space, statement),
            Statement::Commit => self.commit_first(space, statement),
            Statement::CreateTable { .. } => self.define(space, statement),
            Statement::CreateSchema(_) => self.define(space, statement),
            Statement::DropTables(_) => self.define(space, statement),
            Statement::DropSchema(_) => self.define(space, statement),
            Statement::RenameTable { .. } => self.define(space, statement),
            Statement::AlterTable(alteration) => {
                self.alter_first(space, &alteration.table, statement)
            }
            Statement::LockTables(tables) => self.lock_first(space, statement, tables),
            Statement::Rollback => {
                self.rollback(space);
                Played::Ends(Ending::Answers(Reply::Ok))
            }
            Statement::Savepoint(name) => Played::Ends(self.save(space, name)),
            Statement::RollbackTo(name) => Played::Ends(self.rollback_to(space, name)),
            Statement::Select(tables) => self.select(space, tables.as_slice()),
            Statement::Write { table, priority } => self.write(space, table, *priority),
            Statement::UnlockTables => Played::Ends(self.unlock(space)),
            Statement::FlushTablesWithReadLock => self.flush(space, statement),
            Statement::KillQuery(target) => {
                self.kill(space, *target);
                Played::Ends(Ending::Answers(Reply::Ok))
            }
            Statement::Timeout => Played::Ends(Ending::Answers(Reply::Ok)),
            Statement::GetLock(name) => self.get_lock(space, name),
            Statement::ReleaseLock(name) => Played::Ends(self.release_lock(space, name)),
        }
    }

    // Performs a statement that changes definitions. It is refused if the session has the global read lock or locked
    // tables, and commits an open transaction first.
    fn define<'s>(&mut self, space: &mut S, statement: &'s Statement) -> Played<'s>
        requires ready { IsReady S.LockSpace space.old self.old }
        ensures run { IsPlayed S.LockSpace (ddl_first (after_commit statement.now)) space.old self.old result space.new self.new }
        ensures goes_on { GoesOn S.LockSpace space.old self.old space.new self.new }
        ensures idle { IdleUnlessPlayed result self.new }
    {
        if self.explicit.has_read_lock() {
            return Played::Ends(failing(ErrorNumber::ConflictingReadLock));
        }
        if self.explicit.has_locked() {
            return Played::Ends(failing(ErrorNumber::ActiveLocks));
        }
        self.commit_first(space, statement)
    }

    /// Continues a statement whose wait was granted, up to its end or to the next wait.
    pub(crate) fn proceed<'s>(
        &mut self,
        space: &mut S,
        stage: Stage<'s>,
        ticket: TicketId,
    ) -> Played<'s>
        requires ready { IsReady S.LockSpace space.old self.old }
        ensures run { IsPlayed S.LockSpace (rest_of stage.entry ticket) space.old self.old result space.new self.new }
        ensures goes_on { GoesOn S.LockSpace space.old self.old space.new self.new }
        ensures idle { IdleUnlessPlayed result self.new }
    {
        match stage {
            Stage::Commit(statement) => {
                self.end_under(space, ticket);
                self.after_commit(space, statement)
            }
            Stage::Select(tables, at, shown) => self.show_next(space, shown, tables, at, ticket),
            Stage::Write(at) => self.go_on_writing(space, at, ticket),
            Stage::Create(at) => self.go_on_creating(space, at, ticket),
            Stage::CreateSchema(at) => self.go_on_creating_schema(space, at, ticket),
            Stage::Drop(at) => self.go_on_dropping(space, at, ticket),
            Stage::DropSchema(at) => self.go_on_dropping_schema(space, at, ticket),
            Stage::Rename { from, to, at } => self.go_on_renaming(space, from, to, at, ticket),
            Stage::Flush(at) => self.go_on_flushing(space, at, ticket),
            Stage::Alter(alteration, at) => self.go_on_altering(space, alteration, at, ticket),
            Stage::Lock(tables, at) => self.go_on_locking(space, tables, at, ticket),
            Stage::GetLock => Played::Ends(Ending::Answers(Reply::Number(true))),
        }
    }

    /// Ends a statement.
    pub(crate) fn close(
        &mut self,
        space: &mut S,
        ending: Ending,
        mark: Mark,
    ) -> Result<Progress, OutOfMemory>
        requires ready { IsReady S.LockSpace space.old self.old }
        ensures run { Runs (cached S.LockSpace) (space.old, self.old.cache) (closing ending mark (at_rest self.old)) (ran result (at_rest self.new)) (space.new, self.new.cache) }
        ensures goes_on { GoesOn S.LockSpace space.old self.old space.new self.new }
        ensures idle { self.new.context.wait ≡ None }
    {
        self.drop_half(space, &ending);
        self.let_go(space, &ending, mark);
        match ending {
            Ending::Answers(reply) => Ok(Progress::Done(reply)),
            Ending::Misses(number) => Ok(Progress::Done(Reply::Error(number))),
            Ending::Falls => {
                self.is_open = false;
                self.has_written = false;
                self.savepoints.clear();
                Ok(Progress::Done(Reply::Error(ErrorNumber::Deadlock)))
            }
            Ending::Starves => Err(OutOfMemory),
        }
    }

    /// Releases the tickets that the end of a statement releases.
    fn let_go(&mut self, space: &mut S, ending: &Ending, mark: Mark)
        requires ready { IsReady S.LockSpace space.old self.old }
        ensures run { Runs S.joins space.old (releasing_tickets (gone_at ending.now self.old.state.is_open mark self.old.context.kept) self.old.context) (Ok tt, self.new.context) space.new }
        ensures goes_on { GoesOn S.LockSpace space.old self.old space.new self.new }
        ensures idle { self.new.context.wait ≡ None }
        ensures state { self.new.state ≡ self.old.state }
        ensures cache { self.new.cache ≡ self.old.cache }
    {
        match ending {
            Ending::Answers(_) if self.is_open => self.context.finish_statement(space),
            Ending::Misses(_) | Ending::Starves if self.is_open => {
                self.context.return_to(space, mark)
            }
            _ => self.context.finish_transaction(space),
        }
    }
}
