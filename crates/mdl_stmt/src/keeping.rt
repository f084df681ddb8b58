//! Statements of an `OwnedRunner`, of which only a copy of what is left is kept while they wait.
ghost use Rattle.std.specs.Prelude.{◌≡◌, None, Some};
ghost use Rattle.mdl_calls.specs.Words.{Runs};
ghost use Rattle.mdl_stmt.specs.Attendance.{AttendsWith, GoesOn, IsReady, cached};
ghost use Rattle.mdl_rows.specs.Endings.{Begins_to_wait};
ghost use Rattle.mdl_stmt.specs.declared.got.Played.TheVariants.{Ends};
ghost use Rattle.mdl_stmt.specs.Gets.{at_rest, ran, IdleUnlessPlayed};
ghost use Rattle.mdl_rows.specs.Keepings.{going_on_kept, keeping, play_kept, starting_kept};
ghost use Rattle.mdl_stmt.specs.Gets.{IsPlayedOut};
ghost use Rattle.mdl_stmt.specs.KeptStages.{rest_of_kept, rest_of_kept_dropping, rest_of_kept_dropping_schema, session_with};
ghost use Rattle.mdl_rows.specs.Playing.{with_left};
ghost use Rattle.mdl_stmt.specs.Stages.{rest_of};

use crate::got::Played;
use crate::kept_stage::{KeptDropping, KeptDroppingSchema, KeptStage, KeptWork};
use crate::player::{Player, ending_of_error, ending_of_loss};
use crate::stage::{Dropping, DroppingSchema, Stage};
use crate::{OutOfMemory, Progress};
use mdl_context::{Mark, Resume};
use mdl_key::{Key, Mode};
use mdl_rows::Ending;
use mdl_space::{LockSpace, TicketId};
use mdl_syntax::Statement;
use std::mem::drop;

/// How far a statement has come, and what is left of it if it waits.
#[derive(Drop)]
pub struct StartedStatement {
    pub(crate) progress: Result<Progress, OutOfMemory>,
    pub(crate) work: Option<KeptWork>,
}

impl<S: LockSpace> Player<S> {
    /// Starts a statement.
    pub(crate) fn start_kept(&mut self, space: &mut S, statement: &Statement) -> StartedStatement
        requires ready { IsReady S.LockSpace space.old self.old }
        ensures run { Runs (cached S.LockSpace) (space.old, self.old.cache) (starting_kept statement.now (at_rest self.old)) (ran result.progress (session_with self.new result.work)) (space.new, self.new.cache) }
        ensures goes_on { GoesOn S.LockSpace space.old self.old space.new self.new }
        ensures idle { result.work ≡ None → self.new.context.wait ≡ None }
    {
        let mark = self.context.savepoint();
        let played = self.perform(space, statement);
        self.settle(space, played, mark)
    }

    /// Continues a waiting statement.
    pub(crate) fn go_on_kept(&mut self, space: &mut S, work: KeptWork) -> StartedStatement
        requires attends { AttendsWith S.LockSpace space.old self.old.context self.old.cache }
        ensures run { Runs (cached S.LockSpace) (space.old, self.old.cache) (going_on_kept (session_with self.old (Some work))) (ran result.progress (session_with self.new result.work)) (space.new, self.new.cache) }
        ensures goes_on { GoesOn S.LockSpace space.old self.old space.new self.new }
        ensures idle { result.work ≡ None → self.new.context.wait ≡ None }
    {
        let user = self.context.waits_for_user_lock();
        match self.context.resume(space) {
            Ok(Resume::Waiting) => StartedStatement {
                progress: Ok(Progress::Pending),
                work: Some(work),
            },
            Ok(Resume::Acquired(ticket)) => self.proceed_kept(space, work, ticket),
            Ok(Resume::Lost(how)) => self.end_kept(space, ending_of_loss(user, how), work),
            Err(error) => self.end_kept(space, ending_of_error(error), work),
        }
    }

    // Ends a statement that waited. What was kept of it is dropped by a call, here and below: a drop in place has an arm for each variant, which the
    // prover follows.
    fn end_kept(&mut self, space: &mut S, ending: Ending, work: KeptWork) -> StartedStatement
        requires ready { IsReady S.LockSpace space.old self.old }
        ensures run { IsPlayedOut S.LockSpace (Ends ending) work.mark space.old self.old result space.new self.new }
        ensures goes_on { GoesOn S.LockSpace space.old self.old space.new self.new }
        ensures idle { self.new.context.wait ≡ None }
    {
        let mark = work.mark;
        drop(work);
        self.end_turn(space, ending, mark)
    }

    // Ends a statement.
    fn end_turn(&mut self, space: &mut S, ending: Ending, mark: Mark) -> StartedStatement
        requires ready { IsReady S.LockSpace space.old self.old }
        ensures run { IsPlayedOut S.LockSpace (Ends ending) mark space.old self.old result space.new self.new }
        ensures goes_on { GoesOn S.LockSpace space.old self.old space.new self.new }
        ensures idle { self.new.context.wait ≡ None }
    {
        StartedStatement {
            progress: self.close(space, ending, mark),
            work: None,
        }
    }

    // Continues a statement whose wait was granted.
    fn proceed_kept(&mut self, space: &mut S, work: KeptWork, ticket: TicketId) -> StartedStatement
        requires ready { IsReady S.LockSpace space.old self.old }
        ensures run { Runs (cached S.LockSpace) (space.old, self.old.cache) (play_kept (rest_of_kept work.stage ticket) work.mark (at_rest self.old)) (ran result.progress (session_with self.new result.work)) (space.new, self.new.cache) }
        ensures goes_on { GoesOn S.LockSpace space.old self.old space.new self.new }
        ensures idle { result.work ≡ None → self.new.context.wait ≡ None }
    {
        let KeptWork { stage, mark } = work;
        match stage {
            KeptStage::Commit(statement) => {
                let turn = self.proceed_at(space, Stage::Commit(&statement), ticket, mark);
                drop(statement);
                turn
            }
            KeptStage::Select(tables, at, shown) => {
                self.proceed_at(space, Stage::Select(&tables, at, shown), ticket, mark)
            }
            KeptStage::Write(at) => self.proceed_at(space, Stage::Write(at.lend()), ticket, mark),
            KeptStage::Create(at) => {
                let turn = self.proceed_at(space, Stage::Create(at.lend()), ticket, mark);
                drop(at);
                turn
            }
            KeptStage::CreateSchema(at) => {
                self.proceed_at(space, Stage::CreateSchema(at.lend()), ticket, mark)
            }
            KeptStage::Drop(at) => self.proceed_dropping(space, at, ticket, mark),
            KeptStage::DropSchema(at) => self.proceed_dropping_schema(space, at, ticket, mark),
            KeptStage::Rename { from, to, at } => {
                let (from, to) = (&from, &to);
                self.proceed_at(space, Stage::Rename { from, to, at }, ticket, mark)
            }
            KeptStage::Flush(at) => self.proceed_at(space, Stage::Flush(at), ticket, mark),
            KeptStage::Alter(alteration, at) => {
                let turn = self.proceed_at(space, Stage::Alter(&alteration, at), ticket, mark);
                drop(alteration);
                turn
            }
            KeptStage::Lock(tables, at) => {
                let turn = self.proceed_at(space, Stage::Lock(&tables, at), ticket, mark);
                drop(tables);
                turn
            }
            KeptStage::GetLock => self.proceed_at(space, Stage::GetLock, ticket, mark),
        }
    }

    // Continues DROP TABLE.
    fn proceed_dropping(
        &mut self,
        space: &mut S,
        at: KeptDropping,
        ticket: TicketId,
        mark: Mark,
    ) -> StartedStatement
        requires ready { IsReady S.LockSpace space.old self.old }
        ensures run { Runs (cached S.LockSpace) (space.old, self.old.cache) (play_kept (rest_of_kept_dropping at ticket) mark (at_rest self.old)) (ran result.progress (session_with self.new result.work)) (space.new, self.new.cache) }
        ensures goes_on { GoesOn S.LockSpace space.old self.old space.new self.new }
        ensures idle { result.work ≡ None → self.new.context.wait ≡ None }
    {
        match at {
            KeptDropping::Scopes(tables, locks) => {
                let at = Dropping::Scopes(&tables, locks);
                self.proceed_at(space, Stage::Drop(at), ticket, mark)
            }
            KeptDropping::Tables(locks) => {
                self.proceed_at(space, Stage::Drop(Dropping::Tables(locks)), ticket, mark)
            }
        }
    }

    // Continues DROP SCHEMA.
    fn proceed_dropping_schema(
        &mut self,
        space: &mut S,
        at: KeptDroppingSchema,
        ticket: TicketId,
        mark: Mark,
    ) -> StartedStatement
        requires ready { IsReady S.LockSpace space.old self.old }
        ensures run { Runs (cached S.LockSpace) (space.old, self.old.cache) (play_kept (rest_of_kept_dropping_schema at ticket) mark (at_rest self.old)) (ran result.progress (session_with self.new result.work)) (space.new, self.new.cache) }
        ensures goes_on { GoesOn S.LockSpace space.old self.old space.new self.new }
        ensures idle { result.work ≡ None → self.new.context.wait ≡ None }
    {
        match at {
            KeptDroppingSchema::Global(name) => {
                let at = DroppingSchema::Global(&name);
                self.proceed_at(space, Stage::DropSchema(at), ticket, mark)
            }
            KeptDroppingSchema::Schema(name) => {
                let at = DroppingSchema::Schema(&name);
                self.proceed_at(space, Stage::DropSchema(at), ticket, mark)
            }
            KeptDroppingSchema::Tables(schema, locks) => {
                let at = DroppingSchema::Tables(schema, locks);
                self.proceed_at(space, Stage::DropSchema(at), ticket, mark)
            }
        }
    }

    // Continues a statement at a stage.
    fn proceed_at(
        &mut self,
        space: &mut S,
        stage: Stage<'_>,
        ticket: TicketId,
        mark: Mark,
    ) -> StartedStatement
        requires ready { IsReady S.LockSpace space.old self.old }
        ensures run { Runs (cached S.LockSpace) (space.old, self.old.cache) (play_kept (rest_of stage.entry ticket) mark (at_rest self.old)) (ran result.progress (session_with self.new result.work)) (space.new, self.new.cache) }
        ensures goes_on { GoesOn S.LockSpace space.old self.old space.new self.new }
        ensures idle { result.work ≡ None → self.new.context.wait ≡ None }
    {
        let played = self.proceed(space, stage, ticket);
        self.settle(space, played, mark)
    }

    /// Ends a statement, or if it waits, keeps a copy of what is left of it.
    pub(crate) fn settle(
        &mut self,
        space: &mut S,
        played: Played<'_>,
        mark: Mark,
    ) -> StartedStatement
        requires attends { AttendsWith S.LockSpace space.old self.old.context self.old.cache }
        requires idle { IdleUnlessPlayed played self.old }
        ensures run { IsPlayedOut S.LockSpace played.entry mark space.old self.old result space.new self.new }
        ensures goes_on { GoesOn S.LockSpace space.old self.old space.new self.new }
        ensures idle { result.work ≡ None → self.new.context.wait ≡ None }
    {
        match played {
            Played::Ends(ending) => self.end_turn(space, ending, mark),
            Played::Waits(key, mode, stage) => self.keep_wait(space, key, mode, stage, mark),
        }
    }

    // Keeps a copy of what is left of a waiting statement, or gives up the wait if memory runs out for that.
    fn keep_wait(
        &mut self,
        space: &mut S,
        key: Key,
        mode: Mode,
        stage: Stage<'_>,
        mark: Mark,
    ) -> StartedStatement
        requires attends { AttendsWith S.LockSpace space.old self.old.context self.old.cache }
        ensures run { Runs (cached S.LockSpace) (space.old, self.old.cache) (keeping (Begins_to_wait key mode (with_left (at_rest self.old) (record { rest = rest_of stage.entry; mark = mark }))))
            (ran result.progress (session_with self.new result.work)) (space.new, self.new.cache) }
        ensures goes_on { GoesOn S.LockSpace space.old self.old space.new self.new }
        ensures idle { result.work ≡ None → self.new.context.wait ≡ None }
    {
        match KeptStage::keep(self.alloc, stage) {
            Ok(stage) => StartedStatement {
                progress: Ok(Progress::Waiting(key, mode)),
                work: Some(KeptWork { stage, mark }),
            },
            Err(_) => {
                self.drop_wait(space);
                StartedStatement {
                    progress: self.close(space, Ending::Starves, mark),
                    work: None,
                }
            }
        }
    }
}
