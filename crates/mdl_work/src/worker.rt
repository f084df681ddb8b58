//! A session that executes its lines.
ghost use Rattle.std.specs.Prelude.{◌≡◌, [], map, None, IsSome, IfOk, OnOk};
ghost use Rattle.mdl_calls.specs.Words.{HasNothing, Runs};
ghost use Rattle.mdl_context.specs.Contexts.{Attends, LeavesOthers};
ghost use Rattle.mdl_stmt.specs.Attendance.{AttendsWith, IsCapacity, cached};
ghost use Rattle.mdl_stmt.specs.Gets.{paused, ran};
ghost use Rattle.mdl_rows.specs.Leavings.{leaving};
ghost use Rattle.mdl_stmt.specs.Stages.{session_of};
ghost use Rattle.mdl_work.specs.Paces.{LeftWhileWaiting, came_to, worked_as};
ghost use Rattle.mdl_work.specs.Works.{finishing, going_further, lines_of_session, making, most_waits, newcomer, working};

use crate::Gate;
use crate::waiting::wait_out;
use mdl_key::MOST_PLACES;
use mdl_space::LockSpace;
use mdl_stmt::{OutOfMemory, Progress, Reply, Runner};
use mdl_syntax::{Line, Statement};
use std::alloc::{AllocError, Global};

/// A bound on how often a statement can begin to wait: 261 times, once for each place and five times more.
pub const MOST_WAITS: u16 = 1 + 4 + MOST_PLACES;

/// A session, its number, and how often it looks at a wait before the wait times out.
#[derive(Drop)]
pub(crate) struct Worker<'s, S: LockSpace> {
    runner: Runner<'s, S>,
    who: u16,
    patience: u32,
}

impl<'s, S: LockSpace> Worker<'s, S> {
    /// Returns a session that has not been asked for anything. Takes memory for its cache, which is empty.
    pub(crate) fn new(
        alloc: Global,
        who: u16,
        patience: u32,
        cache: u16,
    ) -> Result<Worker<'s, S>, OutOfMemory>
        requires capacity { IsCapacity cache }
        ensures session { IfOk result (λ worker. session_of worker.runner ≡ newcomer who) }
        ensures idle { IfOk result (λ worker. worker.runner.work ≡ None) }
        ensures cache { IfOk result (λ worker. worker.runner.cache ≡ record { kept = []; capacity = cache }) }
        ensures who { IfOk result (λ worker. worker.who ≡ who) }
        ensures patience { IfOk result (λ worker. worker.patience ≡ patience) }
    {
        let runner = Runner::new(alloc, who, cache)?;
        Ok(Worker {
            runner,
            who,
            patience,
        })
    }

    /// Executes the session's statements among these lines, in order, and returns the answers, each with the number of its line.
    pub(crate) fn answer_lines<G: Gate>(
        &mut self,
        alloc: Global,
        space: &mut S,
        lines: &'s [Line],
        gate: &G,
    ) -> Result<Vec<(u64, Reply)>, AllocError>
        requires attends { AttendsWith S.LockSpace space.old self.old.runner.context self.old.runner.cache }
        requires who { self.old.runner.context.who ≡ self.old.who }
        requires idle { self.old.runner.work ≡ None }
        ensures run { Runs (cached S.LockSpace) (space.old, self.old.runner.cache) (working self.old.patience (lines_of_session self.old.who lines.now) (session_of self.old.runner)) (worked_as result (session_of self.new.runner)) (space.new, self.new.runner.cache) }
        ensures lines { IfOk result (λ answers. map (λ answer. answer.0) answers.items ≡ map (λ line. line.number) (lines_of_session self.old.who lines.now)) }
        ensures attends { AttendsWith S.LockSpace space.new self.new.runner.context self.new.runner.cache }
        ensures others { LeavesOthers S.LockSpace self.old.who space.old space.new }
        ensures who { self.new.runner.context.who ≡ self.old.who }
    {
        let mut answers = Vec::new(alloc);
        for line in lines {
            if line.session == self.who {
                gate.before(self.who, line.number);
                let reply = self.answer(space, &line.statement);
                gate.after(self.who, line.number);
                answers.push((line.number, reply?))?;
            }
        }
        Ok(answers)
    }

    /// Ends the session, and releases all that it has. Takes no memory.
    pub(crate) fn leave(self, space: &mut S)
        requires attends { Attends S.LockSpace space.old self.runner.context }
        ensures run { Runs S.joins space.old (leaving (session_of self.entry.runner)) tt space.new }
        ensures nothing { HasNothing (S.own space.new self.entry.runner.context.who) }
        ensures speaks { S.speaks_for space.new self.entry.runner.context.who }
        ensures others { LeavesOthers S.LockSpace self.entry.runner.context.who space.old space.new }
    {
        self.runner.leave(space);
    }

    /// Executes a statement to its end, waits included.
    fn answer(&mut self, space: &mut S, statement: &'s Statement) -> Result<Reply, OutOfMemory>
        requires attends { AttendsWith S.LockSpace space.old self.old.runner.context self.old.runner.cache }
        requires who { self.old.runner.context.who ≡ self.old.who }
        requires idle { self.old.runner.work ≡ None }
        ensures run { Runs (cached S.LockSpace) (space.old, self.old.runner.cache) (making self.old.patience statement.now (session_of self.old.runner))
            (came_to result (session_of self.new.runner)) (space.new, self.new.runner.cache) }
        ensures attends { AttendsWith S.LockSpace space.new self.new.runner.context self.new.runner.cache }
        ensures others { LeavesOthers S.LockSpace self.old.who space.old space.new }
        ensures who { self.new.runner.context.who ≡ self.old.who }
        ensures idle { OnOk result (self.new.runner.work ≡ None) }
        ensures same { self.new.who ≡ self.old.who }
        ensures patience { self.new.patience ≡ self.old.patience }
    {
        let progress = self.runner.start(space, statement)?;
        self.finish(space, progress)
    }

    /// Continues a statement until its end. One that still waits after [`MOST_WAITS`] waits fails as if memory had run out.
    fn finish(&mut self, space: &mut S, progress: Progress) -> Result<Reply, OutOfMemory>
        requires attends { AttendsWith S.LockSpace space.old self.old.runner.context self.old.runner.cache }
        requires who { self.old.runner.context.who ≡ self.old.who }
        requires left { LeftWhileWaiting (paused progress (session_of self.old.runner)) }
        ensures run { Runs (cached S.LockSpace) (space.old, self.old.runner.cache) (finishing self.old.patience most_waits (paused progress (session_of self.old.runner)))
            (came_to result (session_of self.new.runner)) (space.new, self.new.runner.cache) }
        ensures attends { AttendsWith S.LockSpace space.new self.new.runner.context self.new.runner.cache }
        ensures others { LeavesOthers S.LockSpace self.old.who space.old space.new }
        ensures who { self.new.runner.context.who ≡ self.old.who }
        ensures idle { OnOk result (self.new.runner.work ≡ None) }
        ensures same { self.new.who ≡ self.old.who }
        ensures patience { self.new.patience ≡ self.old.patience }
    {
        let mut progress = progress;
        for _wait in 0..MOST_WAITS {
            if let Progress::Done(reply) = progress {
                return Ok(reply);
            }
            progress = self.go_further(space)?;
        }
        match progress {
            Progress::Done(reply) => Ok(reply),
            _ => Err(OutOfMemory),
        }
    }

    /// Waits until the wait of a statement is settled, and continues the statement.
    fn go_further(&mut self, space: &mut S) -> Result<Progress, OutOfMemory>
        requires attends { AttendsWith S.LockSpace space.old self.old.runner.context self.old.runner.cache }
        requires who { self.old.runner.context.who ≡ self.old.who }
        requires waits { IsSome self.old.runner.work }
        ensures run { Runs (cached S.LockSpace) (space.old, self.old.runner.cache) (going_further self.old.patience (session_of self.old.runner)) (ran result (session_of self.new.runner)) (space.new, self.new.runner.cache) }
        ensures attends { AttendsWith S.LockSpace space.new self.new.runner.context self.new.runner.cache }
        ensures others { LeavesOthers S.LockSpace self.old.who space.old space.new }
        ensures who { self.new.runner.context.who ≡ self.old.who }
        ensures left { LeftWhileWaiting (ran result (session_of self.new.runner)) }
        ensures same { self.new.who ≡ self.old.who }
        ensures patience { self.new.patience ≡ self.old.patience }
    {
        wait_out(space, self.who, self.patience);
        self.runner.go_on(space)
    }
}
