//! Sessions execute their lines, and then release all that they have.
ghost use Rattle.std.specs.Prelude.{◌≡◌, map, None, Some, IfOk, OnErr};
ghost use Rattle.mdl_calls.specs.Words.{HasNothing, Runs};
ghost use Rattle.mdl_context.specs.Contexts.{LeavesOthers};
ghost use Rattle.mdl_rows.specs.SessionPins.{PinsNothing};
ghost use Rattle.mdl_stmt.specs.Attendance.{IsCapacity, cached};
ghost use Rattle.mdl_work.specs.Paces.{answers_in};
ghost use Rattle.mdl_work.specs.Works.{RunsFromEmpty, lines_of_session, newcomer, working_off};

use crate::Gate;
use crate::worker::Worker;
use mdl_space::LockSpace;
use mdl_stmt::Reply;
use mdl_syntax::{Line, Script};
use std::alloc::{AllocError, Global};

/// Executes a session's lines of a script, one statement after the other, over any lock space in which the session has no ticket and no
/// wait.
///
/// If a statement waits, the session looks at the wait up to `patience` times before the wait times out. Returns the answer to each
/// statement with the number of its line. At the end the session releases all that it has.
///
/// The session has a cache of its own, which keeps at most `cache` definitions.
///
/// If memory runs out, for that cache, in a statement or to keep its answer, no further statement is started, the session releases all
/// that it has, and its answers are lost.
pub fn work<S: LockSpace, G: Gate>(
    alloc: Global,
    space: &mut S,
    who: u16,
    script: &Script,
    patience: u32,
    cache: u16,
    gate: &G,
) -> Result<Vec<(u64, Reply)>, AllocError>
    requires capacity { IsCapacity cache }
    requires speaks { S.speaks_for space.old who }
    requires nothing { HasNothing (S.own space.old who) }
    ensures answered { IfOk result (λ answers. Runs S.joins space.old (working_off patience (lines_of_session who script.now) (newcomer who)) (Some answers.items) space.new) }
    ensures starved { OnErr result (Runs S.joins space.old (working_off patience (lines_of_session who script.now) (newcomer who)) None space.new) }
    ensures reads { RunsFromEmpty (cached S.LockSpace) cache space.old (working_off patience (lines_of_session who script.now) (newcomer who)) (answers_in result) space.new }
    ensures lines { IfOk result (λ answers. map (λ answer. answer.0) answers.items ≡ map (λ line. line.number) (lines_of_session who script.now)) }
    ensures nothing { HasNothing (S.own space.new who) }
    ensures pins { PinsNothing S.LockSpace space.old who → PinsNothing S.LockSpace space.new who }
    ensures speaks { S.speaks_for space.new who }
    ensures others { LeavesOthers S.LockSpace who space.old space.new }
{
    work_lines(alloc, space, who, script.lines(), patience, cache, gate)
}

/// Does the same as [`work`] for the session's own lines among `lines`. Lines of other sessions are skipped.
pub fn work_lines<S: LockSpace, G: Gate>(
    alloc: Global,
    space: &mut S,
    who: u16,
    lines: &[Line],
    patience: u32,
    cache: u16,
    gate: &G,
) -> Result<Vec<(u64, Reply)>, AllocError>
    requires capacity { IsCapacity cache }
    requires speaks { S.speaks_for space.old who }
    requires nothing { HasNothing (S.own space.old who) }
    ensures answered { IfOk result (λ answers. Runs S.joins space.old (working_off patience (lines_of_session who lines.now) (newcomer who)) (Some answers.items) space.new) }
    ensures starved { OnErr result (Runs S.joins space.old (working_off patience (lines_of_session who lines.now) (newcomer who)) None space.new) }
    ensures reads { RunsFromEmpty (cached S.LockSpace) cache space.old (working_off patience (lines_of_session who lines.now) (newcomer who)) (answers_in result) space.new }
    ensures lines { IfOk result (λ answers. map (λ answer. answer.0) answers.items ≡ map (λ line. line.number) (lines_of_session who lines.now)) }
    ensures nothing { HasNothing (S.own space.new who) }
    ensures pins { PinsNothing S.LockSpace space.old who → PinsNothing S.LockSpace space.new who }
    ensures speaks { S.speaks_for space.new who }
    ensures others { LeavesOthers S.LockSpace who space.old space.new }
{
    let mut worker = Worker::new(alloc, who, patience, cache)?;
    let answers = worker.answer_lines(alloc, space, lines, gate);
    worker.leave(space);
    answers
}
