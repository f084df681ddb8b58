//! Outcomes of the statements of a session, in any lock space.
ghost use Rattle.mdl_stmt.specs.Attendance.{AttendsWith};

use mdl_calls::LockSpace;
use mdl_stmt::{OutOfMemory, Progress, Reply, Runner, Statement};

/// How many definitions the cache of a session keeps.
pub(crate) const CACHE: u16 = 64;

/// The outcome of a statement, or of continuing one.
#[derive(Clone, Copy, PartialEq)]
pub(crate) enum Outcome {
    Done,
    /// The version of the last table that it read, and the number of its columns.
    Reads(u64, usize),
    /// A truth value.
    Says(bool),
    /// NULL.
    Null,
    Fails(u16),
    /// It begins to wait.
    Waits,
    /// It still waits.
    Pending,
    /// A session that waits starts nothing, and one that doesn't wait has nothing to continue.
    OutOfTurn,
    NoMemory,
}

/// Starts a statement.
pub(crate) fn say<'s, S: LockSpace>(
    space: &mut S,
    runner: &mut Runner<'s, S>,
    statement: &'s Statement,
) -> Outcome
    requires { AttendsWith S.LockSpace space.old runner.old.context runner.old.cache }
    ensures { AttendsWith S.LockSpace space.new runner.new.context runner.new.cache }
{
    if runner.is_waiting() {
        return Outcome::OutOfTurn;
    }
    outcome_of(runner.start(space, statement))
}

/// Continues the statement that waits.
pub(crate) fn go_on<'s, S: LockSpace>(space: &mut S, runner: &mut Runner<'s, S>) -> Outcome
    requires { AttendsWith S.LockSpace space.old runner.old.context runner.old.cache }
    ensures { AttendsWith S.LockSpace space.new runner.new.context runner.new.cache }
{
    if !runner.is_waiting() {
        return Outcome::OutOfTurn;
    }
    outcome_of(runner.go_on(space))
}

fn outcome_of(progress: Result<Progress, OutOfMemory>) -> Outcome {
    let outcome = match &progress {
        Ok(Progress::Done(reply)) => outcome_of_reply(reply),
        Ok(Progress::Waiting(_, _)) => Outcome::Waits,
        Ok(Progress::Pending) => Outcome::Pending,
        Err(_) => Outcome::NoMemory,
    };
    drop(progress);
    outcome
}

fn outcome_of_reply(reply: &Reply) -> Outcome {
    match reply {
        Reply::Ok => Outcome::Done,
        Reply::Error(error) => Outcome::Fails(error.number()),
        Reply::Columns(tables) => match tables.as_slice().last() {
            Some(table) => Outcome::Reads(table.version, table.columns.as_slice().len()),
            None => Outcome::Reads(0, 0),
        },
        Reply::Number(yes) => Outcome::Says(*yes),
        Reply::Null => Outcome::Null,
    }
}
