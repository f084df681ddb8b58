//! The statements of one session, over any lock space, and their outcomes.
ghost use Rattle.std.specs.Prelude.{◌≡◌, IfSome, [], None};
ghost use Rattle.mdl_context.specs.Contexts.{LeavesOthers};
ghost use Rattle.mdl_stmt.specs.Attendance.{AttendsWith};

use mdl_space::LockSpace;
use mdl_stmt::{OutOfMemory, Progress, Reply, Runner};
use mdl_syntax::Statement;
use std::alloc::Global;
use std::mem::drop;

/// The outcome of a statement.
#[derive(Clone, Copy, PartialEq, Eq)]
pub(crate) enum Outcome {
    Done,
    /// The version of the last table that it read.
    Reads(u64),
    /// A truth value.
    Says(bool),
    /// NULL.
    Null,
    Fails(u16),
    Waits,
    Pending,
    NoMemory,
}

// How many definitions the cache of a session keeps.
const CACHE: u16 = 64;

/// Returns a session that has made no statement. Tries a second time if memory runs out.
pub(crate) fn new_runner<'s, S: LockSpace>(alloc: Global, who: u16) -> Option<Runner<'s, S>>
    ensures context { IfSome result (λ runner. runner.context ≡ record { who = who; kept = []; known = []; wait = None }) }
    ensures cache { IfSome result (λ runner. runner.cache.kept ≡ []) }
{
    match Runner::new(alloc, who, CACHE) {
        Ok(runner) => Some(runner),
        Err(_) => Runner::new(alloc, who, CACHE).ok(),
    }
}

/// Starts a statement, or continues the one that waits.
pub(crate) fn play<'s, S: LockSpace>(
    space: &mut S,
    runner: &mut Runner<'s, S>,
    statement: &'s Statement,
) -> Outcome
    requires { AttendsWith S.LockSpace space.old runner.old.context runner.old.cache }
    ensures attends { AttendsWith S.LockSpace space.new runner.new.context runner.new.cache }
    ensures who { runner.new.context.who ≡ runner.old.context.who }
    ensures others { LeavesOthers S.LockSpace runner.old.context.who space.old space.new }
{
    if runner.is_waiting() {
        return outcome_of(runner.go_on(space));
    }
    outcome_of(runner.start(space, statement))
}

fn outcome_of(progress: Result<Progress, OutOfMemory>) -> Outcome {
    let outcome = match &progress {
        Ok(Progress::Done(reply)) => outcome_of_reply(reply),
        Ok(Progress::Waiting(_, _)) => Outcome::Waits,
        Ok(Progress::Pending) => Outcome::Pending,
        Err(_) => Outcome::NoMemory,
    };
    drop(progress);
    outcome
}

// Returns the outcome of a statement with this reply.
fn outcome_of_reply(reply: &Reply) -> Outcome {
    match reply {
        Reply::Ok => Outcome::Done,
        Reply::Error(error) => Outcome::Fails(error.number()),
        Reply::Columns(tables) => match tables.as_slice().last() {
            Some(table) => Outcome::Reads(table.version),
            None => Outcome::Reads(0),
        },
        Reply::Number(yes) => Outcome::Says(*yes),
        Reply::Null => Outcome::Null,
    }
}
