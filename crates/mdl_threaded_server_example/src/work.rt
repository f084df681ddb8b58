//! The requests of a session, one after the other.
ghost use Rattle.std.specs.Prelude.{◌≡◌, IsSome};
ghost use Rattle.mdl.specs.mdl_stmt.Attendance.{AttendsWith};

use crate::requests::Request;
use crate::telling::push_progress;
use mdl::lines::Fault;
use mdl::stmt::OutOfMemory;
use mdl::{LockSpace, OwnedRunner, Progress, parse};
use std::alloc::{AllocError, Global};
use std::thread;

// How often a session looks at a wait before that times out.
const PATIENCE: u32 = 1_000_000;

/// Answers those of the requests that are for this session.
pub fn answer_all<S: LockSpace>(
    alloc: Global,
    space: &mut S,
    runner: &mut OwnedRunner<S>,
    who: u16,
    requests: &[Request<'_>],
    text: &mut String,
) -> Result<(), AllocError>
    requires attends { AttendsWith S.LockSpace space.old runner.old.context runner.old.cache }
    requires who { runner.old.context.who ≡ who }
    ensures attends { AttendsWith S.LockSpace space.new runner.new.context runner.new.cache }
    ensures who { runner.new.context.who ≡ who }
{
    for request in requests {
        if request.session == who {
            write!(text, "session {who}, line {}: ", request.number)?;
            answer(alloc, space, runner, who, request.line, text)?;
        }
    }
    Ok(())
}

// Answers a request. Its statement has been dropped when the session waits.
fn answer<S: LockSpace>(
    alloc: Global,
    space: &mut S,
    runner: &mut OwnedRunner<S>,
    who: u16,
    request: &[u8],
    text: &mut String,
) -> Result<(), AllocError>
    requires attends { AttendsWith S.LockSpace space.old runner.old.context runner.old.cache }
    requires who { runner.old.context.who ≡ who }
    ensures attends { AttendsWith S.LockSpace space.new runner.new.context runner.new.cache }
    ensures who { runner.new.context.who ≡ who }
{
    match start(alloc, space, runner, request) {
        Ok(progress) => {
            let Ok(progress) = finish(space, runner, who, progress) else {
                return Err(AllocError);
            };
            push_progress(text, &progress)
        }
        Err(Fault::Refused(_first, error)) => writeln!(text, "{error}"),
        Err(_fault) => Err(AllocError),
    }
}

// Parses a request and starts its statement, unless another one still waits.
fn start<S: LockSpace>(
    alloc: Global,
    space: &mut S,
    runner: &mut OwnedRunner<S>,
    request: &[u8],
) -> Result<Progress, Fault>
    requires { AttendsWith S.LockSpace space.old runner.old.context runner.old.cache }
    ensures attends { AttendsWith S.LockSpace space.new runner.new.context runner.new.cache }
    ensures who { runner.new.context.who ≡ runner.old.context.who }
{
    let script = parse(alloc, request)?;
    match script.lines().first() {
        Some(line) if !runner.is_waiting() => match runner.start(space, &line.statement) {
            Ok(progress) => Ok(progress),
            Err(OutOfMemory) => Err(Fault::Memory),
        },
        _ => Ok(Progress::Pending),
    }
}

// Brings a statement to its end.
fn finish<S: LockSpace>(
    space: &mut S,
    runner: &mut OwnedRunner<S>,
    who: u16,
    progress: Progress,
) -> Result<Progress, OutOfMemory>
    requires attends { AttendsWith S.LockSpace space.old runner.old.context runner.old.cache }
    requires who { runner.old.context.who ≡ who }
    ensures attends { AttendsWith S.LockSpace space.new runner.new.context runner.new.cache }
    ensures who { runner.new.context.who ≡ who }
{
    let mut progress = progress;
    for _wait in 0..u64::MAX {
        if !runner.is_waiting() {
            break;
        }
        progress = wait_out(space, runner, who)?;
    }
    Ok(progress)
}

// Looks at a wait until it is settled, and goes on with its statement. At the end of patience the wait times out.
fn wait_out<S: LockSpace>(
    space: &mut S,
    runner: &mut OwnedRunner<S>,
    who: u16,
) -> Result<Progress, OutOfMemory>
    requires attends { AttendsWith S.LockSpace space.old runner.old.context runner.old.cache }
    requires who { runner.old.context.who ≡ who }
    requires waits { IsSome runner.old.work }
    ensures attends { AttendsWith S.LockSpace space.new runner.new.context runner.new.cache }
    ensures who { runner.new.context.who ≡ who }
{
    for _poll in 0..PATIENCE {
        let progress = runner.go_on(space)?;
        if !runner.is_waiting() || !matches!(progress, Progress::Pending) {
            return Ok(progress);
        }
        thread::yield_now();
    }
    let _settled = space.settle_timeout(who);
    runner.go_on(space)
}
