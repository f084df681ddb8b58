//! The server: a lock space, and the statements of its sessions.
ghost use Rattle.std.specs.Prelude.{◌≡◌, ◌<◌, IfOk, IfSome, length, map};
ghost use Rattle.std.specs.List.{range_with_len};
ghost use Rattle.mdl_space.specs.CoreMembers.{core_space};
ghost use Rattle.mdl_context.specs.Contexts.{LeavesOthers};
ghost use Rattle.mdl_stmt.specs.Attendance.{AttendsWith};
ghost use Rattle.mdl_server_example.specs.Servers.{AreServed, new_session};

use mdl_key::MOST_PLACES;
use mdl_space::{CoreSpace, NewError};
use mdl_stmt::{OutOfMemory, OwnedRunner, Progress};
use mdl_syntax::Statement;
use std::alloc::{AllocError, Global};
use std::marker::Model;

// How many definitions the cache of a session keeps.
const CACHE: u16 = 64;

/// What the server answers.
#[derive(Drop)]
pub enum Answer {
    /// The statement has come this far.
    Progress(Progress),
    /// There was no memory for the statement. It has ended.
    OutOfMemory,
    /// An earlier statement of the session still waits, so this one isn't started.
    Busy,
    /// There is no such session.
    NoSession,
}

// The answer to a statement that came so far.
fn answer_of(outcome: Result<Progress, OutOfMemory>) -> Answer {
    match outcome {
        Ok(progress) => Answer::Progress(progress),
        Err(OutOfMemory) => Answer::OutOfMemory,
    }
}

/// A lock space, and a runner for each of its sessions: session 1 has the first. All statements of a session go through its runner, which
/// knows what the session holds and waits for.
#[derive(Drop)]
pub struct Server {
    space: CoreSpace,
    runners: Vec<OwnedRunner<CoreSpace>>,
}

// The space serves each runner, which is what their calls require.
impl Model for Server {
    ghost use Rattle.mdl_server_example.specs.Servers.{AreServed};

    ghost Value = { Unit };

    ghost view = { λ _. tt };

    ghost invariant = { λ server. AreServed server.space 1 server.runners.items };
}

impl Server {
    /// A server for the sessions from 1 to this number. None of them holds a lock.
    pub fn new(alloc: Global, sessions: u16) -> Result<Server, NewError> {
        let space = CoreSpace::new(alloc, MOST_PLACES, sessions)?;
        match new_runners(alloc, sessions) {
            Ok(runners) => Ok(Server { space, runners }),
            Err(AllocError) => Err(NewError::OutOfMemory),
        }
    }

    /// Starts a statement of a session, unless the session waits. The statement isn't kept.
    pub fn start(&mut self, who: u16, statement: &Statement) -> Answer {
        match index_of(&self.runners, who) {
            Some(index) => start(&mut self.space, &mut self.runners[index], statement),
            None => Answer::NoSession,
        }
    }

    /// Goes on with the statement of a session, if it waits and its wait is settled.
    pub fn go_on(&mut self, who: u16) -> Option<Answer> {
        let index = index_of(&self.runners, who)?;
        go_on(&mut self.space, &mut self.runners[index])
    }

    /// Ends all sessions: each gives up its wait and its locks.
    pub fn close(self) {
        let Server { mut space, runners } = self;
        leave_all(&mut space, runners);
    }
}

// The index of a session's runner, if there is such a session.
fn index_of(runners: &[OwnedRunner<CoreSpace>], who: u16) -> Option<usize>
    ensures { IfSome result (λ index. index < length runners.now) }
{
    let index = usize::from(who).checked_sub(1)?;
    if index < runners.len() {
        Some(index)
    } else {
        None
    }
}

// The runners of the sessions from 1 to this number.
fn new_runners(alloc: Global, sessions: u16) -> Result<Vec<OwnedRunner<CoreSpace>>, AllocError>
    ensures { IfOk result (λ runners. runners.items ≡ map new_session (range_with_len 1 sessions)) }
{
    let mut runners = Vec::new(alloc);
    for index in 0..sessions {
        runners.push(OwnedRunner::new(alloc, index + 1, CACHE)?)?;
    }
    Ok(runners)
}

// Starts a statement, unless the session waits.
fn start(
    space: &mut CoreSpace,
    runner: &mut OwnedRunner<CoreSpace>,
    statement: &Statement,
) -> Answer
    requires { AttendsWith core_space space.old runner.old.context runner.old.cache }
    ensures attends { AttendsWith core_space space.new runner.new.context runner.new.cache }
    ensures who { runner.new.context.who ≡ runner.old.context.who }
    ensures others { LeavesOthers core_space runner.old.context.who space.old space.new }
{
    if runner.is_waiting() {
        return Answer::Busy;
    }
    answer_of(runner.start(space, statement))
}

// Goes on with a statement that waits. While its wait isn't settled there is nothing to answer.
fn go_on(space: &mut CoreSpace, runner: &mut OwnedRunner<CoreSpace>) -> Option<Answer>
    requires { AttendsWith core_space space.old runner.old.context runner.old.cache }
    ensures attends { AttendsWith core_space space.new runner.new.context runner.new.cache }
    ensures who { runner.new.context.who ≡ runner.old.context.who }
    ensures others { LeavesOthers core_space runner.old.context.who space.old space.new }
{
    if !runner.is_waiting() {
        return None;
    }
    match answer_of(runner.go_on(space)) {
        Answer::Progress(Progress::Pending) => None,
        answer => Some(answer),
    }
}

// Ends the sessions of these runners, one after the other.
fn leave_all(space: &mut CoreSpace, runners: Vec<OwnedRunner<CoreSpace>>)
    requires { AreServed space.old 1 runners.items }
{
    for runner in runners {
        runner.leave(space);
    }
}
