//! A lock space of two sessions, one of which executes its lines.
ghost use Rattle.std.specs.Prelude.{IfOk};
ghost use Rattle.mdl_run_trials.specs.Rooms.{IsFreeSession, LeavesFree};

use crate::outcomes::Outcome;
use mdl_space::{CoreSpace, NewError};
use mdl_stmt::{Reply, Runner};
use mdl_syntax::{Line, parse};
use mdl_work::{Gate, work};
use std::alloc::Global;
use std::mem::drop;

/// Line numbers, and the outcomes of their statements.
pub(crate) type Answers<'a> = &'a [(u64, Outcome)];

// The number of places for the keys of a script.
const PLACES: u16 = 16;

const SESSIONS: u16 = 2;

// How many definitions the cache of each session keeps.
const CACHE: u16 = 64;

/// Creates a space in which no session has asked for anything.
pub(crate) fn new_space(alloc: Global) -> Result<CoreSpace, NewError>
    ensures one { IfOk result (λ space. IsFreeSession space 1) }
    ensures two { IfOk result (λ space. IsFreeSession space 2) }
{
    CoreSpace::new(alloc, PLACES, SESSIONS)
}

/// Whether a session gives these answers when it executes its lines.
pub(crate) fn answers_so<G: Gate>(
    alloc: Global,
    space: &mut CoreSpace,
    who: u16,
    text: &[u8],
    patience: u32,
    gate: &G,
    want: Answers<'_>,
) -> bool
    requires { IsFreeSession space.old who }
    ensures free { IsFreeSession space.new who }
    ensures others { LeavesFree who space.old space.new }
{
    let Ok(script) = parse(alloc, text) else {
        return false;
    };
    let outcome = work(alloc, space, who, &script, patience, CACHE, gate);
    drop(script);
    match outcome {
        Ok(answers) => are_told(answers, want),
        Err(_) => false,
    }
}

// Whether the answers are the wanted ones.
fn are_told(answers: Vec<(u64, Reply)>, want: Answers<'_>) -> bool {
    let mut are_so = answers.len() == want.len();
    for (answer, want) in answers.iter().zip(want) {
        are_so &= answer.0 == want.0 && Outcome::of(&answer.1) == want.1;
    }
    drop(answers);
    are_so
}

/// Whether session 2 executes a statement at once. It keeps what it locks.
pub(crate) fn holds(alloc: Global, space: &mut CoreSpace, text: &[u8]) -> bool
    requires { IsFreeSession space.old 2 }
    ensures { LeavesFree 2 space.old space.new }
{
    let Ok(script) = parse(alloc, text) else {
        return false;
    };
    let is_made = makes(alloc, space, script.lines());
    drop(script);
    is_made
}

// Whether there is only one line, and session 2 executes its statement at once.
fn makes(alloc: Global, space: &mut CoreSpace, lines: &[Line]) -> bool
    requires { IsFreeSession space.old 2 }
    ensures { LeavesFree 2 space.old space.new }
{
    let [line] = lines else {
        return false;
    };
    let Ok(mut runner) = Runner::new(alloc, 2, CACHE) else {
        return false;
    };
    let outcome = Outcome::at(runner.start(space, &line.statement));
    drop(runner);
    matches!(outcome, Outcome::Done | Outcome::Says(true))
}
