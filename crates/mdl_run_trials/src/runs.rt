//! Runs what a command line asks for over fake devices.
ghost use Rattle.std.specs.Prelude.{IfOk};
ghost use Rattle.mdl_program.specs.Runs.{IsRun};

use crate::fakes::{Habit, Source, Target};
use mdl_key::Kind;
use mdl_program::{Run, run_asked};
use std::alloc::Global;
use std::mem::drop;
use std::sync::Wait;
use std::thread::Threads;

/// The words of a command line, accepted or refused.
#[derive(Clone, Copy)]
pub(crate) enum Words {
    Lock,
    Scoped,
    Matrix,
    Replay,
    Explain,
    OnThreads,
    Refused,
}

// Returns the run that the words ask for, or the message about words that ask for none.
fn asked_by(words: Words) -> Result<Run, &'static str>
    ensures { IfOk result IsRun }
{
    match words {
        Words::Lock => Ok(Run::Lock(Kind::Object)),
        Words::Scoped => Ok(Run::Lock(Kind::Scoped)),
        Words::Matrix => Ok(Run::Matrix),
        Words::Replay => Ok(Run::Replay),
        Words::Explain => Ok(Run::Explain),
        Words::OnThreads => Ok(Run::Threads(5, 1)),
        Words::Refused => Err("requires a subcommand\n"),
    }
}

// What is observed of a run: its status, what it wrote, and what it reported.
#[derive(Drop)]
struct Seen {
    status: u8,
    written: Vec<u8>,
    told: Vec<u8>,
}

/// Words, a script, the habits of the input and of the output, and then the status, what is written, and what is reported.
pub(crate) type Row<'a> = (Words, &'a str, Habit, Habit, u8, &'a str, &'a str);

// Runs what a row asks for. It has no contract: the tests compare what the run does.
fn look_at<T: Threads + Wait + Sync>(rt: &T, alloc: Global, row: Row<'_>) -> Seen {
    let (words, script, input, output, ..) = row;
    let mut source = Source::new(script.as_bytes(), input);
    let mut target = Target::new(alloc, output);
    let mut told = Vec::new(alloc);
    let asked = asked_by(words);
    let status = run_asked(rt, alloc, &asked, &mut source, &mut target, &mut told);
    Seen {
        status,
        written: target.taken,
        told,
    }
}

/// Whether a run gives what its row says.
pub(crate) fn goes_so<T: Threads + Wait + Sync>(rt: &T, alloc: Global, row: Row<'_>) -> bool {
    let seen = look_at(rt, alloc, row);
    let goes_so = is_as_told(&seen, row);
    drop(seen);
    goes_so
}

// Whether this is what its row says.
fn is_as_told(seen: &Seen, row: Row<'_>) -> bool {
    let (.., status, written, told) = row;
    seen.status == status
        && seen.written.as_slice() == written.as_bytes()
        && seen.told.as_slice() == told.as_bytes()
}
