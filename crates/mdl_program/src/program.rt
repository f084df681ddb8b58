//! What a program does and prints once the words of its command line are read, over the streams that it is given.
ghost use Rattle.std.specs.Prelude.{◌≡◌, ◌≢◌, IfOk, IfErr, IsOk, Result};
ghost use Rattle.std.specs.Io.KnownBytes.{Keeps};
ghost use Rattle.std.specs.IoError.{error_kind};
ghost use Rattle.mdl_lines.specs.declared.fault.Fault.{Fault};
ghost use Rattle.mdl_program.specs.Runs.{EndsAs, IsRun, end_status};

use crate::threads::play_on_threads;
use mdl_explain::explain;
use mdl_key::Kind;
use mdl_lines::{Fault, report};
use mdl_lock::{lock_run, matrix_run};
use mdl_script::replay;
use std::alloc::Global;
use std::io::{ErrorKind, Read, Write};
use std::sync::Wait;
use std::thread::Threads;
use std::{fmt, io};

// The status of a program whose command line was refused, or that was asked for help.
const USAGE: u8 = 2;

/// What the command line asks for.
#[derive(Clone, Copy, Debug, PartialEq, Eq)]
pub enum Run {
    /// Execute a script over one lock of this kind.
    Lock(Kind),
    /// Print the two matrices of each kind of lock.
    Matrix,
    /// Play a script of statements.
    Replay,
    /// Explain the lines of a script of statements.
    Explain,
    /// Play a script of statements, each session on a thread of its own. The numbers are the patience, and how many definitions
    /// each session's own cache keeps at most.
    Threads(u32, u16),
}

/// Does what is asked for, and returns the exit status. If the words ask for no run, it writes the message that explains this to
/// the stream of errors, and nothing else.
pub fn run_asked<T: Threads + Wait + Sync, D: fmt::Display, R: Read, W: Write, E: Write>(
    rt: &T,
    alloc: Global,
    asked: &Result<Run, D>,
    input: &mut R,
    output: &mut W,
    errors: &mut E,
) -> u8
    requires { IfOk asked.now IsRun }
    // The status is that of an end that the run may have. No error is written for a run that succeeded.
    ensures ran { IfOk asked.now (λ run. (end : Result (Unit {0}) Fault)
        × EndsAs run (R.remaining input.old) (W.contents output.old) (W.contents output.new) end
        × (result ≡ end_status end)
        × (IsOk end → Keeps (E.contents errors.old) (E.contents errors.new))) }
    ensures refused { IfErr asked.now (λ refusal. (result ≡ 2) × Keeps (W.contents output.old) (W.contents output.new)) }
{
    match asked {
        Ok(run) => tell_end(end_of(rt, alloc, *run, input, output), errors),
        Err(refusal) => refuse_words(refusal, errors),
    }
}

// Does what is asked for.
fn end_of<T: Threads + Wait + Sync, R: Read, W: Write>(
    rt: &T,
    alloc: Global,
    asked: Run,
    input: &mut R,
    output: &mut W,
) -> Result<(), Fault>
    requires { IsRun asked }
    ensures { EndsAs asked (R.remaining input.old) (W.contents output.old) (W.contents output.new) result }
{
    match asked {
        Run::Lock(kind) => lock_run(alloc, kind, input, output),
        Run::Matrix => matrix_run(alloc, output),
        Run::Replay => replay(alloc, input, output),
        Run::Explain => explain(alloc, input, output),
        Run::Threads(patience, cache) => {
            play_on_threads(rt, alloc, patience, cache, input, output)
        }
    }
}

// Returns the status of a run that ended so. Reports a fault, and writes nothing for a run that succeeded.
fn tell_end<E: Write>(end: Result<(), Fault>, errors: &mut E) -> u8
    ensures status { result ≡ end_status end }
    ensures quiet { IsOk end → Keeps (E.contents errors.old) (E.contents errors.new) }
{
    match end {
        Ok(()) => 0,
        Err(fault) => report(&fault, errors),
    }
}

// Writes why words ask for no run, or the help that they ask for.
fn refuse_words<D: fmt::Display, E: Write>(refusal: &D, errors: &mut E) -> u8
    ensures { result ≡ 2 }
{
    let _ = write!(errors, "{refusal}");
    USAGE
}

/// Reports that the words of the command line can't be read, and returns the exit status: 3 if memory ran out, otherwise 2.
pub fn lack_words<E: Write>(error: &io::Error, errors: &mut E) -> u8
    ensures memory { error_kind error.now ≡ ErrorKind.OutOfMemory → result ≡ 3 }
    ensures others { error_kind error.now ≢ ErrorKind.OutOfMemory → result ≡ 2 }
{
    if error.kind() == ErrorKind::OutOfMemory {
        return report(&Fault::Memory, errors);
    }
    let _ = writeln!(errors, "error: {error}");
    USAGE
}
