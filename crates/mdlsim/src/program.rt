//! What the program does: over the words of its command line, and the streams that it is given.
ghost use Rattle.std.specs.Prelude.{◌≡◌, ◌↔◌, drop, false, map, None, Result, IfErr, IfSome, IsOk, IsOkUnless, IsTrue, OnOk};
ghost use Rattle.std.specs.Io.KnownBytes.{Keeps};
ghost use Rattle.clap.specs.Words.{kind_of};
ghost use Rattle.mdl_program.specs.Runs.{Writes, end_status};
ghost use Rattle.mdlsim.specs.CommandLine.{AskForVersion, line_to_explain, version_line};
ghost use Rattle.mdlsim.specs.Ends.{EndsByWords, EndsForLine};

use crate::command_line::{Run, asks_for_version, command};
use crate::explaining::{explain_line, line_to_explain};
use clap::Error;
use clap::error::ErrorKind;
use mdl_lines::{Fault, report, write_all};
use mdl_program::run_asked;
use std::alloc::Global;
use std::convert::AsStr;
use std::io::{Read, Write};
use std::sync::Wait;
use std::thread::Threads;

// What `--version` prints.
const VERSION_LINE: &[u8] = b"mdlsim 0.6.0\n";

/// Does what the words of a command line ask for, and returns the exit status: 2 if they ask neither for a run nor for the
/// version, and 3 if memory runs out while they are read.
pub fn run_words<T: Threads + Wait + Sync, S: AsStr, R: Read, W: Write, E: Write>(
    rt: &T,
    alloc: Global,
    words: &[S],
    input: &mut R,
    output: &mut W,
    errors: &mut E,
) -> u8
    // The words ask for the version: its line is written, unless a write fails.
    ensures version { AskForVersion (drop 1 (map S.text words.entry.now)) → (end : Result (Unit {0}) Fault)
        × IsOkUnless end Fault.Write × Writes end (W.contents output.old) (W.contents output.new) version_line
        × (result ≡ end_status end)
        × (IsOk end → Keeps (E.contents errors.old) (E.contents errors.new)) }
    // The words have a line to explain.
    ensures explained { IfSome (line_to_explain (drop 1 (map S.text words.entry.now))) (λ line.
        EndsForLine line result (W.contents output.old) (W.contents output.new) (E.contents errors.old) (E.contents errors.new)) }
    ensures others { (AskForVersion (drop 1 (map S.text words.entry.now)) → ⊥)
        → line_to_explain (drop 1 (map S.text words.entry.now)) ≡ None
        → EndsByWords (drop 1 (map S.text words.entry.now)) result (R.remaining input.old) (W.contents output.old) (W.contents output.new)
        (E.contents errors.old) (E.contents errors.new) }
{
    if asks_for_version(words) {
        return print_version(output, errors);
    }
    if let Some(line) = line_to_explain(words) {
        return explain_line(rt, alloc, line, output, errors);
    }
    let asked = command(alloc, words);
    if lacks_memory(&asked) {
        return report(&Fault::Memory, errors);
    }
    run_asked(rt, alloc, &asked, input, output, errors)
}

// Whether memory ran out while words were read.
fn lacks_memory(asked: &Result<Run, Error>) -> bool
    ensures read { OnOk asked.now (result ≡ false) }
    ensures refused { IfErr asked.now (λ refusal. IsTrue result ↔ (kind_of refusal ≡ ErrorKind.OutOfMemory)) }
{
    match asked {
        Ok(_) => false,
        Err(refusal) => refusal.kind() == ErrorKind::OutOfMemory,
    }
}

// Prints the version, and returns the status. A write that fails is reported on the stream of errors.
fn print_version<W: Write, E: Write>(output: &mut W, errors: &mut E) -> u8
    ensures { (end : Result (Unit {0}) Fault) × IsOkUnless end Fault.Write
        × Writes end (W.contents output.old) (W.contents output.new) version_line
        × (result ≡ end_status end)
        × (IsOk end → Keeps (E.contents errors.old) (E.contents errors.new)) }
{
    match write_all(output, VERSION_LINE) {
        Ok(()) => 0,
        Err(fault) => report(&fault, errors),
    }
}
