//! What the program does with the words of its command line and its streams.
ghost use Rattle.std.specs.Prelude.{◌≡◌, ◌≢◌, ◌⊎◌, ◌↔◌, ⊤, drop, map, Result, IfErr, IfSome, IsErr, IsOk, IsOkUnless, IsTrue};
ghost use Rattle.std.specs.Io.KnownBytes.{Keeps};
ghost use Rattle.std.specs.List.{list_any};
ghost use Rattle.clap.specs.Words.{kind_of};
ghost use Rattle.mdl_lines.specs.Words.{MayEnd, fault_status};
ghost use Rattle.mdl_program.specs.Runs.{Writes, end_status};
ghost use Rattle.mdl_syntax.specs.Scripts.{parsed};
ghost use Rattle.mdl_view_program.specs.Programs.{LeavesAnswer};
ghost use Rattle.mdlview.specs.CommandLine.{AskForVersion, version_line};
ghost use Rattle.mdlview.specs.Queries.{query_text};
ghost use Rattle.mdlview.specs.Runs.{AnswersLook, EndsAs, EndsByWords, EndsForRows, EndsWith, is_help_word, rows_status};

use crate::asked::{Asked, Look};
use crate::command_line::words_read;
use crate::query::query_of;
use clap::Error;
use clap::error::ErrorKind;
use mdl_lines::{Fault, LineError, read_all, report, write_all};
use mdl_lock_rows::LockRowsError;
use mdl_view_program::{
    Explained, Question, RowsFault, draw_page, draw_script, view_rows, view_script,
};
use mdl_view_text::explanation;
use mdl_words::is_only_word;
use std::alloc::{AllocError, Global};
use std::convert::AsStr;
use std::io::{Read, Write};

// What `--version` prints.
const VERSION_LINE: &[u8] = b"mdlview 0.6.0\n";

// The exit status if a line of the input is refused.
const REFUSED: u8 = 1;

// The exit status if the command line is refused.
const USAGE: u8 = 2;

// The exit status if an answer about rows leaves waits unexplained.
const UNEXPLAINED: u8 = 4;

/// Does what the words of a command line ask for, and returns the exit status. Each status but 0 is explained on the stream of errors, if that can
/// be written.
pub fn run_words<S: AsStr, R: Read, W: Write, E: Write>(
    alloc: Global,
    words: &[S],
    input: &mut R,
    output: &mut W,
    errors: &mut E,
) -> u8
    // The words ask for the version: its line is written, unless a write fails.
    ensures version { AskForVersion (drop 1 (map S.text words.entry.now)) → (end : Result (Unit {0}) Fault)
        × IsOkUnless end Fault.Write × Writes end (W.contents output.old) (W.contents output.new) version_line
        × (result ≡ end_status end) }
    ensures others { (AskForVersion (drop 1 (map S.text words.entry.now)) → ⊥)
        → EndsByWords (map S.text words.entry.now) result (R.remaining input.old) (W.contents output.old) (W.contents output.new) }
    // No error is written with status 0.
    ensures quiet { result ≡ 0 → Keeps (E.contents errors.old) (E.contents errors.new) }
{
    if asks_for_version(words) {
        return print_version(output, errors);
    }
    match words_read(alloc, words) {
        Ok(asked) => answer(alloc, asked, input, output, errors),
        Err(refusal) => tell_refusal(alloc, &refusal, calls_for_help(words), output, errors),
    }
}

// Whether the words ask for the version: they are the program's name and `--version`.
fn asks_for_version<S: AsStr>(words: &[S]) -> bool
    ensures { IsTrue result ↔ AskForVersion (drop 1 (map S.text words.now)) }
{
    is_only_word(words, "--version")
}

// Whether one of the words calls for help.
fn calls_for_help<S: AsStr>(words: &[S]) -> bool
    ensures { result ≡ list_any (λ word. is_help_word (S.text word)) words.now }
{
    words.iter().any(|word| is_help_word(word.as_str()))
}

// Whether the word calls for help.
fn is_help_word(word: &str) -> bool
    ensures { result ≡ is_help_word word.now }
{
    word == "--help" || word == "-h" || word == "help"
}

// Prints the version, and returns the status.
fn print_version<W: Write, E: Write>(output: &mut W, errors: &mut E) -> u8
    ensures version { (end : Result (Unit {0}) Fault) × IsOkUnless end Fault.Write
        × Writes end (W.contents output.old) (W.contents output.new) version_line
        × (result ≡ end_status end) }
    ensures quiet { result ≡ 0 → Keeps (E.contents errors.old) (E.contents errors.new) }
{
    match write_all(output, VERSION_LINE) {
        Ok(()) => 0,
        Err(fault) => report(&fault, errors),
    }
}

// Writes the help that the words call for, or why they are refused, and returns the status.
fn tell_refusal<W: Write, E: Write>(
    alloc: Global,
    refusal: &Error,
    is_help: bool,
    output: &mut W,
    errors: &mut E,
) -> u8
    ensures memory { kind_of refusal.now ≡ ErrorKind.OutOfMemory → (result ≡ 3) × Keeps (W.contents output.old) (W.contents output.new) }
    ensures help { IsTrue is_help → kind_of refusal.now ≢ ErrorKind.OutOfMemory
        → ((result ≡ 2) × Keeps (W.contents output.old) (W.contents output.new)) ⊎ EndsWith (λ text. ⊤) ⊥ result (W.contents output.old) (W.contents output.new) }
    ensures refused { (IsTrue is_help → ⊥) → kind_of refusal.now ≢ ErrorKind.OutOfMemory → (result ≡ 2) × Keeps (W.contents output.old) (W.contents output.new) }
    ensures quiet { result ≡ 0 → Keeps (E.contents errors.old) (E.contents errors.new) }
{
    if refusal.kind() == ErrorKind::OutOfMemory {
        return report(&Fault::Memory, errors);
    }
    if is_help && !refusal.use_stderr() {
        return print_help(alloc, refusal, output, errors);
    }
    let _ = write!(errors, "{refusal}");
    USAGE
}

// Writes help, and returns the status.
fn print_help<W: Write, E: Write>(alloc: Global, help: &Error, output: &mut W, errors: &mut E) -> u8
    ensures help { EndsWith (λ text. ⊤) ⊥ result (W.contents output.old) (W.contents output.new) }
    ensures quiet { result ≡ 0 → Keeps (E.contents errors.old) (E.contents errors.new) }
{
    match help.to_string(alloc) {
        Ok(text) => write_text(text.as_bytes(), output, errors),
        Err(AllocError) => report(&Fault::Memory, errors),
    }
}

// Writes a text, and returns the status.
fn write_text<W: Write, E: Write>(text: &[u8], output: &mut W, errors: &mut E) -> u8
    ensures written { EndsWith (λ written. written ≡ text.now) ⊥ result (W.contents output.old) (W.contents output.new) }
    ensures quiet { result ≡ 0 → Keeps (E.contents errors.old) (E.contents errors.new) }
{
    match write_all(output, text) {
        Ok(()) => 0,
        Err(fault) => report(&fault, errors),
    }
}

// Answers what is asked for, and returns the status.
fn answer<R: Read, W: Write, E: Write>(
    alloc: Global,
    asked: Asked,
    input: &mut R,
    output: &mut W,
    errors: &mut E,
) -> u8
    ensures ends { EndsAs asked result (R.remaining input.old) (W.contents output.old) (W.contents output.new) }
    ensures quiet { result ≡ 0 → Keeps (E.contents errors.old) (E.contents errors.new) }
{
    match asked {
        Asked::OfRows(question) => look_at_rows(alloc, question, input, output, errors),
        Asked::OfScript(look, last) => look_at_script(alloc, look, last, input, output, errors),
        Asked::Query(server) => write_text(query_of(server), output, errors),
    }
}

// Answers a question about the locks of rows, and returns the status.
#[tactic(auto, using(crate::proofs::RunEnds::rows_explained, crate::proofs::RunEnds::rows_unexplained))]
fn look_at_rows<R: Read, W: Write, E: Write>(
    alloc: Global,
    question: Question,
    input: &mut R,
    output: &mut W,
    errors: &mut E,
) -> u8
    ensures ends { IfSome (R.remaining input.old) (λ bytes. EndsForRows question bytes result (W.contents output.old) (W.contents output.new)) }
    ensures quiet { result ≡ 0 → Keeps (E.contents errors.old) (E.contents errors.new) }
{
    match view_rows(alloc, question, input, output) {
        Ok(Explained::Fully) => 0,
        Ok(Explained::Partly) => UNEXPLAINED,
        Err(fault) => report_rows(&fault, errors),
    }
}

// Reports why rows can't be read or their answer can't be written, and returns the status.
fn report_rows<E: Write>(fault: &RowsFault, errors: &mut E) -> u8
    ensures { result ≡ rows_status fault.now }
{
    match fault {
        RowsFault::Fails(fault) => report(fault, errors),
        RowsFault::Rows(LockRowsError::OutOfMemory) => report(&Fault::Memory, errors),
        RowsFault::Rows(refusal) => {
            let _ = writeln!(errors, "{refusal}");
            REFUSED
        }
    }
}

// Answers a request about a script, and returns the status.
#[tactic(auto, using(crate::proofs::RunEnds::script_ended))]
fn look_at_script<R: Read, W: Write, E: Write>(
    alloc: Global,
    look: Look,
    last: u64,
    input: &mut R,
    output: &mut W,
    errors: &mut E,
) -> u8
    ensures ends { IfSome (R.remaining input.old) (λ bytes.
        EndsWith (AnswersLook look last bytes) (IsErr (parsed bytes)) result (W.contents output.old) (W.contents output.new)) }
    ensures quiet { result ≡ 0 → Keeps (E.contents errors.old) (E.contents errors.new) }
{
    let text = match read_all(alloc, input) {
        Ok(text) => text,
        Err(fault) => return report(&fault, errors),
    };
    match answer_script(alloc, look, last, &text, output) {
        Ok(()) => 0,
        Err(fault) => report_script(alloc, &text, fault, errors),
    }
}

// Answers a request about the text of a script.
fn answer_script<W: Write>(
    alloc: Global,
    look: Look,
    last: u64,
    text: &[u8],
    output: &mut W,
) -> Result<(), Fault>
    ensures ends { MayEnd (parsed text.now) result }
    ensures written { LeavesAnswer (AnswersLook look last text.now) result (W.contents output.old) (W.contents output.new) }
{
    let mut script = text;
    match look {
        Look::Locks(question) => view_script(alloc, question, last, &mut script, output),
        Look::Timeline => draw_script(alloc, last, &mut script, output),
        Look::Page => draw_page(alloc, last, &mut script, output),
    }
}

// Reports why a script isn't answered, and returns the status. Of a refused line it explains which word is refused, and why.
fn report_script<E: Write>(alloc: Global, text: &[u8], fault: Fault, errors: &mut E) -> u8
    ensures { result ≡ fault_status fault }
{
    let Fault::Refused(line, error) = fault else {
        return report(&fault, errors);
    };
    match explanation(alloc, text, line, error) {
        Ok(told) => {
            let _ = errors.write_all(&told);
            REFUSED
        }
        Err(AllocError) => report(&fault, errors),
    }
}
