//! A line to explain that stands on the command line.
ghost use Rattle.std.specs.Prelude.{◌≡◌, ◌&&◌, IfOk, codes, drop, map};
ghost use Rattle.std.specs.Option.{option_map};
ghost use Rattle.std.specs.Str.{bytes_eq};
ghost use Rattle.mdlsim.specs.CommandLine.{begins_line, begins_with_dash, line_text, line_to_explain};
ghost use Rattle.mdlsim.specs.Ends.{EndsForLine};

use crate::command_line::Run;
use clap::Error;
use mdl_lines::{Fault, push, report};
use mdl_program::run_asked;
use std::alloc::{AllocError, Global};
use std::convert::AsStr;
use std::io::Write;
use std::sync::Wait;
use std::thread::Threads;

/// Returns the words of a line to explain, if a command line has them: those behind `explain`, the first of which is no option.
pub fn line_to_explain<S: AsStr>(words: &[S]) -> Option<&[S]>
    ensures { option_map (λ line. map S.text line.now) result ≡ line_to_explain (drop 1 (map S.text words.now)) }
{
    let [_, command, line @ ..] = words else {
        return None;
    };
    is_line_behind(command.as_str(), line).then_some(line)
}

// Whether these words are a line to explain, behind this word.
fn is_line_behind<S: AsStr>(command: &str, line: &[S]) -> bool
    ensures { result ≡ (bytes_eq command.now (codes "explain") && begins_line (map S.text line.now)) }
{
    command == "explain" && begins_line(line)
}

/// Explains a line, and returns the exit status.
pub fn explain_line<T: Threads + Wait + Sync, S: AsStr, W: Write, E: Write>(
    rt: &T,
    alloc: Global,
    line: &[S],
    output: &mut W,
    errors: &mut E,
) -> u8
    ensures { EndsForLine (map S.text line.now) result (W.contents output.old) (W.contents output.new) (E.contents errors.old) (E.contents errors.new) }
{
    match text_of(alloc, line) {
        Ok(text) => {
            let asked: Result<Run, Error> = Ok(Run::Explain);
            run_asked(rt, alloc, &asked, &mut text.as_slice(), output, errors)
        }
        Err(AllocError) => report(&Fault::Memory, errors),
    }
}

// Returns the text of a line: its words, a blank behind each.
fn text_of<S: AsStr>(alloc: Global, line: &[S]) -> Result<Vec<u8>, AllocError>
    ensures { IfOk result (λ text. text.items ≡ line_text (map S.text line.now)) }
{
    let mut text = Vec::new(alloc);
    for word in line {
        push(&mut text, word.as_str().as_bytes())?;
        push(&mut text, b" ")?;
    }
    Ok(text)
}

// Whether the words behind `explain` begin a line.
fn begins_line<S: AsStr>(line: &[S]) -> bool
    ensures { result ≡ begins_line (map S.text line.now) }
{
    match line {
        [first, ..] => !begins_with_dash(first.as_str()),
        [] => false,
    }
}

// Whether a word begins as an option does.
fn begins_with_dash(word: &str) -> bool
    ensures { result ≡ begins_with_dash word.now }
{
    matches!(word.as_bytes(), [b'-', ..])
}
