//! Reads scripts.
ghost use Rattle.std.specs.Prelude.{◌≡◌, ◌++◌, ◌∷◌, [], true, Ok, IfOk, IfErr};
ghost use Rattle.mdl_lines.specs.Faults.{IsFaultOf};
ghost use Rattle.mdl_syntax.specs.Reading.{ReadsAs};
ghost use Rattle.mdl_syntax.specs.Scripts.{line_says, parsed, words_say};
ghost use Rattle.mdl_lines.specs.Lines.{words_of};

use crate::forms::statement_of;
use crate::no_statement::NoStatement;
use crate::words::split_word;
use crate::{Line, Script};
use mdl_lines::{Fault, LineError, is_comment, session_of, strip_carriage_return};
use std::alloc::Global;
use std::mem::drop;

/// Returns the lines of a script. Refused with the number and the error of its first bad line, also if memory ran out before
/// that line.
pub fn parse(alloc: Global, text: &[u8]) -> Result<Script, Fault>
    ensures parsed { IfOk result (λ script. parsed text.now ≡ Ok script) }
    ensures refused { IfErr result (λ fault. IsFaultOf (parsed text.now) fault) }
{
    let mut lines = Vec::new(alloc);
    let mut number = 0;
    let mut has_room = true;
    for line in text.split(|byte| *byte == b'\n') {
        number += 1;
        match line_says(alloc, number, strip_carriage_return(line)) {
            Ok(Some(line)) => has_room = push_in_room(&mut lines, has_room, line),
            Ok(None) => {}
            Err(NoStatement::Memory) => has_room = false,
            Err(NoStatement::Refused(error)) => return Err(Fault::Refused(number, error)),
        }
    }
    if has_room {
        Ok(Script { lines })
    } else {
        Err(Fault::Memory)
    }
}

// Adds a line, if there was room for those before it, and returns whether there is room for it too.
fn push_in_room(lines: &mut Vec<Line>, has_room: bool, line: Line) -> bool
    ensures { result ≡ true → (has_room ≡ true) × (lines.new.items ≡ lines.old.items ++ line ∷ []) }
{
    if !has_room {
        // A call: a drop in place has an arm for each statement, which the prover follows.
        drop(line);
        return false;
    }
    lines.push(line).is_ok()
}

// Returns what the line of this number asks for, or `None` if it asks for nothing.
fn line_says(alloc: Global, number: u64, line: &[u8]) -> Result<Option<Line>, NoStatement>
    ensures { ReadsAs (line_says number line.now) result }
{
    if is_comment(line)? {
        return Ok(None);
    }
    words_say(alloc, number, line)
}

// Returns what the words of a line ask for, or `None` if there are no words.
fn words_say(alloc: Global, number: u64, line: &[u8]) -> Result<Option<Line>, NoStatement>
    ensures { ReadsAs (words_say number (words_of line.now)) result }
{
    let Some((word, rest)) = split_word(line) else {
        return Ok(None);
    };
    let Some(session) = session_of(word) else {
        return Err(NoStatement::Refused(LineError::BadSession));
    };
    match statement_of(alloc, rest) {
        Ok(statement) => Ok(Some(Line {
            number,
            session,
            statement,
        })),
        Err(none) => Err(none),
    }
}
