//! The words of statements, as the text of a script has them.
ghost use Rattle.std.specs.Prelude.{◌≡◌, ◌++◌, IfOk, OnOk, codes, drop, flat_map, map};
ghost use Rattle.mdl_lines.specs.Words.{line_in, words_of};
ghost use Rattle.mdl_timeline.specs.Statements.{joined, statement_words};

use mdl_lines::{is_blank, line_at};
use std::alloc::{AllocError, Global};

/// Returns the statement of the line of this number, counted from 1.
pub(crate) fn statement_at(
    alloc: Global,
    lines: &[&[u8]],
    number: u64,
) -> Result<Vec<u8>, AllocError>
    ensures { IfOk result (λ statement. statement.items ≡ statement_words (line_in (map (λ line. line.now) lines.now) number)) }
{
    statement_of(alloc, line_at(lines, number))
}

// The statement of a line: its words after that of its session, separated by single blanks.
fn statement_of(alloc: Global, line: &[u8]) -> Result<Vec<u8>, AllocError>
    ensures { IfOk result (λ statement. statement.items ≡ statement_words line.now) }
{
    let mut statement = Vec::new(alloc);
    let words = words_of(alloc, line)?;
    if let [_session, words @ ..] = words.as_slice() {
        push_words(&mut statement, words)?;
    }
    Ok(statement)
}

// The words of a line.
fn words_of(alloc: Global, line: &[u8]) -> Result<Vec<&[u8]>, AllocError>
    ensures { IfOk result (λ words. map (λ word. word.now) words.items ≡ words_of line.now) }
{
    line.split(|byte| is_blank(*byte))
        .filter(|word| !word.is_empty())
        .collect(alloc)
}

// Appends words, separated by single blanks.
fn push_words(out: &mut Vec<u8>, words: &[&[u8]]) -> Result<(), AllocError>
    ensures { OnOk result (out.new.items ≡ out.old.items ++ joined (map (λ word. word.now) words.now)) }
{
    let [first, rest @ ..] = words else {
        return Ok(());
    };
    out.extend_from_slice(first)?;
    push_behind_blanks(out, rest)
}

// Appends words, each after a blank.
fn push_behind_blanks(out: &mut Vec<u8>, words: &[&[u8]]) -> Result<(), AllocError>
    ensures { OnOk result (out.new.items ≡ out.old.items ++ flat_map (λ word. codes " " ++ word) (map (λ word. word.now) words.now)) }
{
    for word in words {
        out.push(b' ')?;
        out.extend_from_slice(word)?;
    }
    Ok(())
}
