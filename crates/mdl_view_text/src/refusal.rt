//! Which word of a script is refused, and why.
ghost use Rattle.std.specs.Prelude.{◌≡◌, ◌++◌, codes, OnOk, IfOk};
ghost use Rattle.std.specs.Fmt.{decimal};
ghost use Rattle.mdl_view_text.specs.Refusals.{refused_line, refused_word};

use crate::json_text::push_string;
use crate::layout::{push_line, push_line_with};
use mdl_lines::{push, push_number};
use std::alloc::{AllocError, Global};

/// Returns a line that says that a word of a script is refused, and why: `line 3, word 3: "Orders" is no name`. Lines and words are counted
/// from 1.
pub(crate) fn refused_word(
    alloc: Global,
    line: u64,
    number: u64,
    word: &[u8],
    reason: &[u8],
) -> Result<Vec<u8>, AllocError>
    ensures { IfOk result (λ text. text.items ≡ refused_word line number word.now reason.now) }
{
    let mut start = Vec::new(alloc);
    push_place(&mut start, line, number)?;
    let mut quoted = Vec::new(alloc);
    push_string(&mut quoted, word)?;
    let mut text = Vec::new(alloc);
    push_line_with(&mut text, alloc, &start, &quoted, reason)?;
    Ok(text)
}

// Appends where the word is.
fn push_place(out: &mut Vec<u8>, line: u64, number: u64) -> Result<(), AllocError>
    ensures { OnOk result (out.new.items ≡ out.old.items
        ++ (codes "line " ++ decimal line ++ codes ", word " ++ decimal number ++ codes ": ")) }
{
    push(out, b"line ")?;
    push_number(out, line)?;
    push(out, b", word ")?;
    push_number(out, number)?;
    push(out, b": ")
}

/// Returns a line that says that a whole line of a script is refused, and why.
pub(crate) fn refused_line(alloc: Global, line: u64, reason: &[u8]) -> Result<Vec<u8>, AllocError>
    ensures { IfOk result (λ text. text.items ≡ refused_line line reason.now) }
{
    let mut words = Vec::new(alloc);
    push(&mut words, b"line ")?;
    push_number(&mut words, line)?;
    push(&mut words, b": ")?;
    push(&mut words, reason)?;
    let mut text = Vec::new(alloc);
    push_line(&mut text, &words)?;
    Ok(text)
}
