//! What is printed of a server's session besides its numbers, and its statement.
ghost use Rattle.std.specs.Prelude.{◌≡◌, ◌++◌, [], codes, IfOk, OnOk};
ghost use Rattle.mdl_view_text.specs.Owners.{account, activity, description, if_any, in_a_line, line_byte, runs, runs_line, transaction, with_part};

use crate::layout::push_line;
use crate::names::{Names, push_shown};
use mdl_lines::push;
use mdl_lock_rows::Owner;
use std::alloc::{AllocError, Global};

/// Returns all that rows say of a session but its statement: `app@10.0.0.7, Query 3 s, in a transaction since 2026-11-29 03:12:44`. Parts that
/// they don't say are left out.
pub(crate) fn description(alloc: Global, owner: &Owner) -> Result<Vec<u8>, AllocError>
    ensures { IfOk result (λ words. words.items ≡ description owner.now) }
{
    let mut words = account(alloc, owner)?;
    push_part(&mut words, b", ", &activity(alloc, owner)?)?;
    push_part(&mut words, b", ", &transaction(alloc, owner)?)?;
    Ok(words)
}

/// Appends what a session runs, in a line of its own, if that is known: `runs: SELECT 1`.
pub(crate) fn push_runs(
    out: &mut Vec<u8>,
    alloc: Global,
    names: &Names,
    indent: &[u8],
    session: usize,
) -> Result<(), AllocError>
    ensures { OnOk result (out.new.items ≡ out.old.items ++ runs names.now indent.now session) }
{
    match names.owner(session) {
        Some(owner) => push_runs_line(out, alloc, indent, owner.info()),
        None => Ok(()),
    }
}

// Appends a statement in a line of its own, unless it is empty.
fn push_runs_line(
    out: &mut Vec<u8>,
    alloc: Global,
    indent: &[u8],
    statement: &[u8],
) -> Result<(), AllocError>
    ensures { OnOk result (out.new.items ≡ out.old.items ++ runs_line indent.now statement.now) }
{
    if statement.is_empty() {
        return Ok(());
    }
    let mut line = Vec::new(alloc);
    push(&mut line, indent)?;
    push(&mut line, b"runs: ")?;
    push_in_a_line(&mut line, statement)?;
    push_line(out, &line)
}

// Who it is.
fn account(alloc: Global, owner: &Owner) -> Result<Vec<u8>, AllocError>
    ensures { IfOk result (λ words. words.items ≡ account owner.now) }
{
    let mut words = in_a_line(alloc, owner.user())?;
    push_part(&mut words, b"@", &in_a_line(alloc, owner.host())?)?;
    Ok(words)
}

// What it does, and for how long.
fn activity(alloc: Global, owner: &Owner) -> Result<Vec<u8>, AllocError>
    ensures { IfOk result (λ words. words.items ≡ activity owner.now) }
{
    let mut words = in_a_line(alloc, owner.command())?;
    push_part(&mut words, b" ", &if_any(alloc, b"", owner.time(), b" s")?)?;
    Ok(words)
}

// Since when it has a transaction.
fn transaction(alloc: Global, owner: &Owner) -> Result<Vec<u8>, AllocError>
    ensures { IfOk result (λ words. words.items ≡ transaction owner.now) }
{
    if_any(
        alloc,
        b"in a transaction since ",
        owner.transaction_started(),
        b"",
    )
}

// A text with what comes before it and after it, or nothing if it is empty.
fn if_any(alloc: Global, before: &[u8], text: &[u8], after: &[u8]) -> Result<Vec<u8>, AllocError>
    ensures { IfOk result (λ words. words.items ≡ if_any before.now text.now after.now) }
{
    let mut words = Vec::new(alloc);
    if text.is_empty() {
        return Ok(words);
    }
    push(&mut words, before)?;
    push_in_a_line(&mut words, text)?;
    push(&mut words, after)?;
    Ok(words)
}

// Appends a part with a mark before it, unless it or what comes before it is empty.
fn push_part(words: &mut Vec<u8>, mark: &[u8], part: &[u8]) -> Result<(), AllocError>
    ensures { OnOk result (words.new.items ≡ with_part mark.now words.old.items part.now) }
{
    if words.is_empty() || part.is_empty() {
        return push(words, part);
    }
    push(words, mark)?;
    push(words, part)
}

// A text in one line.
fn in_a_line(alloc: Global, text: &[u8]) -> Result<Vec<u8>, AllocError>
    ensures { IfOk result (λ words. words.items ≡ in_a_line text.now) }
{
    let mut words = Vec::new(alloc);
    push_in_a_line(&mut words, text)?;
    Ok(words)
}

// Appends a text in one line.
fn push_in_a_line(out: &mut Vec<u8>, text: &[u8]) -> Result<(), AllocError>
    ensures { OnOk result (out.new.items ≡ out.old.items ++ in_a_line text.now) }
{
    for byte in text {
        push_line_byte(out, *byte)?;
    }
    Ok(())
}

// Appends a byte of a text in one line.
fn push_line_byte(out: &mut Vec<u8>, byte: u8) -> Result<(), AllocError>
    ensures { OnOk result (out.new.items ≡ out.old.items ++ line_byte byte) }
{
    if byte == b'\t' || byte == b'\n' || byte == b'\r' {
        return push(out, b" ");
    }
    push_shown(out, byte)
}
