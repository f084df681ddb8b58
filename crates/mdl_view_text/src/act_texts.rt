//! What to type to end a session or its statement.
ghost use Rattle.std.specs.Prelude.{◌≡◌, ◌++◌, IfOk, OnOk};
ghost use Rattle.mdl_view_text.specs.ActTexts.{act_lines, act_words, background_line, comment, end_words, number_line, owner_lines, query_line, script_line, script_words, statement, statement_line, thread_lines, typed_lines};

use crate::findings::target_of;
use crate::layout::push_line_with;
use crate::names::{Names, knows_connections};
use crate::owners::{description, push_runs};
use crate::text::push_numbered;
use mdl_lines::{push, push_number};
use mdl_lock_rows::Owner;
use mdl_view::Act;
use std::alloc::{AllocError, Global};

/// Appends the line that says what to type: `KILL 8;  -- app@10.0.0.7, Sleep 412 s`. If the number of the connection isn't known, the query
/// that returns it is printed in its place. Below is what the session runs, if that is known. `start` is what the first line starts with, and
/// `indent` what the others do.
pub(crate) fn push_act(
    out: &mut Vec<u8>,
    alloc: Global,
    names: &Names,
    start: &[u8],
    indent: &[u8],
    act: Act,
) -> Result<(), AllocError>
    ensures { OnOk result (out.new.items ≡ out.old.items ++ act_lines names.now start.now indent.now act) }
{
    push_typed(out, alloc, names, start, indent, act)?;
    push_runs(out, alloc, names, indent, target_of(act))
}

// Appends what to type.
fn push_typed(
    out: &mut Vec<u8>,
    alloc: Global,
    names: &Names,
    start: &[u8],
    indent: &[u8],
    act: Act,
) -> Result<(), AllocError>
    ensures { OnOk result (out.new.items ≡ out.old.items ++ typed_lines names.now start.now indent.now act) }
{
    let is_known = knows_connections(names);
    match names.owner(target_of(act)) {
        Some(owner) => push_owner_act(out, alloc, is_known, start, indent, act, owner),
        None => push_script_act(out, start, act),
    }
}

// Appends what to type for a server's session. `is_known` says whether rows have the numbers of connections.
fn push_owner_act(
    out: &mut Vec<u8>,
    alloc: Global,
    is_known: bool,
    start: &[u8],
    indent: &[u8],
    act: Act,
    owner: &Owner,
) -> Result<(), AllocError>
    ensures { OnOk result (out.new.items ≡ out.old.items ++ owner_lines is_known start.now indent.now act owner.now owner.now.connection) }
{
    match owner.connection() {
        Some(connection) => push_statement_line(out, alloc, start, act, connection, owner),
        None => push_thread_act(out, is_known, start, indent, act, owner.thread()),
    }
}

// Appends the statement, and whose connection it is.
fn push_statement_line(
    out: &mut Vec<u8>,
    alloc: Global,
    start: &[u8],
    act: Act,
    connection: u64,
    owner: &Owner,
) -> Result<(), AllocError>
    ensures { OnOk result (out.new.items ≡ out.old.items ++ statement_line start.now act connection owner.now) }
{
    let typed = statement(alloc, start, act, connection)?;
    let words = description(alloc, owner)?;
    let comment = comment(alloc, &words)?;
    push_line_with(out, alloc, &typed, &comment, b"")
}

// The statement, behind what the line starts with.
fn statement(alloc: Global, start: &[u8], act: Act, connection: u64) -> Result<Vec<u8>, AllocError>
    ensures { IfOk result (λ words. words.items ≡ statement start.now act connection) }
{
    let mut words = Vec::new(alloc);
    push(&mut words, start)?;
    push(&mut words, act_words(act))?;
    push(&mut words, b" ")?;
    push_number(&mut words, connection)?;
    push(&mut words, b";")?;
    Ok(words)
}

/// Returns the words of the statement.
pub(crate) fn act_words(act: Act) -> &'static [u8]
    ensures { result.now ≡ act_words act }
{
    match act {
        Act::Kill(_) => b"KILL",
        Act::KillQuery(_) => b"KILL QUERY",
    }
}

// A comment, or nothing if it is empty.
fn comment(alloc: Global, words: &[u8]) -> Result<Vec<u8>, AllocError>
    ensures { IfOk result (λ text. text.items ≡ comment words.now) }
{
    let mut text = Vec::new(alloc);
    if words.is_empty() {
        return Ok(text);
    }
    push(&mut text, b"  -- ")?;
    push(&mut text, words)?;
    Ok(text)
}

// Appends how a thread is ended whose connection isn't known.
fn push_thread_act(
    out: &mut Vec<u8>,
    is_known: bool,
    start: &[u8],
    indent: &[u8],
    act: Act,
    thread: u64,
) -> Result<(), AllocError>
    ensures { OnOk result (out.new.items ≡ out.old.items ++ thread_lines is_known start.now indent.now act thread) }
{
    if is_known {
        return push_background(out, start, thread);
    }
    push_number_line(out, start, act, thread)?;
    push_query(out, indent, thread)
}

// Appends that a thread has no connection.
fn push_background(out: &mut Vec<u8>, start: &[u8], thread: u64) -> Result<(), AllocError>
    ensures { OnOk result (out.new.items ≡ out.old.items ++ background_line start.now thread) }
{
    push(out, start)?;
    push_numbered(
        out,
        b"Thread ",
        thread,
        b" is the server's own: it has no connection, and KILL can't end it.\n",
    )
}

// Appends which thread is to be ended.
fn push_number_line(
    out: &mut Vec<u8>,
    start: &[u8],
    act: Act,
    thread: u64,
) -> Result<(), AllocError>
    ensures { OnOk result (out.new.items ≡ out.old.items ++ number_line start.now act thread) }
{
    push(out, start)?;
    push_numbered(out, end_words(act), thread, b". ")?;
    push(out, act_words(act))?;
    push(out, b" takes the number that this returns:\n")
}

// What is to be ended.
fn end_words(act: Act) -> &'static [u8]
    ensures { result.now ≡ end_words act }
{
    match act {
        Act::Kill(_) => b"End thread ",
        Act::KillQuery(_) => b"End the statement of thread ",
    }
}

// Appends the query that returns the number of a thread's connection.
fn push_query(out: &mut Vec<u8>, indent: &[u8], thread: u64) -> Result<(), AllocError>
    ensures { OnOk result (out.new.items ≡ out.old.items ++ query_line indent.now thread) }
{
    push(out, indent)?;
    push_numbered(
        out,
        b"SELECT PROCESSLIST_ID FROM performance_schema.threads WHERE THREAD_ID = ",
        thread,
        b";\n",
    )
}

// Appends what ends a session of a script, or its statement.
fn push_script_act(out: &mut Vec<u8>, start: &[u8], act: Act) -> Result<(), AllocError>
    ensures { OnOk result (out.new.items ≡ out.old.items ++ script_line start.now act) }
{
    push(out, start)?;
    push(out, script_words(act))?;
    push_number(out, target_of(act) as u64)?;
    push(out, b"\n")
}

// The statement of a script.
fn script_words(act: Act) -> &'static [u8]
    ensures { result.now ≡ script_words act }
{
    match act {
        Act::Kill(_) => b"End session ",
        Act::KillQuery(_) => b"KILL QUERY ",
    }
}
