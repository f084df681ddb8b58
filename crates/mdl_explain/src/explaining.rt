//! Explains the lines of a script.
ghost use Rattle.std.specs.Prelude.{◌≡◌, ◌++◌, IfErr, IfOk, IfSome, IsOk, OnOk, flat_map};
ghost use Rattle.std.specs.Io.KnownBytes.{Appends};
ghost use Rattle.mdl_lines.specs.Words.{IsFaultOf, LeavesWritten, MayEnd};
ghost use Rattle.mdl_syntax.specs.Scripts.{parsed};
ghost use Rattle.mdl_explain.specs.Explanations.{explanation, is_planned_by_read_lock, is_planned_by_tables, output_of, plans_text};

use crate::plan_text::{push_own_plan, push_plan};
use mdl_lines::{Fault, push, push_number, read_all, write_all};
use mdl_plans::{Standing, plan_of};
use mdl_syntax::{Line, Statement, parse};
use std::alloc::{AllocError, Global};
use std::io::{Read, Write};

// A session without locked tables and without the global read lock.
const PLAIN: Standing = Standing {
    has_locked_tables: false,
    has_read_lock: false,
};

// A session with locked tables.
const WITH_TABLES: Standing = Standing {
    has_locked_tables: true,
    has_read_lock: false,
};

// A session with the global read lock.
const WITH_READ_LOCK: Standing = Standing {
    has_locked_tables: false,
    has_read_lock: true,
};

/// Explains the lines of a script of statements: reads everything and checks all lines, and only then writes.
pub fn explain<R: Read, W: Write>(
    alloc: Global,
    reader: &mut R,
    writer: &mut W,
) -> Result<(), Fault>
    // On success, what was written are the explanations of the lines that were read.
    ensures output { OnOk result (IfSome (R.remaining reader.old) (λ input.
        Appends (W.contents writer.old) (W.contents writer.new) (output_of input))) }

    // A script is refused for its first bad line, and for no other.
    ensures ends { IfSome (R.remaining reader.old) (λ input. MayEnd (parsed input) result) }

    // After a fault, a first part of them was written but never all, and nothing unless writing failed.
    ensures fault { IfErr result (λ fault. IfSome (R.remaining reader.old) (λ input.
        LeavesWritten fault (W.contents writer.old) (W.contents writer.new) (output_of input))) }
{
    let text = read_all(alloc, reader)?;
    let told = explained(alloc, &text)?;
    write_all(writer, &told)
}

// Returns the explanations of the lines of a script.
fn explained(alloc: Global, text: &[u8]) -> Result<Vec<u8>, Fault>
    ensures output { IfOk result (λ told. told.items ≡ output_of text.now) }
    ensures accepted { OnOk result (IsOk (parsed text.now)) }
    ensures fault { IfErr result (IsFaultOf (parsed text.now)) }
{
    let script = parse(alloc, text)?;
    let mut out = Vec::new(alloc);
    match push_lines(&mut out, script.lines()) {
        Ok(()) => Ok(out),
        Err(AllocError) => Err(Fault::Memory),
    }
}

// Appends the explanations of lines.
fn push_lines(out: &mut Vec<u8>, lines: &[Line]) -> Result<(), AllocError>
    ensures { OnOk result (out.new.items ≡ out.old.items ++ flat_map explanation lines.now) }
{
    for line in lines {
        push_explanation(out, line)?;
    }
    Ok(())
}

// Appends the explanation of a line: its number and its session, and the steps of its statement, a line for each.
#[tactic(auto, unfolding(crate::specs::Explanations::explanation))]
fn push_explanation(out: &mut Vec<u8>, line: &Line) -> Result<(), AllocError>
    ensures { OnOk result (out.new.items ≡ out.old.items ++ explanation line.now) }
{
    push(out, b"line ")?;
    push_number(out, line.number)?;
    push(out, b", session ")?;
    push_number(out, u64::from(line.session))?;
    push(out, b":\n")?;
    push_plans(out, &line.statement)
}

// Appends the plans of a statement: that of most sessions, and those that differ from it.
#[tactic(auto, unfolding(crate::specs::Explanations::plans_text))]
fn push_plans(out: &mut Vec<u8>, statement: &Statement) -> Result<(), AllocError>
    ensures { OnOk result (out.new.items ≡ out.old.items ++ plans_text statement.now) }
{
    push_plan(out, plan_of(PLAIN, statement))?;
    push_own_plan(
        out,
        is_planned_by_tables(statement),
        b"with locked tables:\n",
        plan_of(WITH_TABLES, statement),
    )?;
    push_own_plan(
        out,
        is_planned_by_read_lock(statement),
        b"with the global read lock:\n",
        plan_of(WITH_READ_LOCK, statement),
    )
}

// Whether a session with locked tables has a plan of its own for a statement.
fn is_planned_by_tables(statement: &Statement) -> bool
    ensures { result ≡ is_planned_by_tables statement.now }
{
    matches!(
        statement,
        Statement::Select(_) | Statement::Write { .. } | Statement::AlterTable(_)
    )
}

// Whether one with the global read lock has.
fn is_planned_by_read_lock(statement: &Statement) -> bool
    ensures { result ≡ is_planned_by_read_lock statement.now }
{
    matches!(statement, Statement::FlushTablesWithReadLock)
}
