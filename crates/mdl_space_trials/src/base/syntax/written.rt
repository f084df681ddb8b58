//! Puts what was read of a script into words.
use mdl_defs::Change;
use mdl_key::Key;
use mdl_syntax::{Algorithm, Alteration, Line, LockType, Priority, Statement, TableLock, parse};
use std::alloc::{AllocError, Global};
use std::fmt::Write;

/// Whether this is what is read of a script: a text for each statement, separated by ` / `, or the fault that refuses the script. A wanted text that
/// begins with two dots is only the end of that.
pub(crate) fn is_read_so(alloc: Global, script: &[u8], want: &str) -> bool {
    let mut text = String::new(alloc);
    push_read(alloc, &mut text, script).is_ok() && fits(text.as_str(), want)
}

fn fits(text: &str, want: &str) -> bool {
    match want.strip_prefix("..") {
        Some(end) => text.ends_with(end),
        None => text == want,
    }
}

// Adds what is read of a script.
fn push_read(alloc: Global, text: &mut String, script: &[u8]) -> Result<(), AllocError> {
    match parse(alloc, script) {
        Ok(script) => push_lines(text, script.lines()),
        Err(fault) => write!(text, "{fault}"),
    }
}

// Adds lines: for each its number, its session and its statement.
fn push_lines(text: &mut String, lines: &[Line]) -> Result<(), AllocError> {
    for (at, line) in lines.iter().enumerate() {
        if at > 0 {
            text.push_str(" / ")?;
        }
        let number = line.number;
        let session = line.session;
        let what = what(&line.statement);
        write!(text, "{number} {session} {what}")?;
        push_whereof(text, &line.statement)?;
    }
    Ok(())
}

// Returns what a statement does.
fn what(statement: &Statement) -> &'static str {
    match statement {
        Statement::Begin => "begin",
        Statement::Commit => "commit",
        Statement::Rollback => "roll back",
        Statement::Savepoint(_) => "savepoint",
        Statement::RollbackTo(_) => "roll back to",
        Statement::Select(_) => "read",
        Statement::Write { priority, .. } => match priority {
            Priority::Normal => "write",
            Priority::Low => "write late",
        },
        Statement::CreateTable { .. } => "create",
        Statement::CreateSchema(_) => "create schema",
        Statement::DropTables(_) => "drop",
        Statement::DropSchema(_) => "drop schema",
        Statement::RenameTable { .. } => "rename",
        Statement::UnlockTables => "unlock tables",
        Statement::FlushTablesWithReadLock => "flush tables with read lock",
        Statement::AlterTable(_) => "alter",
        Statement::LockTables(_) => "lock",
        Statement::KillQuery(_) => "kill",
        Statement::Timeout => "time out",
        Statement::GetLock(_) => "get",
        Statement::ReleaseLock(_) => "release",
    }
}

// Adds what a statement works on.
fn push_whereof(text: &mut String, statement: &Statement) -> Result<(), AllocError> {
    match statement {
        Statement::Savepoint(name)
        | Statement::RollbackTo(name)
        | Statement::CreateSchema(name)
        | Statement::DropSchema(name)
        | Statement::GetLock(name)
        | Statement::ReleaseLock(name) => push_word(text, name.as_str()),
        Statement::Select(tables) | Statement::DropTables(tables) => {
            push_keys(text, tables.as_slice())
        }
        Statement::Write { table, .. } => push_key(text, table),
        Statement::CreateTable { table, columns } => {
            push_key(text, table)?;
            for column in columns.as_slice() {
                push_word(text, column.name())?;
            }
            Ok(())
        }
        Statement::RenameTable { from, to } => {
            push_key(text, from)?;
            push_word(text, "to")?;
            push_key(text, to)
        }
        Statement::KillQuery(session) => write!(text, " {session}"),
        Statement::AlterTable(alteration) => push_alteration(text, alteration),
        Statement::LockTables(locks) => push_locks(text, locks.as_slice()),
        _ => Ok(()),
    }
}

fn push_word(text: &mut String, word: &str) -> Result<(), AllocError> {
    text.push_str(" ")?;
    text.push_str(word)
}

fn push_key(text: &mut String, key: &Key) -> Result<(), AllocError> {
    write!(text, " {key}")
}

fn push_keys(text: &mut String, keys: &[Key]) -> Result<(), AllocError> {
    for key in keys {
        push_key(text, key)?;
    }
    Ok(())
}

// Adds the table to alter, the change of its column, and the algorithm.
fn push_alteration(text: &mut String, alteration: &Alteration) -> Result<(), AllocError> {
    push_key(text, &alteration.table)?;
    match &alteration.change {
        Change::AddColumn(column) => {
            push_word(text, "add")?;
            push_word(text, column.name())?;
        }
        Change::DropColumn(column) => {
            push_word(text, "drop")?;
            push_word(text, column.name())?;
        }
        _ => push_word(text, "neither")?,
    }
    match alteration.algorithm {
        Algorithm::Copy => push_word(text, "by copying"),
        Algorithm::Inplace => push_word(text, "in place"),
    }
}

// Adds the tables to lock, and for what.
fn push_locks(text: &mut String, locks: &[TableLock]) -> Result<(), AllocError> {
    for lock in locks {
        push_key(text, &lock.table)?;
        match lock.lock_type {
            LockType::Read => push_word(text, "to read")?,
            LockType::Write => push_word(text, "to write")?,
        }
    }
    Ok(())
}
