//! Pieces of text, each appended to a buffer.
ghost use Rattle.std.specs.Prelude.{◌≡◌, ◌++◌, Some, None, codes, OnOk};
ghost use Rattle.std.specs.Fmt.{decimal};
ghost use Rattle.mdl_view.specs.Modes.{lock_mode_name};
ghost use Rattle.mdl_view_text.specs.Names.{numbered, session_text, thread_text};
ghost use Rattle.mdl_view_text.specs.Rows.{column, reason_text};

use crate::names::Names;
use mdl_lines::{push, push_number};
use mdl_view::{LockMode, Reason};
use std::alloc::AllocError;

/// Appends a number with what comes before it and after it.
pub(crate) fn push_numbered(
    out: &mut Vec<u8>,
    before: &[u8],
    number: u64,
    after: &[u8],
) -> Result<(), AllocError>
    ensures { OnOk result (out.new.items ≡ out.old.items ++ numbered before.now number after.now) }
{
    push(out, before)?;
    push_number(out, number)?;
    push(out, after)
}

/// Appends a mode.
pub(crate) fn push_mode(out: &mut Vec<u8>, mode: LockMode) -> Result<(), AllocError>
    ensures { OnOk result (out.new.items ≡ out.old.items ++ lock_mode_name mode) }
{
    push(out, mode.as_str().as_bytes())
}

/// Appends a session: a server's by its connection and its thread, and a script's by its number.
pub(crate) fn push_session(
    out: &mut Vec<u8>,
    names: &Names,
    session: usize,
) -> Result<(), AllocError>
    ensures { OnOk result (out.new.items ≡ out.old.items ++ session_text names.now session) }
{
    match names.owner(session) {
        Some(owner) => push_thread(out, owner.connection(), owner.thread()),
        None => push_script_session(out, session),
    }
}

// Appends a session of a script.
fn push_script_session(out: &mut Vec<u8>, session: usize) -> Result<(), AllocError>
    ensures { OnOk result (out.new.items ≡ out.old.items ++ (codes "session " ++ decimal session)) }
{
    push(out, b"session ")?;
    push_number(out, session as u64)
}

// Appends a server's session.
fn push_thread(out: &mut Vec<u8>, connection: Option<u64>, thread: u64) -> Result<(), AllocError>
    ensures { OnOk result (out.new.items ≡ out.old.items ++ thread_text connection thread) }
{
    match connection {
        Some(connection) => push_connection(out, connection, thread),
        None => push_alone(out, thread),
    }
}

// Appends a connection with its thread.
fn push_connection(out: &mut Vec<u8>, connection: u64, thread: u64) -> Result<(), AllocError>
    ensures { OnOk result (out.new.items ≡ out.old.items ++ thread_text (Some connection) thread) }
{
    push_numbered(out, b"connection ", connection, b" (thread ")?;
    push_numbered(out, b"", thread, b")")
}

// Appends a thread whose connection isn't known.
fn push_alone(out: &mut Vec<u8>, thread: u64) -> Result<(), AllocError>
    ensures { OnOk result (out.new.items ≡ out.old.items ++ thread_text None thread) }
{
    push(out, b"thread ")?;
    push_number(out, thread)
}

/// Appends why a ticket of this mode blocks another.
pub(crate) fn push_reason(
    out: &mut Vec<u8>,
    reason: Reason,
    mode: LockMode,
) -> Result<(), AllocError>
    ensures { OnOk result (out.new.items ≡ out.old.items ++ reason_text reason mode) }
{
    match reason {
        Reason::Holds => push(out, b"holds ")?,
        Reason::WaitsBefore => push(out, b"waits before it for ")?,
    }
    push_mode(out, mode)
}

/// Appends the text of a column that isn't the last one of its row.
pub(crate) fn push_column(out: &mut Vec<u8>, text: &[u8]) -> Result<(), AllocError>
    ensures { OnOk result (out.new.items ≡ out.old.items ++ column text.now) }
{
    push(out, text)?;
    push(out, b"\t")
}

/// Appends the column of a session.
pub(crate) fn push_session_column(
    out: &mut Vec<u8>,
    names: &Names,
    session: usize,
) -> Result<(), AllocError>
    ensures { OnOk result (out.new.items ≡ out.old.items ++ column (session_text names.now session)) }
{
    push_session(out, names, session)?;
    push(out, b"\t")
}

/// Appends the column of a mode.
pub(crate) fn push_mode_column(out: &mut Vec<u8>, mode: LockMode) -> Result<(), AllocError>
    ensures { OnOk result (out.new.items ≡ out.old.items ++ column (lock_mode_name mode)) }
{
    push_column(out, mode.as_str().as_bytes())
}
