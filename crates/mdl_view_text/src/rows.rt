//! The tables that list locks and waits.
ghost use Rattle.std.specs.Prelude.{◌≡◌, ◌++◌, flat_map, OnOk, IfOk};
ghost use Rattle.mdl_view_text.specs.Rows.{locks_text, rows_of_lock, ticket_row, wait_row, waiter_columns, waits_text};

use crate::names::Names;
use crate::text::{push_column, push_mode_column, push_reason, push_session_column};
use mdl_lines::push;
use mdl_view::{Blocking, Lock, Ticket};
use std::alloc::{AllocError, Global};

/// Returns a table of all tickets: a line with the names of its columns, and a row for each ticket: its lock, its session, its mode, and
/// whether it is `GRANTED`, `PENDING`, or `SETTLED`, if its wait is over without a grant. Columns are separated by tabs.
pub fn locks_text(alloc: Global, names: &Names, locks: &[Lock]) -> Result<Vec<u8>, AllocError>
    ensures { IfOk result (λ text. text.items ≡ locks_text names.now locks.now) }
{
    let mut out = Vec::new(alloc);
    push(&mut out, b"LOCK\tSESSION\tMODE\tSTATUS\n")?;
    for (place, lock) in locks.iter().enumerate() {
        push_lock(&mut out, names, place, lock)?;
    }
    Ok(out)
}

// Appends the rows of a lock.
fn push_lock(out: &mut Vec<u8>, names: &Names, place: usize, lock: &Lock) -> Result<(), AllocError>
    ensures { OnOk result (out.new.items ≡ out.old.items ++ rows_of_lock names.now place lock.now) }
{
    push_tickets(out, names, place, b"GRANTED", lock.granted())?;
    push_tickets(out, names, place, b"PENDING", lock.waiting())?;
    push_tickets(out, names, place, b"SETTLED", lock.settled())
}

// Appends the rows of tickets with this status.
fn push_tickets(
    out: &mut Vec<u8>,
    names: &Names,
    place: usize,
    status: &[u8],
    tickets: &[Ticket],
) -> Result<(), AllocError>
    ensures { OnOk result (out.new.items ≡ out.old.items ++ flat_map (ticket_row names.now place status.now) tickets.now) }
{
    for ticket in tickets {
        push_ticket(out, names, place, status, *ticket)?;
    }
    Ok(())
}

// Appends the row of a ticket.
fn push_ticket(
    out: &mut Vec<u8>,
    names: &Names,
    place: usize,
    status: &[u8],
    ticket: Ticket,
) -> Result<(), AllocError>
    ensures { OnOk result (out.new.items ≡ out.old.items ++ ticket_row names.now place status.now ticket) }
{
    push_column(out, names.lock(place))?;
    push_session_column(out, names, ticket.session)?;
    push_mode_column(out, ticket.mode)?;
    push(out, status)?;
    push(out, b"\n")
}

/// Returns a table of who blocks whom: a line with the names of its columns, and a row for each waiting ticket and each ticket that blocks
/// it: the lock, the session that waits, the mode that it waits for, the session that blocks it, and why.
pub fn waits_text(
    alloc: Global,
    names: &Names,
    blockings: &[Blocking],
) -> Result<Vec<u8>, AllocError>
    ensures { IfOk result (λ text. text.items ≡ waits_text names.now blockings.now) }
{
    let mut out = Vec::new(alloc);
    push(&mut out, b"LOCK\tWAITING\tFOR\tBLOCKING\tREASON\n")?;
    for blocking in blockings {
        push_wait(&mut out, names, *blocking)?;
    }
    Ok(out)
}

// Appends the row of a waiter and of a session that blocks it.
fn push_wait(out: &mut Vec<u8>, names: &Names, blocking: Blocking) -> Result<(), AllocError>
    ensures { OnOk result (out.new.items ≡ out.old.items ++ wait_row names.now blocking) }
{
    push_waiter(out, names, blocking.lock, blocking.waiter)?;
    push_session_column(out, names, blocking.other.session)?;
    push_reason(out, blocking.reason, blocking.other.mode)?;
    push(out, b"\n")
}

// Appends the columns of a waiter.
fn push_waiter(
    out: &mut Vec<u8>,
    names: &Names,
    place: usize,
    waiter: Ticket,
) -> Result<(), AllocError>
    ensures { OnOk result (out.new.items ≡ out.old.items ++ waiter_columns names.now place waiter) }
{
    push_column(out, names.lock(place))?;
    push_session_column(out, names, waiter.session)?;
    push_mode_column(out, waiter.mode)
}
