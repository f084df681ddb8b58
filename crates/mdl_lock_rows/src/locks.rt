//! The locks of rows.
ghost use Rattle.std.specs.Prelude.{◌≡◌, IfOk, OnOk, length, map, position};
ghost use Rattle.mdl_view.specs.Locks.{empty_lock};
ghost use Rattle.mdl_lock_rows.specs.Keys.{kind_of_type, same_key};
ghost use Rattle.mdl_lock_rows.specs.Numbering.{number_of};
ghost use Rattle.mdl_lock_rows.specs.Tables.{changed_at, locks_among, ticket_of, with_ticket};

use crate::changes::is_of_statement;
use crate::lock_key::LockKey;
use crate::row::Row;
use indexmap::IndexSet;
use mdl_view::{Lock, Ticket};
use std::alloc::{AllocError, Global};

/// The threads of rows, and those of them that change a definition.
#[derive(Drop)]
pub(crate) struct Threads {
    pub(crate) all: IndexSet<u64>,
    pub(crate) changers: IndexSet<u64>,
}

/// Returns the locks of these keys.
pub(crate) fn locks_among(
    alloc: Global,
    threads: &Threads,
    rows: &[Row],
    keys: &IndexSet<LockKey>,
) -> Result<Vec<Lock>, AllocError>
    ensures { IfOk result (λ locks. locks.items ≡ locks_among threads.now.all.keys threads.now.changers.keys rows.now keys.now.keys) }
{
    let mut locks = new_locks(alloc, keys.as_slice())?;
    for row in rows {
        add_row(&mut locks, threads, keys, row)?;
    }
    Ok(locks)
}

// Returns the locks of these keys, without tickets.
fn new_locks(alloc: Global, keys: &[LockKey]) -> Result<Vec<Lock>, AllocError>
    ensures { IfOk result (λ locks. locks.items ≡ map (λ key. empty_lock (kind_of_type key.object_type)) keys.now) }
{
    let mut locks = Vec::with_capacity(alloc, keys.len())?;
    for key in keys {
        locks.push(Lock::new(alloc, key.object_type().kind()))?;
    }
    Ok(locks)
}

// Adds the ticket of a row to the lock of its key.
fn add_row(
    locks: &mut Vec<Lock>,
    threads: &Threads,
    keys: &IndexSet<LockKey>,
    row: &Row,
) -> Result<(), AllocError>
    requires { length locks.old.items ≡ length keys.now.keys }
    ensures { OnOk result (locks.new.items
        ≡ changed_at (position (same_key row.now.key) keys.now.keys) (with_ticket threads.now.all.keys threads.now.changers.keys row.now) locks.old.items) }
{
    let Some(place) = keys.get_index_of(&row.key) else {
        return Ok(());
    };
    add_ticket(&mut locks[place], threads, row)
}

// Adds the ticket of a row to a lock.
fn add_ticket(lock: &mut Lock, threads: &Threads, row: &Row) -> Result<(), AllocError>
    ensures { OnOk result (lock.new ≡ with_ticket threads.now.all.keys threads.now.changers.keys row.now lock.old) }
{
    let ticket = ticket_of(threads, row);
    if row.status.is_granted() {
        lock.add_granted(ticket)
    } else if row.status.is_waiting() {
        lock.add_waiting(ticket)
    } else if row.status.is_settled() {
        lock.add_settled(ticket)
    } else {
        Ok(())
    }
}

// The ticket of a row.
fn ticket_of(threads: &Threads, row: &Row) -> Ticket
    ensures { result ≡ ticket_of threads.now.all.keys threads.now.changers.keys row.now }
{
    Ticket {
        number: row.line,
        session: number_of(&threads.all, row.owner.thread()),
        mode: row.mode,
        of_statement: is_of_statement(&threads.changers, row),
    }
}

// The number of a thread, or 0 if it is none of these.
fn number_of(threads: &IndexSet<u64>, thread: u64) -> usize
    ensures { result ≡ number_of threads.now.keys thread }
{
    let count = threads.len();
    match threads.get_index_of(&thread) {
        // An index is below the count, so the sum fits.
        Some(place) if place < count => place + 1,
        _ => 0,
    }
}
