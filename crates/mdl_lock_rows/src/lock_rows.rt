//! The locks of a server, read from its rows.
ghost use Rattle.std.specs.Prelude.{◌≡◌, Ok, IfOk, IfErr};
ghost use Rattle.mdl_lock_rows.specs.Numbering.{keys_of, left_out_of, owners_of};
ghost use Rattle.mdl_lock_rows.specs.Reading.{IsRefusalOf, lines_read};
ghost use Rattle.mdl_lock_rows.specs.Tables.{keys_read, left_out_read, locks_of, locks_read, owners_read};

use crate::left_out::left_out_of;
use crate::lock_key::LockKey;
use crate::locks::{Threads, locks_among};
use crate::numbering::{changers_of, key_set, owners_among, threads_of};
use crate::owner::Owner;
use crate::read_rows::{Found, read_rows};
use crate::row_class::LeftOut;
use crate::row_error::LockRowsError;
use mdl_view::Lock;
use std::alloc::{AllocError, Global};

/// The contents of the rows of a server's metadata locks. A thread's number is its position among the owners, counted from 1: it is the session of
/// the thread's tickets. A ticket's number is that of its row's first line.
#[derive(Drop)]
pub struct LockRows {
    /// The lock of each key, with its tickets in the order of the rows.
    pub locks: Vec<Lock>,
    /// The locked keys, in order of their first rows.
    pub keys: Vec<LockKey>,
    /// The threads that hold locks or wait for them, in order of their first rows.
    pub owners: Vec<Owner>,
    /// The rows that are left out, by object type and lock type, in order of the first of each.
    pub left_out: Vec<LeftOut>,
}

/// Reads the rows of `performance_schema.metadata_locks`, alone or joined with what `mdlview query` names, as a client prints them: with tabs, in
/// boxes, a line for each field, CSV or JSON. The columns are in any order. A row is left out and counted if its OBJECT_TYPE isn't that of an
/// [`ObjectType`](crate::ObjectType), or its LOCK_TYPE is no mode that the object type's locks use. The rows don't show in which order threads
/// began to wait. The order of the rows is taken for it.
pub fn read_lock_rows(alloc: Global, text: &[u8]) -> Result<LockRows, LockRowsError>
    // What is found is what the rows of the text say.
    ensures locks { IfOk result (λ found. locks_read text.now ≡ Ok found.locks.items) }
    ensures keys { IfOk result (λ found. keys_read text.now ≡ Ok found.keys.items) }
    ensures owners { IfOk result (λ found. owners_read text.now ≡ Ok found.owners.items) }
    ensures left_out { IfOk result (λ found. left_out_read text.now ≡ Ok found.left_out.items) }

    // Refused for want of rows or of a column, or by the first bad row.
    ensures refused { IfErr result (IsRefusalOf (lines_read text.now)) }
{
    let found = read_rows(alloc, text)?;
    Ok(gathered(alloc, &found)?)
}

// The locks, keys and threads of rows, and how many rows are left out.
fn gathered(alloc: Global, found: &Found) -> Result<LockRows, AllocError>
    ensures locks { IfOk result (λ all. all.locks.items ≡ locks_of found.now.rows.items) }
    ensures keys { IfOk result (λ all. all.keys.items ≡ keys_of found.now.rows.items) }
    ensures owners { IfOk result (λ all. all.owners.items ≡ owners_of found.now.rows.items) }
    ensures left_out { IfOk result (λ all. all.left_out.items ≡ left_out_of found.now.others.items) }
{
    let rows = found.rows.as_slice();
    let threads = Threads {
        all: threads_of(alloc, rows)?,
        changers: changers_of(alloc, rows)?,
    };
    let keys = key_set(alloc, rows)?;
    Ok(LockRows {
        locks: locks_among(alloc, &threads, rows, &keys)?,
        keys: keys.into_iter().collect(alloc)?,
        owners: owners_among(alloc, rows, &threads.all)?,
        left_out: left_out_of(alloc, found.others.as_slice())?,
    })
}
