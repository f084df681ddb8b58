//! Which threads and which locks there are, in order of their first rows.
ghost use Rattle.std.specs.Prelude.{◌≡◌, IfOk, OnOk, length, map, nat_eq, position};
ghost use Rattle.mdl_lock_rows.specs.Keys.{same_key};
ghost use Rattle.mdl_lock_rows.specs.Numbering.{keys_of, owners_among, threads_of, with_new};
ghost use Rattle.mdl_lock_rows.specs.Owners.{bare, described_too};
ghost use Rattle.mdl_lock_rows.specs.Tables.{changed_at, changers_of};

use crate::changes::shows_change;
use crate::lock_key::LockKey;
use crate::owner::Owner;
use crate::row::Row;
use indexmap::IndexSet;
use std::alloc::{AllocError, Global};

/// The threads of rows, each once.
pub(crate) fn threads_of(alloc: Global, rows: &[Row]) -> Result<IndexSet<u64>, AllocError>
    ensures { IfOk result (λ threads. threads.keys ≡ threads_of rows.now) }
{
    let mut threads = IndexSet::new(alloc);
    for row in rows {
        threads.insert(row.owner.thread())?;
    }
    Ok(threads)
}

/// The threads that change a definition, each once.
pub(crate) fn changers_of(alloc: Global, rows: &[Row]) -> Result<IndexSet<u64>, AllocError>
    ensures { IfOk result (λ changers. changers.keys ≡ changers_of rows.now) }
{
    let mut changers = IndexSet::new(alloc);
    for row in rows {
        if shows_change(row) {
            changers.insert(row.owner.thread())?;
        }
    }
    Ok(changers)
}

/// The keys of rows, each once.
pub(crate) fn key_set(alloc: Global, rows: &[Row]) -> Result<IndexSet<LockKey>, AllocError>
    ensures { IfOk result (λ known. known.keys ≡ keys_of rows.now) }
{
    let mut known = IndexSet::new(alloc);
    for row in rows {
        add_key(&mut known, &row.key)?;
    }
    Ok(known)
}

// Adds a key, unless it is known.
fn add_key(known: &mut IndexSet<LockKey>, key: &LockKey) -> Result<(), AllocError>
    ensures { OnOk result (known.new.keys ≡ with_new same_key known.old.keys key.now) }
{
    if known.contains(key) {
        return Ok(());
    }
    known.insert(key.clone()?)?;
    Ok(())
}

/// What rows say of these threads.
pub(crate) fn owners_among(
    alloc: Global,
    rows: &[Row],
    threads: &IndexSet<u64>,
) -> Result<Vec<Owner>, AllocError>
    ensures { IfOk result (λ owners. owners.items ≡ owners_among rows.now threads.now.keys) }
{
    let mut owners = bare_owners(alloc, threads.as_slice())?;
    for row in rows {
        describe(&mut owners, threads, &row.owner)?;
    }
    Ok(owners)
}

// These threads, of which nothing is known.
fn bare_owners(alloc: Global, threads: &[u64]) -> Result<Vec<Owner>, AllocError>
    ensures { IfOk result (λ owners. owners.items ≡ map bare threads.now) }
{
    let mut owners = Vec::with_capacity(alloc, threads.len())?;
    for thread in threads {
        owners.push(Owner::bare(alloc, *thread))?;
    }
    Ok(owners)
}

// Takes down what a row says of its thread.
fn describe(
    owners: &mut Vec<Owner>,
    threads: &IndexSet<u64>,
    owner: &Owner,
) -> Result<(), AllocError>
    requires { length owners.old.items ≡ length threads.now.keys }
    ensures { OnOk result (owners.new.items ≡ changed_at (position (nat_eq owner.now.thread) threads.now.keys) (described_too owner.now) owners.old.items) }
{
    let Some(place) = threads.get_index_of(&owner.thread()) else {
        return Ok(());
    };
    describe_too(&mut owners[place], owner)
}

// Takes down what one more row says of a thread, unless a row before it said something.
fn describe_too(known: &mut Owner, owner: &Owner) -> Result<(), AllocError>
    ensures { OnOk result (known.new ≡ described_too owner.now known.old) }
{
    if owner.is_described() && !known.is_described() {
        *known = owner.clone()?;
    }
    Ok(())
}
