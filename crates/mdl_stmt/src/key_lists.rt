//! Lists of locks in key order.
ghost use Rattle.std.specs.Prelude.{◌≡◌, [], ◌∷◌, map, IfOk};
ghost use Rattle.mdl_key.specs.Keys.{global_key};
ghost use Rattle.mdl_rows.specs.KeyOrder.{inserted_in_order, in_key_order};
ghost use Rattle.mdl_syntax.specs.Forms.{tables_of};
ghost use Rattle.mdl_rows.specs.Statements.{schema_of, is_write, written_tables, may_write, scopes_around};

use crate::OutOfMemory;
use crate::creating::schema_of;
use crate::lock_list::LockList;
use mdl_key::Key;
use mdl_syntax::{LockType, TableLock};
use std::alloc::{AllocError, Global};
use std::cmp::Ordering;

/// Inserts a key at its place among ordered keys, unless it is there.
fn place(keys: &mut Vec<Key>, key: Key) -> Result<(), AllocError>
    ensures { IfOk result (λ _. keys.new.items ≡ inserted_in_order key keys.old.items) }
{
    for (at, other) in keys.iter().enumerate() {
        match key.cmp(other) {
            Ordering::Less => {
                keys.insert(at, key)?;
                return Ok(());
            }
            Ordering::Equal => return Ok(()),
            Ordering::Greater => {}
        }
    }
    keys.push(key)?;
    Ok(())
}

/// The locks of tables, in key order.
pub(crate) fn in_key_order(alloc: Global, tables: &[Key]) -> Result<LockList, OutOfMemory>
    ensures { IfOk result (λ locks. locks ≡ record { keys = in_key_order tables.now; tickets = [] }) }
{
    let mut keys = Vec::new(alloc);
    for table in tables {
        let Ok(key) = table.clone() else {
            return Err(OutOfMemory);
        };
        if place(&mut keys, key).is_err() {
            return Err(OutOfMemory);
        }
    }
    listed(alloc, keys)
}

/// The GLOBAL lock, and the locks of the tables' schemas in key order.
pub(crate) fn scopes_of(alloc: Global, tables: &[Key]) -> Result<LockList, OutOfMemory>
    ensures { IfOk result (λ locks. locks ≡ record { keys = global_key ∷ in_key_order (map schema_of tables.now); tickets = [] }) }
{
    let mut keys = Vec::new(alloc);
    for table in tables {
        let Ok(key) = schema_of(alloc, table) else {
            return Err(OutOfMemory);
        };
        if place(&mut keys, key).is_err() {
            return Err(OutOfMemory);
        }
    }
    if keys.insert(0, Key::global(alloc)).is_err() {
        return Err(OutOfMemory);
    }
    listed(alloc, keys)
}

/// Whether a table is locked for writing.
pub(crate) fn is_write(lock_type: LockType) -> bool
    ensures { result ≡ is_write lock_type }
{
    match lock_type {
        LockType::Read => false,
        LockType::Write => true,
    }
}

/// Whether a table is among those that are locked for writing.
pub(crate) fn may_write(tables: &[TableLock], table: &Key) -> bool
    ensures { result ≡ may_write tables.now table.now }
{
    tables
        .iter()
        .any(|lock| is_write(lock.lock_type) && *table == lock.table)
}

/// The locks of the scopes of the tables that are locked for writing: GLOBAL and their schemas, or none.
pub(crate) fn scopes_around(alloc: Global, tables: &[TableLock]) -> Result<LockList, OutOfMemory>
    ensures { IfOk result (λ locks. locks ≡ record { keys = scopes_around (written_tables tables.now); tickets = [] }) }
{
    let mut keys = Vec::new(alloc);
    for lock in tables {
        if !is_write(lock.lock_type) {
            continue;
        }
        let Ok(key) = schema_of(alloc, &lock.table) else {
            return Err(OutOfMemory);
        };
        if place(&mut keys, key).is_err() {
            return Err(OutOfMemory);
        }
    }
    if !keys.is_empty() && keys.insert(0, Key::global(alloc)).is_err() {
        return Err(OutOfMemory);
    }
    listed(alloc, keys)
}

/// The locks of the tables that LOCK TABLES names, in key order.
pub(crate) fn named_in_order(alloc: Global, tables: &[TableLock]) -> Result<LockList, OutOfMemory>
    ensures { IfOk result (λ locks. locks ≡ record { keys = in_key_order (tables_of tables.now); tickets = [] }) }
{
    let mut keys = Vec::new(alloc);
    for lock in tables {
        let Ok(key) = lock.table.clone() else {
            return Err(OutOfMemory);
        };
        if place(&mut keys, key).is_err() {
            return Err(OutOfMemory);
        }
    }
    listed(alloc, keys)
}

/// The locks of these keys.
fn listed(alloc: Global, keys: Vec<Key>) -> Result<LockList, OutOfMemory>
    ensures { IfOk result (λ locks. locks ≡ record { keys = keys.items; tickets = [] }) }
{
    match LockList::new(alloc, keys) {
        Ok(locks) => Ok(locks),
        Err(_) => Err(OutOfMemory),
    }
}
