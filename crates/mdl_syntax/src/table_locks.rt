//! The tables of LOCK TABLES.
ghost use Rattle.std.specs.Prelude.{◌≡◌, [], ◌∷◌, ◌++◌, OnOk, OnErr};

use crate::LockType;
use mdl_key::Key;
use std::alloc::{AllocError, Global};
use std::marker::Model;

/// A table to lock.
#[derive(Drop)]
pub struct TableLock {
    /// The table.
    pub table: Key,
    /// What it is locked for.
    pub lock_type: LockType,
}

impl Clone for TableLock {
    ghost is_clone = { λ lock copy. copy ≡ lock };

    fn clone(&self) -> Result<TableLock, AllocError> {
        Ok(TableLock {
            table: self.table.clone()?,
            lock_type: self.lock_type,
        })
    }
}

/// The tables that LOCK TABLES names, in order.
#[derive(Drop)]
pub struct TableLocks {
    list: Vec<TableLock>,
}

impl Model for TableLocks {
    ghost use Rattle.std.specs.Prelude.{List};
    ghost use Rattle.mdl_syntax.specs.declared.table_locks.TableLock.{TableLock};

    ghost Value = { List TableLock };

    ghost view = { λ locks. locks.list.items };
}

impl TableLocks {
    /// Returns an empty list. Takes no memory.
    pub fn new(alloc: Global) -> TableLocks
        ensures { result ≡ [] }
    {
        TableLocks {
            list: Vec::new(alloc),
        }
    }

    /// Appends a table.
    pub fn push(&mut self, lock: TableLock) -> Result<(), AllocError>
        ensures pushed { OnOk result (self.new ≡ self.old ++ lock ∷ []) }
        ensures unchanged { OnErr result (self.new ≡ self.old) }
    {
        self.list.push(lock)?;
        Ok(())
    }

    /// Returns the tables, in order.
    pub fn as_slice(&self) -> &[TableLock]
        ensures { result.now ≡ self.now }
    {
        &self.list
    }
}

impl Clone for TableLocks {
    ghost is_clone = { λ locks copy. copy ≡ locks };

    fn clone(&self) -> Result<TableLocks, AllocError> {
        Ok(TableLocks {
            list: self.list.clone()?,
        })
    }
}
