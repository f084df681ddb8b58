//! The replies of statements.
ghost use Rattle.std.specs.Prelude.{◌≡◌, [], ◌∷◌, ◌++◌, OnOk, OnErr};

use crate::ErrorNumber;
use mdl_defs::Columns;
use mdl_key::Key;
use std::alloc::{AllocError, Global};
use std::marker::Model;

/// A table that a statement read.
#[derive(Drop)]
pub struct TableShown {
    /// The table.
    pub key: Key,
    /// The version of its definition: how often it had been changed.
    pub version: u64,
    /// Its columns, in order.
    pub columns: Columns,
}

/// The tables that a statement read, in the order in which it names them.
#[derive(Drop)]
pub struct TablesShown {
    list: Vec<TableShown>,
}

impl Model for TablesShown {
    ghost use Rattle.std.specs.Prelude.{List};
    ghost use Rattle.mdl_rows.specs.declared.reply.TableShown.{TableShown};

    ghost Value = { List TableShown };

    ghost view = { λ tables. tables.list.items };
}

impl TablesShown {
    /// Creates an empty list. Takes no memory.
    pub fn new(alloc: Global) -> TablesShown
        ensures { result ≡ [] }
    {
        TablesShown {
            list: Vec::new(alloc),
        }
    }

    /// Adds a table at the end.
    pub fn push(&mut self, table: TableShown) -> Result<(), AllocError>
        ensures pushed { OnOk result (self.new ≡ self.old ++ table ∷ []) }
        ensures unchanged { OnErr result (self.new ≡ self.old) }
    {
        self.list.push(table)?;
        Ok(())
    }

    /// The tables, in order.
    pub fn as_slice(&self) -> &[TableShown]
        ensures { result.now ≡ self.now }
    {
        &self.list
    }
}

/// A finished statement's reply.
#[derive(Drop)]
pub enum Reply {
    /// The statement succeeded, with nothing to show.
    Ok,
    /// The statement succeeded, with tables to show.
    Columns(TablesShown),
    /// The statement succeeded, with a truth value to show: 1 or 0.
    Number(bool),
    /// The statement succeeded, with NULL to show.
    Null,
    /// The statement failed.
    Error(ErrorNumber),
}
