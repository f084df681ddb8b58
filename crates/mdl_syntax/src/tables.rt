//! The tables of a statement.
ghost use Rattle.std.specs.Prelude.{◌≡◌, [], ◌∷◌, ◌++◌, IfOk, OnOk, OnErr};

use mdl_key::Key;
use std::alloc::{AllocError, Global};
use std::marker::Model;
use std::slice;

/// The keys of tables, in the order in which a statement names them.
#[derive(Drop)]
pub struct Tables {
    // The only table, which takes no memory but its key's. Then the list is empty.
    only: Option<Key>,
    list: Vec<Key>,
}

impl Model for Tables {
    ghost use Rattle.std.specs.Prelude.{◌≡◌, List, [], None, IfSome};
    ghost use Rattle.mdl_key.specs.Keys.{KeyName};
    ghost use Rattle.mdl_syntax.specs.Tables.{only_or_list};

    ghost Value = { List KeyName };

    ghost view = { λ tables. only_or_list tables.only tables.list.items };

    ghost invariant = { λ tables. IfSome tables.only (λ _. tables.list.items ≡ []) };
}

impl Tables {
    /// Returns an empty list. Takes no memory.
    pub fn new(alloc: Global) -> Tables
        ensures { result ≡ [] }
    {
        Tables {
            only: None,
            list: Vec::new(alloc),
        }
    }

    /// Returns a list of one table. Takes no memory.
    pub(crate) fn of_one(alloc: Global, table: Key) -> Tables
        ensures { result ≡ table ∷ [] }
    {
        Tables {
            only: Some(table),
            list: Vec::new(alloc),
        }
    }

    /// Returns an empty list with room for `most` tables and no more. A script keeps its tables until its end.
    pub(crate) fn with_room(alloc: Global, most: usize) -> Result<Tables, AllocError>
        ensures { IfOk result (λ tables. tables ≡ []) }
    {
        Ok(Tables {
            only: None,
            list: Vec::with_capacity(alloc, most)?,
        })
    }

    /// Appends a table.
    pub fn push(&mut self, table: Key) -> Result<(), AllocError>
        ensures pushed { OnOk result (self.new ≡ self.old ++ table ∷ []) }
        ensures unchanged { OnErr result (self.new ≡ self.old) }
    {
        if let Some(only) = self.only.take() {
            if let Err(full) = self.list.push(only) {
                self.only = Some(full.value);
                return Err(AllocError);
            }
        }
        self.list.push(table)?;
        Ok(())
    }

    /// Returns the tables, in order.
    pub fn as_slice(&self) -> &[Key]
        ensures { result.now ≡ self.now }
    {
        match &self.only {
            Some(only) => slice::from_ref(only),
            None => &self.list,
        }
    }
}

impl Clone for Tables {
    ghost is_clone = { λ tables copy. copy ≡ tables };

    fn clone(&self) -> Result<Tables, AllocError> {
        Ok(Tables {
            only: self.only.clone()?,
            list: self.list.clone()?,
        })
    }
}
