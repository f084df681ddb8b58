//! Columns of tables.
ghost use Rattle.std.specs.Prelude.{◌≡◌, ◌==◌, [], ◌∷◌, ◌++◌, OnOk, OnErr, IfOk};
ghost use Rattle.std.proofs.Common.{rules};
ghost use Rattle.std.specs.Cmp.Rules.{comparing};
ghost use lib.Pointwise.{pointwise};
ghost use Rattle.mdl_key.specs.Words.{name_fault, Refuses};
ghost use Rattle.mdl_defs.specs.Columns.{same_column, has_column, names_twice, without_column};

use mdl_key::{KeyError, check_name};
use std::alloc::{AllocError, Global};
use std::marker::Model;

/// The name of a column: 1 to [`LONGEST_NAME`](mdl_key::LONGEST_NAME) bytes of `a-z 0-9 _`.
#[derive(Drop)]
pub struct Column {
    name: String,
}

impl Model for Column {
    ghost use Rattle.std.specs.Prelude.{List, ℕ};
    ghost use Rattle.std.specs.String.{string_bytes};

    ghost Value = { List ℕ };

    ghost view = { λ column. string_bytes column.name };
}

impl Column {
    /// Creates a column with this name. A text that isn't a name is refused as in the key of a table.
    pub fn new(alloc: Global, name: &str) -> Result<Column, KeyError>
        ensures made { IfOk result (λ column. column ≡ name.now) }
        ensures refused { Refuses (name_fault name.now) KeyError.OutOfMemory result }
    {
        check_name(name)?;
        match String::from_str(alloc, name) {
            Ok(name) => Ok(Column { name }),
            Err(AllocError) => Err(KeyError::OutOfMemory),
        }
    }

    /// Returns the column's name.
    pub fn name(&self) -> &str
        ensures { result.now ≡ self.now }
    {
        self.name.as_str()
    }
}

impl Clone for Column {
    ghost is_clone = { λ column copy. copy ≡ column };

    fn clone(&self) -> Result<Column, AllocError> {
        Ok(Column {
            name: self.name.clone()?,
        })
    }
}

impl PartialEq for Column {
    ghost eq = { same_column };

    ghost laws = { Prim.search (comparing, rules) depth 9 };

    fn eq(&self, other: &Column) -> bool {
        self.name.as_str() == other.name.as_str()
    }
}

impl Eq for Column {
    ghost laws = { Prim.search (comparing, rules) depth 9 };
}

/// A list of columns, in order. Whether a table can have them is checked when a definition is created or put.
#[derive(Drop)]
pub struct Columns {
    list: Vec<Column>,
}

impl Model for Columns {
    ghost use Rattle.std.specs.Prelude.{List, ℕ};

    ghost Value = { List (List ℕ) };

    ghost view = { λ columns. columns.list.items };
}

impl Columns {
    /// Returns an empty list. It takes no memory.
    pub fn new(alloc: Global) -> Columns
        ensures { result ≡ [] }
    {
        Columns {
            list: Vec::new(alloc),
        }
    }

    /// Adds a column at the end.
    pub fn push(&mut self, column: Column) -> Result<(), AllocError>
        ensures pushed { OnOk result (self.new ≡ self.old ++ column ∷ []) }
        ensures unchanged { OnErr result (self.new ≡ self.old) }
    {
        self.list.push(column)?;
        Ok(())
    }

    /// Returns the columns, in order.
    pub fn as_slice(&self) -> &[Column]
        ensures { result.now ≡ self.now }
    {
        &self.list
    }

    // Whether the list has this column.
    pub(crate) fn contains(&self, column: &Column) -> bool
        ensures { result ≡ has_column column.now self.now }
    {
        self.list.contains(column)
    }

    /// Whether two columns have the same name.
    pub fn names_twice(&self) -> bool
        ensures { result ≡ names_twice self.now }
    {
        for (at, column) in self.list.iter().enumerate() {
            if self.list[at + 1..].contains(column) {
                return true;
            }
        }
        false
    }

    // Returns a copy of these columns with one more at the end.
    pub(crate) fn with(&self, column: &Column) -> Result<Columns, AllocError>
        ensures { IfOk result (λ columns. columns ≡ self.now ++ column.now ∷ []) }
    {
        let mut columns = self.clone()?;
        columns.push(column.clone()?)?;
        Ok(columns)
    }

    // Returns a copy of these columns without this one, in order.
    pub(crate) fn without(&self, alloc: Global, column: &Column) -> Result<Columns, AllocError>
        ensures { IfOk result (λ columns. columns ≡ without_column column.now self.now) }
    {
        let mut columns = Columns::new(alloc);
        for other in &self.list {
            if other != column {
                columns.push(other.clone()?)?;
            }
        }
        Ok(columns)
    }
}

impl Clone for Columns {
    ghost is_clone = { λ columns copy. copy ≡ columns };

    fn clone(&self) -> Result<Columns, AllocError> {
        Ok(Columns {
            list: self.list.clone()?,
        })
    }
}

impl PartialEq for Columns {
    ghost eq = { pointwise same_column };

    ghost laws = { Prim.search (comparing, rules) depth 9 };

    fn eq(&self, other: &Columns) -> bool {
        self.list == other.list
    }
}

impl Eq for Columns {
    ghost laws = { Prim.search (comparing, rules) depth 9 };
}
