//! Definitions of schemas and tables.
ghost use Rattle.std.specs.Prelude.{◌≡◌};
ghost use Rattle.mdl_key.specs.Refusals.{RefusesJust};
ghost use Rattle.mdl_defs.specs.Definitions.{columns_fault, definition_fault};

use crate::{Columns, DefError};
use std::alloc::AllocError;

/// The most columns that a table can have.
pub const MOST_COLUMNS: usize = 64;

/// The definition of a schema or a table.
///
/// A value can have any columns. [`apply`](crate::apply) accepts a new table only if it has 1 to [`MOST_COLUMNS`] columns, no two of
/// one name.
#[derive(Drop, PartialEq, Eq)]
pub enum Definition {
    /// A schema. Its tables have definitions of their own.
    Schema,
    /// A table, with its columns in order.
    Table(Columns),
}

impl Definition {
    // Checks whether this is a valid definition.
    pub(crate) fn check(&self) -> Result<(), DefError>
        ensures { RefusesJust (definition_fault self.now) result }
    {
        match self {
            Definition::Schema => Ok(()),
            Definition::Table(columns) => check_columns(columns),
        }
    }
}

impl Clone for Definition {
    ghost is_clone = { λ definition copy. copy ≡ definition };

    fn clone(&self) -> Result<Definition, AllocError> {
        match self {
            Definition::Schema => Ok(Definition::Schema),
            Definition::Table(columns) => Ok(Definition::Table(columns.clone()?)),
        }
    }
}

// Checks whether a table can have these columns.
fn check_columns(columns: &Columns) -> Result<(), DefError>
    ensures { RefusesJust (columns_fault columns.now) result }
{
    if columns.names_twice() {
        return Err(DefError::DuplicateColumn);
    }
    match columns.as_slice().len() {
        0 => Err(DefError::WrongKind),
        1..=MOST_COLUMNS => Ok(()),
        _ => Err(DefError::ManyColumns),
    }
}
