//! Changes of definitions.
ghost use Rattle.std.specs.Prelude.{◌≡◌, ◌++◌, [], ◌∷◌, Some, IfOk};
ghost use Rattle.mdl_key.specs.Refusals.{Refuses, RefusesJust};
ghost use Rattle.mdl_defs.specs.Changes.{change_fault, changed, gain_fault, loss_fault};
ghost use Rattle.mdl_defs.specs.Columns.{without_column};
ghost use Rattle.mdl_defs.specs.Definitions.{definition_fault};

use crate::definition::MOST_COLUMNS;
use crate::{Column, Columns, DefError, Definition};
use std::alloc::{AllocError, Global};

/// A change of the definition of a schema or a table.
#[derive(Drop, PartialEq, Eq)]
pub enum Change {
    /// Adds a definition. It is refused if there is one already.
    Create(Definition),
    /// Removes the definition.
    Drop,
    /// Adds a column to a table, at the end.
    AddColumn(Column),
    /// Removes a column from a table.
    DropColumn(Column),
    /// Sets the definition, whether there is one or not.
    Put(Definition),
}

impl Clone for Change {
    ghost is_clone = { λ change copy. copy ≡ change };

    fn clone(&self) -> Result<Change, AllocError> {
        match self {
            Change::Create(definition) => Ok(Change::Create(definition.clone()?)),
            Change::Drop => Ok(Change::Drop),
            Change::AddColumn(column) => Ok(Change::AddColumn(column.clone()?)),
            Change::DropColumn(column) => Ok(Change::DropColumn(column.clone()?)),
            Change::Put(definition) => Ok(Change::Put(definition.clone()?)),
        }
    }
}

/// Returns the definition after a change, `None` if there is none then, or why the change is refused. `Drop` takes no
/// memory.
///
/// After MySQL 5.7, the Reference Manual, "CREATE TABLE Statement" and "ALTER TABLE Statement".
pub fn apply(
    alloc: Global,
    standing: &Option<Definition>,
    change: &Change,
) -> Result<Option<Definition>, DefError>
    ensures done { IfOk result (λ after. after ≡ changed standing.now change.now) }
    ensures refused { Refuses (change_fault standing.now change.now) DefError.OutOfMemory result }
    ensures drop { change.now ≡ Change.Drop → RefusesJust (change_fault standing.now change.now) result }
{
    match (standing, change) {
        (Some(_), Change::Create(_)) => Err(DefError::Exists),
        (None, Change::Create(definition)) | (_, Change::Put(definition)) => put(definition),
        (None, _) => Err(DefError::Missing),
        (Some(_), Change::Drop) => Ok(None),
        (Some(Definition::Schema), Change::AddColumn(_) | Change::DropColumn(_)) => {
            Err(DefError::WrongKind)
        }
        (Some(Definition::Table(columns)), Change::AddColumn(column)) => add_column(
            columns, column,
        ),
        (Some(Definition::Table(columns)), Change::DropColumn(column)) => {
            drop_column(alloc, columns, column)
        }
    }
}

// Returns a copy of a definition if it is valid.
fn put(definition: &Definition) -> Result<Option<Definition>, DefError>
    ensures done { IfOk result (λ after. after ≡ Some definition.now) }
    ensures refused { Refuses (definition_fault definition.now) DefError.OutOfMemory result }
{
    definition.check()?;
    match definition.clone() {
        Ok(copy) => Ok(Some(copy)),
        Err(AllocError) => Err(DefError::OutOfMemory),
    }
}

// Returns a table with one column more, at the end.
fn add_column(columns: &Columns, column: &Column) -> Result<Option<Definition>, DefError>
    ensures done { IfOk result (λ after. after ≡ Some (Definition.Table (columns.now ++ column.now ∷ []))) }
    ensures refused { Refuses (gain_fault column.now columns.now) DefError.OutOfMemory result }
{
    if columns.contains(column) {
        return Err(DefError::DuplicateColumn);
    }
    if columns.as_slice().len() >= MOST_COLUMNS {
        return Err(DefError::ManyColumns);
    }
    table(columns.with(column))
}

// Returns a table without a column.
fn drop_column(
    alloc: Global,
    columns: &Columns,
    column: &Column,
) -> Result<Option<Definition>, DefError>
    ensures done { IfOk result (λ after. after ≡ Some (Definition.Table (without_column column.now columns.now))) }
    ensures refused { Refuses (loss_fault column.now columns.now) DefError.OutOfMemory result }
{
    if !columns.contains(column) {
        return Err(DefError::NoColumn);
    }
    if columns.as_slice().len() == 1 {
        return Err(DefError::LastColumn);
    }
    table(columns.without(alloc, column))
}

// Returns a table of these columns, if there was memory for them.
fn table(columns: Result<Columns, AllocError>) -> Result<Option<Definition>, DefError>
    ensures { result ≡ elim columns [ Ok columns ↦ Ok (Some (Definition.Table columns)) | Err _ ↦ Err DefError.OutOfMemory ] }
{
    match columns {
        Ok(columns) => Ok(Some(Definition::Table(columns))),
        Err(AllocError) => Err(DefError::OutOfMemory),
    }
}
