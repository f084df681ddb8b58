//! Changes that tests ask for (wishes), and the definitions that they look for.
use mdl_defs::{Change, Column, Columns, Definition, VersionedDefinition};
use std::alloc::Global;

/// A requested change. A table that it makes has the one column `x`.
#[derive(Clone, Copy)]
pub(crate) enum Wish {
    CreateSchema,
    CreateTable,
    PutSchema,
    PutTable,
    Drop,
    AddX,
    AddY,
    DropX,
    DropY,
}

/// What a key defines: nothing, a schema, or a table with that number of columns.
#[derive(Clone, Copy, PartialEq, Eq)]
pub(crate) enum Shown {
    Nothing,
    Schema,
    Table(usize),
}

/// Returns what is defined.
pub(crate) fn what_stands(standing: &VersionedDefinition) -> Shown {
    match &standing.definition {
        None => Shown::Nothing,
        Some(Definition::Schema) => Shown::Schema,
        Some(Definition::Table(columns)) => Shown::Table(columns.as_slice().len()),
    }
}

/// Returns the requested change, unless memory runs out.
pub(crate) fn change_of(alloc: Global, wish: Wish) -> Option<Change> {
    match wish {
        Wish::CreateSchema => Some(Change::Create(Definition::Schema)),
        Wish::CreateTable => match table(alloc) {
            Some(table) => Some(Change::Create(table)),
            None => None,
        },
        Wish::PutSchema => Some(Change::Put(Definition::Schema)),
        Wish::PutTable => match table(alloc) {
            Some(table) => Some(Change::Put(table)),
            None => None,
        },
        Wish::Drop => Some(Change::Drop),
        Wish::AddX => with_column(alloc, "x", true),
        Wish::AddY => with_column(alloc, "y", true),
        Wish::DropX => with_column(alloc, "x", false),
        Wish::DropY => with_column(alloc, "y", false),
    }
}

// Returns a change that adds a column, or drops one.
fn with_column(alloc: Global, name: &str, more: bool) -> Option<Change> {
    match Column::new(alloc, name) {
        Ok(column) => Some(if more {
            Change::AddColumn(column)
        } else {
            Change::DropColumn(column)
        }),
        Err(_) => None,
    }
}

fn push_x(alloc: Global, columns: &mut Columns) -> bool {
    match Column::new(alloc, "x") {
        Ok(column) => columns.push(column).is_ok(),
        Err(_) => false,
    }
}

// Returns a table with the one column `x`.
fn table(alloc: Global) -> Option<Definition> {
    let mut columns = Columns::new(alloc);
    if push_x(alloc, &mut columns) {
        Some(Definition::Table(columns))
    } else {
        None
    }
}
