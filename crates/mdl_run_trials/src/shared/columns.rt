//! Definitions of tables, and a change of one, unless memory runs out.
use mdl_defs::{Change, Column, Columns, Definition};
use std::alloc::Global;

/// Returns a table of one column.
pub(crate) fn table(alloc: Global, column: &str) -> Option<Definition> {
    let column = Column::new(alloc, column).ok()?;
    let mut columns = Columns::new(alloc);
    match columns.push(column) {
        Ok(()) => Some(Definition::Table(columns)),
        Err(_) => None,
    }
}

/// Returns the change that adds a column to a table.
pub(crate) fn adding(alloc: Global, column: &str) -> Option<Change> {
    match Column::new(alloc, column) {
        Ok(column) => Some(Change::AddColumn(column)),
        Err(_) => None,
    }
}
