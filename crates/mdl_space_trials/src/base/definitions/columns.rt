//! Columns of a table.
use mdl_defs::{Column, Columns};
use std::alloc::Global;

/// Names of columns.
#[derive(Clone, Copy)]
pub(crate) enum Names {
    /// Exactly these names.
    These(&'static [&'static str]),
    /// The names c1, c2, .. up to a number, and then these.
    Numbered(u32, &'static [&'static str]),
}

// Adds a column with this name at the end. Whether it succeeded.
fn add(alloc: Global, columns: &mut Columns, name: &str) -> bool {
    match Column::new(alloc, name) {
        Ok(column) => columns.push(column).is_ok(),
        Err(_) => false,
    }
}

fn add_these(alloc: Global, columns: &mut Columns, names: &[&str]) -> bool {
    for name in names {
        if !add(alloc, columns, name) {
            return false;
        }
    }
    true
}

fn add_one_numbered(alloc: Global, columns: &mut Columns, number: u32) -> bool {
    match format!(in alloc; "c{number}") {
        Ok(name) => add(alloc, columns, name.as_str()),
        Err(_) => false,
    }
}

fn add_numbered(alloc: Global, columns: &mut Columns, last: u32) -> bool {
    for number in 1..=last {
        if !add_one_numbered(alloc, columns, number) {
            return false;
        }
    }
    true
}

/// Returns columns with these names, in order, if there was memory for them.
pub(crate) fn columns(alloc: Global, names: Names) -> Option<Columns> {
    let mut columns = Columns::new(alloc);
    let well = match names {
        Names::These(names) => add_these(alloc, &mut columns, names),
        Names::Numbered(last, names) => {
            add_numbered(alloc, &mut columns, last) && add_these(alloc, &mut columns, names)
        }
    };
    if well { Some(columns) } else { None }
}
