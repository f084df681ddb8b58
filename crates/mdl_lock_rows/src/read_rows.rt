//! Reading of a table.
ghost use Rattle.std.specs.Prelude.{◌≡◌, ◌++◌, ◌∷◌, [], List, Ok, IfOk, IfErr, OnOk};
ghost use Rattle.mdl_lock_rows.specs.Reading.{IsRefusalOf, lacking, lines_read, others_in, rows_in, rows_say, some_say, table_says};
ghost use Rattle.mdl_lock_rows.specs.declared.row.Line.{Line};

use crate::column::Column;
use crate::columns::{Columns, columns_of};
use crate::lines::row_says;
use crate::no_row::NoRow;
use crate::other_table::other_table;
use crate::row::{Line, OtherRow, Row};
use crate::row_error::LockRowsError;
use mdl_client_table::{Field, Row as TextRow, Table, read_table};
use std::alloc::{AllocError, Global};

/// The rows of a text, and those that are left out.
#[derive(Drop)]
pub(crate) struct Found {
    /// The rows, in order.
    pub(crate) rows: Vec<Row>,
    /// The rows that are left out, in order.
    pub(crate) others: Vec<OtherRow>,
}

/// Reads the rows of a text.
pub(crate) fn read_rows(alloc: Global, text: &[u8]) -> Result<Found, LockRowsError>
    ensures found { IfOk result (λ found. (lines : List Line) × (lines_read text.now ≡ Ok lines) × (found.rows.items ≡ rows_in lines) × (found.others.items ≡ others_in lines)) }
    ensures refused { IfErr result (IsRefusalOf (lines_read text.now)) }
{
    let table = read_table(alloc, text)?;
    read_found(alloc, &table)
}

// Reads the rows of a table.
fn read_found(alloc: Global, table: &Table) -> Result<Found, LockRowsError>
    ensures found { IfOk result (λ found. (lines : List Line) × (table_says table.now ≡ Ok lines) × (found.rows.items ≡ rows_in lines) × (found.others.items ≡ others_in lines)) }
    ensures refused { IfErr result (IsRefusalOf (table_says table.now)) }
{
    if table.names().is_empty() {
        return Err(LockRowsError::NoRows);
    }
    match columns_of(table.names()) {
        Ok(columns) => read_some(alloc, &columns, table.rows()),
        Err(column) => Err(lacking(table.names(), column)),
    }
}

// Why a table of these columns is refused, which lacks a needed one.
fn lacking(names: &[Field], column: Column) -> LockRowsError
    ensures { result ≡ lacking names.now column }
{
    match other_table(names) {
        Some(table) => LockRowsError::NotLocks(table),
        None => LockRowsError::NoColumn(column),
    }
}

// Reads rows, if there are any.
fn read_some(alloc: Global, columns: &Columns, rows: &[TextRow]) -> Result<Found, LockRowsError>
    ensures found { IfOk result (λ found. (lines : List Line) × (some_say columns.now rows.now ≡ Ok lines) × (found.rows.items ≡ rows_in lines) × (found.others.items ≡ others_in lines)) }
    ensures refused { IfErr result (IsRefusalOf (some_say columns.now rows.now)) }
{
    if rows.is_empty() {
        Err(LockRowsError::NoRows)
    } else {
        read_all(alloc, columns, rows)
    }
}

// Reads rows.
fn read_all(alloc: Global, columns: &Columns, rows: &[TextRow]) -> Result<Found, LockRowsError>
    ensures found { IfOk result (λ found. (lines : List Line) × (rows_say columns.now rows.now ≡ Ok lines) × (found.rows.items ≡ rows_in lines) × (found.others.items ≡ others_in lines)) }
    ensures refused { IfErr result (IsRefusalOf (rows_say columns.now rows.now)) }
{
    let mut found = Found {
        rows: Vec::new(alloc),
        others: Vec::new(alloc),
    };
    for row in rows {
        match row_says(alloc, columns, row) {
            Ok(line) => keep(&mut found, line)?,
            Err(NoRow::Refused(error)) => return Err(LockRowsError::Refused(row.line(), error)),
            Err(NoRow::Memory) => return Err(LockRowsError::OutOfMemory),
        }
    }
    Ok(found)
}

// Adds a row.
fn keep(found: &mut Found, line: Line) -> Result<(), AllocError>
    ensures { OnOk result ((found.new.rows.items ≡ found.old.rows.items ++ rows_in (line ∷ []))
        × (found.new.others.items ≡ found.old.others.items ++ others_in (line ∷ []))) }
{
    match line {
        Line::Kept(row) => found.rows.push(row)?,
        Line::LeftOut(class, is_waiting) => found.others.push(OtherRow { class, is_waiting })?,
    }
    Ok(())
}
