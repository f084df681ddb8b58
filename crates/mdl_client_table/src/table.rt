//! Tables, line by line.
ghost use Rattle.std.specs.Prelude.{◌≡◌, OnOk};
ghost use Rattle.mdl_client_table.specs.Objects.{with_object};
ghost use Rattle.mdl_client_table.specs.Tables.{changed_last, continued_row, continued_table, no_table, with_fields, with_row};
ghost use Rattle.mdl_client_table.specs.Tabs.{with_tab_line};
ghost use Rattle.mdl_client_table.specs.Vertical.{last_count, with_value, with_value_line};

use crate::field::{Field, values_under};
use crate::pieces::tab_fields;
use crate::row::Row;
use crate::vertical::{is_field_line, label_of};
use std::alloc::{AllocError, Global};
use std::marker::Model;

/// A table: the names of its columns, and its rows. It has no names if the text has no header.
#[derive(Drop)]
pub struct Table {
    names: Vec<Field>,
    rows: Vec<Row>,
}

impl Model for Table {
    ghost use Rattle.mdl_client_table.specs.Tables.{TableText};

    ghost Value = { TableText };

    ghost view = { λ table. record { names = table.names.items; rows = table.rows.items } };
}

impl Table {
    /// Returns a table without a header and without rows.
    pub(crate) fn new(alloc: Global) -> Table
        ensures { result ≡ no_table }
    {
        Table {
            names: Vec::new(alloc),
            rows: Vec::new(alloc),
        }
    }

    /// Returns the names of the columns. Names of vertical tables have spaces before them.
    pub fn names(&self) -> &[Field]
        ensures { result.now ≡ self.now.names }
    {
        self.names.as_slice()
    }

    /// Returns the rows, in order.
    pub fn rows(&self) -> &[Row]
        ensures { result.now ≡ self.now.rows }
    {
        self.rows.as_slice()
    }

    /// Adds a line with tabs.
    pub(crate) fn add_tab_line(
        &mut self,
        alloc: Global,
        number: u64,
        line: &[u8],
    ) -> Result<(), AllocError>
        ensures { OnOk result (self.new ≡ with_tab_line number line.now self.old) }
    {
        if line.is_empty() {
            return Ok(());
        }
        let fields = tab_fields(alloc, line)?;
        self.add_fields(number, fields)
    }

    /// Adds fields: the names of the columns, if there are none yet, or else a row.
    pub(crate) fn add_fields(&mut self, number: u64, fields: Vec<Field>) -> Result<(), AllocError>
        ensures { OnOk result (self.new ≡ with_fields number fields.items self.old) }
    {
        if self.names.is_empty() {
            self.names = fields;
            return Ok(());
        }
        self.add_row(number, fields)
    }

    /// Adds a row.
    pub(crate) fn add_row(&mut self, number: u64, fields: Vec<Field>) -> Result<(), AllocError>
        ensures { OnOk result (self.new ≡ with_row number fields.items self.old) }
    {
        self.rows.push(Row::new(number, fields))?;
        Ok(())
    }

    /// Adds a row, whose object has these keys and values.
    pub(crate) fn add_object(
        &mut self,
        alloc: Global,
        line: u64,
        keys: Vec<Field>,
        values: Vec<Field>,
    ) -> Result<(), AllocError>
        ensures { OnOk result (self.new ≡ with_object line keys.items values.items self.old) }
    {
        if self.rows.is_empty() {
            self.names = keys;
            return self.add_row(line, values);
        }
        let fields = values_under(alloc, &keys, &values, &self.names)?;
        self.add_row(line, fields)
    }

    /// Adds a line to the last field of the last row.
    pub(crate) fn continue_line(&mut self, line: &[u8]) -> Result<(), AllocError>
        ensures { OnOk result (self.new ≡ continued_table line.now self.old) }
    {
        continue_row(&mut self.rows, line)
    }

    /// Adds a line to the last row of a vertical table.
    pub(crate) fn add_value_line(&mut self, alloc: Global, line: &[u8]) -> Result<(), AllocError>
        ensures { OnOk result (self.new ≡ with_value_line line.now self.old) }
    {
        let count = self.rows.len();
        let is_field = is_field_line(count, &self.names, last_count(&self.rows), line);
        if count == 1 && is_field {
            self.names.push(Field::copied(alloc, label_of(line))?)?;
        }
        add_to_last(&mut self.rows, alloc, is_field, line)
    }
}

// Returns the number of fields of the last row.
fn last_count(rows: &[Row]) -> usize
    ensures { result ≡ last_count rows.now }
{
    let many = rows.len();
    if many == 0 {
        return 0;
    }
    rows[many - 1].count()
}

// Adds a line to the last row, if there is one.
fn add_to_last(
    rows: &mut Vec<Row>,
    alloc: Global,
    is_field: bool,
    line: &[u8],
) -> Result<(), AllocError>
    ensures { OnOk result (rows.new.items ≡ changed_last (with_value is_field line.now) rows.old.items) }
{
    let count = rows.len();
    if count == 0 {
        return Ok(());
    }
    rows[count - 1].add_line(alloc, is_field, line)
}

// Adds a line to the last field of the last row, if there is one.
fn continue_row(rows: &mut Vec<Row>, line: &[u8]) -> Result<(), AllocError>
    ensures { OnOk result (rows.new.items ≡ changed_last (continued_row line.now) rows.old.items) }
{
    let count = rows.len();
    if count == 0 {
        return Ok(());
    }
    rows[count - 1].continue_line(line)
}
