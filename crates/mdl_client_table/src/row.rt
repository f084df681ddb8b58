//! Rows of a table.
ghost use Rattle.std.specs.Prelude.{◌≡◌, [], ◌∷◌, ◌++◌, OnOk, length, slice_get, unwrap_or};
ghost use Rattle.mdl_client_table.specs.Tables.{changed_last, continued_row, row_at};
ghost use Rattle.mdl_client_table.specs.Vertical.{with_value};

use crate::field::Field;
use crate::vertical::value_text;
use std::alloc::{AllocError, Global};
use std::marker::Model;

/// A row of a table.
#[derive(Drop)]
pub struct Row {
    line: u64,
    fields: Vec<Field>,
}

impl Model for Row {
    ghost use Rattle.mdl_client_table.specs.Tables.{RowText};

    ghost Value = { RowText };

    ghost view = { λ row. record { line = row.line; fields = row.fields.items } };
}

impl Row {
    /// Returns a row that begins in the line of this number.
    pub(crate) fn new(line: u64, fields: Vec<Field>) -> Row
        ensures { result ≡ row_at line fields.items }
    {
        Row { line, fields }
    }

    /// Returns the number of the row's first line, counted from 1.
    pub fn line(&self) -> u64
        ensures { result ≡ self.now.line }
    {
        self.line
    }

    /// Returns the number of fields.
    pub fn count(&self) -> usize
        ensures { result ≡ length self.now.fields }
    {
        self.fields.len()
    }

    /// Returns the field at an index, counted from 0. It is empty if there is none.
    pub fn field(&self, place: usize) -> &[u8]
        ensures { result.now ≡ unwrap_or (slice_get self.now.fields place) [] }
    {
        match self.fields.get(place) {
            Some(field) => field.as_slice(),
            None => &[],
        }
    }

    /// Adds a line of a vertical row: one more field, or a part of the last one.
    pub(crate) fn add_line(
        &mut self,
        alloc: Global,
        is_field: bool,
        line: &[u8],
    ) -> Result<(), AllocError>
        ensures { OnOk result (self.new ≡ with_value is_field line.now self.old) }
    {
        if is_field {
            self.fields.push(Field::printed(alloc, value_text(line))?)?;
            return Ok(());
        }
        self.continue_line(line)
    }

    /// Adds a line to the last field.
    pub(crate) fn continue_line(&mut self, line: &[u8]) -> Result<(), AllocError>
        ensures { OnOk result (self.new ≡ continued_row line.now self.old) }
    {
        continue_last(&mut self.fields, line)
    }
}

// Adds a line to the last field, if there is one.
fn continue_last(fields: &mut Vec<Field>, line: &[u8]) -> Result<(), AllocError>
    ensures { OnOk result (fields.new.items ≡ changed_last (λ field. field ++ 10 ∷ line.now) fields.old.items) }
{
    let count = fields.len();
    if count == 0 {
        return Ok(());
    }
    fields[count - 1].join(b'\n', line)
}
