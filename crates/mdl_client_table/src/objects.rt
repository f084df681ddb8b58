//! Rows in JSON, piece by piece.
ghost use Rattle.std.specs.Prelude.{◌≡◌, OnOk, true};
ghost use Rattle.mdl_client_table.specs.Objects.{cell_fault, fault_at, has_failed, key_fault, missed, objects_end, wants_row, with_cell, with_fault, with_json_value, with_key, with_mark, with_next, with_row_begun, with_row_ended};

use crate::field::{Field, has_key};
use crate::json_cell::Cell;
use crate::json_error::{JsonError, JsonFault, Place};
use crate::table::Table;
use std::alloc::{AllocError, Global};
use std::marker::Model;
use std::mem;

/// A mark of JSON.
#[derive(Clone, Copy)]
pub(crate) enum Mark {
    OpenList,
    CloseList,
    OpenRow,
    CloseRow,
    Comma,
    Colon,
}

/// What may come next.
#[derive(Clone, Copy)]
pub(crate) enum Expected {
    /// An array or a row: nothing was read yet.
    Start,
    /// A row or the end of the array: the array has begun.
    FirstRow,
    /// A row: a comma is between it and the one before.
    NextRow,
    /// A comma or the end of the array.
    AfterRow,
    /// A row or the end of the text: the rows aren't in an array.
    Rows,
    /// The end of the text.
    End,
    /// A key or the end of the row: the row has begun.
    FirstKey,
    /// A key.
    NextKey,
    /// A colon.
    Colon,
    /// A value.
    Value,
    /// A comma or the end of the row.
    AfterValue,
    /// Nothing: there was a fault.
    Failed(JsonFault),
}

impl Expected {
    // Whether a fault was found.
    fn has_failed(self) -> bool
        ensures { result ≡ has_failed self }
    {
        matches!(self, Expected::Failed(_))
    }

    // Whether a row has to come next, unless the rows end.
    fn wants_row(self) -> bool
        ensures { result ≡ wants_row self }
    {
        matches!(
            self,
            Expected::Start | Expected::FirstRow | Expected::NextRow | Expected::Rows
        )
    }

    // What is wrong if something else comes than what may.
    fn missed(self) -> JsonError
        ensures { result ≡ missed self }
    {
        if self.wants_row() {
            JsonError::NotARow
        } else {
            JsonError::Unexpected
        }
    }

    // What is wrong if a string or a word comes where none may.
    fn cell_fault(self, cell: &Cell) -> JsonError
        ensures { result ≡ cell_fault self cell.now }
    {
        match cell {
            Cell::Wrong => if self.wants_row() {
                JsonError::NotARow
            } else {
                JsonError::BadCell
            },
            _ => self.missed(),
        }
    }
}

// A fault at this place.
fn fault_at(place: Place, error: JsonError) -> JsonFault
    ensures { result ≡ fault_at place error }
{
    JsonFault {
        line: place.line,
        column: place.column,
        error,
    }
}

/// Rows while they are read.
#[derive(Drop)]
pub(crate) struct Objects {
    table: Table,
    expected: Expected,
    in_list: bool,
    line: u64,
    keys: Vec<Field>,
    values: Vec<Field>,
}

impl Model for Objects {
    ghost use Rattle.mdl_client_table.specs.Objects.{ObjectsText};

    ghost Value = { ObjectsText };

    ghost view = { λ all. record {
      table = all.table;
      expected = all.expected;
      in_list = all.in_list;
      line = all.line;
      keys = all.keys.items;
      values = all.values.items;
    } };
}

impl Objects {
    ghost use Rattle.mdl_client_table.specs.Objects.{no_objects};

    /// Returns nothing that was read.
    pub(crate) fn new(alloc: Global) -> Objects
        ensures { result ≡ no_objects }
    {
        Objects {
            table: Table::new(alloc),
            expected: Expected::Start,
            in_list: false,
            line: 1,
            keys: Vec::new(alloc),
            values: Vec::new(alloc),
        }
    }

    /// Adds a mark.
    pub(crate) fn add_mark(
        &mut self,
        alloc: Global,
        place: Place,
        mark: Mark,
    ) -> Result<(), AllocError>
        ensures { OnOk result (self.new ≡ with_mark place mark self.old) }
    {
        match (self.expected, mark) {
            (Expected::Start, Mark::OpenList) => self.begin_list(),
            (
                Expected::Start | Expected::FirstRow | Expected::NextRow | Expected::Rows,
                Mark::OpenRow,
            ) => self.begin_row(place),
            (Expected::FirstRow | Expected::AfterRow, Mark::CloseList) => self.expect(
                Expected::End,
            ),
            (Expected::AfterRow, Mark::Comma) => self.expect(Expected::NextRow),
            (Expected::FirstKey | Expected::AfterValue, Mark::CloseRow) => self.end_row(alloc)?,
            (Expected::Colon, Mark::Colon) => self.expect(Expected::Value),
            (Expected::AfterValue, Mark::Comma) => self.expect(Expected::NextKey),
            (Expected::Value, Mark::OpenList | Mark::OpenRow) => self.fail(
                place,
                JsonError::NotAValue,
            ),
            (expected, _) => self.fail(place, expected.missed()),
        }
        Ok(())
    }

    /// Adds a string or a word.
    pub(crate) fn add_cell(
        &mut self,
        alloc: Global,
        place: Place,
        cell: Cell,
    ) -> Result<(), AllocError>
        ensures { OnOk result (self.new ≡ with_cell place cell self.old) }
    {
        match (self.expected, cell) {
            (Expected::FirstKey | Expected::NextKey, Cell::Text(key)) => self.add_key(place, key),
            (Expected::Value, Cell::Text(value) | Cell::Number(value)) => self.add_value(value),
            (Expected::Value, Cell::Null) => self.add_value(Field::copied(alloc, &[])?),
            (Expected::Value, Cell::Boolean) => {
                self.fail(place, JsonError::NotAValue);
                Ok(())
            }
            (expected, cell) => {
                self.fail(place, expected.cell_fault(&cell));
                Ok(())
            }
        }
    }

    /// Returns the table, or the first fault. The text's last piece begins at this place.
    pub(crate) fn finish(self, place: Place) -> Result<Table, JsonFault>
        ensures { objects_end self.expected place self.table ≡ result }
    {
        match self.expected {
            Expected::End | Expected::Rows => Ok(self.table),
            Expected::Failed(fault) => Err(fault),
            _ => Err(fault_at(place, JsonError::TextEnds)),
        }
    }

    // Notes what may come next.
    fn expect(&mut self, expected: Expected)
        ensures { self.new ≡ with_next expected self.old }
    {
        self.expected = expected;
    }

    // Notes a fault, if it is the first.
    fn fail(&mut self, place: Place, error: JsonError)
        ensures { self.new ≡ with_fault place error self.old }
    {
        if !self.expected.has_failed() {
            self.expected = Expected::Failed(fault_at(place, error));
        }
    }

    // Begins an array.
    fn begin_list(&mut self)
        ensures { self.new ≡ record self.old { expected = Expected.FirstRow; in_list = true } }
    {
        self.expected = Expected::FirstRow;
        self.in_list = true;
    }

    // Begins a row.
    fn begin_row(&mut self, place: Place)
        ensures { self.new ≡ with_row_begun place self.old }
    {
        self.expected = Expected::FirstKey;
        self.line = place.line;
    }

    // Ends a row.
    fn end_row(&mut self, alloc: Global) -> Result<(), AllocError>
        ensures { OnOk result (self.new ≡ with_row_ended self.old) }
    {
        let keys = mem::replace(&mut self.keys, Vec::new(alloc));
        let values = mem::replace(&mut self.values, Vec::new(alloc));
        self.table.add_object(alloc, self.line, keys, values)?;
        self.expected = if self.in_list {
            Expected::AfterRow
        } else {
            Expected::Rows
        };
        Ok(())
    }

    // Adds a key.
    fn add_key(&mut self, place: Place, key: Field) -> Result<(), AllocError>
        ensures { OnOk result (self.new ≡ with_key place key self.old) }
    {
        if let Some(error) = self.key_fault(key.as_slice()) {
            self.fail(place, error);
            return Ok(());
        }
        self.keys.push(key)?;
        self.expected = Expected::Colon;
        Ok(())
    }

    // What is wrong with a key.
    fn key_fault(&self, key: &[u8]) -> Option<JsonError>
        ensures { result ≡ key_fault key.now self.now }
    {
        if has_key(&self.keys, key) {
            Some(JsonError::KeyTwice)
        } else if !self.table.rows().is_empty() && !has_key(self.table.names(), key) {
            Some(JsonError::NewKey)
        } else {
            None
        }
    }

    // Adds a value.
    fn add_value(&mut self, value: Field) -> Result<(), AllocError>
        ensures { OnOk result (self.new ≡ with_json_value value self.old) }
    {
        self.values.push(value)?;
        self.expected = Expected::AfterValue;
        Ok(())
    }
}
