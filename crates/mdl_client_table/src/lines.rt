//! Reading of a text.
ghost use Rattle.std.specs.Prelude.{◌≡◌, ◌∷◌, [], Ok, IfOk, IfErr, OnOk};
ghost use Rattle.mdl_lines.specs.Words.{lines_of};
ghost use Rattle.mdl_client_table.specs.Boxes.{begins_with_bar};
ghost use Rattle.mdl_client_table.specs.Cells.{begins_row_of, goes_on, split_rows, with_raw_line};
ghost use Rattle.mdl_client_table.specs.Forms.{IsTableFault, form_begun, json_table, nothing_read, table_from, table_of, with_form_line, with_line, with_line_above, with_lines, without_mark};
ghost use Rattle.mdl_client_table.specs.Vertical.{with_vertical_line};

use crate::cells::fields_in;
use crate::commas::is_quote_open;
use crate::field::Field;
use crate::form::Form;
use crate::json_error::TableError;
use crate::json_reading::Json;
use crate::pieces::trimmed;
use crate::remarks::{is_footer, is_remark};
use crate::row::Row;
use crate::table::Table;
use crate::vertical::begins_row;
use mdl_lines::strip_carriage_return;
use std::alloc::{AllocError, Global};
use std::marker::Model;

// A table while it is read: its form, if a line began one, and whether its last row may go on in the next line.
#[derive(Drop)]
struct Reading {
    form: Option<Form>,
    table: Table,
    is_open: bool,
    json: Json,
}

impl Model for Reading {
    ghost use Rattle.mdl_client_table.specs.Cells.{ReadingText};

    ghost Value = { ReadingText };

    ghost view = { λ reading. record { form = reading.form; table = reading.table; is_open = reading.is_open; json = reading.json } };
}

/// Reads a printed table. Any text is one, unless it is in JSON; a text without a header has no rows.
pub fn read_table(alloc: Global, text: &[u8]) -> Result<Table, TableError>
    ensures read { IfOk result (λ table. table_of text.now ≡ Ok table) }
    ensures refused { IfErr result (IsTableFault (table_of text.now)) }
{
    let reading = read_lines(alloc, without_mark(text))?;
    table_from(alloc, reading)
}

// Returns a text without the mark that some programs write before text in UTF-8.
fn without_mark(text: &[u8]) -> &[u8]
    ensures { result.now ≡ without_mark text.now }
{
    match text {
        [0xEF, 0xBB, 0xBF, rest @ ..] => rest,
        _ => text,
    }
}

// Reads the lines of a text.
fn read_lines(alloc: Global, text: &[u8]) -> Result<Reading, AllocError>
    ensures { IfOk result (λ reading. reading ≡ with_lines 1 (lines_of text.now) nothing_read) }
{
    let mut reading = Reading {
        form: None,
        table: Table::new(alloc),
        is_open: false,
        json: Json::new(alloc),
    };
    let mut number = 0;
    for line in text.split(|byte| *byte == b'\n') {
        number += 1;
        reading.add_line(alloc, number, strip_carriage_return(line))?;
    }
    Ok(reading)
}

// Returns the table of what was read.
fn table_from(alloc: Global, reading: Reading) -> Result<Table, TableError>
    ensures read { IfOk result (λ table. table_from reading ≡ Ok table) }
    ensures refused { IfErr result (IsTableFault (table_from reading)) }
{
    match reading.form {
        None | Some(Form::Tabs | Form::Vertical) => Ok(reading.table),
        Some(Form::Boxes) => Ok(split_rows(alloc, Form::Boxes, reading.table.rows())?),
        Some(Form::Commas) => Ok(split_rows(alloc, Form::Commas, reading.table.rows())?),
        Some(Form::Json) => match reading.json.finish() {
            Ok(table) => Ok(table),
            Err(fault) => Err(TableError::Json(fault)),
        },
    }
}

// Returns the table of rows, each of which has its text as its one field.
fn split_rows(alloc: Global, form: Form, rows: &[Row]) -> Result<Table, AllocError>
    ensures { IfOk result (λ table. table ≡ split_rows form rows.now) }
{
    let mut table = Table::new(alloc);
    for row in rows {
        let fields = fields_in(alloc, form, row.field(0))?;
        table.add_fields(row.line(), fields)?;
    }
    Ok(table)
}

impl Reading {
    // Adds a line of the text.
    fn add_line(&mut self, alloc: Global, number: u64, line: &[u8]) -> Result<(), AllocError>
        ensures { OnOk result (self.new ≡ with_line number line.now self.old) }
    {
        match self.form {
            Some(form) => self.add_form_line(alloc, form, number, line),
            None => self.add_line_above(alloc, number, line),
        }
    }

    // Adds a line above the table, or the first one of the table.
    fn add_line_above(&mut self, alloc: Global, number: u64, line: &[u8]) -> Result<(), AllocError>
        ensures { OnOk result (self.new ≡ with_line_above (form_begun line.now) number line.now self.old) }
    {
        match Form::begun_by(line) {
            Some(form) => {
                self.form = Some(form);
                self.table = Table::new(alloc);
                self.add_form_line(alloc, form, number, line)
            }
            None if is_remark(line) => Ok(()),
            None => self.table.add_tab_line(alloc, number, line),
        }
    }

    // Adds a line of a table of this form.
    fn add_form_line(
        &mut self,
        alloc: Global,
        form: Form,
        number: u64,
        line: &[u8],
    ) -> Result<(), AllocError>
        ensures { OnOk result (self.new ≡ with_form_line form number line.now self.old) }
    {
        match form {
            Form::Tabs => self.table.add_tab_line(alloc, number, line),
            Form::Vertical => self.add_vertical_line(alloc, number, line),
            Form::Boxes | Form::Commas => self.add_raw_line(alloc, form, number, line),
            Form::Json => self.json.add_line(alloc, number, line),
        }
    }

    // Adds a line of a vertical table: one that begins a row, one of the last row, or one behind the rows.
    fn add_vertical_line(
        &mut self,
        alloc: Global,
        number: u64,
        line: &[u8],
    ) -> Result<(), AllocError>
        ensures { OnOk result (self.new ≡ with_vertical_line number line.now self.old) }
    {
        if begins_row(line) {
            self.table.add_row(number, Vec::new(alloc))?;
            self.is_open = true;
        } else if is_footer(trimmed(line)) {
            self.is_open = false;
        } else if self.is_open && !line.is_empty() {
            self.table.add_value_line(alloc, line)?;
        }
        Ok(())
    }

    // Adds a line to the last row, if that goes on, or else a row, if the line begins one.
    fn add_raw_line(
        &mut self,
        alloc: Global,
        form: Form,
        number: u64,
        line: &[u8],
    ) -> Result<(), AllocError>
        ensures { OnOk result (self.new ≡ with_raw_line form number line.now self.old) }
    {
        if self.is_open {
            self.table.continue_line(line)?;
            self.is_open = goes_on(form, true, line);
        } else if begins_row_of(form, line) {
            self.table.add_row(number, one_field(alloc, line)?)?;
            self.is_open = goes_on(form, false, line);
        }
        Ok(())
    }
}

// Returns a row's text as its one field.
fn one_field(alloc: Global, line: &[u8]) -> Result<Vec<Field>, AllocError>
    ensures { IfOk result (λ fields. fields.items ≡ line.now ∷ []) }
{
    let mut fields = Vec::new(alloc);
    fields.push(Field::copied(alloc, line)?)?;
    Ok(fields)
}

// Whether a line begins a row.
fn begins_row_of(form: Form, line: &[u8]) -> bool
    ensures { result ≡ begins_row_of form line.now }
{
    match form {
        Form::Boxes => begins_with_bar(trimmed(line)),
        _ => !line.is_empty(),
    }
}

// Whether a text begins with a bar that isn't of an edge.
fn begins_with_bar(text: &[u8]) -> bool
    ensures { result ≡ begins_with_bar text.now }
{
    match text {
        [b'|', b'-', ..] => false,
        [b'|', ..] => true,
        _ => false,
    }
}

// Whether a row goes on behind a line, given whether it went on before the line.
fn goes_on(form: Form, was: bool, line: &[u8]) -> bool
    ensures { result ≡ goes_on form was line.now }
{
    match form {
        Form::Boxes => !trimmed(line).ends_with(b" |".as_slice()),
        _ => is_quote_open(was, line),
    }
}
