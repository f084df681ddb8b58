//! Cells of rows in boxes, and of rows with commas.
ghost use Rattle.std.specs.Prelude.{◌≡◌, ◌++◌, ◌∷◌, IfOk, OnOk, fold, map};
ghost use Rattle.mdl_client_table.specs.Cells.{cell_goes_on, cell_value, cells_in, fields_in, may_begin, no_cells, separator_of, with_part};
ghost use Rattle.mdl_client_table.specs.Tables.{changed_last};

use crate::commas::{comma_value, is_quote_open};
use crate::field::Field;
use crate::form::Form;
use crate::pieces::{parts_of, trimmed};
use std::alloc::{AllocError, Global};
use std::marker::Model;

// The cells of a row so far, and whether the next part is of the last one.
#[derive(Drop)]
struct Cells {
    cells: Vec<Field>,
    is_open: bool,
}

impl Model for Cells {
    ghost use Rattle.mdl_client_table.specs.Cells.{CellsText};

    ghost Value = { CellsText };

    ghost view = { λ all. record { cells = all.cells.items; is_open = all.is_open } };
}

/// Returns the fields of a row.
pub(crate) fn fields_in(alloc: Global, form: Form, row: &[u8]) -> Result<Vec<Field>, AllocError>
    ensures { IfOk result (λ fields. fields.items ≡ fields_in form row.now) }
{
    let cells = cells_in(alloc, form, row)?;
    values_of(alloc, form, cells.as_slice())
}

// Returns the values of cells.
fn values_of(alloc: Global, form: Form, cells: &[Field]) -> Result<Vec<Field>, AllocError>
    ensures { IfOk result (λ fields. fields.items ≡ map (cell_value form) cells.now) }
{
    let mut fields = Vec::with_capacity(alloc, cells.len())?;
    for cell in cells {
        fields.push(cell_value(alloc, form, cell.as_slice())?)?;
    }
    Ok(fields)
}

// Returns the value of a cell.
fn cell_value(alloc: Global, form: Form, cell: &[u8]) -> Result<Field, AllocError>
    ensures { IfOk result (λ field. field ≡ cell_value form cell.now) }
{
    match form {
        Form::Boxes => Field::printed(alloc, trimmed(cell)),
        _ => comma_value(alloc, cell),
    }
}

// Returns the cells of a row.
fn cells_in(alloc: Global, form: Form, row: &[u8]) -> Result<Vec<Field>, AllocError>
    ensures { IfOk result (λ cells. cells.items ≡ cells_in form row.now) }
{
    match form {
        Form::Boxes => {
            let parts = parts_of(alloc, row, b'|')?;
            match parts.as_slice() {
                [_, between @ .., _] => joined(alloc, form, between),
                _ => Ok(Vec::new(alloc)),
            }
        }
        _ => {
            let parts = parts_of(alloc, row, b',')?;
            joined(alloc, form, parts.as_slice())
        }
    }
}

// Returns the cells of parts.
fn joined(alloc: Global, form: Form, parts: &[&[u8]]) -> Result<Vec<Field>, AllocError>
    ensures { IfOk result (λ cells. cells.items ≡ (fold (with_part form) no_cells (map (λ part. part.now) parts.now)).cells) }
{
    let mut all = Cells {
        cells: Vec::new(alloc),
        is_open: false,
    };
    for part in parts {
        all.add_part(alloc, form, part)?;
    }
    Ok(all.cells)
}

impl Cells {
    // Adds a part: a new cell, or more of the last one.
    fn add_part(&mut self, alloc: Global, form: Form, part: &[u8]) -> Result<(), AllocError>
        ensures { OnOk result (self.new ≡ with_part form self.old part.now) }
    {
        if self.is_open || !may_begin(form, part) {
            join_last(&mut self.cells, separator_of(form), part)?;
        } else {
            self.cells.push(Field::copied(alloc, part)?)?;
        }
        self.is_open = cell_goes_on(form, self.is_open, part);
        Ok(())
    }
}

// Adds a separator and a part to the last cell, if there is one.
fn join_last(cells: &mut Vec<Field>, separator: u8, part: &[u8]) -> Result<(), AllocError>
    ensures { OnOk result (cells.new.items ≡ changed_last (λ cell. cell ++ separator ∷ part.now) cells.old.items) }
{
    let count = cells.len();
    if count == 0 {
        return Ok(());
    }
    cells[count - 1].join(separator, part)
}

// The byte between two parts.
fn separator_of(form: Form) -> u8
    ensures { result ≡ separator_of form }
{
    match form {
        Form::Boxes => b'|',
        _ => b',',
    }
}

// Whether a part may be the first of a cell.
fn may_begin(form: Form, part: &[u8]) -> bool
    ensures { result ≡ may_begin form part.now }
{
    match form {
        Form::Boxes => matches!(part, [b' ', ..]),
        _ => true,
    }
}

// Whether a cell goes on behind a part, given whether it went on before the part.
fn cell_goes_on(form: Form, was: bool, part: &[u8]) -> bool
    ensures { result ≡ cell_goes_on form was part.now }
{
    match form {
        Form::Boxes => !part.ends_with(b" ".as_slice()),
        _ => is_quote_open(was, part),
    }
}
