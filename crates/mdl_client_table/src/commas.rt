//! Cells between commas.
ghost use Rattle.std.specs.Prelude.{◌≡◌, IfOk, false};
ghost use Rattle.mdl_client_table.specs.Commas.{comma_value, is_quote_open, plain_value, undoubled_from};

use crate::field::Field;
use std::alloc::{AllocError, Global};

/// Whether a quote is open behind a text, given whether one was open before it.
pub(crate) fn is_quote_open(was: bool, text: &[u8]) -> bool
    ensures { result ≡ is_quote_open was text.now }
{
    let mut is_open = was;
    for byte in text {
        if *byte == b'"' {
            is_open = !is_open;
        }
    }
    is_open
}

/// Returns the value of a cell.
pub(crate) fn comma_value(alloc: Global, cell: &[u8]) -> Result<Field, AllocError>
    ensures { IfOk result (λ field. field ≡ comma_value cell.now) }
{
    match cell {
        [b'"', inner @ .., b'"'] => Ok(Field::new(undoubled(alloc, inner)?)),
        _ => plain_value(alloc, cell),
    }
}

// Returns the value of a cell without quotes.
fn plain_value(alloc: Global, cell: &[u8]) -> Result<Field, AllocError>
    ensures { IfOk result (λ field. field ≡ plain_value cell.now) }
{
    if cell == b"NULL".as_slice() || cell == b"\\N".as_slice() {
        return Field::copied(alloc, &[]);
    }
    Field::copied(alloc, cell)
}

// Returns a text with one quote in place of two.
fn undoubled(alloc: Global, text: &[u8]) -> Result<Vec<u8>, AllocError>
    ensures { IfOk result (λ one. one.items ≡ undoubled_from false text.now) }
{
    let mut one = Vec::with_capacity(alloc, text.len())?;
    let mut follows = false;
    for byte in text {
        if *byte == b'"' && follows {
            follows = false;
        } else {
            one.push(*byte)?;
            follows = *byte == b'"';
        }
    }
    Ok(one)
}
