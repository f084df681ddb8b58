//! Strings and words of JSON.
ghost use Rattle.std.specs.Prelude.{◌≡◌, IfOk};
ghost use Rattle.json.specs.Lex.{tokens};
ghost use Rattle.mdl_client_table.specs.Json.{cell_in, cell_of};

use crate::field::Field;
use json::{Reader, Scratch, Token};
use std::alloc::{AllocError, Global};
use std::str;

/// A string or a word of JSON.
#[derive(Drop)]
pub(crate) enum Cell {
    /// A string.
    Text(Field),
    /// A number, as it is written.
    Number(Field),
    /// `null`.
    Null,
    /// `true` or `false`.
    Boolean,
    /// Neither a string nor a word of JSON.
    Wrong,
}

/// Returns what bytes are in JSON.
pub(crate) fn cell_of(alloc: Global, bytes: &[u8]) -> Result<Cell, AllocError>
    ensures { IfOk result (λ cell. cell ≡ cell_of bytes.now) }
{
    match str::from_utf8(bytes) {
        Ok(text) => cell_in(alloc, text),
        Err(_) => Ok(Cell::Wrong),
    }
}

// Returns what a text is in JSON.
fn cell_in(alloc: Global, text: &str) -> Result<Cell, AllocError>
    ensures { IfOk result (λ cell. cell ≡ cell_in (tokens text.now)) }
{
    let mut scratch = Scratch::new(alloc);
    let mut reader = Reader::new(text, &mut scratch)?;
    match reader.next() {
        Some(Token::String(text)) => Ok(Cell::Text(Field::copied(alloc, text.as_bytes())?)),
        Some(Token::Number(text)) => Ok(Cell::Number(Field::copied(alloc, text.as_bytes())?)),
        Some(Token::Null) => Ok(Cell::Null),
        Some(Token::Bool(_)) => Ok(Cell::Boolean),
        _ => Ok(Cell::Wrong),
    }
}
