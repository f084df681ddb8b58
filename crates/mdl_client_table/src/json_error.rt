//! Faults of rows in JSON.
ghost use Rattle.std.specs.Prelude.{◌≡◌};

use std::alloc::AllocError;
use thiserror::Error;

/// A place in a text. Lines, and the bytes of a line, are counted from 1.
#[derive(Clone, Copy)]
pub(crate) struct Place {
    pub(crate) line: u64,
    pub(crate) column: u64,
}

/// What is wrong with rows in JSON.
#[derive(Clone, Copy, Debug, PartialEq, Eq, Error)]
pub enum JsonError {
    /// JSON doesn't go on in this way.
    #[error("not JSON: something else has to come here")]
    Unexpected,
    /// A string or a word isn't one of JSON.
    #[error("not JSON: neither a string nor a number nor a word of it")]
    BadCell,
    /// An element isn't an object.
    #[error("not a row: rows are objects, in one array or one after another")]
    NotARow,
    /// A member's value is true, false, an array or an object.
    #[error("not a value: values are strings, numbers and null")]
    NotAValue,
    /// An object has a key twice.
    #[error("a key that the row has already")]
    KeyTwice,
    /// An object has a key that the first one lacks.
    #[error("a key that the first row lacks")]
    NewKey,
    /// The text ends before its rows do.
    #[error("the text ends behind this, before its rows do")]
    TextEnds,
}

/// The first fault of rows in JSON.
#[derive(Clone, Copy, Debug, PartialEq, Eq, Error)]
#[error("line {line}, column {column}: {error}")]
pub struct JsonFault {
    /// The number of the line, counted from 1.
    pub line: u64,
    /// The number of the byte in its line where what is wrong begins, counted from 1.
    pub column: u64,
    /// What is wrong.
    pub error: JsonError,
}

/// Why a text isn't read as a table.
#[derive(Clone, Copy, Debug, PartialEq, Eq, Error)]
pub enum TableError {
    /// It is in JSON, and its rows have a fault.
    #[error("{0}")]
    Json(JsonFault),
    /// Memory ran out.
    #[error("out of memory")]
    OutOfMemory,
}

impl From<AllocError> for TableError {
    ghost use Rattle.mdl_client_table.specs.declared.json_error.TableError.TheVariants.{OutOfMemory};

    ghost from_gives = { λ _ error. error ≡ OutOfMemory };

    fn from(_: AllocError) -> TableError {
        TableError::OutOfMemory
    }
}
