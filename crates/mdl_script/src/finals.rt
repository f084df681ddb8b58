//! What is defined at the end of a run, as text.
ghost use Rattle.std.specs.Prelude.{◌≡◌, ◌++◌, List, OnOk};
ghost use Rattle.std.specs.String.{string_bytes};
ghost use Rattle.mdl_visits.specs.declared.audited.Audited.{Audited};
ghost use Rattle.mdl_script.specs.Finals.{AreInKeyOrder, book_line, defined_line, definition_text, finals_text};

use crate::told::push_columns;
use mdl_defs::Definition;
use mdl_key::Key;
use mdl_visits::Audited;
use std::alloc::AllocError;

/// Appends to a text a line for each book that has a definition, in the order of their keys.
pub(crate) fn push_finals(out: &mut String, mut books: Vec<Audited>) -> Result<(), AllocError>
    ensures { OnOk result ((sorted : List Audited) × AreInKeyOrder books.items sorted
        × (string_bytes out.new ≡ string_bytes out.old ++ finals_text sorted)) }
{
    sort(&mut books);
    push_books(out, &books)
}

// Sorts books by their keys.
fn sort(books: &mut Vec<Audited>)
    ensures { AreInKeyOrder books.old.items books.new.items }
{
    books.sort_unstable_by(|one, other| one.book.key.cmp(&other.book.key));
}

// Appends the lines of books, in the order in which they are given.
fn push_books(out: &mut String, books: &[Audited]) -> Result<(), AllocError>
    ensures { OnOk result (string_bytes out.new ≡ string_bytes out.old ++ finals_text books.now) }
{
    for audited in books {
        push_book(out, audited)?;
    }
    Ok(())
}

// Appends the line of a book, if its key has a definition.
fn push_book(out: &mut String, audited: &Audited) -> Result<(), AllocError>
    ensures { OnOk result (string_bytes out.new ≡ string_bytes out.old ++ book_line audited.now) }
{
    let book = &audited.book;
    match &book.standing.definition {
        Some(definition) => push_defined(out, &book.key, book.standing.version, definition),
        None => Ok(()),
    }
}

// Appends the line of a definition.
fn push_defined(
    out: &mut String,
    key: &Key,
    version: u64,
    definition: &Definition,
) -> Result<(), AllocError>
    ensures { OnOk result (string_bytes out.new ≡ string_bytes out.old ++ defined_line key.now version definition.now) }
{
    if write!(out, "FINAL {key}@{version}").is_err() {
        return Err(AllocError);
    }
    push_shape(out, definition)?;
    out.push('\n')
}

// Appends what follows the version: a table's columns, nothing for a schema.
fn push_shape(out: &mut String, definition: &Definition) -> Result<(), AllocError>
    ensures { OnOk result (string_bytes out.new ≡ string_bytes out.old ++ definition_text definition.now) }
{
    match definition {
        Definition::Schema => Ok(()),
        Definition::Table(columns) => push_columns(out, columns.as_slice()),
    }
}
