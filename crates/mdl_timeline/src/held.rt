//! The locks that sessions hold.
ghost use Rattle.std.specs.Prelude.{◌≡◌, ◌++◌, IfOk, OnOk, map};
ghost use Rattle.mdl_key.specs.Keys.{key_text};
ghost use Rattle.mdl_timeline.specs.Moments.{held_as, held_in_books};

use mdl_book::{Book, Ticket};
use mdl_key::Key;
use mdl_picture::Held;
use std::alloc::{AllocError, Global};

/// Returns the locks that sessions hold at these books, in order of the books and of their granted tickets.
pub(crate) fn held_in(alloc: Global, books: &[Book]) -> Result<Vec<Held>, AllocError>
    ensures { IfOk result (λ held. held.items ≡ held_in_books books.now) }
{
    let mut held = Vec::new(alloc);
    for book in books {
        push_granted(&mut held, alloc, book.key(), book.granted())?;
    }
    Ok(held)
}

// Adds these granted tickets of the lock of a key.
fn push_granted(
    held: &mut Vec<Held>,
    alloc: Global,
    key: &Key,
    granted: &[Ticket],
) -> Result<(), AllocError>
    ensures { OnOk result (held.new.items ≡ held.old.items ++ map (held_as key.now) granted.now) }
{
    for ticket in granted {
        held.push(held_as(alloc, key, ticket)?)?;
    }
    Ok(())
}

// A granted ticket of the lock of this key.
fn held_as(alloc: Global, key: &Key, ticket: &Ticket) -> Result<Held, AllocError>
    ensures { IfOk result (λ held. held ≡ held_as key.now ticket.now) }
{
    Ok(Held {
        session: ticket.session,
        mode: Vec::from_slice(alloc, ticket.mode.as_str().as_bytes())?,
        lock: key_text(alloc, key)?,
    })
}

// A key as it is printed.
fn key_text(alloc: Global, key: &Key) -> Result<Vec<u8>, AllocError>
    ensures { IfOk result (λ text. text.items ≡ key_text key.now) }
{
    let mut out = String::new(alloc);
    match write!(out, "{key}") {
        Ok(()) => Ok(out.into_bytes()),
        Err(_) => Err(AllocError),
    }
}
