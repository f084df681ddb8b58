//! Copies of books, which a session keeps after it has given the latches of their places back.
ghost use Rattle.std.specs.Prelude.{◌≡◌, IfOk};
ghost use Rattle.mdl_steps.specs.SeatStates.{HoldsBook, OfBook};

use crate::hand::book_in_hand;
use crate::table_seat::{Latched, TableSeat};
use mdl_book::{Book, Ticket};
use mdl_defs::VersionedDefinition;
use mdl_key::Key;
use std::alloc::{AllocError, Global};
use std::marker::Model;

/// A copy of a book.
#[derive(Drop)]
pub struct BookCopy {
    /// The lock's key.
    pub key: Key,
    /// The granted tickets, in the order in which they were granted.
    pub granted: Vec<Ticket>,
    /// The waiting tickets, in order of arrival.
    pub waiting: Vec<Ticket>,
    /// The key's version (how often its definition was changed), with its definition if there is one.
    pub standing: VersionedDefinition,
}

impl Model for BookCopy {
    ghost use Rattle.mdl_book.specs.declared.book_view.BookView.{BookView};

    ghost Value = { BookView };

    ghost view = { λ copy. record {
      key = copy.key;
      granted = copy.granted.items;
      waiting = copy.waiting.items;
      standing = copy.standing;
    } };
}

impl TableSeat {
    /// Returns a copy of the book in hand. Nothing changes, even if memory runs out.
    pub fn copy_book(&mut self, latch: &Latched, alloc: Global) -> Result<BookCopy, AllocError>
        requires carried { HoldsBook latch.now.place self.old }
        ensures same { self.new ≡ self.old }
        ensures told { OfBook latch.now.place self.old (λ book. IfOk result (λ copy. copy ≡ book)) }
    {
        let book = book_in_hand(&mut self.seat, &self.table.shared, latch.place);
        copied(alloc, book)
    }
}

// Returns a copy of a book.
fn copied(alloc: Global, book: &Book) -> Result<BookCopy, AllocError>
    ensures { IfOk result (λ copy. copy ≡ book.now) }
{
    let mut granted = Vec::new(alloc);
    granted.extend_from_slice(book.granted())?;
    let mut waiting = Vec::new(alloc);
    waiting.extend_from_slice(book.waiting())?;
    Ok(BookCopy {
        key: book.key().clone()?,
        granted,
        waiting,
        standing: book.read()?,
    })
}
