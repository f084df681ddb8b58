//! What an audit returns: the books of all places that have a key.
use crate::shared::acts::{Lock, NO_MEMORY, Reply};
use mdl_book::Ticket;
use mdl_calls::Place;
use mdl_key::Key;
use mdl_shared::Audited;
use std::alloc::Global;

/// A book without waiting tickets, whose key has no definition, and version 0.
#[derive(Clone, Copy)]
pub(crate) struct Shown {
    pub(crate) place: Place,
    pub(crate) lock: Lock,
    pub(crate) granted: &'static [Ticket],
}

/// Whether books are just these, in this order.
pub(crate) fn are_shown(alloc: Global, books: &[Audited], shown: &[Shown]) -> Reply {
    if books.len() != shown.len() {
        return Reply::Is(false);
    }
    for (book, shown) in books.iter().zip(shown) {
        let reply = is_shown(alloc, book, shown);
        if reply != Reply::Is(true) {
            return reply;
        }
    }
    Reply::Is(true)
}

// Whether a book is this one.
fn is_shown(alloc: Global, book: &Audited, shown: &Shown) -> Reply {
    let Ok(key) = shown.lock.key(alloc) else {
        return NO_MEMORY;
    };
    let is_so = is_shown_under(book, &key, shown);
    drop(key);
    Reply::Is(is_so)
}

// The same for a book of this key.
fn is_shown_under(book: &Audited, key: &Key, shown: &Shown) -> bool {
    book.place == shown.place
        && book.book.key == *key
        && book.book.granted.as_slice() == shown.granted
        && book.book.waiting.is_empty()
        && book.book.standing.version == 0
        && book.book.standing.definition.is_none()
}
