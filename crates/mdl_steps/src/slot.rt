//! The contents of the table's slots.
use indexmap::IndexSet;
use mdl_book::Book;
use mdl_key::Key;
use std::marker::Model;

/// The directory: the keys in the order of their places, from place 1 on. A key is found by its hash, so a lookup takes as long among many
/// keys as among few.
#[derive(Drop)]
pub struct Directory {
    /// The keys.
    pub keys: IndexSet<Key>,
}

impl Model for Directory {
    ghost use Rattle.mdl_steps.specs.declared.view.Keys.{Keys};

    ghost Value = { Keys };

    ghost view = { λ directory. record { keys = directory.keys.keys } };
}

/// The contents of a slot of the table: slot 0 has the directory, each other slot the book of its place.
#[derive(Drop)]
pub enum Slot {
    /// The directory.
    Directory(Directory),
    /// The book of a place.
    Place(Book),
}
