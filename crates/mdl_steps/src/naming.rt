//! How a new key gets a place: the first place that has no key.
//!
//! The session takes the directory's latch and looks the key up ([`TableSeat::place_of`]). If the key isn't there, the session adds it to
//! the directory in hand ([`TableSeat::list_key`]). It takes the latch of the next place (what [`TableSeat::key_count`] returned before the
//! key was added, plus one), whose book is unused, writes the key's empty book there ([`TableSeat::name_book`]), and gives that latch back,
//! which gives the place to the key ([`TableSeat::put_latch_naming`]). Then it gives the directory's latch back.
ghost use Rattle.std.specs.Prelude.{◌≡◌, ◌∷◌, length, None, OnOk, OnErr};
ghost use Rattle.mdl_book.specs.Books.{empty_book};
ghost use Rattle.mdl_key.specs.Words.{KeyName};
ghost use Rattle.mdl_steps.specs.declared.slot.Slot.TheVariants as slot;
ghost use Rattle.mdl_steps.specs.declared.view.LatchRecord.{LatchRecord};
ghost use Rattle.mdl_steps.specs.declared.view.Keys.{Keys};
ghost use Rattle.mdl_steps.specs.Plays.{listing, named};
ghost use Rattle.mdl_steps.specs.SeatStates.{HoldsBook, OfBook};
ghost use Rattle.mdl_steps.specs.Seats.{IsPlace, HasDirectory, MayName, place_among, rest, written};

use crate::Directory;
use crate::directory::LatchedDirectory;
use crate::hand::{book_in_hand, directory_in_hand};
use crate::layout::latch_word;
use crate::plays::PutKey;
use crate::table_seat::{Latched, TableSeat};
use mdl_book::Book;
use mdl_key::Key;
use std::alloc::{AllocError, Global};

impl Directory {
    /// Returns the place of a key, if it has one.
    pub fn place_of(&self, key: &Key) -> Option<usize>
        ensures { result ≡ place_among key.now self.now.keys }
    {
        let index = self.keys.get_index_of(key)?;
        prove!(index < self.keys.len());
        Some(index + 1)
    }
}

impl TableSeat {
    /// Returns the place of a key by the directory in hand, if it has one. Nothing changes.
    pub fn place_of(&mut self, _latch: &LatchedDirectory, key: &Key) -> Option<usize>
        requires carried { (k : Keys) × (self.old.me.1 ≡ (0, slot.Directory k) ∷ rest self.old.me.1) }
        ensures same { self.new ≡ self.old }
        ensures told { (k : Keys) → self.old.me.1 ≡ (0, slot.Directory k) ∷ rest self.old.me.1
            → result ≡ place_among key.now k.keys }
    {
        let directory = directory_in_hand(&mut self.seat, &self.table.shared);
        directory.place_of(key)
    }

    /// Returns the number of keys in the directory in hand. Their places are those from 1 up to this number. Nothing changes.
    pub fn key_count(&mut self, _latch: &LatchedDirectory) -> usize
        requires carried { (k : Keys) × (self.old.me.1 ≡ (0, slot.Directory k) ∷ rest self.old.me.1) }
        ensures same { self.new ≡ self.old }
        ensures told { (k : Keys) → self.old.me.1 ≡ (0, slot.Directory k) ∷ rest self.old.me.1
            → result ≡ length k.keys }
    {
        let directory = directory_in_hand(&mut self.seat, &self.table.shared);
        directory.keys.len()
    }

    /// Adds a key that has no place yet to the directory in hand, for the next place. The directory's latch can't be given back before the
    /// place has been given to the key ([`TableSeat::put_latch_naming`]).
    #[tactic(auto, using(crate::proofs::Looking::goes_last))]
    pub fn list_key(&mut self, _latch: &LatchedDirectory, key: Key) -> Result<(), AllocError>
        requires new { (k : Keys) × (self.old.me.1 ≡ (0, slot.Directory k) ∷ rest self.old.me.1) × (place_among key k.keys ≡ None) }
        ensures listed { (k : Keys) → self.old.me.1 ≡ (0, slot.Directory k) ∷ rest self.old.me.1
            → OnOk result (self.new ≡ record self.old { me = (self.old.me.0, (0, slot.Directory (listing key k)) ∷ rest self.old.me.1) }) }
        ensures unchanged { OnErr result (self.new ≡ self.old) }
    {
        let directory = directory_in_hand(&mut self.seat, &self.table.shared);
        directory.keys.insert(key)?;
        Ok(())
    }

    /// Replaces the book in hand with the empty book of a key.
    pub fn name_book(&mut self, latch: &Latched, alloc: Global, key: Key)
        requires carried { HoldsBook latch.now.place self.old }
        ensures written { self.new ≡ record self.old { me = written latch.now.place (empty_book key) self.old.me } }
    {
        *book_in_hand(&mut self.seat, &self.table.shared, latch.place) = Book::new(alloc, key);
    }

    /// Gives the latch of a place back, and gives the place to the key of the book in hand. The key is the last one in the directory in hand.
    pub fn put_latch_naming(&mut self, latch: Latched, _directory: &LatchedDirectory)
        requires place { IsPlace self.old.table latch.place }
        requires put { (key : KeyName) × (k : Keys) × (h : LatchRecord) × MayName latch.place key k h self.old.me }
        ensures made { OfBook latch.place self.old (λ book. self.new ≡ record self.old { me = named latch.place book.key self.old.me }) }
    {
        let Latched { place } = latch;
        self.table
            .shared
            .store::<PutKey>(&mut self.seat, latch_word(place), 0);
    }
}
