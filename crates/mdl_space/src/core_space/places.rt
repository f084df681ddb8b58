//! How a key gets a place: the next one, or one that is given anew.
ghost use Rattle.std.specs.Prelude.{◌≡◌, ◌+◌, ◌≤◌, IsOkUnless, None, OnErr, OnOk, false, length, true};
ghost use Rattle.mdl_core.specs.Cores.{index_of};
ghost use Rattle.mdl_core.specs.Words.{SpeaksFor, has_key, is_in_use, pinning, unused_place};
ghost use Rattle.mdl_space.specs.GivenPlaces.{placed_at, some_session_pins};

use crate::core_space::CoreSpace;
use crate::{Place, SpaceError};
use mdl_book::Book;
use mdl_key::Key;
use std::mem;

impl CoreSpace {
    /// Returns the least place that has a key and isn't in use, if there is one.
    pub(crate) fn unused_place(&self) -> Option<Place>
        ensures { result ≡ unused_place self.now }
    {
        for index in 0..self.books.len() {
            let place = index as Place + 1;
            if !self.is_in_use(place) {
                return Some(place);
            }
        }
        None
    }

    /// Whether a place is in use: a session pins it, or its key has or had a definition.
    fn is_in_use(&self, place: Place) -> bool
        requires { has_key place self.now ≡ true }
        ensures { result ≡ is_in_use place self.now }
    {
        self.pinned[usize::from(place)] != 0 || self.books[usize::from(place) - 1].version() != 0
    }

    /// Gives a key that has no place this one: the next place, or one that nobody pins, and whose key then has no place any more. The session
    /// pins it.
    pub(crate) fn give_place(&mut self, who: u16, place: Place, key: &Key) -> Result<(), SpaceError>
        requires session { SpeaksFor self.old who }
        requires key { index_of key.now self.old.books ≡ None }
        requires least { 1 ≤ place }
        requires most { place ≤ length self.old.books + 1 }
        requires places { place ≤ self.old.places }
        requires unused { some_session_pins place self.old ≡ false }
        ensures given { OnOk result (self.new ≡ pinning who place (placed_at place key.now self.old)) }
        ensures unchanged { OnErr result (self.new ≡ self.old) }
        ensures memory { IsOkUnless result SpaceError.OutOfMemory }
    {
        // All that takes memory comes first, so that a refused growth changes nothing.
        let Ok(name) = key.clone() else {
            return Err(SpaceError::OutOfMemory);
        };
        let Ok(key) = key.clone() else {
            return Err(SpaceError::OutOfMemory);
        };
        if self.known.insert(name, place).is_err() {
            return Err(SpaceError::OutOfMemory);
        }
        let seat = &mut self.seats[usize::from(who) - 1];
        if seat.pin(place, self.pinned.len()).is_err() {
            self.known.remove(&key);
            return Err(SpaceError::OutOfMemory);
        }
        self.pinned[usize::from(place)] = 1;
        let book = Book::new(self.alloc, key);
        if usize::from(place) > self.books.len() {
            self.books.push(book).unwrap();
            return Ok(());
        }
        let old = mem::replace(&mut self.books[usize::from(place) - 1], book);
        self.known.remove(old.key());
        drop(old);
        Ok(())
    }
}
