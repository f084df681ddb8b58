//! The places that a session pins.
ghost use Rattle.std.specs.List.{list_any};
ghost use Rattle.std.specs.Prelude.{OnOk, [], ◌==◌, ◌<◌, ◌≡◌, ◌≤◌};
ghost use Rattle.mdl_calls.specs.SessionLocks.{with_place, without_place};

use std::alloc::{AllocError, Global};
use std::marker::Model;

/// The set of places that a session pins.
///
/// It has a mark for each place below its reach, so a place is found, pinned and given up in constant time. The reach only grows.
#[derive(Drop)]
pub struct Pins {
    // By place: whether it is pinned.
    marks: Vec<bool>,
}

impl Model for Pins {
    ghost use Rattle.std.specs.Prelude.{length};
    ghost use Rattle.mdl_calls.specs.Marks.{PinSet, marked_from};

    ghost Value = { PinSet };

    ghost view = { λ s. record { places = marked_from 0 s.marks.items; reach = length s.marks.items } };
}

impl Pins {
    /// No place is pinned. It takes no memory.
    pub fn new(alloc: Global) -> Pins
        ensures { result ≡ record { places = []; reach = 0 } }
    {
        Pins {
            marks: Vec::new(alloc),
        }
    }

    /// Whether a place is pinned.
    pub fn contains(&self, place: usize) -> bool
        ensures pinned { result ≡ list_any (λ pin. pin == place) self.now.places }
    {
        place < self.marks.len() && self.marks[place]
    }

    /// Makes sure that the places below `slots` can be pinned without more memory.
    pub fn reserve(&mut self, slots: usize) -> Result<(), AllocError>
        ensures places { self.new.places ≡ self.old.places }
        ensures reach { OnOk result (slots ≤ self.new.reach) }
        ensures kept { self.old.reach ≤ self.new.reach }
    {
        if self.marks.len() < slots {
            self.marks.resize(slots, false)?;
        }
        Ok(())
    }

    /// Pins a place, if it isn't pinned. It takes no memory.
    pub fn insert(&mut self, place: usize)
        requires reach { place < self.old.reach }
        ensures { self.new ≡ record self.old { places = with_place place self.old.places } }
    {
        self.marks[place] = true;
    }

    /// Gives up the pin of a place, if it is pinned. It takes no memory.
    pub fn remove(&mut self, place: usize)
        ensures { self.new ≡ record self.old { places = without_place place self.old.places } }
    {
        if place < self.marks.len() {
            self.marks[place] = false;
        }
    }
}
