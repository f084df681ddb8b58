//! Which locks have a place in the plain program, who pins it, and which definitions keep it.
use super::Plain;
use crate::contexts::acts::Lock;
use mdl_space::{Place, SpaceError};

impl Plain {
    // Returns the place of a lock, from 1, or 0 if it has none.
    pub(super) fn place_of(&self, lock: Lock) -> Place {
        let mut place: Place = 1;
        for other in &self.locks {
            if *other == lock {
                return place;
            }
            place = place.wrapping_add(1);
        }
        0
    }

    // Returns the place of a lock, which the session pins. A lock without one gets a place.
    pub(super) fn find_place(&mut self, who: u16, lock: Lock) -> Result<Place, SpaceError> {
        if self.place_of(lock) == 0 {
            self.give_place(lock)?;
        }
        if !self.pins(who, lock) && self.pinned.push((who, lock)).is_err() {
            return Err(SpaceError::OutOfMemory);
        }
        Ok(self.place_of(lock))
    }

    // Gives a lock the next place. If all places have locks, it gets the least one that isn't in use, whose lock loses it.
    fn give_place(&mut self, lock: Lock) -> Result<(), SpaceError> {
        if self.locks.len() < self.places {
            return match self.locks.push(lock) {
                Ok(()) => Ok(()),
                Err(_) => Err(SpaceError::OutOfMemory),
            };
        }
        if self.is_one_kept() {
            self.seen.passed_over = self.seen.passed_over.wrapping_add(1);
        }
        let index = self.index_of_unused();
        let Some(at) = self.locks.get_mut(index) else {
            self.seen.no_place = self.seen.no_place.wrapping_add(1);
            return Err(SpaceError::NoPlace);
        };
        *at = lock;
        self.seen.given_anew = self.seen.given_anew.wrapping_add(1);
        Ok(())
    }

    // Whether there is a place that nobody pins, and that its lock keeps because it had a definition.
    fn is_one_kept(&self) -> bool {
        for lock in &self.locks {
            if !self.is_pinned(*lock) && self.is_kept(*lock) {
                return true;
            }
        }
        false
    }

    // Returns the index of the first lock that nobody pins and that never had a definition. If there is none, it is the number of all locks with a
    // place.
    fn index_of_unused(&self) -> usize {
        for (index, lock) in self.locks.iter().enumerate() {
            if !self.is_pinned(*lock) && !self.is_kept(*lock) {
                return index;
            }
        }
        self.locks.len()
    }

    // Whether any session pins the place of a lock.
    fn is_pinned(&self, lock: Lock) -> bool {
        for pin in &self.pinned {
            if pin.1 == lock {
                return true;
            }
        }
        false
    }

    /// Whether a session pins the place of a lock.
    pub(crate) fn pins(&self, who: u16, lock: Lock) -> bool {
        self.index_of_pin(who, lock) < self.pinned.len()
    }

    // Returns how many places a session pins.
    pub(super) fn number_of_pins(&self, who: u16) -> usize {
        let mut count: usize = 0;
        for pin in &self.pinned {
            if pin.0 == who {
                count = count.wrapping_add(1);
            }
        }
        count
    }

    // Returns the index of a session's pin of the place of a lock. If there is none, it is the number of all pins.
    fn index_of_pin(&self, who: u16, lock: Lock) -> usize {
        for (index, pin) in self.pinned.iter().enumerate() {
            if pin.0 == who && pin.1 == lock {
                return index;
            }
        }
        self.pinned.len()
    }

    // Gives up a session's pin of the place of a lock.
    pub(super) fn unpin(&mut self, who: u16, lock: Lock) -> Result<(), SpaceError> {
        let index = self.index_of_pin(who, lock);
        if index >= self.pinned.len() {
            return Err(SpaceError::NoPlace);
        }
        if self.has_ticket_of(who, lock) {
            self.seen.in_use = self.seen.in_use.wrapping_add(1);
            return Err(SpaceError::InUse);
        }
        self.pinned.remove(index);
        self.seen.unpinned = self.seen.unpinned.wrapping_add(1);
        Ok(())
    }

    /// Gives up a session's pin of a place.
    pub(crate) fn unpin_at(&mut self, who: u16, place: Place) -> Result<(), SpaceError> {
        let index = usize::from(place).wrapping_sub(1);
        let lock = match self.locks.get(index) {
            Some(lock) => *lock,
            None => return Err(SpaceError::NoPlace),
        };
        self.unpin(who, lock)
    }

    // Gives up a session's pins of the places where it has nothing, and returns how many these were.
    pub(super) fn tidy(&mut self, who: u16) -> u64 {
        let mut let_go: u64 = 0;
        for _pin in 0..self.pinned.len() {
            let index = self.index_of_unneeded(who);
            if index >= self.pinned.len() {
                return let_go;
            }
            self.pinned.remove(index);
            let_go = let_go.wrapping_add(1);
        }
        let_go
    }

    // Returns the index of a session's first pin of a place where it has nothing. If there is none, it is the number of all pins.
    fn index_of_unneeded(&self, who: u16) -> usize {
        for (index, pin) in self.pinned.iter().enumerate() {
            if pin.0 == who && !self.has_ticket_of(who, pin.1) {
                return index;
            }
        }
        self.pinned.len()
    }

    // Whether a session has a ticket of a lock, held or waited for.
    fn has_ticket_of(&self, who: u16, lock: Lock) -> bool {
        for ticket in &self.tickets {
            if ticket.session == who && ticket.lock == lock {
                return true;
            }
        }
        false
    }

    /// Whether a lock keeps its place because it had a definition.
    pub(crate) fn is_kept(&self, lock: Lock) -> bool {
        self.version_of(lock) > 0
    }

    // Returns the last version of a lock's definition, or 0 if it never had one.
    fn version_of(&self, lock: Lock) -> u64 {
        let mut last = 0;
        for (defined, version) in &self.versions {
            if *defined == lock {
                last = *version;
            }
        }
        last
    }

    // Gives a lock another definition, and returns its version.
    pub(super) fn define(&mut self, lock: Lock) -> Result<u64, SpaceError> {
        let version = self.version_of(lock).wrapping_add(1);
        match self.versions.push((lock, version)) {
            Ok(()) => Ok(version),
            Err(_) => Err(SpaceError::OutOfMemory),
        }
    }
}
