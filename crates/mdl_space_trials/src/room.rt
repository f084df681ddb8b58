//! A space of one thread with its sessions.
ghost use Rattle.mdl_core.specs.CoreJoins.{SpeaksFor};
ghost use Rattle.mdl_space_trials.specs.Serving.{SpeaksForAll};

use crate::acts::{Act, Row, call};
use crate::base::rows::{self, are_told_so};
use crate::{deadlocks, definitions, life, modes, pins, refusals};
use mdl_book::Book;
use mdl_key::{Key, KeyError};
use mdl_space::{CoreSpace, Held, LockSpace, Place, SpaceError};
use std::alloc::Global;
use std::marker::Model;

/// The places of an ordinary room.
pub(crate) const TABLE: Place = 1;

pub(crate) const SCHEMA: Place = 2;

pub(crate) const GLOBAL: Place = 3;

pub(crate) const COMMIT: Place = 4;

pub(crate) const OTHER_TABLE: Place = 5;

/// What a key names: a table of a schema, a schema, a user-level lock, or a lock without a name.
#[derive(Clone, Copy)]
pub(crate) enum Of {
    Table(&'static str, &'static str),
    Schema(&'static str),
    User(&'static str),
    Commit,
    Global,
}

/// The keys of an ordinary room.
pub(crate) const ORDINARY: &[Of] = &[
    Of::Table("test", "t"),
    Of::Schema("test"),
    Of::Global,
    Of::Commit,
    Of::Table("test", "u"),
];

/// What rows of calls show, and the rows.
pub(crate) struct Story(pub(crate) &'static str, pub(crate) &'static [Row]);

impl rows::Story for Story {
    fn name(&self) -> &'static str {
        self.0
    }

    fn first_wrong(&self, alloc: Global) -> Option<usize> {
        first_wrong(alloc, self.1)
    }
}

/// Returns the key that names this.
pub(crate) fn new_key(alloc: Global, of: Of) -> Result<Key, KeyError> {
    match of {
        Of::Table(schema, table) => Key::table(alloc, schema, table),
        Of::Schema(schema) => Key::schema(alloc, schema),
        Of::User(name) => Key::user_lock(alloc, name),
        Of::Commit => Ok(Key::commit(alloc)),
        Of::Global => Ok(Key::global(alloc)),
    }
}

/// A space with sessions numbered from 1. The space speaks for each of them.
#[derive(Drop)]
pub(crate) struct Room {
    alloc: Global,
    space: CoreSpace,
    sessions: u16,
}

impl Model for Room {
    ghost use Rattle.mdl_core.specs.CoreJoins.{SpeaksFor};
    ghost use Rattle.mdl_space_trials.specs.Serving.{SpeaksForAll};

    ghost Value = { Unit };

    ghost view = { λ _. tt };

    ghost invariant = { λ room. SpeaksForAll SpeaksFor room.sessions room.space };
}

impl Room {
    /// The room of a space that speaks for this number of sessions.
    pub(crate) fn over(alloc: Global, space: CoreSpace, sessions: u16) -> Room
        requires { SpeaksForAll SpeaksFor sessions space }
    {
        Room {
            alloc,
            space,
            sessions,
        }
    }

    /// Creates a space of this number of places, none of which has a key. No session has anything.
    pub(crate) fn empty(alloc: Global, places: u16, sessions: u16) -> Option<Room> {
        let Ok(space) = CoreSpace::new(alloc, places, sessions) else {
            return None;
        };
        Some(Room::over(alloc, space, sessions))
    }

    /// Creates a space whose places have these keys, in this order, and are pinned by all sessions. There are no more places, and no session has
    /// anything else.
    pub(crate) fn of_keys(alloc: Global, keys: &[Of], sessions: u16) -> Option<Room> {
        let Ok(places) = u16::try_from(keys.len()) else {
            return None;
        };
        let mut room = Room::empty(alloc, places, sessions)?;
        if room.has_places(keys) {
            return Some(room);
        }
        drop(room);
        None
    }

    /// Creates a room in which a table, a schema, the global lock, the commit lock and another table have the places 1 to 5.
    pub(crate) fn new(alloc: Global) -> Option<Room> {
        Room::of_keys(alloc, ORDINARY, 5)
    }

    // Whether each session finds these keys at the places from 1 on, and so pins all places.
    fn has_places(&mut self, keys: &[Of]) -> bool {
        let mut place: Place = 0;
        for of in keys {
            place = place.wrapping_add(1);
            if !self.all_find(*of, place) {
                return false;
            }
        }
        true
    }

    // Whether each session finds a key at this place.
    fn all_find(&mut self, of: Of, place: Place) -> bool {
        for who in 1..=self.sessions {
            if self.make(who, Act::Resolve(of, Ok(place))) != Some(true) {
                return false;
            }
        }
        true
    }

    /// Returns the key of a place, asked by the first session.
    pub(crate) fn key_of(&mut self, place: Place) -> Result<Key, SpaceError> {
        if self.sessions == 0 {
            return Err(SpaceError::NoPlace);
        }
        self.space.key_of(1, place)
    }

    /// Returns the places of a schema's tables, asked by the first session.
    pub(crate) fn tables_of(&mut self, schema: &str) -> Result<Vec<Place>, SpaceError> {
        if self.sessions == 0 {
            return Err(SpaceError::NoPlace);
        }
        self.space.tables_of(1, schema)
    }

    /// Returns what a session holds.
    pub(crate) fn held(&self, who: u16) -> Result<Vec<Held>, SpaceError> {
        if who == 0 || who > self.sessions {
            return Err(SpaceError::NotHeld);
        }
        self.space.held(who)
    }

    /// The books of all places that have a key.
    pub(crate) fn books(&self) -> &[Book] {
        self.space.books()
    }

    /// How many waits are settled and not yet ended.
    pub(crate) fn settled_waits(&self) -> usize {
        self.space.settled_waits()
    }

    /// Makes a call. Whether the answer is the wanted one, or None if memory ran out.
    pub(crate) fn make(&mut self, who: u16, act: Act) -> Option<bool> {
        if who == 0 || who > self.sessions {
            return Some(false);
        }
        call(&mut self.space, self.alloc, who, act)
    }

    /// Makes calls one after another, and returns the index of the first whose answer is not the wanted one.
    pub(crate) fn first_wrong(&mut self, rows: &[Row]) -> Option<usize> {
        for (place, (who, act)) in rows.iter().enumerate() {
            if self.make(*who, *act) != Some(true) {
                return Some(place);
            }
        }
        None
    }
}

// The same in a new room.
pub(crate) fn first_wrong(alloc: Global, rows: &[Row]) -> Option<usize> {
    let Some(mut room) = Room::new(alloc) else {
        return Some(rows.len());
    };
    let wrong = room.first_wrong(rows);
    drop(room);
    wrong
}

#[test]
fn a_space_does_as_told(rt: HostRuntime) {
    are_told_so(&rt, rt.alloc(), life::LIVES);
    are_told_so(&rt, rt.alloc(), refusals::REFUSALS);
    are_told_so(&rt, rt.alloc(), deadlocks::DEADLOCKS);
    are_told_so(&rt, rt.alloc(), definitions::DEFINITIONS);
    are_told_so(&rt, rt.alloc(), modes::LIVES);
}

#[test]
fn pins_do_as_told(rt: HostRuntime) {
    are_told_so(&rt, rt.alloc(), pins::PINS);
}
