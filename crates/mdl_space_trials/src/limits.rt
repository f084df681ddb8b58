//! Limits and places of the space.
use crate::acts::{Act, Row};
use crate::base;
use crate::base::rows::are_right;
use crate::room::{Of, Room, SCHEMA};
use crate::wishes::{Shown, Wish};
use mdl_key::Mode;
use mdl_space::{Attempt, CoreSpace, NewError, Place, SpaceError};
use std::alloc::Global;

// Numbers of places and of sessions, and why there can't be such a space.
struct Limit(u16, u16, Option<NewError>);

impl base::rows::Row for Limit {
    fn goes_so(&self, alloc: Global) -> bool {
        CoreSpace::new(alloc, self.0, self.1).err() == self.2
    }
}

const LIMITS: &[Limit] = &[
    Limit(0, 0, Some(NewError::BadPlaces)),
    Limit(257, 1, Some(NewError::BadPlaces)),
    Limit(1, 0, Some(NewError::BadSessions)),
    Limit(256, 1025, Some(NewError::BadSessions)),
    Limit(1, 65535, Some(NewError::BadSessions)),
    Limit(1, 1, None),
    Limit(256, 1024, None),
];

#[test]
fn spaces_have_their_limits(rt: HostRuntime) {
    are_right(&rt, rt.alloc(), LIMITS);
}

// Whether a place has no key.
fn has_none(room: &mut Room, place: Place) -> bool {
    room.key_of(place).err() == Some(SpaceError::NoPlace)
}

const PLACES: &[Row] = &[
    (1, Act::Resolve(Of::Table("test", "t"), Ok(1))),
    (2, Act::Resolve(Of::Global, Ok(3))),
    (
        1,
        Act::Resolve(Of::Table("test", "v"), Err(SpaceError::NoPlace)),
    ),
];

/// Whether keys keep their places, which are numbered from 1 to 5, while sessions pin them, and a sixth key is refused.
pub(crate) fn keeps_places(room: &mut Room) -> bool {
    room.first_wrong(PLACES).is_none() && has_none(room, 0) && has_none(room, 6)
}

const MOST_VERSIONS: u64 = 1_000_000;

// Redefines a schema again and again, and returns the last version that came of it, below `most`.
fn change_until_refused(room: &mut Room, most: u64) -> u64 {
    let mut last = 0;
    for version in 1..most {
        if room.make(1, Act::Redefine(1, Wish::PutSchema, Ok(version))) != Some(true) {
            return last;
        }
        last = version;
    }
    last
}

const LOCKED: &[Row] = &[(1, Act::TryNow(SCHEMA, Mode::X, Ok(Attempt::Granted(1))))];

const VERSION_FULL: SpaceError = SpaceError::VersionFull;

const NO_VERSION_LEFT: &[Row] = &[
    (1, Act::Redefine(1, Wish::PutSchema, Err(VERSION_FULL))),
    (1, Act::Redefine(1, Wish::Drop, Err(VERSION_FULL))),
    (1, Act::Read(1, Ok((MOST_VERSIONS, Shown::Schema)))),
    // This refusal comes before any other.
    (1, Act::Redefine(1, Wish::CreateTable, Err(VERSION_FULL))),
    (1, Act::Release(1, Ok(()))),
    (2, Act::TryNow(SCHEMA, Mode::X, Ok(Attempt::Granted(1)))),
    (2, Act::Redefine(1, Wish::Drop, Err(VERSION_FULL))),
];

/// Whether a schema's last version is `MOST_VERSIONS`.
pub(crate) fn has_versions_up_to_the_last(room: &mut Room) -> bool {
    room.first_wrong(LOCKED).is_none()
        && change_until_refused(room, MOST_VERSIONS + 9) == MOST_VERSIONS
        && room.first_wrong(NO_VERSION_LEFT).is_none()
}
