//! Places that are given to other keys: those that no session pins, and whose key never had a definition. Two sessions share the space.
use crate::acts::{Act, Row};
use crate::base::rows::{self, are_told_so};
use crate::memory::{first_lost, new_room};
use crate::room::{COMMIT, GLOBAL, OTHER_TABLE, Of, SCHEMA, TABLE};
use crate::wishes::{Shown, Wish};
use mdl_key::Mode;
use mdl_space::{Attempt, Begun, Ended, SpaceError};
use std::alloc::Global;

const NO_PLACE: SpaceError = SpaceError::NoPlace;

const FIRST: Of = Of::Table("test", "t");

const NEW: Of = Of::Table("test", "v");

const NEWER: Of = Of::User("v");

// What rows of calls show, and the rows.
struct Story(&'static str, &'static [Row]);

// The sessions pin all five places at first, and there are no more.
impl rows::Story for Story {
    fn name(&self) -> &'static str {
        self.0
    }

    fn first_wrong(&self, alloc: Global) -> Option<usize> {
        let Some(mut room) = new_room(alloc, 2) else {
            return Some(self.1.len());
        };
        let wrong = first_lost(&mut room, self.1);
        drop(room);
        wrong
    }
}

const ONCE_UNPINNED: &[Row] = &[
    (1, Act::Resolve(NEW, Err(NO_PLACE))),
    (1, Act::Unpin(TABLE, Ok(()))),
    (1, Act::Resolve(NEW, Err(NO_PLACE))),
    (1, Act::Resolve(FIRST, Ok(TABLE))),
    (1, Act::Unpin(TABLE, Ok(()))),
    (2, Act::Unpin(TABLE, Ok(()))),
    (2, Act::Resolve(NEW, Ok(TABLE))),
    (2, Act::Resolve(NEW, Ok(TABLE))),
    (1, Act::Resolve(NEW, Ok(TABLE))),
    (1, Act::Resolve(FIRST, Err(NO_PLACE))),
    // The new key has no definition, no tickets and no waits.
    (1, Act::TryNow(TABLE, Mode::X, Ok(Attempt::Granted(1)))),
    (1, Act::Read(1, Ok((0, Shown::Nothing)))),
    (2, Act::BeginWait(TABLE, Mode::SR, Ok(Begun::Waiting(1)))),
    (1, Act::Redefine(1, Wish::CreateTable, Ok(1))),
    (1, Act::Release(1, Ok(()))),
    (2, Act::EndWait(Ok(Ended::Granted(1)))),
    (2, Act::Read(1, Ok((1, Shown::Table(1))))),
];

const IN_ORDER: &[Row] = &[
    (1, Act::Unpin(COMMIT, Ok(()))),
    (1, Act::Unpin(GLOBAL, Ok(()))),
    (1, Act::Unpin(SCHEMA, Ok(()))),
    (2, Act::Unpin(COMMIT, Ok(()))),
    (2, Act::Unpin(SCHEMA, Ok(()))),
    // The least place that nobody pins is given, and not the one that was given up first.
    (1, Act::Resolve(NEW, Ok(SCHEMA))),
    (1, Act::Resolve(NEWER, Ok(COMMIT))),
    (1, Act::Resolve(Of::Schema("test"), Err(NO_PLACE))),
    (2, Act::Unpin(GLOBAL, Ok(()))),
    (1, Act::Resolve(Of::Schema("test"), Ok(GLOBAL))),
    // A key that loses its place gets another one later.
    (1, Act::Unpin(COMMIT, Ok(()))),
    (2, Act::Resolve(Of::Global, Ok(COMMIT))),
    (2, Act::Resolve(NEW, Ok(SCHEMA))),
];

// The new key is of the other kind.
const OF_OTHER_KINDS: &[Row] = &[
    (1, Act::Unpin(TABLE, Ok(()))),
    (2, Act::Unpin(TABLE, Ok(()))),
    (1, Act::Unpin(SCHEMA, Ok(()))),
    (2, Act::Unpin(SCHEMA, Ok(()))),
    (1, Act::Resolve(Of::Schema("other"), Ok(TABLE))),
    (1, Act::TryNow(TABLE, Mode::SR, Err(SpaceError::BadMode))),
    (1, Act::TryNow(TABLE, Mode::IX, Ok(Attempt::Granted(1)))),
    (
        1,
        Act::Redefine(1, Wish::PutSchema, Err(SpaceError::NotExclusive)),
    ),
    (2, Act::Resolve(NEW, Ok(SCHEMA))),
    (2, Act::TryNow(SCHEMA, Mode::IX, Err(SpaceError::BadMode))),
    (2, Act::TryNow(SCHEMA, Mode::X, Ok(Attempt::Granted(1)))),
    (2, Act::Redefine(1, Wish::PutTable, Ok(1))),
];

const DEFINED: &[Row] = &[
    (1, Act::TryNow(TABLE, Mode::X, Ok(Attempt::Granted(1)))),
    (1, Act::Redefine(1, Wish::CreateTable, Ok(1))),
    (1, Act::Release(1, Ok(()))),
    (1, Act::Unpin(TABLE, Ok(()))),
    (2, Act::Unpin(TABLE, Ok(()))),
    (1, Act::Resolve(NEW, Err(NO_PLACE))),
    // Also once there is no definition any more: the version stays.
    (2, Act::Resolve(FIRST, Ok(TABLE))),
    (2, Act::TryNow(TABLE, Mode::X, Ok(Attempt::Granted(1)))),
    (2, Act::Redefine(1, Wish::Drop, Ok(2))),
    (2, Act::Release(1, Ok(()))),
    (2, Act::Unpin(TABLE, Ok(()))),
    (1, Act::Resolve(NEW, Err(NO_PLACE))),
    // Another place is given.
    (1, Act::Unpin(OTHER_TABLE, Ok(()))),
    (2, Act::Unpin(OTHER_TABLE, Ok(()))),
    (1, Act::Resolve(NEW, Ok(OTHER_TABLE))),
    (1, Act::Resolve(FIRST, Ok(TABLE))),
    (1, Act::TryNow(TABLE, Mode::SR, Ok(Attempt::Granted(2)))),
    (1, Act::Read(2, Ok((2, Shown::Nothing)))),
];

const STORIES: &[Story] = &[
    Story("a place is given anew once nobody pins it", ONCE_UNPINNED),
    Story("the least unused place is given", IN_ORDER),
    Story(
        "a place is given to a key of the other kind",
        OF_OTHER_KINDS,
    ),
    Story("a place with a version keeps its key", DEFINED),
];

#[test]
fn places_are_given_anew(rt: HostRuntime) {
    are_told_so(&rt, rt.alloc(), STORIES);
}
