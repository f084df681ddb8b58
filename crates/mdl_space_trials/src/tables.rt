//! The tables of a schema, listed in the order of their keys.
use crate::acts::{Act, Row};
use crate::room::{Of, Room};
use crate::wishes::Wish;
use mdl_key::Mode;
use mdl_space::{Attempt, Place};

// The places of a room of tables.
const B: Place = 1;

const SCHEMA: Place = 2;

const A: Place = 3;

const OF_ANOTHER: Place = 4;

const UNDEFINED: Place = 5;

/// The keys of the places.
pub(crate) const KEYS: &[Of] = &[
    Of::Table("test", "b"),
    Of::Schema("test"),
    Of::Table("test", "a"),
    Of::Table("tes", "t"),
    Of::Table("test", "c"),
];

// Whether exactly these are the places of a schema's tables, in this order.
fn tells(room: &mut Room, schema: &str, places: &[Place]) -> bool {
    let Ok(told) = room.tables_of(schema) else {
        return false;
    };
    let is_so = told.as_slice() == places;
    drop(told);
    is_so
}

const CREATED: &[Row] = &[
    (1, Act::TryNow(B, Mode::X, Ok(Attempt::Granted(1)))),
    (1, Act::Redefine(1, Wish::CreateTable, Ok(1))),
    (1, Act::TryNow(SCHEMA, Mode::X, Ok(Attempt::Granted(2)))),
    (1, Act::Redefine(2, Wish::CreateSchema, Ok(1))),
    (1, Act::TryNow(A, Mode::X, Ok(Attempt::Granted(3)))),
    (1, Act::Redefine(3, Wish::CreateTable, Ok(1))),
    (1, Act::TryNow(OF_ANOTHER, Mode::X, Ok(Attempt::Granted(4)))),
    (1, Act::Redefine(4, Wish::CreateTable, Ok(1))),
    (1, Act::TryNow(UNDEFINED, Mode::X, Ok(Attempt::Granted(5)))),
];

const DROPPED: &[Row] = &[(1, Act::Redefine(1, Wish::Drop, Ok(2)))];

// Calls, and the tables of a schema after them.
const TOLD: &[(&[Row], &str, &[Place])] = &[
    (&[], "test", &[]),
    (CREATED, "test", &[A, B]),
    (&[], "tes", &[OF_ANOTHER]),
    (&[], "t", &[]),
    (DROPPED, "test", &[A]),
];

/// Whether the lists are right as tables are created and dropped.
pub(crate) fn tells_what_is_defined(room: &mut Room) -> bool {
    for (rows, schema, places) in TOLD {
        if room.first_wrong(rows).is_some() || !tells(room, schema, places) {
            return false;
        }
    }
    true
}
