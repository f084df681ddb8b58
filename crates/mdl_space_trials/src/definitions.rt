//! Definitions of keys, read and changed under tickets, and each refusal, alone and together with those that are checked later.
//!
//! One refusal is in no row: a key has had its last version only after 1,000,000 changes.
use crate::acts::{Act, Row};
use crate::room::{GLOBAL, SCHEMA, Story, TABLE};
use crate::wishes::{Shown, Wish};
use mdl_defs::DefError;
use mdl_key::Mode;
use mdl_space::{Attempt, SpaceError};

const NOT_HELD: SpaceError = SpaceError::NotHeld;

const NOT_EXCLUSIVE: SpaceError = SpaceError::NotExclusive;

const WRONG_KIND: SpaceError = SpaceError::WrongKind;

const CHANGES: &[Row] = &[
    (1, Act::TryNow(TABLE, Mode::X, Ok(Attempt::Granted(1)))),
    (1, Act::Read(1, Ok((0, Shown::Nothing)))),
    (1, Act::Redefine(1, Wish::CreateTable, Ok(1))),
    (1, Act::Read(1, Ok((1, Shown::Table(1))))),
    (1, Act::Redefine(1, Wish::AddY, Ok(2))),
    (1, Act::Read(1, Ok((2, Shown::Table(2))))),
    (1, Act::Release(1, Ok(()))),
    // Other sessions read the definition that was left, in any mode and any number of times.
    (2, Act::TryNow(TABLE, Mode::SR, Ok(Attempt::Granted(1)))),
    (3, Act::TryNow(TABLE, Mode::SH, Ok(Attempt::Granted(1)))),
    (2, Act::Read(1, Ok((2, Shown::Table(2))))),
    (3, Act::Read(1, Ok((2, Shown::Table(2))))),
    (2, Act::Read(1, Ok((2, Shown::Table(2))))),
    (2, Act::Release(1, Ok(()))),
    (3, Act::Release(1, Ok(()))),
    (4, Act::TryNow(TABLE, Mode::X, Ok(Attempt::Granted(1)))),
    (4, Act::Redefine(1, Wish::DropX, Ok(3))),
    (4, Act::Redefine(1, Wish::Drop, Ok(4))),
    (4, Act::Read(1, Ok((4, Shown::Nothing)))),
    (4, Act::Redefine(1, Wish::PutTable, Ok(5))),
    (4, Act::Redefine(1, Wish::PutTable, Ok(6))),
    (4, Act::Read(1, Ok((6, Shown::Table(1))))),
    // Another key has versions of its own.
    (4, Act::TryNow(SCHEMA, Mode::X, Ok(Attempt::Granted(2)))),
    (4, Act::Redefine(2, Wish::PutSchema, Ok(1))),
    (4, Act::Read(2, Ok((1, Shown::Schema)))),
    (4, Act::Read(1, Ok((6, Shown::Table(1))))),
];

// A cache changes no answer in the space of one thread, and is itself not changed.
const WITH_A_CACHE: &[Row] = &[
    (1, Act::ReadKept(1, Err(NOT_HELD))),
    (1, Act::TryNow(TABLE, Mode::X, Ok(Attempt::Granted(1)))),
    (1, Act::ReadKept(1, Ok((0, Shown::Nothing)))),
    (1, Act::Redefine(1, Wish::CreateTable, Ok(1))),
    (1, Act::ReadKept(1, Ok((1, Shown::Table(1))))),
    (1, Act::ReadKept(1, Ok((1, Shown::Table(1))))),
    (1, Act::Read(1, Ok((1, Shown::Table(1))))),
    (1, Act::ReadKept(2, Err(NOT_HELD))),
    // Another session can't use the ticket.
    (2, Act::ReadKept(1, Err(NOT_HELD))),
    (1, Act::Release(1, Ok(()))),
    (1, Act::ReadKept(1, Err(NOT_HELD))),
    (2, Act::TryNow(TABLE, Mode::SR, Ok(Attempt::Granted(1)))),
    (2, Act::ReadKept(1, Ok((1, Shown::Table(1))))),
];

const REFUSED: &[Row] = &[
    (1, Act::Read(1, Err(NOT_HELD))),
    (1, Act::Redefine(1, Wish::Drop, Err(NOT_HELD))),
    (2, Act::TryNow(TABLE, Mode::SR, Ok(Attempt::Granted(1)))),
    // Another session can't use the ticket.
    (1, Act::Read(1, Err(NOT_HELD))),
    (2, Act::Release(1, Ok(()))),
    (1, Act::TryNow(TABLE, Mode::SNRW, Ok(Attempt::Granted(1)))),
    (1, Act::Redefine(1, Wish::CreateTable, Err(NOT_EXCLUSIVE))),
    // Also if the definition isn't valid for a table, or if there is none to drop.
    (1, Act::Redefine(1, Wish::CreateSchema, Err(NOT_EXCLUSIVE))),
    (1, Act::Redefine(1, Wish::Drop, Err(NOT_EXCLUSIVE))),
    (1, Act::Release(1, Ok(()))),
    (1, Act::TryNow(TABLE, Mode::X, Ok(Attempt::Granted(2)))),
    (1, Act::Redefine(2, Wish::CreateSchema, Err(WRONG_KIND))),
    (1, Act::Redefine(2, Wish::PutSchema, Err(WRONG_KIND))),
    (
        1,
        Act::Redefine(2, Wish::Drop, Err(SpaceError::Def(DefError::Missing))),
    ),
    (
        1,
        Act::Redefine(2, Wish::AddX, Err(SpaceError::Def(DefError::Missing))),
    ),
    (1, Act::Redefine(2, Wish::CreateTable, Ok(1))),
    // Also if there is a definition already.
    (1, Act::Redefine(2, Wish::CreateSchema, Err(WRONG_KIND))),
    (
        1,
        Act::Redefine(2, Wish::CreateTable, Err(SpaceError::Def(DefError::Exists))),
    ),
    (
        1,
        Act::Redefine(
            2,
            Wish::AddX,
            Err(SpaceError::Def(DefError::DuplicateColumn)),
        ),
    ),
    (
        1,
        Act::Redefine(2, Wish::DropY, Err(SpaceError::Def(DefError::NoColumn))),
    ),
    (
        1,
        Act::Redefine(2, Wish::DropX, Err(SpaceError::Def(DefError::LastColumn))),
    ),
    (1, Act::TryNow(SCHEMA, Mode::X, Ok(Attempt::Granted(3)))),
    (1, Act::Redefine(3, Wish::CreateTable, Err(WRONG_KIND))),
    (
        1,
        Act::Redefine(3, Wish::AddX, Err(SpaceError::Def(DefError::Missing))),
    ),
    (1, Act::Redefine(3, Wish::CreateSchema, Ok(1))),
    (
        1,
        Act::Redefine(3, Wish::AddX, Err(SpaceError::Def(DefError::WrongKind))),
    ),
    (1, Act::TryNow(GLOBAL, Mode::X, Ok(Attempt::Granted(4)))),
    (1, Act::Redefine(4, Wish::Drop, Err(WRONG_KIND))),
    (1, Act::Redefine(4, Wish::CreateSchema, Err(WRONG_KIND))),
    // No refused call has changed anything.
    (1, Act::Read(2, Ok((1, Shown::Table(1))))),
    (1, Act::Read(3, Ok((1, Shown::Schema)))),
    (1, Act::Read(4, Ok((0, Shown::Nothing)))),
];

pub(crate) const DEFINITIONS: &[Story] = &[
    Story("definitions are read and changed", CHANGES),
    Story("definitions are read with a cache", WITH_A_CACHE),
    Story("reads and changes are refused", REFUSED),
];
