//! What is printed of values, and of the cause of each refusal.
use crate::base::rows::none_is_wrong;
use mdl_book::BookError;
use mdl_calls::SpaceError;
use mdl_defs::{CacheError, ChangeError, DefError};
use mdl_key::{KeyError, Utf8NameError};
use std::alloc::Global;
use std::fmt::Display;

/// Whether this is what is printed of a value.
pub(crate) fn is_printed<T: Display>(alloc: Global, value: &T, text: &str) -> bool {
    match value.to_string(alloc) {
        Ok(printed) => printed.as_str() == text,
        Err(_) => false,
    }
}

// Returns the index of the first row that doesn't say how its value is printed.
fn first_wrong<T: Display>(alloc: Global, rows: &[(T, &str)]) -> Option<usize> {
    for (row, (value, text)) in rows.iter().enumerate() {
        if !is_printed(alloc, value, text) {
            return Some(row);
        }
    }
    None
}

const KEYS: &[(KeyError, &str)] = &[
    (KeyError::EmptyName, "empty name"),
    (KeyError::LongName, "name of more than 64 bytes"),
    (KeyError::BadByte(3), "bad byte at 3 of a name"),
    (KeyError::OutOfMemory, "out of memory"),
];

const UTF8_NAMES: &[(Utf8NameError, &str)] = &[
    (Utf8NameError::EmptyName, "empty name"),
    (Utf8NameError::LongName, "name of more than 255 bytes"),
    (Utf8NameError::OutOfMemory, "out of memory"),
];

const DEFINITIONS: &[(DefError, &str)] = &[
    (DefError::Exists, "already exists"),
    (DefError::Missing, "doesn't exist"),
    (DefError::DuplicateColumn, "duplicate column name"),
    (DefError::NoColumn, "no such column"),
    (DefError::LastColumn, "a table can't lose its last column"),
    (DefError::ManyColumns, "more than 64 columns"),
    (
        DefError::WrongKind,
        "columns where none can be, or none where some have to be",
    ),
    (DefError::OutOfMemory, "out of memory"),
];

const CHANGES: &[(ChangeError, &str)] = &[
    (ChangeError::VersionFull, "no version is left"),
    (ChangeError::WrongKind, "no definition for such a key"),
    (
        ChangeError::Def(DefError::LastColumn),
        "a table can't lose its last column",
    ),
    (ChangeError::OutOfMemory, "out of memory"),
];

const CACHES: &[(CacheError, &str)] = &[
    (
        CacheError::BadCapacity,
        "a cache keeps 1 to 4096 definitions",
    ),
    (CacheError::OutOfMemory, "out of memory"),
];

const BOOKS: &[(BookError, &str)] = &[
    (BookError::NotHere, "no such ticket"),
    (
        BookError::WouldConflict,
        "another session holds the lock in a mode that conflicts",
    ),
    (
        BookError::Full,
        "the lock has as many tickets as it can have",
    ),
    (BookError::OutOfMemory, "out of memory"),
];

const SPACES: &[(SpaceError, &str)] = &[
    (SpaceError::NoPlace, "no such place"),
    (SpaceError::NotHeld, "no such ticket is held"),
    (
        SpaceError::NotUpgradable,
        "the held mode can't be changed so",
    ),
    (SpaceError::NotExclusive, "not locked exclusively"),
    (SpaceError::AlreadyWaiting, "the session has a wait"),
    (SpaceError::BadMode, "not a mode that the ticket can have"),
    (SpaceError::VersionFull, "no version is left"),
    (SpaceError::NoWait, "the session has no wait"),
    (SpaceError::Unsettled, "the wait isn't settled"),
    (SpaceError::CounterFull, "no number is left"),
    (
        SpaceError::Full,
        "the lock has as many tickets as it can have",
    ),
    (SpaceError::Def(DefError::Exists), "already exists"),
    (SpaceError::WrongKind, "no definition for such a key"),
    (SpaceError::OutOfMemory, "out of memory"),
    (SpaceError::InUse, "the place is in use"),
];

#[test]
fn tells_each_cause(rt: HostRuntime) {
    none_is_wrong(&rt, "keys", first_wrong(rt.alloc(), KEYS));
    none_is_wrong(&rt, "names", first_wrong(rt.alloc(), UTF8_NAMES));
    none_is_wrong(&rt, "definitions", first_wrong(rt.alloc(), DEFINITIONS));
    none_is_wrong(&rt, "changes", first_wrong(rt.alloc(), CHANGES));
    none_is_wrong(&rt, "caches", first_wrong(rt.alloc(), CACHES));
    none_is_wrong(&rt, "books", first_wrong(rt.alloc(), BOOKS));
    none_is_wrong(&rt, "spaces", first_wrong(rt.alloc(), SPACES));
}
