//! Keys: how they are made, refused, compared and printed.
use crate::base::rows::{Row, are_right, is_right};
use crate::base::texts::is_printed;
use mdl_defs::Column;
use mdl_key::{Key, KeyError, Kind, Namespace, check_name};
use std::alloc::Global;
use std::cmp::Ordering;

/// A name of the greatest length.
pub(crate) const LONGEST: &str = "0123456789_abcdefghijklmnopqrstuvwxyz_0123456789_abcdefghijklmno";

// Two names that are longer. The second has a bad byte as well.
const TOO_LONG: &str = "0123456789_abcdefghijklmnopqrstuvwxyz_0123456789_abcdefghijklmnoz";

const TOO_LONG_AND_BAD: &str = "0123456789_abcdefghijklmnopqrstuvwxyz_0123456789_abcdefghijklmnoZ";

/// A namespace, and the names that a key has there.
pub(crate) type Name = (Namespace, &'static str, &'static str);

/// Returns a key of a namespace, with those names that it has there.
pub(crate) fn key_of(alloc: Global, (namespace, schema, table): Name) -> Result<Key, KeyError> {
    match namespace {
        Namespace::Global => Ok(Key::global(alloc)),
        Namespace::Schema => Key::schema(alloc, schema),
        Namespace::Table => Key::table(alloc, schema, table),
        Namespace::Commit => Ok(Key::commit(alloc)),
        Namespace::UserLevelLock => Key::user_lock(alloc, schema),
    }
}

// Whether a key has its names, and the kind of its namespace.
fn has_names(key: &Key, (namespace, schema, table): Name) -> bool {
    key.namespace() == namespace
        && key.kind() == namespace.kind()
        && key.schema_name() == schema
        && key.table_name() == table
}

/// Whether a copy of a key has these names and this kind, and is printed as this text.
pub(crate) fn is_copied_so(alloc: Global, key: &Key, name: Name, kind: Kind, text: &str) -> bool {
    let Ok(copy) = key.clone() else {
        return false;
    };
    let is_so = has_names(&copy, name) && copy.kind() == kind && is_printed(alloc, &copy, text);
    drop(copy);
    is_so
}

// The name of a lock, the kind of its key, and the text that is printed.
struct Named(Name, Kind, &'static str);

impl Row for Named {
    fn goes_so(&self, alloc: Global) -> bool {
        let Ok(key) = key_of(alloc, self.0) else {
            return false;
        };
        let is_so = is_copied_so(alloc, &key, self.0, self.1, self.2);
        drop(key);
        is_so
    }
}

const NAMED: &[Named] = &[
    Named((Namespace::Global, "", ""), Kind::Scoped, "GLOBAL"),
    Named((Namespace::Schema, "test", ""), Kind::Scoped, "SCHEMA test"),
    Named(
        (Namespace::Table, "test", "t_1"),
        Kind::Object,
        "TABLE test.t_1",
    ),
    Named((Namespace::Commit, "", ""), Kind::Scoped, "COMMIT"),
    Named(
        (Namespace::UserLevelLock, "job_1", ""),
        Kind::Object,
        "USER job_1",
    ),
];

#[test]
fn names_locks(rt: HostRuntime) {
    are_right(&rt, rt.alloc(), NAMED);
}

// Returns why there is no key with these names, or None if there is one.
fn refusal(alloc: Global, name: Name) -> Option<KeyError> {
    key_of(alloc, name).err()
}

// Whether a name is refused for this reason, or accepted if there is none, wherever a key has it.
fn is_refused(alloc: Global, name: &'static str, want: Option<KeyError>) -> bool {
    let names = [
        (Namespace::Schema, name, ""),
        (Namespace::Table, name, "t"),
        (Namespace::Table, "s", name),
        (Namespace::UserLevelLock, name, ""),
    ];
    for name in &names {
        if refusal(alloc, *name) != want {
            return false;
        }
    }
    true
}

// Names, and why each is refused, wherever it can be used.
struct Refused(&'static str, Option<KeyError>);

impl Row for Refused {
    fn goes_so(&self, alloc: Global) -> bool {
        check_name(self.0).err() == self.1
            && Column::new(alloc, self.0).err() == self.1
            && is_refused(alloc, self.0, self.1)
    }
}

const REFUSED: &[Refused] = &[
    Refused("", Some(KeyError::EmptyName)),
    Refused(LONGEST, None),
    Refused(TOO_LONG, Some(KeyError::LongName)),
    Refused(TOO_LONG_AND_BAD, Some(KeyError::LongName)),
    Refused("az09_", None),
    Refused("A", Some(KeyError::BadByte(0))),
    Refused("ab-c d", Some(KeyError::BadByte(2))),
    Refused("a`", Some(KeyError::BadByte(1))),
    Refused("a{", Some(KeyError::BadByte(1))),
    Refused("a/", Some(KeyError::BadByte(1))),
    Refused("a:", Some(KeyError::BadByte(1))),
    Refused("naïve", Some(KeyError::BadByte(2))),
];

#[test]
fn refuses_what_is_no_name(rt: HostRuntime) {
    assert!(rt; LONGEST.len() == 64);
    are_right(&rt, rt.alloc(), REFUSED);
}

// Names of a schema and of a table, and why they are refused.
struct TwiceBad(&'static str, &'static str, KeyError);

impl Row for TwiceBad {
    fn goes_so(&self, alloc: Global) -> bool {
        refusal(alloc, (Namespace::Table, self.0, self.1)) == Some(self.2)
    }
}

const TWICE_BAD: &[TwiceBad] = &[
    TwiceBad("", "a.b", KeyError::EmptyName),
    TwiceBad("", TOO_LONG, KeyError::EmptyName),
    TwiceBad(TOO_LONG, "", KeyError::LongName),
    TwiceBad("a.b", "", KeyError::BadByte(1)),
    TwiceBad("abc.", ".", KeyError::BadByte(3)),
    TwiceBad("abc", "", KeyError::EmptyName),
];

#[test]
fn looks_at_the_schema_first(rt: HostRuntime) {
    are_right(&rt, rt.alloc(), TWICE_BAD);
}

// Keys in rising order.
const RISING: &[Name] = &[
    (Namespace::Global, "", ""),
    (Namespace::Schema, "a", ""),
    (Namespace::Schema, "b", ""),
    (Namespace::Table, "a", "z"),
    (Namespace::Table, "a_", "a"),
    (Namespace::Table, "aa", "a"),
    (Namespace::Table, "b", "a"),
    (Namespace::Table, "b", "aa"),
    (Namespace::Table, "b", "b"),
    (Namespace::Commit, "", ""),
    (Namespace::UserLevelLock, "a", ""),
    (Namespace::UserLevelLock, "aa", ""),
    (Namespace::UserLevelLock, "b", ""),
];

// Whether a key compares in this way with the key of these names.
fn is_ordered_to(alloc: Global, a: &Key, b: Name, want: Ordering) -> bool {
    let Ok(b) = key_of(alloc, b) else {
        return false;
    };
    let is_so = a.cmp(&b) == want && a.partial_cmp(&b) == Some(want);
    drop(b);
    is_so
}

fn are_ordered(alloc: Global, a: Name, b: Name, want: Ordering) -> bool {
    let Ok(a) = key_of(alloc, a) else {
        return false;
    };
    let is_so = is_ordered_to(alloc, &a, b, want);
    drop(a);
    is_so
}

// Whether a name is ordered with each as its index says.
fn is_in_place(alloc: Global, i: usize, a: Name) -> bool {
    for (j, b) in RISING.iter().enumerate() {
        if !are_ordered(alloc, a, *b, i.cmp(&j)) {
            return false;
        }
    }
    true
}

#[test]
fn stands_in_order(rt: HostRuntime) {
    for (i, a) in RISING.iter().enumerate() {
        is_right(&rt, i, is_in_place(rt.alloc(), i, *a));
    }
}
