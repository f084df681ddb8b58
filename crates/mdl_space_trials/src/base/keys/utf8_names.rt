//! Keys whose names may be any texts: how they are made, refused and compared.
use crate::base::keys::names::{self, Name, is_copied_so};
use crate::base::rows::{Row, are_right};
use mdl_key::{Key, Kind, LONGEST_UTF8_NAME, Namespace, Utf8NameError, check_utf8_name};
use std::alloc::Global;

// A name of the greatest length, 85 letters of 3 bytes, and one with a byte more.
const LONGEST: &str =
    "表表表表表表表表表表表表表表表表表表表表表表表表表表表表表表表表表表表表表表表表表表表表表表表表表表表表表表表表表表表表表表表表表表表表表表表表表表表表表表表表表表表表表";

const TOO_LONG: &str =
    "表表表表表表表表表表表表表表表表表表表表表表表表表表表表表表表表表表表表表表表表表表表表表表表表表表表表表表表表表表表表表表表表表表表表表表表表表表表表表表表表表表表表表a";

// Returns a key of a namespace, with those names that it has there.
fn key_of(alloc: Global, (namespace, schema, table): Name) -> Result<Key, Utf8NameError> {
    match namespace {
        Namespace::Global => Ok(Key::global(alloc)),
        Namespace::Schema => Key::schema_utf8(alloc, schema),
        Namespace::Table => Key::table_utf8(alloc, schema, table),
        Namespace::Commit => Ok(Key::commit(alloc)),
        Namespace::UserLevelLock => Key::user_lock_utf8(alloc, schema),
    }
}

// The name of a lock, the kind of its key, and the text that is printed.
struct Named(Name, Kind, &'static str);

impl Row for Named {
    fn goes_so(&self, alloc: Global) -> bool {
        let Ok(key) = key_of(alloc, self.0) else {
            return false;
        };
        let is_so = is_copied_so(alloc, &key, self.0, self.1, self.2);
        drop(key);
        is_so
    }
}

const NAMED: &[Named] = &[
    Named(
        (Namespace::Schema, "Läden", ""),
        Kind::Scoped,
        "SCHEMA Läden",
    ),
    Named(
        (Namespace::Table, "Läden", "order line.1"),
        Kind::Object,
        "TABLE Läden.order line.1",
    ),
    Named((Namespace::Table, "表", "é"), Kind::Object, "TABLE 表.é"),
    Named((Namespace::UserLevelLock, "é", ""), Kind::Object, "USER é"),
];

#[test]
fn names_locks_by_any_texts(rt: HostRuntime) {
    are_right(&rt, rt.alloc(), NAMED);
}

// Whether a name is refused for this reason, or accepted if there is none, wherever a key has it.
fn is_refused(alloc: Global, name: &'static str, want: Option<Utf8NameError>) -> bool {
    let keys = [
        (Namespace::Schema, name, ""),
        (Namespace::Table, name, "t"),
        (Namespace::Table, "s", name),
        (Namespace::UserLevelLock, name, ""),
    ];
    for key in &keys {
        if key_of(alloc, *key).err() != want {
            return false;
        }
    }
    true
}

// Names, and why each is refused, wherever it can be used.
struct Refused(&'static str, Option<Utf8NameError>);

impl Row for Refused {
    fn goes_so(&self, alloc: Global) -> bool {
        check_utf8_name(self.0).err() == self.1 && is_refused(alloc, self.0, self.1)
    }
}

const REFUSED: &[Refused] = &[
    Refused("", Some(Utf8NameError::EmptyName)),
    Refused("\0", None),
    Refused(" ", None),
    Refused(LONGEST, None),
    Refused(TOO_LONG, Some(Utf8NameError::LongName)),
];

#[test]
fn refuses_texts_by_their_length(rt: HostRuntime) {
    assert!(rt; LONGEST.len() == LONGEST_UTF8_NAME);
    assert!(rt; TOO_LONG.len() == 256);
    are_right(&rt, rt.alloc(), REFUSED);
}

// Names of a schema and of a table, and why they are refused.
struct TwiceBad(&'static str, &'static str, Utf8NameError);

impl Row for TwiceBad {
    fn goes_so(&self, alloc: Global) -> bool {
        key_of(alloc, (Namespace::Table, self.0, self.1)).err() == Some(self.2)
    }
}

const TWICE_BAD: &[TwiceBad] = &[
    TwiceBad("", TOO_LONG, Utf8NameError::EmptyName),
    TwiceBad(TOO_LONG, "", Utf8NameError::LongName),
];

#[test]
fn looks_at_the_text_of_the_schema_first(rt: HostRuntime) {
    are_right(&rt, rt.alloc(), TWICE_BAD);
}

// Whether a key equals the key of these names, if that is wanted.
fn is_equal_to(alloc: Global, a: &Key, b: Name, want: bool) -> bool {
    let Ok(b) = key_of(alloc, b) else {
        return false;
    };
    let is_so = (*a == b) == want;
    drop(b);
    is_so
}

// Two names, and whether their keys are equal.
struct Compared(Name, Name, bool);

impl Row for Compared {
    fn goes_so(&self, alloc: Global) -> bool {
        let Ok(a) = key_of(alloc, self.0) else {
            return false;
        };
        let is_so = is_equal_to(alloc, &a, self.1, self.2);
        drop(a);
        is_so
    }
}

// Most of the names that differ have the same length and the same last byte.
const COMPARED: &[Compared] = &[
    Compared(
        (Namespace::Table, "Läden", "表"),
        (Namespace::Table, "Läden", "表"),
        true,
    ),
    Compared(
        (Namespace::Schema, "order", ""),
        (Namespace::Schema, "cider", ""),
        false,
    ),
    Compared(
        (Namespace::Table, "a", "order"),
        (Namespace::Table, "b", "order"),
        false,
    ),
    Compared(
        (Namespace::Table, "ab", "order"),
        (Namespace::Table, "abo", "rder"),
        false,
    ),
    Compared(
        (Namespace::Schema, "order", ""),
        (Namespace::UserLevelLock, "order", ""),
        false,
    ),
    Compared(
        (Namespace::Schema, "é", ""),
        (Namespace::Schema, "É", ""),
        false,
    ),
    Compared(
        (Namespace::Schema, "a", ""),
        (Namespace::Schema, "b", ""),
        false,
    ),
    Compared(
        (Namespace::Schema, "a", ""),
        (Namespace::Schema, "a", ""),
        true,
    ),
    Compared(
        (Namespace::Global, "", ""),
        (Namespace::Commit, "", ""),
        false,
    ),
];

#[test]
fn compares_each_byte(rt: HostRuntime) {
    are_right(&rt, rt.alloc(), COMPARED);
}

// Whether a name has the same key by both constructors.
fn is_the_same_key(alloc: Global, name: Name) -> bool {
    let Ok(key) = names::key_of(alloc, name) else {
        return false;
    };
    let is_so = is_equal_to(alloc, &key, name, true);
    drop(key);
    is_so
}

#[test]
fn makes_the_same_keys(rt: HostRuntime) {
    let alloc = rt.alloc();
    assert!(rt; is_the_same_key(alloc, (Namespace::Schema, "shop", "")));
    assert!(rt; is_the_same_key(alloc, (Namespace::Table, "shop", "orders")));
    assert!(rt; is_the_same_key(alloc, (Namespace::UserLevelLock, "job", "")));
}
