//! Keys: the names of locks.
ghost use Rattle.std.specs.Prelude.{◌≡◌, ◌≤◌, ℕ, Some, [], ◌∷◌, ◌++◌, IfOk, IsOkUnless, length, not, position};
ghost use Rattle.std.specs.String.{string_bytes};
ghost use Rattle.std.proofs.Common.{rules};
ghost use Rattle.std.specs.Ordering.{as_partial_cmp};
ghost use Rattle.std.specs.Cmp.{partial_order_from_own_ties};
ghost use Rattle.std.specs.Cmp.Rules.{comparing, hashing};
ghost use Rattle.std.specs.Hash as fed;
ghost use Rattle.mdl_key.specs.Modes.{kind_of};
ghost use Rattle.mdl_key.specs.Keys.{global_key, commit_key, schema_key, table_key, user_lock_key, name_fault, table_fault, utf8_name_fault, utf8_table_fault, is_name_byte, key_eq, key_cmp, key_text};
ghost use Rattle.mdl_key.specs.Limits.{longest_utf8_name};
ghost use Rattle.mdl_key.specs.Refusals.{Refuses, RefusesJust};

use crate::{KeyError, Kind, LONGEST_NAME, LONGEST_UTF8_NAME, Namespace, Utf8NameError};
use std::alloc::{AllocError, Global};
use std::cmp::Ordering;
use std::fmt;
use std::hash::{Hash, Hasher};
use std::marker::Model;

/// The name of a lock: a namespace, and within it a schema, a table or a user-level lock.
///
/// A name has 1 to [`LONGEST_NAME`] bytes of `a-z 0-9 _`; the constructors that end in `_utf8` take any text of 1 to [`LONGEST_UTF8_NAME`]
/// bytes instead. Keys are ordered by namespace, then by the bytes of the schema's name, then
/// by those of the table's. After MySQL 5.7, `MDL_key` of `sql/mdl.h`.
#[derive(Drop)]
pub struct Key {
    namespace: Namespace,
    // The schema's name, followed by the table's, so that a key needs only one allocation.
    names: String,
    // Where the table's name begins.
    cut: u8,
}

impl Model for Key {
    ghost use Rattle.std.specs.Prelude.{drop, take};
    ghost use Rattle.std.specs.Str.{IsCharBoundary};
    ghost use Rattle.std.specs.String.{string_bytes};
    ghost use Rattle.mdl_key.specs.Keys.{KeyName};

    ghost Value = { KeyName };

    ghost view = { λ key. record { namespace = key.namespace; schema = take key.cut (string_bytes key.names); table = drop key.cut (string_bytes key.names) } };

    ghost invariant = { λ key. IsCharBoundary (string_bytes key.names) key.cut };
}

impl Key {
    /// The key of the global read lock. It takes no memory.
    pub fn global(alloc: Global) -> Key
        ensures { result ≡ global_key }
    {
        Key::unnamed(alloc, Namespace::Global)
    }

    /// The key that commits take. It takes no memory.
    pub fn commit(alloc: Global) -> Key
        ensures { result ≡ commit_key }
    {
        Key::unnamed(alloc, Namespace::Commit)
    }

    /// The key of a schema.
    pub fn schema(alloc: Global, schema: &str) -> Result<Key, KeyError>
        ensures made { IfOk result (λ key. key ≡ schema_key schema.now) }
        ensures refused { Refuses (name_fault schema.now) KeyError.OutOfMemory result }
    {
        check_name(schema)?;
        Key::named(alloc, Namespace::Schema, schema, "")
    }

    /// The key of a table. The schema's name is checked first.
    pub fn table(alloc: Global, schema: &str, table: &str) -> Result<Key, KeyError>
        ensures made { IfOk result (λ key. key ≡ table_key schema.now table.now) }
        ensures refused { Refuses (table_fault schema.now table.now) KeyError.OutOfMemory result }
    {
        check_name(schema)?;
        check_name(table)?;
        Key::named(alloc, Namespace::Table, schema, table)
    }

    /// The key of a user-level lock.
    pub fn user_lock(alloc: Global, name: &str) -> Result<Key, KeyError>
        ensures made { IfOk result (λ key. key ≡ user_lock_key name.now) }
        ensures refused { Refuses (name_fault name.now) KeyError.OutOfMemory result }
    {
        check_name(name)?;
        Key::named(alloc, Namespace::UserLevelLock, name, "")
    }

    /// The key of a schema whose name may be any text of 1 to [`LONGEST_UTF8_NAME`] bytes.
    pub fn schema_utf8(alloc: Global, schema: &str) -> Result<Key, Utf8NameError>
        ensures made { IfOk result (λ key. key ≡ schema_key schema.now) }
        ensures refused { Refuses (utf8_name_fault schema.now) Utf8NameError.OutOfMemory result }
    {
        check_utf8_name(schema)?;
        Key::named_utf8(alloc, Namespace::Schema, schema, "")
    }

    /// The key of a table whose names may be any texts of 1 to [`LONGEST_UTF8_NAME`] bytes. The schema's name is checked first.
    pub fn table_utf8(alloc: Global, schema: &str, table: &str) -> Result<Key, Utf8NameError>
        ensures made { IfOk result (λ key. key ≡ table_key schema.now table.now) }
        ensures refused { Refuses (utf8_table_fault schema.now table.now) Utf8NameError.OutOfMemory result }
    {
        check_utf8_name(schema)?;
        check_utf8_name(table)?;
        Key::named_utf8(alloc, Namespace::Table, schema, table)
    }

    /// The key of a user-level lock whose name may be any text of 1 to [`LONGEST_UTF8_NAME`] bytes.
    pub fn user_lock_utf8(alloc: Global, name: &str) -> Result<Key, Utf8NameError>
        ensures made { IfOk result (λ key. key ≡ user_lock_key name.now) }
        ensures refused { Refuses (utf8_name_fault name.now) Utf8NameError.OutOfMemory result }
    {
        check_utf8_name(name)?;
        Key::named_utf8(alloc, Namespace::UserLevelLock, name, "")
    }

    fn unnamed(alloc: Global, namespace: Namespace) -> Key
        ensures { result ≡ record { namespace = namespace; schema = []; table = [] } }
    {
        Key {
            namespace,
            names: String::new(alloc),
            cut: 0,
        }
    }

    fn named(
        alloc: Global,
        namespace: Namespace,
        schema: &str,
        table: &str,
    ) -> Result<Key, KeyError>
        requires { length schema.now ≤ longest_utf8_name }
        ensures made { IfOk result (λ key. key ≡ record { namespace = namespace; schema = schema.now; table = table.now }) }
        ensures memory { IsOkUnless result KeyError.OutOfMemory }
    {
        Ok(Key {
            namespace,
            names: joined(alloc, schema, table)?,
            cut: schema.len() as u8,
        })
    }

    fn named_utf8(
        alloc: Global,
        namespace: Namespace,
        schema: &str,
        table: &str,
    ) -> Result<Key, Utf8NameError>
        requires { length schema.now ≤ longest_utf8_name }
        ensures made { IfOk result (λ key. key ≡ record { namespace = namespace; schema = schema.now; table = table.now }) }
        ensures memory { IsOkUnless result Utf8NameError.OutOfMemory }
    {
        match Key::named(alloc, namespace, schema, table) {
            Ok(key) => Ok(key),
            Err(_) => Err(Utf8NameError::OutOfMemory),
        }
    }

    /// Returns the key's namespace.
    pub fn namespace(&self) -> Namespace
        ensures { result ≡ self.now.namespace }
    {
        self.namespace
    }

    /// Returns the kind of the key's lock.
    pub fn kind(&self) -> Kind
        ensures { result ≡ kind_of self.now.namespace }
    {
        self.namespace.kind()
    }

    /// Returns the name of the key's schema or of the user-level lock. It is empty if the key has none.
    pub fn schema_name(&self) -> &str
        ensures { result.now ≡ self.now.schema }
    {
        self.parts().0
    }

    /// Returns the name of the key's table. It is empty if the key has none.
    pub fn table_name(&self) -> &str
        ensures { result.now ≡ self.now.table }
    {
        self.parts().1
    }

    fn parts(&self) -> (&str, &str)
        ensures schema { result.0.now ≡ self.now.schema }
        ensures table { result.1.now ≡ self.now.table }
    {
        self.names.as_str().split_at(usize::from(self.cut))
    }
}

impl Clone for Key {
    ghost is_clone = { λ key copy. copy ≡ key };

    fn clone(&self) -> Result<Key, AllocError> {
        Ok(Key {
            namespace: self.namespace,
            names: self.names.clone()?,
            cut: self.cut,
        })
    }
}

impl PartialEq for Key {
    ghost eq = { key_eq };

    ghost laws = { Prim.search (comparing, rules) depth 9 };

    fn eq(&self, other: &Key) -> bool {
        self.namespace == other.namespace
            && self.cut == other.cut
            && self.names.as_str() == other.names.as_str()
    }
}

impl Eq for Key {
    ghost laws = { Prim.search (comparing, rules) depth 9 };
}

impl PartialOrd for Key {
    ghost partial_cmp = { as_partial_cmp key_cmp };

    ghost laws = { partial_order_from_own_ties (Prim.search (comparing, rules) depth 9) (Prim.search (comparing, rules) depth 9) };

    fn partial_cmp(&self, other: &Key) -> Option<Ordering> {
        Some(self.cmp(other))
    }
}

impl Ord for Key {
    ghost cmp = { key_cmp };

    ghost total = { Prim.search (comparing, rules) depth 9 };

    ghost matches_partial_cmp = { Prim.search (comparing, rules) depth 9 };

    ghost matches_eq = { Prim.search (comparing, rules) depth 9 };

    fn cmp(&self, other: &Key) -> Ordering {
        self.namespace
            .cmp(&other.namespace)
            .then_with(|| self.schema_name().cmp(other.schema_name()))
            .then_with(|| self.table_name().cmp(other.table_name()))
    }
}

/// Only the bytes of its names are hashed, one after the other, not the namespace. The two keys without a name have the same hash, and so do a
/// schema and a user-level lock of one name, and the tables `a.bc` and `ab.c`.
impl Hash for Key {
    ghost hash_input = { λ key. fed.str (key.schema ++ key.table) };

    ghost respects_eq = { Prim.search (hashing, rules) depth 9 };

    fn hash<H: Hasher>(&self, state: &mut H) {
        self.names.as_str().hash(state);
    }
}

/// `GLOBAL`, `SCHEMA s`, `TABLE s.t`, `COMMIT` or `USER n`.
impl fmt::Display for Key {
    ghost output = { λ key. Some (key_text key) };

    fn fmt<W: fmt::Write>(&self, f: &mut fmt::Formatter<W>) -> fmt::Result {
        let (schema, table) = self.parts();
        match self.namespace {
            Namespace::Global => f.write_str("GLOBAL"),
            Namespace::Schema => write!(f, "SCHEMA {schema}"),
            Namespace::Table => write!(f, "TABLE {schema}.{table}"),
            Namespace::Commit => f.write_str("COMMIT"),
            Namespace::UserLevelLock => write!(f, "USER {schema}"),
        }
    }
}

/// Checks whether a text is a name: 1 to [`LONGEST_NAME`] bytes of `a-z 0-9 _`. Of several faults it returns the first in the order of `KeyError`.
pub fn check_name(name: &str) -> Result<(), KeyError>
    ensures { RefusesJust (name_fault name.now) result }
{
    if name.is_empty() {
        return Err(KeyError::EmptyName);
    }
    if name.len() > LONGEST_NAME {
        return Err(KeyError::LongName);
    }
    match first_bad_byte(name.as_bytes()) {
        Some(at) => Err(KeyError::BadByte(at)),
        None => Ok(()),
    }
}

/// Checks whether a text is a name for the constructors that end in `_utf8`: it has 1 to [`LONGEST_UTF8_NAME`] bytes, whichever they are.
pub fn check_utf8_name(name: &str) -> Result<(), Utf8NameError>
    ensures { RefusesJust (utf8_name_fault name.now) result }
{
    if name.is_empty() {
        return Err(Utf8NameError::EmptyName);
    }
    if name.len() > LONGEST_UTF8_NAME {
        return Err(Utf8NameError::LongName);
    }
    Ok(())
}

// Returns the index of the first byte that no name can have.
fn first_bad_byte(name: &[u8]) -> Option<usize>
    ensures { result ≡ position (λ b. not (is_name_byte b)) name.now }
{
    name.iter().position(|b| !is_name_byte(*b))
}

fn is_name_byte(byte: u8) -> bool
    ensures { result ≡ is_name_byte byte }
{
    matches!(byte, b'a'..=b'z' | b'0'..=b'9' | b'_')
}

// Returns the two names, one after the other.
fn joined(alloc: Global, schema: &str, table: &str) -> Result<String, KeyError>
    ensures both { IfOk result (λ text. string_bytes text ≡ schema.now ++ table.now) }
    ensures memory { IsOkUnless result KeyError.OutOfMemory }
{
    let Ok(mut names) = String::with_capacity(alloc, schema.len() + table.len()) else {
        return Err(KeyError::OutOfMemory);
    };
    if names.push_str(schema).is_err() || names.push_str(table).is_err() {
        return Err(KeyError::OutOfMemory);
    }
    Ok(names)
}
