//! The names of keys, where they lie in memory of the C program.
ghost use Rattle.std.specs.Prelude.{◌≡◌, [], MatchResult};
ghost use Rattle.std.specs.Str.{IsUtf8};
ghost use Rattle.mdl_key.specs.Keys.{key_eq, table_key, utf8_name_fault, utf8_table_fault};
ghost use Rattle.mdl_key.specs.Modes.{kind_of};
ghost use Rattle.mdl_c_parts.specs.Codes.{namespace_at};
ghost use Rattle.mdl_c_parts.specs.Names.{NamesKey, ReadIn};

use crate::codes::{BAD_BYTE, NO_NAMESPACE, name_code, namespace_of};
use mdl_key::{Key, Kind, Namespace, check_utf8_name};
use std::marker::Model;
use std::str;

/// The namespace and the names of a key. The names lie in memory of the caller.
#[derive(Drop)]
pub struct KeyNames<'a> {
    namespace: Namespace,
    schema: &'a str,
    table: &'a str,
}

impl<'a> Model for KeyNames<'a> {
    ghost use Rattle.mdl_key.specs.Keys.{KeyName};

    ghost Value = { KeyName };

    ghost view = { λ names. record { namespace = names.namespace; schema = names.schema.now; table = names.table.now } };
}

impl<'a> KeyNames<'a> {
    /// Returns those of a key in the namespace of this number, or the code that says why there is no such key. It reads only the names that keys of the
    /// namespace have. The name of a user-level lock is passed as `schema`. Takes no memory.
    pub fn read(namespace: u8, schema: &'a [u8], table: &'a [u8]) -> Result<KeyNames<'a>, u32>
        ensures { MatchResult result
            (λ key. ReadIn (namespace_at namespace) schema.now table.now (λ name. key ≡ name) (λ _. ⊥))
            (λ code. ReadIn (namespace_at namespace) schema.now table.now (λ _. ⊥) (λ wrong. code ≡ wrong)) }
    {
        match namespace_of(namespace) {
            Some(Namespace::Global) => Ok(KeyNames::unnamed(Namespace::Global)),
            Some(Namespace::Schema) => KeyNames::named(Namespace::Schema, schema),
            Some(Namespace::Table) => KeyNames::of_table(schema, table),
            Some(Namespace::Commit) => Ok(KeyNames::unnamed(Namespace::Commit)),
            Some(Namespace::UserLevelLock) => KeyNames::named(Namespace::UserLevelLock, schema),
            None => Err(NO_NAMESPACE),
        }
    }

    // Those of a key without a name.
    fn unnamed(namespace: Namespace) -> KeyNames<'a>
        ensures { result ≡ record { namespace = namespace; schema = []; table = [] } }
    {
        KeyNames {
            namespace,
            schema: "",
            table: "",
        }
    }

    // Those of a key with one name.
    fn named(namespace: Namespace, name: &'a [u8]) -> Result<KeyNames<'a>, u32>
        ensures { MatchResult result
            (λ key. NamesKey (IsUtf8 name.now) (utf8_name_fault name.now) (key ≡ record { namespace = namespace; schema = name.now; table = [] }) (λ _. ⊥))
            (λ code. NamesKey (IsUtf8 name.now) (utf8_name_fault name.now) ⊥ (λ wrong. code ≡ wrong)) }
    {
        let Ok(schema) = str::from_utf8(name) else {
            return Err(BAD_BYTE);
        };
        match check_utf8_name(schema) {
            Ok(()) => Ok(KeyNames {
                namespace,
                schema,
                table: "",
            }),
            Err(why) => Err(name_code(why)),
        }
    }

    // Those of a table's key. The schema's name is checked first.
    fn of_table(schema: &'a [u8], table: &'a [u8]) -> Result<KeyNames<'a>, u32>
        ensures { MatchResult result
            (λ key. NamesKey (IsUtf8 schema.now × IsUtf8 table.now) (utf8_table_fault schema.now table.now) (key ≡ table_key schema.now table.now) (λ _. ⊥))
            (λ code. NamesKey (IsUtf8 schema.now × IsUtf8 table.now) (utf8_table_fault schema.now table.now) ⊥ (λ wrong. code ≡ wrong)) }
    {
        let Ok(schema) = str::from_utf8(schema) else {
            return Err(BAD_BYTE);
        };
        let Ok(table) = str::from_utf8(table) else {
            return Err(BAD_BYTE);
        };
        match check_utf8_name(schema).and_then(|()| check_utf8_name(table)) {
            Ok(()) => Ok(KeyNames {
                namespace: Namespace::Table,
                schema,
                table,
            }),
            Err(why) => Err(name_code(why)),
        }
    }

    /// Returns the kind of the key's lock.
    pub fn kind(&self) -> Kind
        ensures { result ≡ kind_of self.now.namespace }
    {
        self.namespace.kind()
    }

    /// Whether a key has this namespace and these names.
    pub fn are_of(&self, key: &Key) -> bool
        ensures { result ≡ key_eq self.now key.now }
    {
        self.namespace == key.namespace()
            && self.schema == key.schema_name()
            && self.table == key.table_name()
    }
}
