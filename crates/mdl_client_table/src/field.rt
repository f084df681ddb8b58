//! Fields of rows.
ghost use Rattle.std.specs.Prelude.{◌≡◌, ◌++◌, ◌∷◌, IfOk, OnOk, map, position};
ghost use Rattle.std.specs.List.{list_any};
ghost use Rattle.mdl_client_table.specs.Boxes.{trimmed};
ghost use Rattle.mdl_client_table.specs.Objects.{is_same_key, value_under};
ghost use Rattle.mdl_client_table.specs.Tables.{value_of};

use crate::pieces::trimmed;
use std::alloc::{AllocError, Global};
use std::marker::Model;

/// A name or a value of a table: some bytes, none if it is NULL.
#[derive(Drop)]
pub struct Field {
    bytes: Vec<u8>,
}

impl Model for Field {
    ghost use Rattle.std.specs.Prelude.{ℕ, List};

    ghost Value = { List ℕ };

    ghost view = { λ field. field.bytes.items };
}

impl Field {
    /// Returns a field of these bytes.
    pub(crate) fn new(bytes: Vec<u8>) -> Field
        ensures { result ≡ bytes.items }
    {
        Field { bytes }
    }

    /// Returns a field with a copy of these bytes.
    pub(crate) fn copied(alloc: Global, bytes: &[u8]) -> Result<Field, AllocError>
        ensures { IfOk result (λ field. field ≡ bytes.now) }
    {
        Ok(Field {
            bytes: Vec::from_slice(alloc, bytes)?,
        })
    }

    /// Returns the field of a printed value that isn't escaped.
    pub(crate) fn printed(alloc: Global, text: &[u8]) -> Result<Field, AllocError>
        ensures { IfOk result (λ field. field ≡ value_of text.now) }
    {
        if text == b"NULL".as_slice() {
            return Field::copied(alloc, &[]);
        }
        Field::copied(alloc, text)
    }

    /// Returns the bytes.
    pub fn as_slice(&self) -> &[u8]
        ensures { result.now ≡ self.now }
    {
        self.bytes.as_slice()
    }

    /// Returns the bytes without blanks at their ends.
    pub fn trimmed(&self) -> &[u8]
        ensures { result.now ≡ trimmed self.now }
    {
        trimmed(self.as_slice())
    }

    /// Adds a separator and more bytes.
    pub(crate) fn join(&mut self, separator: u8, bytes: &[u8]) -> Result<(), AllocError>
        ensures { OnOk result (self.new ≡ self.old ++ separator ∷ bytes.now) }
    {
        self.bytes.push(separator)?;
        self.bytes.extend_from_slice(bytes)?;
        Ok(())
    }
}

/// Whether a key is among these.
pub(crate) fn has_key(keys: &[Field], key: &[u8]) -> bool
    ensures { result ≡ list_any (is_same_key key.now) keys.now }
{
    keys.iter()
        .any(|other| other.as_slice().eq_ignore_ascii_case(key))
}

/// Returns the values under these names, of the values of keys.
pub(crate) fn values_under(
    alloc: Global,
    keys: &[Field],
    values: &[Field],
    names: &[Field],
) -> Result<Vec<Field>, AllocError>
    ensures { IfOk result (λ fields. fields.items ≡ map (value_under keys.now values.now) names.now) }
{
    let mut fields = Vec::with_capacity(alloc, names.len())?;
    for name in names {
        fields.push(Field::copied(alloc, value_under(keys, values, name.as_slice()))?)?;
    }
    Ok(fields)
}

// Returns the value under a key.
fn value_under<'a>(keys: &[Field], values: &'a [Field], key: &[u8]) -> &'a [u8]
    ensures { result.now ≡ value_under keys.now values.now key.now }
{
    match place_of(keys, key) {
        Some(place) => match values.get(place) {
            Some(value) => value.as_slice(),
            None => &[],
        },
        None => &[],
    }
}

// Returns the index of a key.
fn place_of(keys: &[Field], key: &[u8]) -> Option<usize>
    ensures { result ≡ position (is_same_key key.now) keys.now }
{
    keys.iter()
        .position(|other| other.as_slice().eq_ignore_ascii_case(key))
}
