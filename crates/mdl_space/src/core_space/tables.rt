//! The tables of a schema.
ghost use Rattle.std.specs.Prelude.{◌≡◌, true, All, IfOk, IsOkUnless, if◌then◌else◌};
ghost use Rattle.mdl_core.specs.Words.{Makes, comes_before, has_defined_table, has_key, put_in_order, tables_of_outcome};
ghost use Rattle.mdl_calls.specs.Words.{is_table_of, tables_told};

use crate::core_space::CoreSpace;
use crate::{Place, SpaceError};
use mdl_key::{Key, Namespace};

impl CoreSpace {
    /// Returns the places of a schema's tables that have a definition, in the order of their keys.
    pub(crate) fn tables_of(&self, schema: &str) -> Result<Vec<Place>, SpaceError>
        ensures { Makes true (tables_of_outcome schema.now) self.now (tables_told result) self.now }
    {
        let mut places = Vec::new(self.alloc);
        for index in (0..self.books.len()).rev() {
            self.list_table(&mut places, schema, index as Place + 1)?;
        }
        Ok(places)
    }

    /// Adds a place to the list in the order of the keys, if it is the place of a table of the schema that has a definition.
    fn list_table(
        &self,
        places: &mut Vec<Place>,
        schema: &str,
        place: Place,
    ) -> Result<(), SpaceError>
        requires key { has_key place self.now ≡ true }
        requires keys { All (λ other. has_key other self.now ≡ true) places.old.items }
        ensures listed { IfOk result (λ _. places.new.items ≡
            (if has_defined_table schema.now self.now place then put_in_order self.now place places.old.items else places.old.items)) }
        ensures memory { IsOkUnless result SpaceError.OutOfMemory }
    {
        let book = &self.books[usize::from(place) - 1];
        if !is_table_of(book.key(), schema) || book.definition().is_none() {
            return Ok(());
        }
        self.put_in_order(places, place)
    }

    /// Inserts a place before the first place of the list whose key comes after its own, or at the end.
    fn put_in_order(&self, places: &mut Vec<Place>, place: Place) -> Result<(), SpaceError>
        requires key { has_key place self.now ≡ true }
        requires keys { All (λ other. has_key other self.now ≡ true) places.old.items }
        ensures put { IfOk result (λ _. places.new.items ≡ put_in_order self.now place places.old.items) }
        ensures memory { IsOkUnless result SpaceError.OutOfMemory }
    {
        for (at, other) in places.iter().enumerate() {
            if self.comes_before(place, *other) {
                return match places.insert(at, place) {
                    Ok(()) => Ok(()),
                    Err(_) => Err(SpaceError::OutOfMemory),
                };
            }
        }
        match places.push(place) {
            Ok(()) => Ok(()),
            Err(_) => Err(SpaceError::OutOfMemory),
        }
    }

    /// Whether the key of one place comes before that of another.
    fn comes_before(&self, one: Place, other: Place) -> bool
        requires one { has_key one self.now ≡ true }
        requires other { has_key other self.now ≡ true }
        ensures { result ≡ comes_before self.now one other }
    {
        let key = self.books[usize::from(one) - 1].key();
        key.cmp(self.books[usize::from(other) - 1].key()).is_lt()
    }
}

// Whether a key is that of a table of the schema.
fn is_table_of(key: &Key, schema: &str) -> bool
    ensures { result ≡ is_table_of schema.now key.now }
{
    matches!(key.namespace(), Namespace::Table) && key.schema_name() == schema
}
