//! The tables of a schema by the directory in hand.
ghost use Rattle.std.specs.Prelude.{◌≡◌, ◌∷◌, ◌++◌, IfOk, OnOk};
ghost use Rattle.mdl_steps.specs.declared.slot.Slot.TheVariants as slot;
ghost use Rattle.mdl_steps.specs.declared.view.Keys.{Keys};
ghost use Rattle.mdl_steps.specs.Schemas.{is_table_of, table_at, tables_from};
ghost use Rattle.mdl_steps.specs.Seats.{rest};

use crate::Directory;
use crate::directory::LatchedDirectory;
use crate::hand::directory_in_hand;
use crate::table_seat::TableSeat;
use mdl_key::{Key, KnownKey, Namespace};
use std::alloc::{AllocError, Global};

impl Directory {
    /// Returns the tables of a schema with their places, in the order of the places. It looks at each key.
    pub fn tables_of(&self, alloc: Global, schema: &str) -> Result<Vec<KnownKey>, AllocError>
        ensures { IfOk result (λ tables. tables.items ≡ tables_from schema.now 1 self.now.keys) }
    {
        list_tables(self.keys.as_slice(), alloc, schema)
    }
}

// Does the same for the list of keys.
fn list_tables(keys: &[Key], alloc: Global, schema: &str) -> Result<Vec<KnownKey>, AllocError>
    ensures { IfOk result (λ tables. tables.items ≡ tables_from schema.now 1 keys.now) }
{
    let mut tables = Vec::new(alloc);
    for (index, key) in keys.iter().enumerate() {
        list_table(&mut tables, schema, key, index + 1)?;
    }
    Ok(tables)
}

// Appends a key with its place if it is the key of a table of the schema.
fn list_table(
    tables: &mut Vec<KnownKey>,
    schema: &str,
    key: &Key,
    place: usize,
) -> Result<(), AllocError>
    ensures { OnOk result (tables.new.items ≡ tables.old.items ++ table_at schema.now place key.now) }
{
    if is_table_of(key, schema) {
        let key = key.clone()?;
        tables.push(KnownKey { key, place })?;
    }
    Ok(())
}

// Whether a key is the key of a table of the schema.
fn is_table_of(key: &Key, schema: &str) -> bool
    ensures { result ≡ is_table_of schema.now key.now }
{
    matches!(key.namespace(), Namespace::Table) && key.schema_name() == schema
}

impl TableSeat {
    /// Returns the tables of a schema with their places by the directory in hand, in the order of the places. Nothing changes, even if
    /// memory runs out.
    pub fn tables_of(
        &mut self,
        _latch: &LatchedDirectory,
        alloc: Global,
        schema: &str,
    ) -> Result<Vec<KnownKey>, AllocError>
        requires carried { (k : Keys) × (self.old.me.1 ≡ (0, slot.Directory k) ∷ rest self.old.me.1) }
        ensures same { self.new ≡ self.old }
        ensures told { (k : Keys) → self.old.me.1 ≡ (0, slot.Directory k) ∷ rest self.old.me.1
            → IfOk result (λ tables. tables.items ≡ tables_from schema.now 1 k.keys) }
    {
        let directory = directory_in_hand(&mut self.seat, &self.table.shared);
        directory.tables_of(alloc, schema)
    }
}
