//! The calls that return the place of a key, which the session then pins, and the one that gives up the pin.
ghost use Rattle.std.specs.Prelude.{◌≡◌};
ghost use Rattle.std.specs.Str.{IsUtf8};
ghost use Rattle.mdl_key.specs.Keys.{commit_key, global_key, schema_key, table_key, user_lock_key, utf8_name_fault, utf8_table_fault};
ghost use Rattle.mdl_calls.specs.Words.{Resolve, Unpin};
ghost use Rattle.mdl_c_parts.specs.Answers.{Nothing, Number};
ghost use Rattle.mdl_c_parts.specs.Names.{MakesKey};
ghost use Rattle.mdl_c_calls.specs.Exports.{ServesCall, ServesDirect, Tells};

use crate::codes::{done_code, place_code};
use crate::handle::OneSpace;
use mdl_c_parts::{CLOSED, schema_of, table_of, user_lock_of};
use mdl_key::Key;
use std::alloc::Global;

// Writes the place of a key.
fn resolve(alloc: Global, space: &mut OneSpace, who: u16, key: &Key, place: &mut u16) -> u32
    ensures { ServesCall who (Resolve who key.now) space.old.handle.manager result space.new.handle.manager (Number place.old place.new) }
{
    let Some(mut manager) = space.take(alloc) else {
        return CLOSED;
    };
    let code = place_code(manager.resolve(who, key), place);
    space.put(manager);
    code
}

/// Writes the place of a table's key, which the session then pins.
pub fn gaz_one_table(
    alloc: Global,
    space: &mut OneSpace,
    who: u16,
    schema: &[u8],
    table: &[u8],
    place: &mut u16,
) -> u32
    ensures { MakesKey (IsUtf8 schema.now × IsUtf8 table.now) (utf8_table_fault schema.now table.now)
        (ServesCall who (Resolve who (table_key schema.now table.now)) space.old.handle.manager result space.new.handle.manager (Number place.old place.new))
        (λ wrong. Tells wrong space.old.handle.manager result space.new.handle.manager × (place.new ≡ place.old)) }
{
    match table_of(alloc, schema, table) {
        Ok(key) => resolve(alloc, space, who, &key, place),
        Err(code) => code,
    }
}

/// Writes the place of a schema's key, which the session then pins.
pub fn gaz_one_schema(
    alloc: Global,
    space: &mut OneSpace,
    who: u16,
    schema: &[u8],
    place: &mut u16,
) -> u32
    ensures { MakesKey (IsUtf8 schema.now) (utf8_name_fault schema.now)
        (ServesCall who (Resolve who (schema_key schema.now)) space.old.handle.manager result space.new.handle.manager (Number place.old place.new))
        (λ wrong. Tells wrong space.old.handle.manager result space.new.handle.manager × (place.new ≡ place.old)) }
{
    match schema_of(alloc, schema) {
        Ok(key) => resolve(alloc, space, who, &key, place),
        Err(code) => code,
    }
}

/// Writes the place of the key of a user-level lock, which the session then pins.
pub fn gaz_one_user_lock(
    alloc: Global,
    space: &mut OneSpace,
    who: u16,
    name: &[u8],
    place: &mut u16,
) -> u32
    ensures { MakesKey (IsUtf8 name.now) (utf8_name_fault name.now)
        (ServesCall who (Resolve who (user_lock_key name.now)) space.old.handle.manager result space.new.handle.manager (Number place.old place.new))
        (λ wrong. Tells wrong space.old.handle.manager result space.new.handle.manager × (place.new ≡ place.old)) }
{
    match user_lock_of(alloc, name) {
        Ok(key) => resolve(alloc, space, who, &key, place),
        Err(code) => code,
    }
}

/// Writes the place of the key of the global read lock, which the session then pins.
pub fn gaz_one_global(alloc: Global, space: &mut OneSpace, who: u16, place: &mut u16) -> u32
    ensures { ServesCall who (Resolve who global_key) space.old.handle.manager result space.new.handle.manager (Number place.old place.new) }
{
    resolve(alloc, space, who, &Key::global(alloc), place)
}

/// Writes the place of the key that commits take, which the session then pins.
pub fn gaz_one_commit(alloc: Global, space: &mut OneSpace, who: u16, place: &mut u16) -> u32
    ensures { ServesCall who (Resolve who commit_key) space.old.handle.manager result space.new.handle.manager (Number place.old place.new) }
{
    resolve(alloc, space, who, &Key::commit(alloc), place)
}

/// Gives up the session's pin of a place.
pub fn gaz_one_unpin(alloc: Global, space: &mut OneSpace, who: u16, place: u16) -> u32
    ensures { ServesDirect who (Unpin who place) space.old.handle.manager result space.new.handle.manager Nothing }
{
    let Some(mut manager) = space.take(alloc) else {
        return CLOSED;
    };
    let code = done_code(manager.unpin(who, place));
    space.put(manager);
    code
}
