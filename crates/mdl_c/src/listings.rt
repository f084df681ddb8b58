//! What C gets to read of the locks, for a host that shows them and wakes its sessions. These calls change nothing.
ghost use Rattle.std.specs.Prelude.{◌≡◌, length};
ghost use Rattle.mdl_key.specs.Keys.{namespace_rank};
ghost use Rattle.mdl_calls.specs.Words.{List_held};
ghost use Rattle.mdl_c_parts.specs.Answers.{HeldTold};
ghost use Rattle.mdl_c_parts.specs.Rows.{IsKept, IsListWritten};
ghost use Rattle.mdl_c_calls.specs.Exports.{ServesCall};
ghost use Rattle.mdl_c_calls.specs.Listings.{IsNoted, ShowsLock, ShowsSpace, lock_rows, newly_settled, settled_sessions};

use mdl_c_calls::OneSpace;
use mdl_c_parts::{HeldRow, LockRow};
use std::alloc::Global;

/// Writes the sessions whose waits are settled and not ended, in rising order.
#[unsafe(no_mangle)]
pub extern "C" fn gaz_one_settled(
    alloc: Global,
    space: &mut OneSpace,
    room: &mut [u16],
    count: &mut usize,
) -> u32
    ensures { ShowsSpace space.old.handle.manager result space.new.handle.manager
        (IsKept room.old room.new count.old count.new) (λ m. (result ≡ 0) × IsListWritten (settled_sessions m) room.old room.new count.new) }
{
    mdl_c_calls::gaz_one_settled(alloc, space, room, count)
}

/// Writes the sessions whose waits are newly settled, in rising order, and the numbers of these waits among those that are told.
#[unsafe(no_mangle)]
pub extern "C" fn gaz_one_woken(
    alloc: Global,
    space: &mut OneSpace,
    told: &mut [u64],
    room: &mut [u16],
    count: &mut usize,
) -> u32
    ensures { ShowsSpace space.old.handle.manager result space.new.handle.manager
        ((told.new ≡ told.old) × IsKept room.old room.new count.old count.new)
        (λ m. (result ≡ 0) × IsListWritten (newly_settled m told.old) room.old room.new count.new × IsNoted m told.old told.new (length room.old)) }
{
    mdl_c_calls::gaz_one_woken(alloc, space, told, room, count)
}

/// Writes the tickets that a session holds, in the order in which it got them.
#[unsafe(no_mangle)]
pub extern "C" fn gaz_one_held(
    alloc: Global,
    space: &mut OneSpace,
    who: u16,
    room: &mut [HeldRow],
    count: &mut usize,
) -> u32
    ensures { ServesCall who (List_held who) space.old.handle.manager result space.new.handle.manager (HeldTold room.old room.new count.old count.new) }
{
    mdl_c_calls::gaz_one_held(alloc, space, who, room, count)
}

/// Writes how many places have keys. They are those from 1 to this number.
#[unsafe(no_mangle)]
pub extern "C" fn gaz_one_places(alloc: Global, space: &mut OneSpace, count: &mut usize) -> u32
    ensures { ShowsSpace space.old.handle.manager result space.new.handle.manager (count.new ≡ count.old) (λ m. (result ≡ 0) × (count.new ≡ length m.space.books)) }
{
    mdl_c_calls::gaz_one_places(alloc, space, count)
}

/// Writes the key of a place: the number of its namespace, and the names of its schema and its table if it has them.
#[unsafe(no_mangle)]
pub extern "C" fn gaz_one_key_of(
    alloc: Global,
    space: &mut OneSpace,
    place: u16,
    namespace: &mut u8,
    schema: &mut [u8],
    schema_count: &mut usize,
    table: &mut [u8],
    table_count: &mut usize,
) -> u32
    ensures { ShowsLock place space.old.handle.manager result space.new.handle.manager
        ((namespace.new ≡ namespace.old) × IsKept schema.old schema.new schema_count.old schema_count.new × IsKept table.old table.new table_count.old table_count.new)
        (λ manager book. (namespace.new ≡ namespace_rank book.key.namespace)
        × IsListWritten book.key.schema schema.old schema.new schema_count.new × IsListWritten book.key.table table.old table.new table_count.new) }
{
    mdl_c_calls::gaz_one_key_of(
        alloc,
        space,
        place,
        namespace,
        schema,
        schema_count,
        table,
        table_count,
    )
}

/// Writes the tickets of a place's lock: first the granted ones, in the order in which they were granted, then the waiting ones, in order of arrival.
#[unsafe(no_mangle)]
pub extern "C" fn gaz_one_locks(
    alloc: Global,
    space: &mut OneSpace,
    place: u16,
    room: &mut [LockRow],
    count: &mut usize,
) -> u32
    ensures { ShowsLock place space.old.handle.manager result space.new.handle.manager
        (IsKept room.old room.new count.old count.new) (λ manager book. IsListWritten (lock_rows manager book) room.old room.new count.new) }
{
    mdl_c_calls::gaz_one_locks(alloc, space, place, room, count)
}
