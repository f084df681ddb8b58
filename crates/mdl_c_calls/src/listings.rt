//! What C gets to read of the locks, for a host that shows them and wakes its sessions. These calls change nothing.
ghost use Rattle.std.specs.Prelude.{◌≡◌, MatchOption, length};
ghost use Rattle.std.specs.Option.{option_copied, option_map};
ghost use Rattle.mdl_key.specs.Keys.{namespace_rank};
ghost use Rattle.mdl_calls.specs.Words.{List_held, listed};
ghost use Rattle.mdl_c_parts.specs.Answers.{HeldTold, code_at};
ghost use Rattle.mdl_c_parts.specs.Codes.{no_place};
ghost use Rattle.mdl_c_parts.specs.Rows.{IsKept, IsListWritten};
ghost use Rattle.mdl_c_calls.specs.Exports.{ServesCall};
ghost use Rattle.mdl_c_calls.specs.Listings.{IsNoted, ShowsLock, ShowsSpace, lock_rows, newly_settled, settled_sessions};

use crate::handle::OneSpace;
use mdl_book::Book;
use mdl_c_parts::{CLOSED, DONE, HeldRow, LockRow, NO_PLACE, NO_SESSION, tell_key};
use mdl_space::{Held, SpaceError};
use std::alloc::Global;

/// Writes the sessions whose waits are settled and not ended, in rising order.
pub fn gaz_one_settled(
    alloc: Global,
    space: &mut OneSpace,
    room: &mut [u16],
    count: &mut usize,
) -> u32
    ensures { ShowsSpace space.old.handle.manager result space.new.handle.manager
        (IsKept room.old room.new count.old count.new) (λ m. (result ≡ 0) × IsListWritten (settled_sessions m) room.old room.new count.new) }
{
    let Some(mut manager) = space.take(alloc) else {
        return CLOSED;
    };
    *count = manager.tell_settled(room);
    space.put(manager);
    DONE
}

/// Writes the sessions whose waits are newly settled, in rising order, and the numbers of these waits among those that are told.
pub fn gaz_one_woken(
    alloc: Global,
    space: &mut OneSpace,
    told: &mut [u64],
    room: &mut [u16],
    count: &mut usize,
) -> u32
    ensures { ShowsSpace space.old.handle.manager result space.new.handle.manager
        ((told.new ≡ told.old) × IsKept room.old room.new count.old count.new)
        (λ m. (result ≡ 0) × IsListWritten (newly_settled m told.old) room.old room.new count.new × IsNoted m told.old told.new (length room.old)) }
{
    let Some(mut manager) = space.take(alloc) else {
        return CLOSED;
    };
    *count = manager.tell_woken(told, room);
    space.put(manager);
    DONE
}

/// Writes the tickets that a session holds, in the order in which it got them.
pub fn gaz_one_held(
    alloc: Global,
    space: &mut OneSpace,
    who: u16,
    room: &mut [HeldRow],
    count: &mut usize,
) -> u32
    ensures { ServesCall who (List_held who) space.old.handle.manager result space.new.handle.manager (HeldTold room.old room.new count.old count.new) }
{
    let Some(manager) = space.take(alloc) else {
        return CLOSED;
    };
    let code = held_code(manager.held(who), room, count);
    space.put(manager);
    code
}

/// Writes how many places have keys. They are those from 1 to this number.
pub fn gaz_one_places(alloc: Global, space: &mut OneSpace, count: &mut usize) -> u32
    ensures { ShowsSpace space.old.handle.manager result space.new.handle.manager (count.new ≡ count.old) (λ m. (result ≡ 0) × (count.new ≡ length m.space.books)) }
{
    let Some(manager) = space.take(alloc) else {
        return CLOSED;
    };
    *count = manager.books().len();
    space.put(manager);
    DONE
}

/// Writes the key of a place: the number of its namespace, and the names of its schema and its table if it has them.
pub fn gaz_one_key_of(
    alloc: Global,
    space: &mut OneSpace,
    place: u16,
    namespace: &mut u8,
    schema: &mut [u8],
    schema_count: &mut usize,
    table: &mut [u8],
    table_count: &mut usize,
) -> u32
    ensures { ShowsLock place space.old.handle.manager result space.new.handle.manager
        ((namespace.new ≡ namespace.old) × IsKept schema.old schema.new schema_count.old schema_count.new × IsKept table.old table.new table_count.old table_count.new)
        (λ manager book. (namespace.new ≡ namespace_rank book.key.namespace)
        × IsListWritten book.key.schema schema.old schema.new schema_count.new × IsListWritten book.key.table table.old table.new table_count.new) }
{
    let Some(manager) = space.take(alloc) else {
        return CLOSED;
    };
    let book = manager.book(place);
    let code = key_code(book, namespace, schema, schema_count, table, table_count);
    space.put(manager);
    code
}

/// Writes the tickets of a place's lock: first the granted ones, in the order in which they were granted, then the waiting ones, in order of arrival.
pub fn gaz_one_locks(
    alloc: Global,
    space: &mut OneSpace,
    place: u16,
    room: &mut [LockRow],
    count: &mut usize,
) -> u32
    ensures { ShowsLock place space.old.handle.manager result space.new.handle.manager
        (IsKept room.old room.new count.old count.new) (λ manager book. IsListWritten (lock_rows manager book) room.old room.new count.new) }
{
    let Some(mut manager) = space.take(alloc) else {
        return CLOSED;
    };
    let code = lock_code(manager.tell_lock(place, room), count);
    space.put(manager);
    code
}

// Writes the tickets that a session holds, if there is such a session, and returns the code.
fn held_code(
    answer: Option<Result<Vec<Held>, SpaceError>>,
    room: &mut [HeldRow],
    count: &mut usize,
) -> u32
    ensures code { result ≡ code_at (option_map listed answer) }
    ensures told { HeldTold room.old room.new count.old count.new (option_map listed answer) }
{
    match answer {
        Some(answer) => mdl_c_parts::held_code(answer, room, count),
        None => NO_SESSION,
    }
}

// Writes the key of a lock, if there is one, and returns the code.
fn key_code(
    book: Option<&Book>,
    namespace: &mut u8,
    schema: &mut [u8],
    schema_count: &mut usize,
    table: &mut [u8],
    table_count: &mut usize,
) -> u32
    ensures { MatchOption (option_copied book.entry)
        ((result ≡ no_place) × (namespace.new ≡ namespace.old) × IsKept schema.old schema.new schema_count.old schema_count.new × IsKept table.old table.new table_count.old table_count.new)
        (λ b. (result ≡ 0) × (namespace.new ≡ namespace_rank b.key.namespace)
        × IsListWritten b.key.schema schema.old schema.new schema_count.new × IsListWritten b.key.table table.old table.new table_count.new) }
{
    let Some(book) = book else {
        return NO_PLACE;
    };
    tell_key(
        book.key(),
        namespace,
        schema,
        schema_count,
        table,
        table_count,
    );
    DONE
}

// Writes the number of a lock's tickets, if there is such a lock, and returns the code.
fn lock_code(found: Option<usize>, count: &mut usize) -> u32
    ensures { MatchOption found ((result ≡ no_place) × (count.new ≡ count.old)) (λ all. (result ≡ 0) × (count.new ≡ all)) }
{
    let Some(all) = found else {
        return NO_PLACE;
    };
    *count = all;
    DONE
}
