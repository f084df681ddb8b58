//! The rows in which C gets tickets, and how lists are written into memory of the caller.
ghost use Rattle.std.specs.Prelude.{◌≡◌, Some, map};
ghost use Rattle.mdl_key.specs.declared.mode.Mode.{Mode};
ghost use Rattle.mdl_key.specs.Words.{mode_rank};
ghost use Rattle.mdl_key.specs.Keys.{namespace_rank};
ghost use Rattle.mdl_c_parts.specs.Codes.{mode_at};
ghost use Rattle.mdl_c_parts.specs.Rows.{IsListWritten, held_row, lock_row, waiting_status};

use mdl_book::Ticket;
use mdl_calls::{Held, Settled};
use mdl_key::{Key, Mode};

/// The status of a granted ticket.
pub const GRANTED: u8 = 0;

/// The status of a waiting ticket.
pub const PENDING: u8 = 1;

/// The status of a ticket whose wait was lost to break a deadlock.
pub const LOST_AS_VICTIM: u8 = 2;

/// The status of a ticket whose wait was lost by a timeout.
pub const LOST_BY_TIMEOUT: u8 = 3;

/// The status of a ticket whose wait was lost by a kill.
pub const LOST_BY_KILL: u8 = 4;

/// The duration of a ticket that no context keeps.
pub const UNKEPT: u8 = 3;

/// A ticket that a session holds: `struct gaz_ticket` of `gaz_codes.h`.
#[derive(Clone, Copy)]
#[repr(C)]
pub struct HeldRow {
    pub ticket: u64,
    pub place: u16,
    pub mode: u8,
}

impl HeldRow {
    fn of(held: Held) -> HeldRow
        ensures { result ≡ held_row held }
    {
        HeldRow {
            ticket: held.id,
            place: held.place,
            mode: number_of(held.mode),
        }
    }
}

/// A ticket in the book of a lock, granted or waiting: `struct gaz_lock` of `gaz_codes.h`.
#[derive(Clone, Copy)]
#[repr(C)]
pub struct LockRow {
    pub ticket: u64,
    pub session: u16,
    pub mode: u8,
    pub status: u8,
    pub duration: u8,
}

impl LockRow {
    /// Returns the row of a ticket with this status and this duration.
    pub fn of(ticket: Ticket, status: u8, duration: u8) -> LockRow
        ensures { result ≡ lock_row status duration ticket }
    {
        LockRow {
            ticket: ticket.number,
            session: ticket.session,
            mode: number_of(ticket.mode),
            status,
            duration,
        }
    }
}

/// The number that C gets for a mode is the number by which C requests it: a law, proved as the contract of a function that does nothing.
pub fn modes_are_told_as_asked()
    ensures { (mode : Mode) → mode_at (mode_rank mode) ≡ Some mode }
{}

// The number of a mode: its rank in the order of modes.
fn number_of(mode: Mode) -> u8
    ensures { result ≡ mode_rank mode }
{
    mode as u8
}

/// Returns the status of a waiting ticket whose wait is settled in this way, if it is settled.
pub fn waiting_status(how: Option<Settled>) -> u8
    ensures { result ≡ waiting_status how }
{
    match how {
        Some(Settled::Victim) => LOST_AS_VICTIM,
        Some(Settled::Timeout) => LOST_BY_TIMEOUT,
        Some(Settled::Killed) => LOST_BY_KILL,
        Some(Settled::Granted) | None => PENDING,
    }
}

/// Writes the number of a key's namespace, and as many bytes of its names as there is room for. The counts get the lengths of the whole names.
pub fn tell_key(
    key: &Key,
    namespace: &mut u8,
    schema: &mut [u8],
    schema_count: &mut usize,
    table: &mut [u8],
    table_count: &mut usize,
)
    ensures namespace { namespace.new ≡ namespace_rank key.now.namespace }
    ensures schema { IsListWritten key.now.schema schema.old schema.new schema_count.new }
    ensures table { IsListWritten key.now.table table.old table.new table_count.new }
{
    *namespace = key.namespace() as u8;
    tell_text(key.schema_name(), schema, schema_count);
    tell_text(key.table_name(), table, table_count);
}

/// Writes as many bytes of a text as there is room for. `count` gets the length of the whole text.
pub fn tell_text(text: &str, room: &mut [u8], count: &mut usize)
    ensures { IsListWritten text.now room.old room.new count.new }
{
    let fits = text.len().min(room.len());
    room[..fits].copy_from_slice(&text.as_bytes()[..fits]);
    *count = text.len();
}

/// Writes as many held tickets as there is room for. `count` gets the number of all.
pub fn tell_held(tickets: &[Held], room: &mut [HeldRow], count: &mut usize)
    ensures { IsListWritten (map held_row tickets.now) room.old room.new count.new }
{
    let fitting = &tickets[..tickets.len().min(room.len())];
    for (at, ticket) in fitting.iter().enumerate() {
        room[at] = HeldRow::of(*ticket);
    }
    *count = tickets.len();
}
