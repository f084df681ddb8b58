//! The indices of the columns in a header.
ghost use Rattle.std.specs.Prelude.{◌≡◌, position};
ghost use Rattle.mdl_lock_rows.specs.Columns.{columns_of, connection_place, field_at, field_in, has_process, is_called, needed, place_of};

use crate::column::Column;
use crate::other_table::has_name;
use mdl_client_table::{Field, Row};

/// The number of names in the header, and the index of each column among them, counted from 0.
#[derive(Clone, Copy)]
pub(crate) struct Columns {
    pub(crate) count: usize,
    pub(crate) object_type: usize,
    pub(crate) object_schema: usize,
    pub(crate) object_name: usize,
    pub(crate) lock_type: usize,
    pub(crate) lock_status: usize,
    pub(crate) owner_thread_id: usize,
    pub(crate) lock_duration: Option<usize>,
    pub(crate) processlist_id: Option<usize>,
    pub(crate) user: Option<usize>,
    pub(crate) host: Option<usize>,
    pub(crate) command: Option<usize>,
    pub(crate) time: Option<usize>,
    pub(crate) info: Option<usize>,
    pub(crate) trx_started: Option<usize>,
}

/// Returns the indices of a header's columns. Fails with the first needed column that the header lacks.
pub(crate) fn columns_of(names: &[Field]) -> Result<Columns, Column>
    ensures { result ≡ columns_of names.now }
{
    Ok(Columns {
        count: names.len(),
        object_type: needed(names, Column::ObjectType)?,
        object_schema: needed(names, Column::ObjectSchema)?,
        object_name: needed(names, Column::ObjectName)?,
        lock_type: needed(names, Column::LockType)?,
        lock_status: needed(names, Column::LockStatus)?,
        owner_thread_id: needed(names, Column::OwnerThreadId)?,
        lock_duration: place_of(names, Column::LockDuration),
        processlist_id: connection_place(names),
        user: place_of(names, Column::User),
        host: place_of(names, Column::Host),
        command: place_of(names, Column::Command),
        time: place_of(names, Column::Time),
        info: place_of(names, Column::Info),
        trx_started: place_of(names, Column::TrxStarted),
    })
}

// Returns the index of a column that is needed.
fn needed(names: &[Field], column: Column) -> Result<usize, Column>
    ensures { result ≡ needed names.now column }
{
    place_of(names, column).ok_or(column)
}

// Returns the index of a column.
fn place_of(names: &[Field], column: Column) -> Option<usize>
    ensures { result ≡ place_of names.now column }
{
    names
        .iter()
        .position(|name| column.has_name(name.trimmed()))
}

// Returns the index of the connection: that of PROCESSLIST_ID, or else that of the ID of a process list.
fn connection_place(names: &[Field]) -> Option<usize>
    ensures { result ≡ connection_place names.now }
{
    match place_of(names, Column::ProcesslistId) {
        Some(place) => Some(place),
        None if has_process(names) => place_called(names, b"ID"),
        None => None,
    }
}

// Whether a header has the columns of a process list from which its ID can be told from the number of a row.
fn has_process(names: &[Field]) -> bool
    ensures { result ≡ has_process names.now }
{
    has_name(names, b"COMMAND") && has_name(names, b"USER")
}

// Returns the index of the first column that is called so.
fn place_called(names: &[Field], name: &[u8]) -> Option<usize>
    ensures { result ≡ position (is_called name.now) names.now }
{
    names
        .iter()
        .position(|other| other.trimmed().eq_ignore_ascii_case(name))
}

/// Returns the field of a column that may be missing: it is empty then.
pub(crate) fn field_in(row: &Row, place: Option<usize>) -> &[u8]
    ensures { result.now ≡ field_in row.now place }
{
    match place {
        Some(place) => row.field(place),
        None => &[],
    }
}
