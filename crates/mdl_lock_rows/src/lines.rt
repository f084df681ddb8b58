//! Reading of a row.
ghost use Rattle.std.specs.Prelude.{◌≡◌, true};
ghost use Rattle.std.specs.List.{list_all};
ghost use Rattle.mdl_lines.specs.Words.{is_digit};
ghost use Rattle.mdl_lock_rows.specs.Lines.{connection_of, count_fault, duration_in, facts_of, left_out, number_in, number_of_field, row_of, row_says, thread_of};
ghost use Rattle.mdl_lock_rows.specs.Reading.{ReadsAs};

use crate::columns::{Columns, field_in};
use crate::lock_key::LockKey;
use crate::no_row::NoRow;
use crate::owner::Owner;
use crate::row::{Line, Request, Row, Status};
use crate::row_class::RowClass;
use crate::row_error::RowError;
use crate::server_names::{duration_of, request_of, status_of};
use mdl_client_table::Row as TextRow;
use mdl_key::Duration;
use std::alloc::Global;
use std::str;

/// What a row says in fields that can be wrong.
#[derive(Clone, Copy)]
pub(crate) struct Facts {
    pub(crate) status: Status,
    pub(crate) duration: Option<Duration>,
    pub(crate) thread: u64,
    pub(crate) connection: Option<u64>,
}

/// Reads a row.
pub(crate) fn row_says(alloc: Global, columns: &Columns, row: &TextRow) -> Result<Line, NoRow>
    ensures { ReadsAs (row_says columns.now row.now) result }
{
    if let Some(error) = count_fault(columns, row) {
        return Err(NoRow::Refused(error));
    }
    match request_of(row.field(columns.object_type), row.field(columns.lock_type)) {
        Some(request) => row_of(alloc, columns, row, request),
        None => left_out(alloc, columns, row),
    }
}

// The first field that a row lacks, or the first beyond those of the header.
fn count_fault(columns: &Columns, row: &TextRow) -> Option<RowError>
    ensures { result ≡ count_fault columns.now row.now }
{
    let count = row.count();
    if count < columns.count {
        Some(RowError::MissingField(count + 1))
    } else if columns.count < count {
        Some(RowError::ExtraField(columns.count + 1))
    } else {
        None
    }
}

// Returns the row with this object type and mode.
fn row_of(alloc: Global, columns: &Columns, row: &TextRow, request: Request) -> Result<Line, NoRow>
    ensures { ReadsAs (row_of columns.now row.now request) result }
{
    let facts = facts_of(columns, row)?;
    let schema = row.field(columns.object_schema);
    let key = LockKey::new(
        alloc,
        request.object_type,
        schema,
        row.field(columns.object_name),
    )?;
    let owner = Owner::read(alloc, columns, row, &facts)?;
    Ok(Line::Kept(Row {
        line: row.line(),
        key,
        mode: request.mode,
        duration: facts.duration,
        status: facts.status,
        owner,
    }))
}

// Returns a row that is left out.
fn left_out(alloc: Global, columns: &Columns, row: &TextRow) -> Result<Line, NoRow>
    ensures { ReadsAs (left_out columns.now row.now) result }
{
    let status = status_of(row.field(columns.lock_status))?;
    let lock_type = row.field(columns.lock_type);
    let class = RowClass::new(alloc, row.field(columns.object_type), lock_type)?;
    Ok(Line::LeftOut(class, status.is_waiting()))
}

// Reads the fields of a row that can be wrong.
fn facts_of(columns: &Columns, row: &TextRow) -> Result<Facts, RowError>
    ensures { result ≡ facts_of columns.now row.now }
{
    Ok(Facts {
        status: status_of(row.field(columns.lock_status))?,
        duration: duration_in(columns, row)?,
        thread: thread_of(row.field(columns.owner_thread_id))?,
        connection: connection_of(field_in(row, columns.processlist_id))?,
    })
}

// Returns the duration of a row, if there is such a column.
fn duration_in(columns: &Columns, row: &TextRow) -> Result<Option<Duration>, RowError>
    ensures { result ≡ duration_in columns.now row.now }
{
    match columns.lock_duration {
        Some(place) => Ok(Some(duration_of(row.field(place))?)),
        None => Ok(None),
    }
}

// Returns the thread that a field names.
fn thread_of(field: &[u8]) -> Result<u64, RowError>
    ensures { result ≡ thread_of field.now }
{
    number_of_field(field).ok_or(RowError::BadThread)
}

// Returns the connection that a field names, if it isn't empty.
fn connection_of(field: &[u8]) -> Result<Option<u64>, RowError>
    ensures { result ≡ connection_of field.now }
{
    if field.is_empty() {
        return Ok(None);
    }
    Ok(Some(number_of_field(field).ok_or(RowError::BadConnection)?))
}

// Returns the number that a field has in decimal digits. It must be below 2^64.
fn number_of_field(field: &[u8]) -> Option<u64>
    ensures { result ≡ number_of_field field.now }
{
    if field.iter().all(u8::is_ascii_digit) {
        number_in(field)
    } else {
        None
    }
}

// Returns the number that digits write, if there is a digit and the number is below 2^64.
fn number_in(digits: &[u8]) -> Option<u64>
    requires { list_all is_digit digits.now ≡ true }
    ensures { result ≡ number_in digits.now }
{
    str::from_utf8(digits).ok()?.parse().ok()
}
