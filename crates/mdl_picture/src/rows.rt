//! The rows of a picture, one for each session.
ghost use Rattle.std.specs.Prelude.{◌≡◌, find, IfOk, OnOk};
ghost use Rattle.std.specs.Option.{option_copied};
ghost use Rattle.mdl_picture.specs.Rows.{below, below_lower, bottom, is_row_of, row_foot, row_height, row_top, rows_above, rows_of, sized_row, sized_rows, tracks_of, with_event_rows, with_moment_rows, with_row};

use crate::moment::{Event, Moment};
use crate::placing::{Placed, track_count};
use crate::sums::{product, sum};
use std::alloc::{AllocError, Global};

// The y coordinate of the first row.
const TOP: u64 = 28;

/// The height of boxes.
pub(crate) const BOX_HEIGHT: u64 = 64;

/// The height of a track.
pub(crate) const TRACK_HEIGHT: u64 = 16;

// The distance between two rows.
const ROW_GAP: u64 = 16;

/// The row of a session.
#[derive(Clone, Copy)]
pub(crate) struct Row {
    /// The session.
    pub(crate) session: u16,
    /// How many tracks it has, for what the session holds.
    pub(crate) tracks: u64,
}

/// Returns the sessions that have a row, in order of their numbers.
pub(crate) fn rows_of(alloc: Global, moments: &[Moment]) -> Result<Vec<u16>, AllocError>
    ensures { IfOk result (λ rows. rows.items ≡ rows_of moments.now) }
{
    let mut rows = Vec::new(alloc);
    for moment in moments {
        add_moment_rows(&mut rows, moment)?;
    }
    Ok(rows)
}

// Adds a row for each session of a moment.
fn add_moment_rows(rows: &mut Vec<u16>, moment: &Moment) -> Result<(), AllocError>
    ensures { OnOk result (rows.new.items ≡ with_moment_rows rows.old.items moment.now) }
{
    add_row(rows, moment.session)?;
    for event in &moment.events {
        add_event_rows(rows, event)?;
    }
    Ok(())
}

// Adds a row for each session of an event.
fn add_event_rows(rows: &mut Vec<u16>, event: &Event) -> Result<(), AllocError>
    ensures { OnOk result (rows.new.items ≡ with_event_rows rows.old.items event.now) }
{
    add_row(rows, event.session)?;
    for session in &event.in_the_way {
        add_row(rows, *session)?;
    }
    for held in &event.held {
        add_row(rows, held.session)?;
    }
    Ok(())
}

// Adds a row, unless it is there.
fn add_row(rows: &mut Vec<u16>, session: u16) -> Result<(), AllocError>
    ensures { OnOk result (rows.new.items ≡ with_row rows.old.items session) }
{
    if rows.contains(&session) {
        return Ok(());
    }
    let place = rows_above(rows, session);
    rows.insert(place, session)?;
    Ok(())
}

// How many rows are above that of a session.
fn rows_above(rows: &[u16], session: u16) -> usize
    ensures { result ≡ rows_above rows.now session }
{
    rows.iter().filter(|row| **row < session).count()
}

/// Returns rows with as many tracks as these bars take.
pub(crate) fn sized_rows(
    alloc: Global,
    placed: &[Placed<'_, '_>],
    sessions: &[u16],
) -> Result<Vec<Row>, AllocError>
    ensures { IfOk result (λ rows. rows.items ≡ sized_rows placed.now sessions.now) }
{
    let mut rows = Vec::new(alloc);
    for session in sessions {
        rows.push(sized_row(placed, *session)?)?;
    }
    Ok(rows)
}

// The row of a session, with as many tracks as its bars take.
fn sized_row(placed: &[Placed<'_, '_>], session: u16) -> Result<Row, AllocError>
    ensures { IfOk result (λ row. row ≡ sized_row placed.now session) }
{
    let tracks = track_count(placed, session)?;
    Ok(Row { session, tracks })
}

/// Returns the height of a row.
pub(crate) fn row_height(tracks: u64) -> Result<u64, AllocError>
    ensures { IfOk result (λ height. height ≡ row_height tracks) }
{
    sum(BOX_HEIGHT, product(TRACK_HEIGHT, tracks)?)
}

// The y coordinate below a row that begins here.
fn below(y: u64, row: Row) -> Result<u64, AllocError>
    ensures { IfOk result (λ under. under ≡ below y row) }
{
    let step = sum(row_height(row.tracks)?, ROW_GAP)?;
    sum(y, step)
}

// The y coordinate below a row, if its session has a lower number.
fn below_lower(session: u16, y: u64, row: Row) -> Result<u64, AllocError>
    ensures { IfOk result (λ under. under ≡ below_lower session y row) }
{
    if row.session < session {
        return below(y, row);
    }
    Ok(y)
}

/// Returns the y coordinate where the row of a session begins.
pub(crate) fn row_top(rows: &[Row], session: u16) -> Result<u64, AllocError>
    ensures { IfOk result (λ y. y ≡ row_top rows.now session) }
{
    let mut y = TOP;
    for row in rows {
        y = below_lower(session, y, *row)?;
    }
    Ok(y)
}

/// Returns the y coordinate where the row of a session ends.
pub(crate) fn row_foot(rows: &[Row], session: u16) -> Result<u64, AllocError>
    ensures { IfOk result (λ y. y ≡ row_foot rows.now session) }
{
    let height = row_height(tracks_of(rows, session))?;
    sum(row_top(rows, session)?, height)
}

// The number of tracks of the row of a session.
fn tracks_of(rows: &[Row], session: u16) -> u64
    ensures { result ≡ tracks_of rows.now session }
{
    match row_of(rows, session) {
        Some(row) => row.tracks,
        None => 0,
    }
}

// The row of a session.
fn row_of(rows: &[Row], session: u16) -> Option<&Row>
    ensures { option_copied result ≡ find (is_row_of session) rows.now }
{
    rows.iter().find(|row| row.session == session)
}

/// Returns the y coordinate where the rows end.
pub(crate) fn bottom(rows: &[Row]) -> Result<u64, AllocError>
    ensures { IfOk result (λ y. y ≡ bottom rows.now) }
{
    let mut y = TOP;
    for row in rows {
        y = below(y, *row)?;
    }
    Ok(y)
}
