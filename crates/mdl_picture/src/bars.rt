//! The waits of a picture.
ghost use Rattle.std.specs.Prelude.{◌≡◌, ◌++◌, find, IfOk, OnOk};
ghost use Rattle.std.specs.Option.{option_copied, option_map};
ghost use Rattle.mdl_picture.specs.Bars.{bar_from, bars_from, bars_of, is_of_line, is_wait, place_of};

use crate::layout::{Column, EventBox};
use crate::moment::Fate;
use std::alloc::{AllocError, Global};

/// A wait.
#[derive(Clone, Copy)]
pub(crate) struct Bar {
    /// The line of the statement that waits.
    pub(crate) line: u64,
    /// Its session.
    pub(crate) session: u16,
    /// The x coordinate where the wait begins.
    pub(crate) x: u64,
    /// The column where it is settled, if it is.
    pub(crate) settled: Option<Column>,
}

/// Returns the waits that begin at these boxes.
pub(crate) fn bars_of<'b, 'a>(
    alloc: Global,
    boxes: &'b [EventBox<'a>],
) -> Result<Vec<Bar>, AllocError>
    ensures { IfOk result (λ bars. bars.items ≡ bars_of boxes.now) }
{
    let mut bars = Vec::new(alloc);
    for (place, drawn) in boxes.iter().enumerate() {
        add_bar(&mut bars, drawn, &boxes[place + 1..])?;
    }
    Ok(bars)
}

// Adds the wait that begins at a box, if one does.
fn add_bar<'b, 'a>(
    bars: &mut Vec<Bar>,
    drawn: &'b EventBox<'a>,
    later: &'b [EventBox<'a>],
) -> Result<(), AllocError>
    ensures { OnOk result (bars.new.items ≡ bars.old.items ++ bars_from drawn.now later.now) }
{
    let event = drawn.event;
    if is_wait(event.fate) {
        bars.push(bar_from(drawn, later))?;
    }
    Ok(())
}

// The wait that begins at a box.
fn bar_from<'b, 'a>(drawn: &'b EventBox<'a>, later: &'b [EventBox<'a>]) -> Bar
    ensures { result ≡ bar_from drawn.now later.now }
{
    let event = drawn.event;
    Bar {
        line: event.line,
        session: event.session,
        x: drawn.right,
        settled: first_of_line(later, event.line).map(place_of),
    }
}

// The first box of the statement of a line.
fn first_of_line<'b, 'a>(boxes: &'b [EventBox<'a>], line: u64) -> Option<&'b EventBox<'a>>
    ensures { option_copied result ≡ find (is_of_line line) boxes.now }
{
    boxes.iter().find(|drawn| is_of_line(drawn, line))
}

// Whether a box belongs to the statement of a line.
fn is_of_line(drawn: &EventBox<'_>, line: u64) -> bool
    ensures { result ≡ is_of_line line drawn.now }
{
    let event = drawn.event;
    event.line == line
}

/// Returns the line at which a box is drawn, and its x coordinate.
pub(crate) fn place_of(drawn: &EventBox<'_>) -> Column
    ensures { result ≡ place_of drawn.now }
{
    Column {
        line: drawn.line,
        x: drawn.x,
    }
}

/// Whether an event leaves its statement waiting.
pub(crate) fn is_wait(fate: Fate) -> bool
    ensures { result ≡ is_wait fate }
{
    matches!(fate, Fate::Waits)
}
