//! The layout of the moments of a script.
ghost use Rattle.std.specs.Prelude.{◌≡◌, find, reverse, IfOk, OnOk};
ghost use Rattle.std.specs.Option.{option_copied};
ghost use Rattle.mdl_picture.specs.Layouts.{arrow_room, box_at, box_width, column_of, free_of, is_of, layout_of, with_boxes, with_moment};

use crate::lines::text_width;
use crate::moment::{Event, Moment};
use crate::sums::{product, sum};
use std::alloc::{AllocError, Global};
use std::marker::Model;

/// The x coordinate of the first column.
pub(crate) const LEFT: u64 = 88;

// The least distance from a column to the next.
const COLUMN_STEP: u64 = 28;

/// The least distance between two boxes of a row.
pub(crate) const GAP: u64 = 14;

/// The distance of the first arrow of a box from its left side.
pub(crate) const FIRST_ARROW: u64 = 8;

/// The distance of an arrow from the one before.
pub(crate) const ARROW_STEP: u64 = 6;

/// The column of a line.
#[derive(Clone, Copy)]
pub(crate) struct Column {
    /// The line.
    pub(crate) line: u64,
    /// The column's x coordinate.
    pub(crate) x: u64,
}

/// The box of an event.
#[derive(Drop)]
pub(crate) struct EventBox<'a> {
    /// The line at which it happens.
    pub(crate) line: u64,
    /// The event.
    pub(crate) event: &'a Event,
    /// Its left side.
    pub(crate) x: u64,
    /// Its right side.
    pub(crate) right: u64,
}

impl<'a> Model for EventBox<'a> {
    ghost use Rattle.mdl_picture.specs.Boxes.{Box};

    ghost Value = { Box };

    ghost view = { λ drawn. record { line = drawn.line; event = drawn.event.now; x = drawn.x; right = drawn.right } };
}

/// The columns and boxes of moments, and the least x coordinate of the next column.
#[derive(Drop)]
pub(crate) struct Layout<'a> {
    next: u64,
    /// The columns of lines.
    pub(crate) columns: Vec<Column>,
    /// The boxes of events.
    pub(crate) boxes: Vec<EventBox<'a>>,
}

impl<'a> Model for Layout<'a> {
    ghost use Rattle.mdl_picture.specs.Layouts.{LayoutView};

    ghost Value = { LayoutView };

    ghost view = { λ layout. record {
      next = layout.next;
      columns = layout.columns.items;
      boxes = layout.boxes.items;
    } };
}

/// Returns the layout of moments.
pub(crate) fn layout_of<'a>(alloc: Global, moments: &'a [Moment]) -> Result<Layout<'a>, AllocError>
    ensures { IfOk result (λ layout. layout ≡ layout_of moments.now) }
{
    let mut layout = Layout {
        next: LEFT,
        columns: Vec::new(alloc),
        boxes: Vec::new(alloc),
    };
    for moment in moments {
        add_moment(&mut layout, moment)?;
    }
    Ok(layout)
}

// Adds the column and the boxes of a moment.
fn add_moment<'a>(layout: &mut Layout<'a>, moment: &'a Moment) -> Result<(), AllocError>
    ensures { OnOk result (layout.new ≡ with_moment layout.old moment.now) }
{
    let x = column_of(layout, moment)?;
    let line = moment.line;
    layout.columns.push(Column { line, x })?;
    let next = add_boxes(&mut layout.boxes, x, moment)?;
    layout.next = sum(next, COLUMN_STEP)?;
    Ok(())
}

// The x coordinate of the column of a moment.
fn column_of<'b, 'a>(layout: &'b Layout<'a>, moment: &Moment) -> Result<u64, AllocError>
    ensures { IfOk result (λ x. x ≡ column_of layout.now moment.now) }
{
    let mut x = layout.next;
    for event in &moment.events {
        x = x.max(free_of(&layout.boxes, event.session)?);
    }
    Ok(x)
}

// The least x coordinate of the next box of a session.
fn free_of<'b, 'a>(boxes: &'b [EventBox<'a>], session: u16) -> Result<u64, AllocError>
    ensures { IfOk result (λ x. x ≡ free_of session boxes.now) }
{
    match last_of(boxes, session) {
        Some(last) => sum(last.right, GAP),
        None => Ok(LEFT),
    }
}

// The last box of a session.
fn last_of<'b, 'a>(boxes: &'b [EventBox<'a>], session: u16) -> Option<&'b EventBox<'a>>
    ensures { option_copied result ≡ find (is_of session) (reverse boxes.now) }
{
    boxes.iter().rev().find(|drawn| is_of(drawn, session))
}

// Whether a box belongs to a session.
fn is_of(drawn: &EventBox<'_>, session: u16) -> bool
    ensures { result ≡ is_of session drawn.now }
{
    let event = drawn.event;
    event.session == session
}

// Adds the boxes of a moment, and returns the least x coordinate of the next one.
fn add_boxes<'a>(
    boxes: &mut Vec<EventBox<'a>>,
    column: u64,
    moment: &'a Moment,
) -> Result<u64, AllocError>
    ensures { IfOk result (λ next. record { next = next; boxes = boxes.new.items } ≡ with_boxes moment.now column boxes.old.items) }
{
    let mut next = column;
    for event in &moment.events {
        let x = next.max(free_of(boxes, event.session)?);
        boxes.push(box_at(moment.line, x, event)?)?;
        next = sum(x, arrow_room(event)?)?;
    }
    Ok(next)
}

// The box of an event that happens at a line, with this left side.
fn box_at<'a>(line: u64, x: u64, event: &'a Event) -> Result<EventBox<'a>, AllocError>
    ensures { IfOk result (λ drawn. drawn ≡ box_at line x event.now) }
{
    let right = sum(x, box_width(event)?)?;
    Ok(EventBox {
        line,
        event,
        x,
        right,
    })
}

// The width of the box of an event.
fn box_width(event: &Event) -> Result<u64, AllocError>
    ensures { IfOk result (λ width. width ≡ box_width event.now) }
{
    Ok(text_width(event).max(arrow_room(event)?))
}

// The width of the room for the arrows of an event.
fn arrow_room(event: &Event) -> Result<u64, AllocError>
    ensures { IfOk result (λ width. width ≡ arrow_room event.now) }
{
    let steps = product(ARROW_STEP, event.in_the_way.len() as u64)?;
    sum(FIRST_ARROW, steps)
}
