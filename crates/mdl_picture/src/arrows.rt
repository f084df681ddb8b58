//! The arrows from a beginning wait to the sessions that block it.
ghost use Rattle.std.specs.Prelude.{◌≡◌, ◌++◌, flat_map, map, IfOk, OnOk};
ghost use Rattle.mdl_picture.specs.Arrows.{arrows_from, arrows_of};
ghost use Rattle.mdl_picture.specs.Parts.{arrow_down, arrow_node, arrow_shape, arrow_title, arrow_up};
ghost use Rattle.mdl_picture.specs.Svg.{node_text, shape_text};

use crate::kind::Kind;
use crate::layout::{ARROW_STEP, EventBox, FIRST_ARROW};
use crate::rows::{BOX_HEIGHT, Row, row_foot, row_top};
use crate::shapes::{push_line, push_titled};
use crate::sums::sum;
use crate::svg::{Tag, push_end};
use crate::tracks::push_session;
use mdl_lines::{push, push_number};
use std::alloc::{AllocError, Global};

/// An arrow.
#[derive(Clone, Copy)]
pub(crate) struct Arrow {
    /// The line at which the wait begins.
    pub(crate) line: u64,
    /// The session that waits.
    pub(crate) session: u16,
    /// A session that blocks it.
    pub(crate) other: u16,
    /// The x coordinate.
    pub(crate) x: u64,
}

/// Returns the arrows of these boxes, from left to right.
pub(crate) fn arrows_of<'b, 'a>(
    alloc: Global,
    boxes: &'b [EventBox<'a>],
) -> Result<Vec<Arrow>, AllocError>
    ensures { IfOk result (λ arrows. arrows.items ≡ arrows_of boxes.now) }
{
    let mut arrows = Vec::new(alloc);
    for drawn in boxes {
        add_arrows(&mut arrows, drawn)?;
    }
    Ok(arrows)
}

// Adds the arrows of a box.
fn add_arrows(arrows: &mut Vec<Arrow>, drawn: &EventBox<'_>) -> Result<(), AllocError>
    ensures { OnOk result (arrows.new.items ≡ arrows.old.items ++ arrows_from drawn.now) }
{
    let event = drawn.event;
    let mut x = sum(drawn.x, FIRST_ARROW)?;
    for other in &event.in_the_way {
        arrows.push(Arrow {
            line: drawn.line,
            session: event.session,
            other: *other,
            x,
        })?;
        x = sum(x, ARROW_STEP)?;
    }
    Ok(())
}

/// Appends the arrows.
pub(crate) fn push_arrows(
    out: &mut Vec<u8>,
    alloc: Global,
    rows: &[Row],
    arrows: &[Arrow],
) -> Result<(), AllocError>
    ensures { OnOk result (out.new.items ≡ out.old.items ++ flat_map node_text (map (arrow_node rows.now) arrows.now)) }
{
    for arrow in arrows {
        push_arrow(out, alloc, rows, *arrow)?;
    }
    Ok(())
}

// Appends an arrow.
fn push_arrow(
    out: &mut Vec<u8>,
    alloc: Global,
    rows: &[Row],
    arrow: Arrow,
) -> Result<(), AllocError>
    ensures { OnOk result (out.new.items ≡ out.old.items ++ node_text (arrow_node rows.now arrow)) }
{
    push_titled(out, &arrow_title(alloc, arrow)?)?;
    push_arrow_shape(out, rows, arrow)?;
    push_end(out, Tag::G)
}

// Appends the line of an arrow, from the edge of a box to the edge of a row.
#[tactic(auto, unfolding(crate::specs::Parts::arrow_shape))]
fn push_arrow_shape(out: &mut Vec<u8>, rows: &[Row], arrow: Arrow) -> Result<(), AllocError>
    ensures { OnOk result (out.new.items ≡ out.old.items ++ shape_text (arrow_shape rows.now arrow)) }
{
    if arrow.other < arrow.session {
        push_arrow_up(out, rows, arrow)
    } else {
        push_arrow_down(out, rows, arrow)
    }
}

// Appends the line of an arrow to a row above.
fn push_arrow_up(out: &mut Vec<u8>, rows: &[Row], arrow: Arrow) -> Result<(), AllocError>
    ensures { OnOk result (out.new.items ≡ out.old.items ++ shape_text (arrow_up rows.now arrow)) }
{
    let from = row_top(rows, arrow.session)?;
    let to = row_foot(rows, arrow.other)?;
    push_line(out, Kind::Arrow, arrow.x, from, arrow.x, to)
}

// Appends the line of an arrow to a row below.
fn push_arrow_down(out: &mut Vec<u8>, rows: &[Row], arrow: Arrow) -> Result<(), AllocError>
    ensures { OnOk result (out.new.items ≡ out.old.items ++ shape_text (arrow_down rows.now arrow)) }
{
    let from = sum(row_top(rows, arrow.session)?, BOX_HEIGHT)?;
    let to = row_top(rows, arrow.other)?;
    push_line(out, Kind::Arrow, arrow.x, from, arrow.x, to)
}

// The title of an arrow.
#[tactic(auto, unfolding(crate::specs::Parts::arrow_title))]
fn arrow_title(alloc: Global, arrow: Arrow) -> Result<Vec<u8>, AllocError>
    ensures { IfOk result (λ title. title.items ≡ arrow_title arrow) }
{
    let mut title = Vec::new(alloc);
    push_session(&mut title, arrow.session)?;
    push(&mut title, b" waits for ")?;
    push_session(&mut title, arrow.other)?;
    push(&mut title, b" at line ")?;
    push_number(&mut title, arrow.line)?;
    Ok(title)
}
