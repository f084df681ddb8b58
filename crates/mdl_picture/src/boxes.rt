//! The boxes of events.
ghost use Rattle.std.specs.Prelude.{◌≡◌, ◌++◌, flat_map, map, IfOk, OnOk};
ghost use Rattle.mdl_picture.specs.Parts.{box_at, box_node, box_rect, box_title, kind_of, line_shapes, lines_at, statement_part};
ghost use Rattle.mdl_picture.specs.Shapes.{words};
ghost use Rattle.mdl_picture.specs.Svg.{node_text, shape_text};
ghost use Rattle.mdl_picture.specs.Texts.{cut, lines_of};

use crate::kind::Kind;
use crate::layout::EventBox;
use crate::lines::{ANSWER_ROOM, STATEMENT_ROOM, halves, has_bytes, line_count, push_cut};
use crate::moment::{Event, Fate};
use crate::rows::{BOX_HEIGHT, Row, row_top};
use crate::shapes::{push_rect, push_titled};
use crate::sums::sum;
use crate::svg::{Attribute, Tag, push_end, push_start};
use crate::waits::push_statement;
use mdl_lines::push;
use std::alloc::{AllocError, Global};

// The distance from line to line.
const LINE_STEP: u64 = 14;

/// Appends the boxes.
pub(crate) fn push_boxes<'b, 'a>(
    out: &mut Vec<u8>,
    alloc: Global,
    rows: &[Row],
    boxes: &'b [EventBox<'a>],
) -> Result<(), AllocError>
    ensures { OnOk result (out.new.items ≡ out.old.items ++ flat_map node_text (map (box_node rows.now) boxes.now)) }
{
    for drawn in boxes {
        push_box(out, alloc, rows, drawn)?;
    }
    Ok(())
}

// Appends the box of an event.
#[tactic(auto, unfolding(crate::specs::Parts::box_node))]
fn push_box(
    out: &mut Vec<u8>,
    alloc: Global,
    rows: &[Row],
    drawn: &EventBox<'_>,
) -> Result<(), AllocError>
    ensures { OnOk result (out.new.items ≡ out.old.items ++ node_text (box_node rows.now drawn.now)) }
{
    let event = drawn.event;
    push_box_at(out, alloc, row_top(rows, event.session)?, drawn)
}

// Appends the box of an event with this upper edge.
#[tactic(auto, unfolding(crate::specs::Parts::box_at))]
fn push_box_at(
    out: &mut Vec<u8>,
    alloc: Global,
    y: u64,
    drawn: &EventBox<'_>,
) -> Result<(), AllocError>
    ensures { OnOk result (out.new.items ≡ out.old.items ++ node_text (box_at y drawn.now)) }
{
    let event = drawn.event;
    push_titled(out, &box_title(alloc, event)?)?;
    push_box_rect(out, drawn, y)?;
    push_all_lines(out, sum(drawn.x, 5)?, y, event)?;
    push_end(out, Tag::G)
}

// Appends the outline of a box.
#[tactic(auto, unfolding(crate::specs::Parts::box_rect))]
fn push_box_rect(out: &mut Vec<u8>, drawn: &EventBox<'_>, y: u64) -> Result<(), AllocError>
    ensures { OnOk result (out.new.items ≡ out.old.items ++ shape_text (box_rect y drawn.now)) }
{
    let event = drawn.event;
    let width = drawn.right.saturating_sub(drawn.x);
    push_rect(out, kind_of(event.fate), drawn.x, y, width, BOX_HEIGHT)
}

// The kind of the box of an event, which decides its style.
fn kind_of(fate: Fate) -> Kind
    ensures { result ≡ kind_of fate }
{
    match fate {
        Fate::Waits => Kind::Waiting,
        Fate::Ends => Kind::Done,
        Fate::Fails => Kind::Failed,
        Fate::Busy => Kind::Refused,
    }
}

// The title of a box.
#[tactic(auto, unfolding(crate::specs::Parts::box_title))]
fn box_title(alloc: Global, event: &Event) -> Result<Vec<u8>, AllocError>
    ensures { IfOk result (λ title. title.items ≡ box_title event.now) }
{
    let mut title = Vec::new(alloc);
    push_statement(&mut title, event.line, event.session)?;
    push_statement_part(&mut title, &event.statement)?;
    push(&mut title, &event.answer)?;
    Ok(title)
}

// Appends the words of a statement to a title.
fn push_statement_part(out: &mut Vec<u8>, statement: &[u8]) -> Result<(), AllocError>
    ensures { OnOk result (out.new.items ≡ out.old.items ++ statement_part statement.now) }
{
    if !has_bytes(statement) {
        return Ok(());
    }
    push(out, statement)?;
    push(out, b": ")
}

// Appends the lines of a box with this upper edge, in the middle of its height.
#[tactic(auto, unfolding(crate::specs::Parts::lines_at))]
fn push_all_lines(out: &mut Vec<u8>, x: u64, top: u64, event: &Event) -> Result<(), AllocError>
    ensures { OnOk result (out.new.items ≡ out.old.items ++ flat_map shape_text (lines_at x top event.now)) }
{
    let said = line_count(&event.statement, STATEMENT_ROOM);
    let told = line_count(&event.answer, ANSWER_ROOM);
    let y = sum(top, 15 + 7 * 4u64.saturating_sub(said + told))?;
    push_lines(out, Kind::Said, x, y, &event.statement, STATEMENT_ROOM)?;
    let y = sum(y, LINE_STEP * said)?;
    push_lines(out, Kind::Words, x, y, &event.answer, ANSWER_ROOM)
}

// Appends the lines of a text.
fn push_lines(
    out: &mut Vec<u8>,
    kind: Kind,
    x: u64,
    y: u64,
    text: &[u8],
    room: usize,
) -> Result<(), AllocError>
    ensures { OnOk result (out.new.items ≡ out.old.items ++ flat_map shape_text (line_shapes kind x y (lines_of room text.now))) }
{
    let mut at = y;
    for line in halves(text, room) {
        if has_bytes(line) {
            push_line_at(out, kind, x, at, line)?;
            at = sum(at, LINE_STEP)?;
        }
    }
    Ok(())
}

// Appends a line.
#[tactic(auto, unfolding(crate::specs::Svg::shape_text))]
fn push_line_at(
    out: &mut Vec<u8>,
    kind: Kind,
    x: u64,
    y: u64,
    line: &[u8],
) -> Result<(), AllocError>
    ensures { OnOk result (out.new.items ≡ out.old.items ++ shape_text (words kind x y (cut line.now))) }
{
    let attributes = [Attribute::Class(kind), Attribute::X(x), Attribute::Y(y)];
    push_start(out, Tag::Text, &attributes)?;
    push_cut(out, line)?;
    push_end(out, Tag::Text)
}
