//! The picture of a script.
ghost use Rattle.std.specs.Prelude.{◌≡◌, ◌++◌, flat_map, IfOk, OnOk};
ghost use Rattle.std.specs.List.{list_any};
ghost use Rattle.mdl_picture.specs.Pictures.{drawing_text, end_of, ground_of, height_of, is_open, nodes_of, open_room, picture_text, width_of};
ghost use Rattle.mdl_picture.specs.Svg.{node_text, start_tag, svg_attributes};

use crate::arrows::{arrows_of, push_arrows};
use crate::bars::{Bar, bars_of};
use crate::boxes::push_boxes;
use crate::frame::{push_frame, push_legend};
use crate::held::push_holds;
use crate::holds::holds_of;
use crate::layout::{EventBox, GAP, LEFT, Layout, layout_of};
use crate::moment::Moment;
use crate::placing::{Placed, placed_of};
use crate::rows::{Row, bottom, rows_of, sized_rows};
use crate::sums::sum;
use crate::svg::{Attribute, Tag, push_end, push_start};
use crate::tracks::{push_columns, push_lanes};
use crate::waits::push_bars;
use std::alloc::{AllocError, Global};

// The least width of a picture.
const LEAST_WIDTH: u64 = 600;

// The width of the words after waits that go on.
const OPEN_ROOM: u64 = 98;

// The height of the words below the rows.
const FOOT: u64 = 24;

/// Draws the moments of a script from left to right, and returns the picture as SVG.
pub fn picture(alloc: Global, moments: &[Moment]) -> Result<Vec<u8>, AllocError>
    ensures { IfOk result (λ text. text.items ≡ picture_text moments.now) }
{
    let layout = layout_of(alloc, moments)?;
    let bars = bars_of(alloc, &layout.boxes)?;
    let holds = holds_of(alloc, &layout.boxes)?;
    let placed = placed_of(alloc, &holds)?;
    let rows = sized_rows(alloc, &placed, &rows_of(alloc, moments)?)?;
    drawing(alloc, &rows, &layout, &bars, &placed)
}

// Draws a layout.
fn drawing<'b, 'a>(
    alloc: Global,
    rows: &[Row],
    layout: &'b Layout<'a>,
    bars: &[Bar],
    placed: &[Placed<'_, '_>],
) -> Result<Vec<u8>, AllocError>
    ensures { IfOk result (λ text. text.items ≡ drawing_text rows.now layout.now bars.now placed.now) }
{
    let width = width_of(&layout.boxes, bars)?;
    let mut out = Vec::new(alloc);
    push_svg(&mut out, width, height_of(rows)?)?;
    push_nodes(&mut out, alloc, width, rows, layout, bars, placed)?;
    push_end(&mut out, Tag::Svg)?;
    Ok(out)
}

// Appends the tag that begins a picture.
fn push_svg(out: &mut Vec<u8>, width: u64, height: u64) -> Result<(), AllocError>
    ensures { OnOk result (out.new.items ≡ out.old.items ++ start_tag Tag.Svg (svg_attributes width height)) }
{
    let attributes = [
        Attribute::Namespace,
        Attribute::Width(width),
        Attribute::Height(height),
        Attribute::ViewBox(width, height),
        Attribute::Role,
    ];
    push_start(out, Tag::Svg, &attributes)
}

// Appends all that is drawn, from back to front.
fn push_nodes<'b, 'a>(
    out: &mut Vec<u8>,
    alloc: Global,
    width: u64,
    rows: &[Row],
    layout: &'b Layout<'a>,
    bars: &[Bar],
    placed: &[Placed<'_, '_>],
) -> Result<(), AllocError>
    ensures { OnOk result (out.new.items ≡ out.old.items ++ flat_map node_text (nodes_of width rows.now layout.now bars.now placed.now)) }
{
    let end = end_of(&layout.boxes)?;
    push_ground(out, alloc, width, rows, layout)?;
    push_bars(out, alloc, rows, end, bars)?;
    push_arrows(out, alloc, rows, &arrows_of(alloc, &layout.boxes)?)?;
    push_holds(out, alloc, rows, end, placed)?;
    push_boxes(out, alloc, rows, &layout.boxes)?;
    push_legend(out, bottom(rows)?)
}

// Appends what is behind the waits.
#[tactic(auto, unfolding(crate::specs::Pictures::ground_of))]
fn push_ground<'b, 'a>(
    out: &mut Vec<u8>,
    alloc: Global,
    width: u64,
    rows: &[Row],
    layout: &'b Layout<'a>,
) -> Result<(), AllocError>
    ensures { OnOk result (out.new.items ≡ out.old.items ++ flat_map node_text (ground_of width rows.now layout.now)) }
{
    push_frame(out, alloc, width, height_of(rows)?)?;
    push_lanes(out, alloc, width, rows)?;
    push_columns(out, alloc, bottom(rows)?, &layout.columns)
}

// The height of a picture.
fn height_of(rows: &[Row]) -> Result<u64, AllocError>
    ensures { IfOk result (λ height. height ≡ height_of rows.now) }
{
    sum(bottom(rows)?, FOOT)
}

// The width of a picture.
fn width_of<'b, 'a>(boxes: &'b [EventBox<'a>], bars: &[Bar]) -> Result<u64, AllocError>
    ensures { IfOk result (λ width. width ≡ width_of boxes.now bars.now) }
{
    let width = sum(end_of(boxes)?, open_room(bars))?;
    Ok(width.max(LEAST_WIDTH))
}

// The x coordinate where the boxes end.
fn end_of<'b, 'a>(boxes: &'b [EventBox<'a>]) -> Result<u64, AllocError>
    ensures { IfOk result (λ x. x ≡ end_of boxes.now) }
{
    let mut x = LEFT;
    for drawn in boxes {
        x = x.max(sum(drawn.right, GAP)?);
    }
    Ok(x)
}

// The width of the room for words after waits that go on.
fn open_room(bars: &[Bar]) -> u64
    ensures { result ≡ open_room bars.now }
{
    if has_open(bars) { OPEN_ROOM } else { 0 }
}

// Whether some wait isn't settled.
fn has_open(bars: &[Bar]) -> bool
    ensures { result ≡ list_any is_open bars.now }
{
    bars.iter().any(|bar| bar.settled.is_none())
}
