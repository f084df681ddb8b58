//! The background of a picture, and its legend.
ghost use Rattle.std.specs.Prelude.{◌≡◌, ◌++◌, flat_map, OnOk};
ghost use Rattle.mdl_picture.specs.Parts.{defined, frame, head, hatch, legend, legend_arrow, legend_error, legend_held, legend_wait, style_sheet};
ghost use Rattle.mdl_picture.specs.Svg.{node_text, shape_text};

use crate::kind::{Kind, style};
use crate::shapes::{push_line, push_path, push_rect, push_title, push_words};
use crate::sums::sum;
use crate::svg::{Attribute, Tag, push_end, push_shape, push_start};
use std::alloc::{AllocError, Global};

/// Appends the title, the style and the background.
#[tactic(auto, unfolding(crate::specs::Parts::frame))]
pub(crate) fn push_frame(
    out: &mut Vec<u8>,
    alloc: Global,
    width: u64,
    height: u64,
) -> Result<(), AllocError>
    ensures { OnOk result (out.new.items ≡ out.old.items ++ flat_map node_text (frame width height)) }
{
    push_defined(out, alloc)?;
    push_rect(out, Kind::Ground, 0, 0, width, height)
}

// Appends the title and the style, and what the style refers to.
fn push_defined(out: &mut Vec<u8>, alloc: Global) -> Result<(), AllocError>
    ensures { OnOk result (out.new.items ≡ out.old.items ++ flat_map node_text defined) }
{
    push_title(out, b"Timeline of a script, with a row for each session")?;
    push_style(out, alloc)?;
    push_hatch(out)?;
    push_head(out)
}

// Appends the style.
fn push_style(out: &mut Vec<u8>, alloc: Global) -> Result<(), AllocError>
    ensures { OnOk result (out.new.items ≡ out.old.items ++ shape_text style_sheet) }
{
    push_shape(out, Tag::Style, &[], &style(alloc)?)
}

// Appends the pattern of the stripes of waits.
fn push_hatch(out: &mut Vec<u8>) -> Result<(), AllocError>
    ensures { OnOk result (out.new.items ≡ out.old.items ++ node_text hatch) }
{
    let attributes = [
        Attribute::HatchId,
        Attribute::PatternUnits,
        Attribute::Width(8),
        Attribute::Height(8),
    ];
    push_start(out, Tag::Pattern, &attributes)?;
    push_path(out, Kind::Stripes, Attribute::Stripes)?;
    push_end(out, Tag::Pattern)
}

// Appends the marker at the ends of arrows.
fn push_head(out: &mut Vec<u8>) -> Result<(), AllocError>
    ensures { OnOk result (out.new.items ≡ out.old.items ++ node_text head) }
{
    let attributes = [
        Attribute::HeadId,
        Attribute::MarkerUnits,
        Attribute::MarkerWidth(10),
        Attribute::MarkerHeight(10),
        Attribute::RefX(10),
        Attribute::RefY(5),
        Attribute::Orient,
    ];
    push_start(out, Tag::Marker, &attributes)?;
    push_path(out, Kind::Head, Attribute::Tip)?;
    push_end(out, Tag::Marker)
}

/// Appends the legend.
#[tactic(auto, unfolding(crate::specs::Parts::legend))]
pub(crate) fn push_legend(out: &mut Vec<u8>, bottom: u64) -> Result<(), AllocError>
    ensures { OnOk result (out.new.items ≡ out.old.items ++ flat_map node_text (legend bottom)) }
{
    let top = sum(bottom, 1)?;
    let base = sum(bottom, 12)?;
    push_legend_wait(out, top, base)?;
    push_legend_held(out, sum(bottom, 2)?, base)?;
    push_legend_arrow(out, sum(bottom, 15)?, top, base)?;
    push_legend_error(out, top, base)
}

// Appends the legend of a wait.
fn push_legend_wait(out: &mut Vec<u8>, top: u64, base: u64) -> Result<(), AllocError>
    ensures { OnOk result (out.new.items ≡ out.old.items ++ flat_map node_text (legend_wait top base)) }
{
    push_rect(out, Kind::Bar, 8, top, 28, 14)?;
    push_words(out, Kind::Words, 42, base, b"waits")
}

// Appends the legend of what is held.
fn push_legend_held(out: &mut Vec<u8>, top: u64, base: u64) -> Result<(), AllocError>
    ensures { OnOk result (out.new.items ≡ out.old.items ++ flat_map node_text (legend_held top base)) }
{
    push_rect(out, Kind::Held, 92, top, 28, 12)?;
    push_words(out, Kind::Words, 126, base, b"holds")
}

// Appends the legend of an arrow.
fn push_legend_arrow(out: &mut Vec<u8>, foot: u64, top: u64, base: u64) -> Result<(), AllocError>
    ensures { OnOk result (out.new.items ≡ out.old.items ++ flat_map node_text (legend_arrow foot top base)) }
{
    push_line(out, Kind::Arrow, 180, foot, 180, top)?;
    push_words(
        out,
        Kind::Words,
        190,
        base,
        b"waits for (when the wait began)",
    )
}

// Appends the legend of an error.
fn push_legend_error(out: &mut Vec<u8>, top: u64, base: u64) -> Result<(), AllocError>
    ensures { OnOk result (out.new.items ≡ out.old.items ++ flat_map node_text (legend_error top base)) }
{
    push_rect(out, Kind::Failed, 432, top, 28, 14)?;
    push_words(out, Kind::Words, 466, base, b"ended by an error")
}
