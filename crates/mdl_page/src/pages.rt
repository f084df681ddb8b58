//! A page.
ghost use Rattle.std.specs.Prelude.{◌≡◌, ◌++◌, IfOk, OnOk};
ghost use Rattle.mdl_page.specs.Pages.{foot_text, head_text, page_text};

use crate::data::push_data;
use crate::facts::LineFacts;
use crate::frame::{BEFORE_DATA, BEFORE_PICTURE, BEFORE_SCRIPT, BEFORE_STYLE, END};
use crate::script::SCRIPT;
use crate::source::push_source;
use crate::style::STYLE;
use mdl_lines::push;
use std::alloc::{AllocError, Global};

/// Returns a page of HTML with a picture of a timeline, as SVG, the text of its script, and the facts of each of its lines. The page is whole in
/// itself: it asks for nothing else, and its policy allows no script but its own.
///
/// The picture is put there as it is: its texts must be escaped, as those of `mdl_picture` are. The text and the facts may have any bytes, but if one
/// of the facts isn't JSON, the page shows the picture and the text alone.
pub fn page(
    alloc: Global,
    picture: &[u8],
    source: &[u8],
    lines: &[LineFacts],
) -> Result<Vec<u8>, AllocError>
    ensures { IfOk result (λ text. text.items ≡ page_text picture.now source.now lines.now) }
{
    let mut out = Vec::new(alloc);
    push_head(&mut out, picture)?;
    push_source(&mut out, source)?;
    push_foot(&mut out, lines)?;
    Ok(out)
}

// Appends the style and the picture, with what stands around them.
#[tactic(auto, unfolding(crate::specs::Pages::head_text))]
fn push_head(out: &mut Vec<u8>, picture: &[u8]) -> Result<(), AllocError>
    ensures { OnOk result (out.new.items ≡ out.old.items ++ head_text picture.now) }
{
    push(out, BEFORE_STYLE)?;
    push(out, STYLE)?;
    push(out, BEFORE_PICTURE)?;
    push(out, picture)
}

// Appends the data and the script, with what stands around them.
#[tactic(auto, unfolding(crate::specs::Pages::foot_text))]
fn push_foot(out: &mut Vec<u8>, lines: &[LineFacts]) -> Result<(), AllocError>
    ensures { OnOk result (out.new.items ≡ out.old.items ++ foot_text lines.now) }
{
    push(out, BEFORE_DATA)?;
    push_data(out, lines)?;
    push(out, BEFORE_SCRIPT)?;
    push(out, SCRIPT)?;
    push(out, END)
}
