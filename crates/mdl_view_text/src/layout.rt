//! Separators between elements, and lines of at most 100 bytes.
ghost use Rattle.std.specs.Prelude.{◌≡◌, ◌≤◌, ◌-◌, ◌++◌, length, get_or, OnOk};
ghost use Rattle.mdl_view_text.specs.Layouts.{LinesFit, begin_of_character, cut, goes_on, line_of, line_with, mark_before, most_columns};

use mdl_lines::push;
use std::alloc::{AllocError, Global};

// The greatest number of bytes of a line.
const MOST_COLUMNS: usize = 100;

/// Appends a separator, unless the index of the next element is 0.
pub(crate) fn push_mark(out: &mut Vec<u8>, mark: &[u8], place: usize) -> Result<(), AllocError>
    ensures { OnOk result (out.new.items ≡ out.old.items ++ mark_before mark.now place) }
{
    if place == 0 {
        return Ok(());
    }
    push(out, mark)
}

/// Appends a line, as much of it as there is room for.
pub(crate) fn push_line(out: &mut Vec<u8>, text: &[u8]) -> Result<(), AllocError>
    ensures { OnOk result (out.new.items ≡ out.old.items ++ line_of text.now) }
{
    push_cut(out, text, MOST_COLUMNS)?;
    push(out, b"\n")
}

/// Appends a line with a name in it. If there isn't room for all, the name is cut first.
pub(crate) fn push_line_with(
    out: &mut Vec<u8>,
    alloc: Global,
    start: &[u8],
    name: &[u8],
    rest: &[u8],
) -> Result<(), AllocError>
    ensures { OnOk result (out.new.items ≡ out.old.items ++ line_with start.now name.now rest.now) }
{
    let room = MOST_COLUMNS
        .saturating_sub(start.len())
        .saturating_sub(rest.len());
    let mut line = Vec::new(alloc);
    push(&mut line, start)?;
    push_cut(&mut line, name, room)?;
    push(&mut line, rest)?;
    push_line(out, &line)
}

// Appends a text, as much of it as there is room for.
fn push_cut(out: &mut Vec<u8>, text: &[u8], room: usize) -> Result<(), AllocError>
    ensures { OnOk result (out.new.items ≡ out.old.items ++ cut room text.now) }
{
    if text.len() <= room {
        return push(out, text);
    }
    let end = begin_of_character(text, room.saturating_sub(2));
    push(out, &text[..end])?;
    push(out, b"..")
}

// The last index up to this one where a character begins.
fn begin_of_character(text: &[u8], most: usize) -> usize
    ensures place { result ≡ begin_of_character text.now most }
    ensures within { result ≤ most }
{
    for back in 0..most {
        let place = most - back;
        if !goes_on(text, place) {
            return place;
        }
    }
    0
}

// Whether the byte at this index continues a character of UTF-8 that began before it.
fn goes_on(text: &[u8], place: usize) -> bool
    ensures { result ≡ goes_on (get_or text.now place 0) }
{
    match text.get(place) {
        Some(byte) => *byte >= 128 && *byte < 192,
        None => false,
    }
}

/// No line is longer than 100 bytes: a law, proved as the contract of a function that does nothing.
pub fn lines_fit()
    ensures { LinesFit }
{}
