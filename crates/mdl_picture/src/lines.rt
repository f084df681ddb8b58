//! The lines of a box.
ghost use Rattle.std.specs.Prelude.{◌≡◌, ◌++◌, ◌≤◌, ◌+◌, drop, length, map, OnOk};
ghost use Rattle.mdl_picture.specs.Svg.{escaped};
ghost use Rattle.mdl_picture.specs.Texts.{blank_before, break_of, cut, halves, has_bytes, lines_of, longest, most_bytes, text_width};

use crate::moment::Event;
use crate::svg::push_text;
use std::alloc::AllocError;

// The greatest number of bytes of a line.
const MOST_BYTES: usize = 32;

/// A statement of at most this number of bytes isn't broken into two lines.
pub(crate) const STATEMENT_ROOM: usize = 18;

/// An answer of at most this number of bytes isn't broken into two lines.
pub(crate) const ANSWER_ROOM: usize = 15;

// The width of a byte, and how much wider a box is than its longest line.
const BYTE_WIDTH: u64 = 7;

const MARGIN: u64 = 14;

/// Returns the width of the box of an event, as far as its texts need it.
pub(crate) fn text_width(event: &Event) -> u64
    ensures { result ≡ text_width event.now }
{
    let said = longest(&event.statement, STATEMENT_ROOM);
    let told = longest(&event.answer, ANSWER_ROOM);
    BYTE_WIDTH * said.max(told) as u64 + MARGIN
}

// The length of the longest line of a text.
fn longest(text: &[u8], room: usize) -> usize
    ensures longest { result ≡ longest room text.now }
    ensures within { result ≤ most_bytes }
{
    let [first, second] = halves(text, room);
    first
        .len()
        .min(MOST_BYTES)
        .max(second.len().min(MOST_BYTES))
}

/// Returns the number of lines of a text.
pub(crate) fn line_count(text: &[u8], room: usize) -> u64
    ensures count { result ≡ length (lines_of room text.now) }
    ensures within { result ≤ 2 }
{
    let [first, second] = halves(text, room);
    u64::from(has_bytes(first)) + u64::from(has_bytes(second))
}

/// Whether a line isn't empty.
pub(crate) fn has_bytes(line: &[u8]) -> bool
    ensures { result ≡ has_bytes line.now }
{
    !line.is_empty()
}

/// Returns the parts of a text before and after the byte where it is broken.
pub(crate) fn halves(text: &[u8], room: usize) -> [&[u8]; 2]
    ensures { map (λ line. line.now) result ≡ halves room text.now }
{
    let place = break_of(text, room);
    [&text[..place], text_behind(text, place)]
}

// The text after the byte at an index.
fn text_behind(text: &[u8], place: usize) -> &[u8]
    requires { place ≤ length text.now }
    ensures { result.now ≡ drop (place + 1) text.now }
{
    if place == text.len() {
        return &[];
    }
    &text[place + 1..]
}

// The index where a text is broken: its end if the text fits.
fn break_of(text: &[u8], room: usize) -> usize
    ensures place { result ≡ break_of room text.now }
    ensures within { result ≤ length text.now }
{
    if text.len() <= room {
        return text.len();
    }
    blank_before(text, room + 1)
}

// The index of the last blank of a text before this index, or the text's end if there is none.
fn blank_before(text: &[u8], end: usize) -> usize
    requires { end ≤ length text.now }
    ensures place { result ≡ blank_before text.now end }
    ensures within { result ≤ length text.now }
{
    for back in 0..end {
        let place = end - back - 1;
        if text[place] == b' ' {
            return place;
        }
    }
    text.len()
}

/// Appends a line, as much of it as there is room for.
pub(crate) fn push_cut(out: &mut Vec<u8>, line: &[u8]) -> Result<(), AllocError>
    ensures { OnOk result (out.new.items ≡ out.old.items ++ escaped (cut line.now)) }
{
    if line.len() <= MOST_BYTES {
        return push_text(out, line);
    }
    push_text(out, &line[..MOST_BYTES - 2])?;
    push_text(out, b"..")
}
