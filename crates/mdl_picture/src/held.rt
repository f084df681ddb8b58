//! The bars of what sessions hold.
ghost use Rattle.std.specs.Prelude.{◌≡◌, ◌++◌, flat_map, map, IfOk, OnOk};
ghost use Rattle.mdl_picture.specs.Parts.{hold_at, hold_end, hold_label, hold_node, hold_title, label_room, mode_label, track_top, until_line, whole_label};
ghost use Rattle.mdl_picture.specs.Svg.{node_text};

use crate::holds::{Hold, session_of};
use crate::kind::Kind;
use crate::layout::Column;
use crate::moment::Held;
use crate::placing::Placed;
use crate::rows::{BOX_HEIGHT, Row, TRACK_HEIGHT, row_top};
use crate::shapes::{push_rect, push_titled, push_words};
use crate::sums::{product, sum};
use crate::svg::{Tag, push_end};
use crate::tracks::push_session;
use mdl_lines::{push, push_number};
use std::alloc::{AllocError, Global};

// The width of a byte in a bar, and the width that is left free.
const LABEL_BYTE: u64 = 6;

const LABEL_MARGIN: u64 = 6;

/// Appends what is held. Bars of locks that aren't released end at `end`.
pub(crate) fn push_holds(
    out: &mut Vec<u8>,
    alloc: Global,
    rows: &[Row],
    end: u64,
    placed: &[Placed<'_, '_>],
) -> Result<(), AllocError>
    ensures { OnOk result (out.new.items ≡ out.old.items ++ flat_map node_text (map (hold_node rows.now end) placed.now)) }
{
    for one in placed {
        push_hold(out, alloc, rows, end, one)?;
    }
    Ok(())
}

// Appends the bar of a lock.
fn push_hold(
    out: &mut Vec<u8>,
    alloc: Global,
    rows: &[Row],
    end: u64,
    placed: &Placed<'_, '_>,
) -> Result<(), AllocError>
    ensures { OnOk result (out.new.items ≡ out.old.items ++ node_text (hold_node rows.now end placed.now)) }
{
    let hold = placed.hold;
    let y = track_top(row_top(rows, session_of(hold))?, placed.track)?;
    let width = hold_end(end, hold.released).saturating_sub(hold.x);
    push_hold_at(out, alloc, hold, y, width)
}

// The upper edge of the bars of a track.
fn track_top(y: u64, track: u64) -> Result<u64, AllocError>
    ensures { IfOk result (λ top. top ≡ track_top y track) }
{
    let above = sum(BOX_HEIGHT + 2, product(TRACK_HEIGHT, track)?)?;
    sum(y, above)
}

// Where a bar ends.
fn hold_end(end: u64, released: Option<Column>) -> u64
    ensures { result ≡ hold_end end released }
{
    match released {
        Some(column) => column.x,
        None => end,
    }
}

// Appends a bar of this width.
#[tactic(auto, unfolding(crate::specs::Parts::hold_at))]
fn push_hold_at(
    out: &mut Vec<u8>,
    alloc: Global,
    hold: &Hold<'_>,
    y: u64,
    width: u64,
) -> Result<(), AllocError>
    ensures { OnOk result (out.new.items ≡ out.old.items ++ node_text (hold_at hold.now y width)) }
{
    push_titled(out, &hold_title(alloc, hold)?)?;
    push_rect(out, Kind::Held, hold.x, y, width, 12)?;
    let label = hold_label(alloc, label_room(width), hold.lock)?;
    push_words(out, Kind::Mode, sum(hold.x, 3)?, sum(y, 10)?, &label)?;
    push_end(out, Tag::G)
}

// How many bytes there is room for in a bar of this width.
fn label_room(width: u64) -> u64
    ensures { result ≡ label_room width }
{
    width.saturating_sub(LABEL_MARGIN) / LABEL_BYTE
}

// What is written in the bar of a lock, in room for so many bytes.
fn hold_label(alloc: Global, room: u64, lock: &Held) -> Result<Vec<u8>, AllocError>
    ensures { IfOk result (λ label. label.items ≡ hold_label room lock.now) }
{
    let whole = whole_label(alloc, lock)?;
    if whole.len() as u64 <= room {
        return Ok(whole);
    }
    if lock.mode.len() as u64 + 4 > room {
        return mode_label(alloc, room, &lock.mode);
    }
    let mut label = Vec::from_slice(alloc, &whole[..room as usize - 2])?;
    push(&mut label, b"..")?;
    Ok(label)
}

// A mode, if there is room for it.
fn mode_label(alloc: Global, room: u64, mode: &[u8]) -> Result<Vec<u8>, AllocError>
    ensures { IfOk result (λ label. label.items ≡ mode_label room mode.now) }
{
    if mode.len() as u64 <= room {
        return Vec::from_slice(alloc, mode);
    }
    Ok(Vec::new(alloc))
}

// A mode and the name of its lock.
fn whole_label(alloc: Global, lock: &Held) -> Result<Vec<u8>, AllocError>
    ensures { IfOk result (λ label. label.items ≡ whole_label lock.now) }
{
    let mut label = Vec::new(alloc);
    push(&mut label, &lock.mode)?;
    push(&mut label, b" ")?;
    push(&mut label, &lock.lock)?;
    Ok(label)
}

// The title of a bar.
#[tactic(auto, unfolding(crate::specs::Parts::hold_title))]
fn hold_title(alloc: Global, hold: &Hold<'_>) -> Result<Vec<u8>, AllocError>
    ensures { IfOk result (λ title. title.items ≡ hold_title hold.now) }
{
    let lock = hold.lock;
    let mut title = Vec::new(alloc);
    push_session(&mut title, lock.session)?;
    push(&mut title, b" holds ")?;
    push(&mut title, &lock.mode)?;
    push(&mut title, b" of ")?;
    push(&mut title, &lock.lock)?;
    push(&mut title, b" from line ")?;
    push_number(&mut title, hold.line)?;
    push_until_line(&mut title, hold.released)?;
    Ok(title)
}

// Appends until which line a lock is held, if it is released.
fn push_until_line(out: &mut Vec<u8>, released: Option<Column>) -> Result<(), AllocError>
    ensures { OnOk result (out.new.items ≡ out.old.items ++ until_line released) }
{
    let Some(column) = released else {
        return Ok(());
    };
    push(out, b" to line ")?;
    push_number(out, column.line)
}
