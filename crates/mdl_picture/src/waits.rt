//! The bars of waits.
ghost use Rattle.std.specs.Prelude.{◌≡◌, ◌++◌, flat_map, map, IfOk, OnOk};
ghost use Rattle.mdl_picture.specs.Parts.{bar_at, bar_node, bar_until, open_title, open_words, settled_title, statement_name};
ghost use Rattle.mdl_picture.specs.Svg.{node_text, shape_text};

use crate::bars::Bar;
use crate::kind::Kind;
use crate::layout::Column;
use crate::rows::{Row, row_top};
use crate::shapes::{push_rect, push_titled, push_words};
use crate::sums::sum;
use crate::svg::{Tag, push_end};
use crate::tracks::LABEL_BASE;
use mdl_lines::{push, push_number};
use std::alloc::{AllocError, Global};

// The distance of a bar from the top of its row, and its height.
const BAR_TOP: u64 = 25;

const BAR_HEIGHT: u64 = 14;

/// Appends the waits. Those that aren't settled end at `end`.
pub(crate) fn push_bars(
    out: &mut Vec<u8>,
    alloc: Global,
    rows: &[Row],
    end: u64,
    bars: &[Bar],
) -> Result<(), AllocError>
    ensures { OnOk result (out.new.items ≡ out.old.items ++ flat_map node_text (map (bar_node rows.now end) bars.now)) }
{
    for bar in bars {
        push_bar(out, alloc, row_top(rows, bar.session)?, end, *bar)?;
    }
    Ok(())
}

// Appends a wait.
fn push_bar(out: &mut Vec<u8>, alloc: Global, y: u64, end: u64, bar: Bar) -> Result<(), AllocError>
    ensures { OnOk result (out.new.items ≡ out.old.items ++ node_text (bar_until bar y end bar.settled)) }
{
    match bar.settled {
        Some(column) => push_settled(out, alloc, y, bar, column),
        None => push_open(out, alloc, y, end, bar),
    }
}

// Appends a wait that is settled at this column.
fn push_settled(
    out: &mut Vec<u8>,
    alloc: Global,
    y: u64,
    bar: Bar,
    column: Column,
) -> Result<(), AllocError>
    ensures { OnOk result (out.new.items ≡ out.old.items ++ node_text (bar_until bar y 0 (Some column))) }
{
    push_titled(out, &settled_title(alloc, bar, column)?)?;
    push_bar_at(out, bar, y, column.x)?;
    push_end(out, Tag::G)
}

// Appends a wait that isn't settled.
fn push_open(out: &mut Vec<u8>, alloc: Global, y: u64, end: u64, bar: Bar) -> Result<(), AllocError>
    ensures { OnOk result (out.new.items ≡ out.old.items ++ node_text (bar_until bar y end None)) }
{
    push_titled(out, &open_title(alloc, bar)?)?;
    push_bar_at(out, bar, y, end)?;
    push_open_words(out, y, end)?;
    push_end(out, Tag::G)
}

// Appends the words after a wait that isn't settled.
#[tactic(auto, unfolding(crate::specs::Parts::open_words))]
fn push_open_words(out: &mut Vec<u8>, y: u64, end: u64) -> Result<(), AllocError>
    ensures { OnOk result (out.new.items ≡ out.old.items ++ shape_text (open_words y end)) }
{
    let x = sum(end, 6)?;
    let base = sum(y, LABEL_BASE)?;
    push_words(out, Kind::Words, x, base, b"still waits")
}

// Appends the bar of a wait.
fn push_bar_at(out: &mut Vec<u8>, bar: Bar, y: u64, end: u64) -> Result<(), AllocError>
    ensures { OnOk result (out.new.items ≡ out.old.items ++ shape_text (bar_at bar y end)) }
{
    let width = end.saturating_sub(bar.x);
    push_rect(out, Kind::Bar, bar.x, sum(y, BAR_TOP)?, width, BAR_HEIGHT)
}

// The title of a wait that is settled.
#[tactic(auto, unfolding(crate::specs::Parts::settled_title))]
fn settled_title(alloc: Global, bar: Bar, column: Column) -> Result<Vec<u8>, AllocError>
    ensures { IfOk result (λ title. title.items ≡ settled_title bar column) }
{
    let mut title = Vec::new(alloc);
    push_statement(&mut title, bar.line, bar.session)?;
    push(&mut title, b"waits until line ")?;
    push_number(&mut title, column.line)?;
    Ok(title)
}

// The title of a wait that isn't settled.
#[tactic(auto, unfolding(crate::specs::Parts::open_title))]
fn open_title(alloc: Global, bar: Bar) -> Result<Vec<u8>, AllocError>
    ensures { IfOk result (λ title. title.items ≡ open_title bar) }
{
    let mut title = Vec::new(alloc);
    push_statement(&mut title, bar.line, bar.session)?;
    push(&mut title, b"still waits")?;
    Ok(title)
}

/// Appends the name of the statement of a line.
#[tactic(auto, unfolding(crate::specs::Parts::statement_name))]
pub(crate) fn push_statement(out: &mut Vec<u8>, line: u64, session: u16) -> Result<(), AllocError>
    ensures { OnOk result (out.new.items ≡ out.old.items ++ statement_name line session) }
{
    push(out, b"line ")?;
    push_number(out, line)?;
    push(out, b", session ")?;
    push_number(out, u64::from(session))?;
    push(out, b": ")
}
