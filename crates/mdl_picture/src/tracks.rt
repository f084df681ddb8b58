//! The rows of sessions and the columns of lines.
ghost use Rattle.std.specs.Prelude.{◌≡◌, ◌++◌, ◌∷◌, flat_map, map, IfOk, OnOk};
ghost use Rattle.std.specs.Fmt.{decimal};
ghost use Rattle.mdl_picture.specs.Parts.{column_nodes, lane, line_word, session_name};
ghost use Rattle.mdl_picture.specs.Svg.{node_text};

use crate::kind::Kind;
use crate::layout::Column;
use crate::rows::{Row, row_height, row_top};
use crate::shapes::{push_line, push_rect, push_titled, push_words};
use crate::sums::sum;
use crate::svg::{Tag, push_end};
use mdl_lines::{push, push_number};
use std::alloc::{AllocError, Global};

/// The distance of the baseline of words from the top of their row.
pub(crate) const LABEL_BASE: u64 = 36;

/// Appends the rows.
pub(crate) fn push_lanes(
    out: &mut Vec<u8>,
    alloc: Global,
    width: u64,
    rows: &[Row],
) -> Result<(), AllocError>
    ensures { OnOk result (out.new.items ≡ out.old.items ++ flat_map node_text (map (lane width rows.now) rows.now)) }
{
    for row in rows {
        push_lane(out, alloc, width, rows, *row)?;
    }
    Ok(())
}

// Appends the row of a session.
#[tactic(auto, unfolding(crate::specs::Parts::lane))]
fn push_lane(
    out: &mut Vec<u8>,
    alloc: Global,
    width: u64,
    rows: &[Row],
    row: Row,
) -> Result<(), AllocError>
    ensures { OnOk result (out.new.items ≡ out.old.items ++ node_text (lane width rows.now row)) }
{
    let y = row_top(rows, row.session)?;
    let name = session_name(alloc, row.session)?;
    push_titled(out, &name)?;
    push_rect(out, Kind::Lane, 0, y, width, row_height(row.tracks)?)?;
    push_words(out, Kind::Words, 8, sum(y, LABEL_BASE)?, &name)?;
    push_end(out, Tag::G)
}

// The name of a session.
fn session_name(alloc: Global, session: u16) -> Result<Vec<u8>, AllocError>
    ensures { IfOk result (λ name. name.items ≡ session_name session) }
{
    let mut name = Vec::new(alloc);
    push_session(&mut name, session)?;
    Ok(name)
}

/// Appends the name of a session.
#[tactic(auto, unfolding(crate::specs::Parts::session_name))]
pub(crate) fn push_session(out: &mut Vec<u8>, session: u16) -> Result<(), AllocError>
    ensures { OnOk result (out.new.items ≡ out.old.items ++ session_name session) }
{
    push(out, b"session ")?;
    push_number(out, u64::from(session))
}

/// Appends the columns.
pub(crate) fn push_columns(
    out: &mut Vec<u8>,
    alloc: Global,
    bottom: u64,
    columns: &[Column],
) -> Result<(), AllocError>
    ensures { OnOk result (out.new.items ≡ out.old.items ++ flat_map node_text (line_word ∷ flat_map (column_nodes bottom) columns.now)) }
{
    push_words(out, Kind::Number, 8, 16, b"line")?;
    push_guides(out, alloc, bottom, columns)
}

// Appends the columns of lines.
fn push_guides(
    out: &mut Vec<u8>,
    alloc: Global,
    bottom: u64,
    columns: &[Column],
) -> Result<(), AllocError>
    ensures { OnOk result (out.new.items ≡ out.old.items ++ flat_map node_text (flat_map (column_nodes bottom) columns.now)) }
{
    for column in columns {
        push_guide(out, alloc, bottom, *column)?;
    }
    Ok(())
}

// Appends the column of a line.
fn push_guide(
    out: &mut Vec<u8>,
    alloc: Global,
    bottom: u64,
    column: Column,
) -> Result<(), AllocError>
    ensures { OnOk result (out.new.items ≡ out.old.items ++ flat_map node_text (column_nodes bottom column)) }
{
    push_line(out, Kind::Guide, column.x, 20, column.x, bottom)?;
    push_words(
        out,
        Kind::Number,
        column.x,
        16,
        &digits_of(alloc, column.line)?,
    )
}

// A number's digits.
fn digits_of(alloc: Global, number: u64) -> Result<Vec<u8>, AllocError>
    ensures { IfOk result (λ digits. digits.items ≡ decimal number) }
{
    let mut digits = Vec::new(alloc);
    push_number(&mut digits, number)?;
    Ok(digits)
}
