//! The rows left out of each object type and lock type.
ghost use Rattle.std.specs.Prelude.{◌≡◌, ◌+◌, ◌<◌, ◌^◌, [], IfOk, OnOk, map};
ghost use Rattle.mdl_lock_rows.specs.Classes.{same_class};
ghost use Rattle.mdl_lock_rows.specs.Numbering.{counted_among, each_once, left_out_of, with_new, with_one};

use crate::row::OtherRow;
use crate::row_class::{LeftOut, RowClass};
use indexmap::IndexSet;
use std::alloc::{AllocError, Global};

/// Counts these rows by object type and lock type.
pub(crate) fn left_out_of(alloc: Global, rows: &[OtherRow]) -> Result<Vec<LeftOut>, AllocError>
    ensures { IfOk result (λ left_out. left_out.items ≡ left_out_of rows.now) }
{
    let known = class_set(alloc, rows)?;
    counted(alloc, &known, rows)
}

// Counts these rows by known class.
fn counted(
    alloc: Global,
    known: &IndexSet<RowClass>,
    rows: &[OtherRow],
) -> Result<Vec<LeftOut>, AllocError>
    ensures { IfOk result (λ left_out. left_out.items ≡ map (counted_among rows.now) known.now.keys) }
{
    let mut left_out = none_of(alloc, known.as_slice())?;
    for row in rows {
        if let Some(place) = known.get_index_of(&row.class) {
            add_one(&mut left_out[place], row.is_waiting);
        }
    }
    Ok(left_out)
}

// Counts one more row, which waits or not.
fn add_one(left_out: &mut LeftOut, is_waiting: bool)
    requires count { left_out.old.count + 1 < 2 ^ 64 }
    requires waiting { left_out.old.waiting + 1 < 2 ^ 64 }
    ensures { left_out.new ≡ with_one is_waiting left_out.old }
{
    left_out.count += 1;
    if is_waiting {
        left_out.waiting += 1;
    }
}

// The classes of these rows, each once.
fn class_set(alloc: Global, rows: &[OtherRow]) -> Result<IndexSet<RowClass>, AllocError>
    ensures { IfOk result (λ known. known.keys ≡ each_once same_class (map (λ row. row.class) rows.now)) }
{
    let mut known = IndexSet::new(alloc);
    for row in rows {
        add_class(&mut known, &row.class)?;
    }
    Ok(known)
}

// Adds a class, unless it is known.
fn add_class(known: &mut IndexSet<RowClass>, class: &RowClass) -> Result<(), AllocError>
    ensures { OnOk result (known.new.keys ≡ with_new same_class known.old.keys class.now) }
{
    if known.contains(class) {
        return Ok(());
    }
    known.insert(class.clone()?)?;
    Ok(())
}

// These classes, each with a count of 0.
fn none_of(alloc: Global, classes: &[RowClass]) -> Result<Vec<LeftOut>, AllocError>
    ensures { IfOk result (λ left_out. left_out.items ≡ map (counted_among []) classes.now) }
{
    let mut left_out = Vec::with_capacity(alloc, classes.len())?;
    for class in classes {
        left_out.push(LeftOut {
            class: class.clone()?,
            count: 0,
            waiting: 0,
        })?;
    }
    Ok(left_out)
}
