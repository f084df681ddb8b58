//! What is said of a server's rows that aren't read, and of waits that can't be explained.
ghost use Rattle.std.specs.Prelude.{◌≡◌, ◌+◌, ◌-◌, ◌++◌, ◌∷◌, [], codes, take, OnOk, IfOk};
ghost use Rattle.std.specs.List.{list_all};
ghost use Rattle.mdl_view_text.specs.LeftOuts.{are_all_explained, class_text, comment_of, comments, left_out_line, left_out_words, more_classes, most_classes, none_waits, notes, rows_among, rows_left_out, unexplained_count, unexplained_line, unexplained_words, waiting_among, waits_words};
ghost use Rattle.mdl_view_text.specs.Layouts.{listed};

use crate::layout::{push_line, push_mark};
use crate::names::push_name;
use mdl_lines::{push, push_number};
use mdl_lock_rows::LeftOut;
use mdl_view::AtLock;
use std::alloc::{AllocError, Global};

// The greatest number of classes of rows that are named.
const MOST_CLASSES: usize = 8;

/// Whether each wait is explained: a ticket shows a reason for each, and no row that waits is left out.
pub fn are_all_explained(unexplained: &[AtLock], left_out: &[LeftOut]) -> bool
    ensures { result ≡ are_all_explained unexplained.now left_out.now }
{
    unexplained.len() == 0 && none_waits_among(left_out)
}

// Whether no row of these classes waits.
fn none_waits_among(left_out: &[LeftOut]) -> bool
    ensures { result ≡ list_all none_waits left_out.now }
{
    left_out.iter().all(|left| none_waits(left))
}

// Whether no row of a class waits.
fn none_waits(left: &LeftOut) -> bool
    ensures { result ≡ none_waits left.now }
{
    left.waiting == 0
}

/// Appends the lines under a table: how many waits can't be explained, and which rows are left out. Appends nothing if there are none.
pub fn add_notes(
    out: &mut Vec<u8>,
    alloc: Global,
    unexplained: &[AtLock],
    left_out: &[LeftOut],
) -> Result<(), AllocError>
    ensures { OnOk result (out.new.items ≡ out.old.items ++ notes unexplained.now left_out.now) }
{
    push_unexplained(out, unexplained_count(unexplained, left_out)?)?;
    push_left_out(out, alloc, left_out)
}

/// Appends the lines of [`add_notes`] as comments of Graphviz's DOT language.
pub fn add_comments(
    out: &mut Vec<u8>,
    alloc: Global,
    unexplained: &[AtLock],
    left_out: &[LeftOut],
) -> Result<(), AllocError>
    ensures { OnOk result (out.new.items ≡ out.old.items ++ comments unexplained.now left_out.now) }
{
    let mut first = Vec::new(alloc);
    push_unexplained(&mut first, unexplained_count(unexplained, left_out)?)?;
    let mut second = Vec::new(alloc);
    push_left_out(&mut second, alloc, left_out)?;
    push_comment(out, &first)?;
    push_comment(out, &second)
}

// Appends a line as a comment, unless it is empty.
fn push_comment(out: &mut Vec<u8>, line: &[u8]) -> Result<(), AllocError>
    ensures { OnOk result (out.new.items ≡ out.old.items ++ comment_of line.now) }
{
    if line.is_empty() {
        return Ok(());
    }
    push(out, b"// ")?;
    push(out, line)
}

/// Returns how many waits can't be explained. It can't overflow, since all are in memory. If it did, that would count as out of memory.
pub(crate) fn unexplained_count(
    unexplained: &[AtLock],
    left_out: &[LeftOut],
) -> Result<u64, AllocError>
    ensures { IfOk result (λ count. count ≡ unexplained_count unexplained.now left_out.now) }
{
    match waiting_among(left_out)?.checked_add(unexplained.len() as u64) {
        Some(count) => Ok(count),
        None => Err(AllocError),
    }
}

/// Returns how many of the rows of these classes wait.
pub(crate) fn waiting_among(classes: &[LeftOut]) -> Result<u64, AllocError>
    ensures { IfOk result (λ count. count ≡ waiting_among classes.now) }
{
    let mut count = 0u64;
    for class in classes {
        count = match count.checked_add(class.waiting as u64) {
            Some(count) => count,
            None => return Err(AllocError),
        };
    }
    Ok(count)
}

// Appends the line for the waits that can't be explained, if there are any.
fn push_unexplained(out: &mut Vec<u8>, count: u64) -> Result<(), AllocError>
    ensures { OnOk result (out.new.items ≡ out.old.items ++ unexplained_line count) }
{
    if count == 0 {
        return Ok(());
    }
    push_unexplained_words(out, count)?;
    push(out, b": ask `mdlview why`\n")
}

/// Appends how many waits can't be explained.
pub(crate) fn push_unexplained_words(out: &mut Vec<u8>, count: u64) -> Result<(), AllocError>
    ensures { OnOk result (out.new.items ≡ out.old.items ++ unexplained_words count) }
{
    push_waits(out, count)?;
    push(out, b" can't be explained from these rows")
}

// Appends so many waits.
fn push_waits(out: &mut Vec<u8>, count: u64) -> Result<(), AllocError>
    ensures { OnOk result (out.new.items ≡ out.old.items ++ waits_words count) }
{
    if count == 1 {
        return push(out, b"1 wait");
    }
    push_number(out, count)?;
    push(out, b" waits")
}

/// Appends a line that says how many rows are left out, and of which object types and lock types. Appends nothing if none is left out.
pub(crate) fn push_left_out(
    out: &mut Vec<u8>,
    alloc: Global,
    classes: &[LeftOut],
) -> Result<(), AllocError>
    ensures { OnOk result (out.new.items ≡ out.old.items ++ left_out_line classes.now) }
{
    if classes.is_empty() {
        return Ok(());
    }
    let words = left_out_words(alloc, classes)?;
    push_line(out, &words)
}

// The words of the line.
fn left_out_words(alloc: Global, classes: &[LeftOut]) -> Result<Vec<u8>, AllocError>
    ensures { IfOk result (λ words. words.items ≡ left_out_words classes.now) }
{
    let count = rows_among(classes)?;
    let mut words = Vec::new(alloc);
    push_count(&mut words, count)?;
    push_classes(&mut words, first_classes(classes))?;
    push_more(&mut words, classes.len())?;
    Ok(words)
}

// The number of rows of all classes. It can't overflow, since all rows are in memory. If it did, that would count as out of memory.
fn rows_among(classes: &[LeftOut]) -> Result<u64, AllocError>
    ensures { IfOk result (λ count. count ≡ rows_among classes.now) }
{
    let mut count = 0u64;
    for class in classes {
        count = match count.checked_add(class.count as u64) {
            Some(count) => count,
            None => return Err(AllocError),
        };
    }
    Ok(count)
}

// Appends how many rows are left out.
fn push_count(out: &mut Vec<u8>, count: u64) -> Result<(), AllocError>
    ensures { OnOk result (out.new.items ≡ out.old.items ++ rows_left_out count) }
{
    push_number(out, count)?;
    if count == 1 {
        push(out, b" row left out: ")
    } else {
        push(out, b" rows left out: ")
    }
}

// Appends the classes.
fn push_classes(out: &mut Vec<u8>, classes: &[LeftOut]) -> Result<(), AllocError>
    ensures { OnOk result (out.new.items ≡ out.old.items ++ listed (codes ", ") class_text 0 classes.now) }
{
    for (place, class) in classes.iter().enumerate() {
        push_mark(out, b", ", place)?;
        push_class(out, class)?;
    }
    Ok(())
}

// Appends an object type, a lock type, and how many rows are of them.
fn push_class(out: &mut Vec<u8>, left: &LeftOut) -> Result<(), AllocError>
    ensures { OnOk result (out.new.items ≡ out.old.items ++ class_text 0 left.now) }
{
    push_name(out, left.class.object_type())?;
    push(out, b" ")?;
    push_name(out, left.class.lock_type())?;
    push(out, b" ")?;
    push_number(out, left.count as u64)
}

// The first classes, which are named.
fn first_classes(classes: &[LeftOut]) -> &[LeftOut]
    ensures { result.now ≡ take most_classes classes.now }
{
    if classes.len() <= MOST_CLASSES {
        return classes;
    }
    &classes[..MOST_CLASSES]
}

// Appends how many of this number of classes aren't named.
fn push_more(out: &mut Vec<u8>, classes: usize) -> Result<(), AllocError>
    ensures { OnOk result (out.new.items ≡ out.old.items ++ more_classes (classes - most_classes)) }
{
    if classes <= MOST_CLASSES {
        return Ok(());
    }
    push(out, b", and of ")?;
    push_number(out, (classes - MOST_CLASSES) as u64)?;
    push(out, b" more types")
}
