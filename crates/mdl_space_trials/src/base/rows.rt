//! Rows of tables, and what tests say of those that are wrong. The tables are walked and the messages are made here, since each place that does so has
//! its own proof.
use std::alloc::Global;
use std::process::Abort;

/// A row of a table: what is tried, and what is wanted.
pub(crate) trait Row {
    /// Whether all goes as the row says.
    fn goes_so(&self, alloc: Global) -> bool;
}

/// Ends the test unless the row of this index is right.
pub(crate) fn is_right(rt: &impl Abort, row: usize, right: bool) {
    assert!(rt; right, "row {row} is wrong");
}

/// Ends the test unless all rows are right.
pub(crate) fn are_right<T: Row>(rt: &impl Abort, alloc: Global, rows: &[T]) {
    for (place, row) in rows.iter().enumerate() {
        is_right(rt, place, row.goes_so(alloc));
    }
}

/// A story: rows that are tried one after another.
pub(crate) trait Story {
    /// What the story shows.
    fn name(&self) -> &'static str;

    /// Returns the index of the first row that is wrong.
    fn first_wrong(&self, alloc: Global) -> Option<usize>;
}

/// Ends the test if one of some rows is wrong: the row of an index.
pub(crate) fn none_is_wrong(rt: &impl Abort, what: &str, wrong: Option<usize>) {
    assert!(rt; wrong.is_none(), "{what}: row {wrong:?} is wrong");
}

/// Ends the test if a row of a story is wrong.
pub(crate) fn are_told_so<T: Story>(rt: &impl Abort, alloc: Global, stories: &[T]) {
    for story in stories {
        none_is_wrong(rt, story.name(), story.first_wrong(alloc));
    }
}
