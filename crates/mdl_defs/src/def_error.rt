//! Why a definition can't be changed.
use thiserror::Error;

/// Why a definition can't be changed. Of several causes the first in this order is returned. A refused call changes
/// nothing.
///
/// After the errors of the same causes in MySQL 5.7, the Reference Manual, "CREATE TABLE Statement" and "ALTER TABLE
/// Statement".
#[derive(Clone, Copy, Debug, PartialEq, Eq, Error)]
pub enum DefError {
    /// There is already a definition of that name.
    #[error("already exists")]
    Exists,
    /// There is no definition of that name.
    #[error("doesn't exist")]
    Missing,
    /// A column is named twice, or is added to a table that has it.
    #[error("duplicate column name")]
    DuplicateColumn,
    /// The table doesn't have the column that is to be dropped.
    #[error("no such column")]
    NoColumn,
    /// The column that is to be dropped is the only one.
    #[error("a table can't lose its last column")]
    LastColumn,
    /// A table would have more than [`MOST_COLUMNS`](crate::MOST_COLUMNS) columns.
    #[error("more than 64 columns")]
    ManyColumns,
    /// A schema has no columns to change, and a table has to have some.
    #[error("columns where none can be, or none where some have to be")]
    WrongKind,
    /// Memory ran out.
    #[error("out of memory")]
    OutOfMemory,
}
