//! Errors of reading.
ghost use Rattle.std.specs.Prelude.{◌≡◌};

use crate::column::Column;
use crate::other_table::OtherTable;
use mdl_client_table::{JsonFault, TableError};
use std::alloc::AllocError;
use thiserror::Error;

/// Why a row is refused.
#[derive(Clone, Copy, Debug, PartialEq, Eq, Error)]
pub enum RowError {
    /// The row has fewer fields than the header has names. The first missing one has this number, counted from 1.
    #[error("field {0}: missing, since the row has fewer fields than the header")]
    MissingField(usize),
    /// The row has more fields than the header has names. The first of them has this number, counted from 1.
    #[error("field {0}: not in the header")]
    ExtraField(usize),
    /// LOCK_STATUS is none of the seven known ones.
    #[error("column LOCK_STATUS: unknown status")]
    UnknownStatus,
    /// LOCK_DURATION is none of STATEMENT, TRANSACTION and EXPLICIT.
    #[error("column LOCK_DURATION: unknown duration")]
    UnknownDuration,
    /// OWNER_THREAD_ID isn't a number of decimal digits below 2^64.
    #[error("column OWNER_THREAD_ID: not a number")]
    BadThread,
    /// PROCESSLIST_ID isn't a number of decimal digits below 2^64.
    #[error("column PROCESSLIST_ID: not a number")]
    BadConnection,
}

/// Why the rows of a server's metadata locks can't be read.
#[derive(Clone, Copy, Debug, PartialEq, Eq, Error)]
pub enum LockRowsError {
    /// There are no rows.
    #[error("no rows. Either no session holds a lock, or the server keeps no rows. MySQL 5.7 keeps none until this is run:\n  UPDATE performance_schema.setup_instruments SET ENABLED='YES', TIMED='YES' WHERE NAME='wait/lock/metadata/sql/mdl';\nLocks that were taken before have no rows. MariaDB also needs performance_schema=ON in my.cnf, and a restart.\nUntil then, SHOW FULL PROCESSLIST has who waits for a metadata lock. KILL QUERY of the first ALTER or DROP\namong them lets those behind it go on.")]
    NoRows,
    /// The header lacks this column.
    #[error("no table with a column {0}. Give what this prints: mysql -B -e \"$(mdlview query)\"")]
    NoColumn(Column),
    /// The columns are those of another table.
    #[error("{0}. Give what this prints: mysql -B -e \"$(mdlview query)\"")]
    NotLocks(OtherTable),
    /// The rows are in JSON, and have this fault.
    #[error("{0}")]
    Json(JsonFault),
    /// The row whose first line has this number, counted from 1, is refused.
    #[error("line {0}, {1}")]
    Refused(u64, RowError),
    /// Memory ran out.
    #[error("out of memory")]
    OutOfMemory,
}

impl From<AllocError> for LockRowsError {
    ghost use Rattle.mdl_lock_rows.specs.declared.row_error.LockRowsError.TheVariants.{OutOfMemory};

    ghost from_gives = { λ _ error. error ≡ OutOfMemory };

    fn from(_: AllocError) -> LockRowsError {
        LockRowsError::OutOfMemory
    }
}

impl From<TableError> for LockRowsError {
    ghost use Rattle.mdl_lock_rows.specs.Reading.{refusal_of};

    ghost from_gives = { λ error refusal. refusal ≡ refusal_of error };

    fn from(error: TableError) -> LockRowsError {
        match error {
            TableError::Json(fault) => LockRowsError::Json(fault),
            TableError::OutOfMemory => LockRowsError::OutOfMemory,
        }
    }
}
