//! Rows of a server, read into locks.
use mdl_lock_rows::{LockRows, LockRowsError, read_lock_rows};
use std::alloc::Global;
use std::mem::drop;

// Two threads have or await two locks, the wait for one of them is settled, and a row is left out.
const TEXT: &[u8] = b"\
OBJECT_TYPE\tOBJECT_SCHEMA\tOBJECT_NAME\tLOCK_TYPE\tLOCK_DURATION\tLOCK_STATUS\tOWNER_THREAD_ID
TABLE\ts\tt\\\\u\tSHARED_READ\tTRANSACTION\tGRANTED\t48213
TABLE\ts\tt\\\\u\tEXCLUSIVE\tTRANSACTION\tVICTIM\t48300
GLOBAL\tNULL\tNULL\tINTENTION_EXCLUSIVE\tSTATEMENT\tGRANTED\t48300
FOREIGN KEY\ts\tk\tSHARED\tTRANSACTION\tPENDING\t48300
";

/// Whether the rows are read completely. Tries a second time if memory runs out.
pub(crate) fn rows_are_read(alloc: Global) -> bool {
    let outcome = read_lock_rows(alloc, TEXT);
    if matches!(&outcome, Err(LockRowsError::OutOfMemory)) {
        drop(outcome);
        return is_whole(read_lock_rows(alloc, TEXT));
    }
    is_whole(outcome)
}

fn is_whole(outcome: Result<LockRows, LockRowsError>) -> bool {
    let is_so = match &outcome {
        Ok(found) => are_there(found),
        Err(_) => false,
    };
    drop(outcome);
    is_so
}

// Whether these are the locks of the rows, with all that belongs to them.
fn are_there(found: &LockRows) -> bool {
    let [first, second] = found.locks.as_slice() else {
        return false;
    };
    first.granted().len() == 1
        && first.settled().len() == 1
        && second.granted().len() == 1
        && second.waiting().is_empty()
        && found.owners.len() == 2
        && found.keys.len() == 2
        && found.left_out.len() == 1
}
