//! A law of rows, proved as the contract of a function that does nothing.
ghost use Rattle.mdl_lock_rows.specs.RowLaws.{NoRowIsLost};

/// Each row that is kept is in a list of its key's lock, unless it is of a lock that is released, and its thread is among the owners. Each row
/// that is left out is counted in its class.
pub fn no_row_is_lost()
    ensures { NoRowIsLost }
{}
