//! Laws of what is read from a script. Each is proved as the contract of a function that does nothing.
ghost use Rattle.mdl_syntax.specs.Laws.{LineNumbersRise, StatementsAreWithinLimits};

/// A statement that is read with a list of tables has 1 to 8 of them, no two the same. A new table has 1 to
/// [`MOST_COLUMNS`](mdl_defs::MOST_COLUMNS) columns, every name has 1 to [`LONGEST_NAME`](mdl_key::LONGEST_NAME) bytes of
/// `a-z 0-9 _`, and every session is from 1 to [`MOST_SESSIONS`](mdl_key::MOST_SESSIONS).
pub fn statements_are_within_limits()
    ensures { StatementsAreWithinLimits }
{}

/// The lines that are read are in the order of their numbers, each greater than the one before.
pub fn line_numbers_rise()
    ensures { LineNumbersRise }
{}
