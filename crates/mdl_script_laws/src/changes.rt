//! Laws of statements that change definitions. Each is proved as the contract of a function that does nothing.
ghost use Rattle.mdl_script_laws.specs.ChangesLast.{StatementsCheckBeforeTheyChange};
ghost use Rattle.mdl_script_laws.specs.Failures.{FailuresChangeNothing, WaitersHaveOneLeft};

/// A statement makes all its checks, and gets all its locks and all the memory that it needs, before its first change of a definition.
/// After that change it only drops definitions, which takes no memory, lowers a lock, and answers OK.
pub fn statements_check_before_they_change()
    ensures { StatementsCheckBeforeTheyChange }
{}

/// A statement that changes at most one definition, and ends with an error or because memory ran out, has changed none, whether it
/// ends as it starts or after a wait. `DROP TABLE` of several tables, `DROP SCHEMA` and `RENAME TABLE` may change more than one. The
/// law doesn't cover them.
pub fn failures_change_nothing()
    ensures { FailuresChangeNothing }
{}

/// If a statement that changes at most one definition waits, what is left of it changes at most one definition.
pub fn waiters_have_one_left()
    ensures { WaitersHaveOneLeft }
{}
