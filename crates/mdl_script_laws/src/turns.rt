//! Laws of waits and turns: how many locks a statement asks for, that all sessions continue whose turn comes after a line, which
//! sessions wait then, and how many waits are reported. Each is proved as the contract of a function that does nothing.
ghost use Rattle.mdl_script_laws.specs.Turns.{StatementsAskForFewLocks, StatementsTellOfFewWaits, TurnsSuffice, MoreTurnsDoNothing, NobodyIsLeftSettled, StatementsWaitInTheSpace};

/// A statement asks for no more locks than it can need, as `most_locks_of` of specs/Turns counts them: its tables, with their schemas if
/// definitions are changed or tables are locked for writing, the global lock, and the COMMIT lock. Making a lock stronger counts as
/// one more. A lock that is only tried, and so never waited for, counts for nothing. That is at most 259, for a `DROP SCHEMA` of 256
/// tables, whatever is defined and whatever its session keeps.
pub fn statements_ask_for_few_locks()
    ensures { StatementsAskForFewLocks }
{}

/// After each line of a script no session is left waiting whose wait is settled: the number of turns that a line allows is never used
/// up.
pub fn turns_suffice()
    ensures { TurnsSuffice }
{}

/// More turns than a line allows would do nothing, and report nothing.
pub fn more_turns_do_nothing()
    ensures { MoreTurnsDoNothing }
{}

/// After each line, each session that waits has a wait that isn't settled.
pub fn nobody_is_left_settled()
    ensures { NobodyIsLeftSettled }
{}

/// After each line a session's statement waits exactly if the session has a wait in the lock space, and that wait isn't settled.
pub fn statements_wait_in_the_space()
    ensures { StatementsWaitInTheSpace }
{}

/// A script reports no more waits of a statement than the statement asks for locks.
pub fn statements_tell_of_few_waits()
    ensures { StatementsTellOfFewWaits }
{}
