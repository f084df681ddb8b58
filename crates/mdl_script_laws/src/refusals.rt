//! Laws of statements that are refused before their first lock. Each is proved as the contract of a function that does nothing.
ghost use Rattle.mdl_script_laws.specs.IdleSessions.{IdleSessionsAreTidy};
ghost use Rattle.mdl_script_laws.specs.RefusalsFirst.{EarlyErrorsChangeNothing, SessionsStayTidy};
ghost use Rattle.mdl_script_laws.specs.RefusedLines.{RefusedLinesChangeNothing};

/// A statement that is refused before its first lock changes nothing: neither its session, whose transaction is unchanged, nor the
/// space.
pub fn early_errors_change_nothing()
    ensures { EarlyErrorsChangeNothing }
{}

/// Between statements a session keeps no ticket of a statement, and none of a transaction unless one is open, however its
/// statements end. Unless one is open, it has both tickets of the global read lock, or none. Its context knows only the places where the
/// session has something.
pub fn sessions_stay_tidy()
    ensures { SessionsStayTidy }
{}

/// After each line of a script, what [`sessions_stay_tidy`] says holds for each session that doesn't wait.
pub fn idle_sessions_are_tidy()
    ensures { IdleSessionsAreTidy }
{}

/// Each refusal before a first lock, in the output of a script, is the answer to a line that changed nothing. Only the refused session
/// gets it, and no statement that has waited is refused so.
pub fn refused_lines_change_nothing()
    ensures { RefusedLinesChangeNothing }
{}
