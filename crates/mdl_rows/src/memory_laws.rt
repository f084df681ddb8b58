//! Laws of statements that run out of memory, of the calls that statements make and the places that sessions know after them,
//! and what follows from them over the space of one thread. They hold for each statement, whatever it requests. Each is proved as the
//! contract of a function that does nothing.
ghost use Rattle.mdl_rows.specs.MemoryLaws.{StatementsTellOfWant, StatementsCallForTheirSession, SessionsKeepTheirNumber, StatementsEndTidy, SureStatements, StatementsKeepSpaceSound};

/// A statement that runs out of memory ends and reports that, and nothing else.
pub fn statements_tell_of_want()
    ensures { StatementsTellOfWant }
{}

/// All calls of a statement are made for its session, or for no session. Its context alone gives up pins.
pub fn statements_call_for_their_session()
    ensures { StatementsCallForTheirSession }
{}

/// A session keeps its number, however far its statements come.
pub fn sessions_keep_their_number()
    ensures { SessionsKeepTheirNumber }
{}

/// Once a statement has ended, its session's context knows only the places where the session has a ticket or a wait. While the statement
/// waits, that holds if it held before.
pub fn statements_end_tidy()
    ensures { StatementsEndTidy }
{}

/// Over the space of one thread, how far a statement comes is the outcome of its definition, unless memory runs out.
pub fn sure_statements()
    ensures { SureStatements }
{}

/// Over the space of one thread, the outcome of a statement is a run. It leaves the space sound, and the space still speaks for
/// each session for which it spoke before.
pub fn statements_keep_the_space_sound()
    ensures { StatementsKeepSpaceSound }
{}
