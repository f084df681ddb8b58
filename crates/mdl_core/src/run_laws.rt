//! Laws of programs of calls over the space of one thread: their runs and their outcomes. Each is proved as the contract of a
//! function that does nothing.
ghost use Rattle.mdl_core.specs.RunLaws.{SureRuns, FrugalRuns, OutcomesAreRuns};

/// A run of a program that replies a fault whenever memory runs out is the program's outcome, unless its reply is such a
/// fault.
pub fn sure_runs<A>()
    ensures { SureRuns A }
{}

/// A run of a program that takes no memory is its outcome, whatever it replies.
pub fn frugal_runs<A>()
    ensures { FrugalRuns A }
{}

/// The outcome of a program is a run of it, if each of its calls has no caller or the same session as caller, and the space speaks
/// for that session. The space still speaks for the same sessions afterwards.
pub fn outcomes_are_runs<A>()
    ensures { OutcomesAreRuns A }
{}
