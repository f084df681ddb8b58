//! Laws of durations, names and known places. Each is proved as the contract of a function that does nothing.
ghost use Rattle.mdl_context.specs.DurationLaws.{GoingBackKeepsFronts, GoingBackToNowKeepsAll, StatementsEndAlone, ExplicitTicketsEndAlone, EndingLeavesExplicit};
ghost use Rattle.mdl_context.specs.NameLaws.{NamesAreGivenUp};
ghost use Rattle.mdl_context.specs.TidyLaws.{CallsStayTidy, ReleasesLeaveTidy};

use mdl_space::LockSpace;

/// Going back to a mark releases the newest tickets of the statement and of the transaction, beyond the mark's two counts,
/// and no explicit ones.
pub fn going_back_keeps_fronts()
    ensures { GoingBackKeepsFronts }
{}

/// Going back to the session's current mark releases nothing.
pub fn going_back_to_now_keeps_all()
    ensures { GoingBackToNowKeepsAll }
{}

/// The end of a statement releases the statement's tickets, and no others.
pub fn statements_end_alone()
    ensures { StatementsEndAlone }
{}

/// The release of the explicit tickets releases no others.
pub fn explicit_tickets_end_alone()
    ensures { ExplicitTicketsEndAlone }
{}

/// The end of a transaction leaves only the explicit tickets.
pub fn ending_leaves_explicit()
    ensures { EndingLeavesExplicit }
{}

/// Once the tickets of a key are released by its name, none is left at any place that the session knows to be the key's.
pub fn names_are_given_up<S: LockSpace>()
    ensures { NamesAreGivenUp S.LockSpace }
{}

/// After tickets were released the context has something at each place that it knows, whatever the lock space answered.
pub fn releases_leave_tidy()
    ensures { ReleasesLeaveTidy }
{}

/// A context that has something at each place that it knows still does after a request for a lock, after an upgrade, a downgrade or a release
/// of a ticket, and after a wait went on or was given up, whatever the lock space answered.
pub fn calls_stay_tidy()
    ensures { CallsStayTidy }
{}
