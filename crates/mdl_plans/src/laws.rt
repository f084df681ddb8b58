//! Laws of plans: each means what its statement does. Each is proved as the contract of a function that does nothing.
ghost use Rattle.mdl_plans.specs.GoingOn.{PlansGoOn};
ghost use Rattle.mdl_plans.specs.PlanLaws.{PlansAreStatements, PlansStartAlike, SessionsGoOnAlike};

/// The plan of each statement means the statement's row, in a session of any state: once the looks at the session's state are filled in,
/// both are the same row.
pub fn plans_are_statements()
    ensures { PlansAreStatements }
{}

/// A session that plays the plan of a statement makes the calls that the statement makes, whatever is answered, and comes as far. If it
/// waits then, what is left is the same once the looks at the session's state are filled in.
pub fn plans_start_alike()
    ensures { PlansStartAlike }
{}

/// Two sessions that have come as far go on alike, up to the next wait or to the end.
pub fn sessions_go_on_alike()
    ensures { SessionsGoOnAlike }
{}

/// A plan that waits for a lock goes on by the step that waits, which is made again with the ticket that was granted: what is left of it is what
/// the plan does from that step on.
pub fn plans_go_on()
    ensures { PlansGoOn }
{}
