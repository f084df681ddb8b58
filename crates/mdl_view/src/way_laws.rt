//! Laws of the waits that end in turn after an act.
ghost use Rattle.mdl_view.specs.WayLaws.{EndsAreDetermined, GrantedGoOn, NobodyEndsBlocked};

/// Which sessions end in turn after an act is determined, whatever the order in which they end.
pub fn ends_are_determined()
    ensures { EndsAreDetermined }
{}

/// A session ends in turn only if the act ends it, or each ticket that blocks one of its waits has gone.
pub fn nobody_ends_blocked()
    ensures { NobodyEndsBlocked }
{}

/// What is granted at once after an act goes on in turn, if each request goes with its statement.
pub fn granted_go_on()
    ensures { GrantedGoOn }
{}
