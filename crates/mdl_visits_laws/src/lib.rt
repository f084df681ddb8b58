//! A law of searches for deadlocks in the shared table: the victim is the right one in the system of locks (`mdl_system`) that the table is just
//! before the step that settles the victim's wait (`specs/Victims`).
//!
//! There is no code here: the law is the contract of a function that does nothing.
#![tactic(auto)]

ghost use Rattle.mdl_visits_laws.specs.Victims.{VictimsFallInStandingDeadlocks};

/// A search that settles a wait settles it for the victim of a standing deadlock through the session that searches. In the table's system just
/// before that step, each member of the deadlock has a ticket that waits, and stands behind the next member. No such request of a member weighs
/// less than the victim's, and of those that weigh the same the victim's session has the greatest number. The victim's wait is unsettled.
///
/// By the words that the search judged by, no member's wait was settled. The others' may be lost by then, that of the session that searches among
/// them: no latch keeps a session from settling a wait that the search has met unsettled. If none is, this is a deadlock, and the victim is its
/// victim. If the victim's wait was settled first, the search settles nothing, and begins again with the words as they are then.
///
/// A wait that was met settled stays so. So if all words were met before that step, and under the directory's latch, no deadlock through the
/// session that searches would be chosen before this one.
pub fn victims_fall_in_standing_deadlocks()
    ensures { VictimsFallInStandingDeadlocks }
{}
