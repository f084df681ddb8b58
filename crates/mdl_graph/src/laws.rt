//! Laws of deadlocks. Each is proved as the contract of a function that does nothing.
ghost use Rattle.mdl_graph.specs.GraphLaws.{WaitingIsBeingBlocked, CyclesAreRounds, DeadlocksAreChosenCycles, MembersOfCyclesWait, FewerSettledKeepCycles, MembersOfDeadlocksWait, ShorterCyclesComeFirst, VictimsWeighLeast, GraphsBeginEmpty, GraphsFindDeadlocks, GraphsSettleLater};

/// One session waits for another exactly if it is unsettled and the other blocks its request: by a granted ticket, or, if the
/// other is unsettled, too, by a waiting one.
pub fn waiting_is_being_blocked()
    ensures { WaitingIsBeingBlocked }
{}

/// A cycle through a session begins with it and has no session twice. Each waits for the next one, and the last for the first.
pub fn cycles_are_rounds()
    ensures { CyclesAreRounds }
{}

/// Of two cycles the shorter one is chosen, and of two of equal length the one with the lower number at the first position
/// where they differ.
pub fn shorter_cycles_come_first()
    ensures { ShorterCyclesComeFirst }
{}

/// A deadlock that is found is the cycle chosen before all others, of at least two sessions. If none is found, there is no cycle.
pub fn deadlocks_are_chosen_cycles()
    ensures { DeadlocksAreChosenCycles }
{}

/// Each member of a cycle is unsettled, and one of its tickets waits at one of the locks.
pub fn members_of_cycles_wait()
    ensures { MembersOfCyclesWait }
{}

/// A cycle stays one if fewer sessions are settled, all of which were settled before.
pub fn fewer_settled_keep_cycles()
    ensures { FewerSettledKeepCycles }
{}

/// Each member of a deadlock is unsettled and waits at one of the locks, with a ticket of its weight.
pub fn members_of_deadlocks_wait()
    ensures { MembersOfDeadlocksWait }
{}

/// The victim is the member that weighs least, and of equal weights the one of the greatest number.
pub fn victims_weigh_least()
    ensures { VictimsWeighLeast }
{}

/// The empty graph is the graph of no locks.
pub fn graphs_begin_empty()
    ensures { GraphsBeginEmpty }
{}

/// The graph of some locks finds their deadlocks.
pub fn graphs_find_deadlocks()
    ensures { GraphsFindDeadlocks }
{}

/// The graph of some locks, built with nobody settled, finds the deadlocks among the sessions that aren't settled.
pub fn graphs_settle_later()
    ensures { GraphsSettleLater }
{}
