//! What tables keep that are reached by whole changes, and what steps keep of waiters. Each law is proved as the contract of a function that does
//! nothing.
ghost use Rattle.mdl_steps_laws.specs.Cares.{NoDeadlockIsUnseen, NoDeadlockOnceAllHaveSearched, NobodyIsForgotten, NobodyIsForgottenAtRest, ReachedTablesAreWellNumbered, StepsThatFreeNothingForgetNobody, WhoSeesNoDeadlockIsInNone};
ghost use Rattle.mdl_steps_laws.specs.Waits.{MetWaitsStay};

/// The table's system is well-numbered: tickets are told apart by their sessions and numbers, and a session has one wait at most.
pub fn reached_tables_are_well_numbered()
    ensures { ReachedTablesAreWellNumbered }
{}

/// Each deadlock goes through a session that has yet to search. It has to from the beginning of its wait on, until it sees that it is in no deadlock, or
/// its wait is settled.
pub fn no_deadlock_is_unseen()
    ensures { NoDeadlockIsUnseen }
{}

/// So if no session whose wait is unsettled has yet to search, there is no deadlock.
pub fn no_deadlock_once_all_have_searched()
    ensures { NoDeadlockOnceAllHaveSearched }
{}

/// A session that sees no deadlock, under the latches of all places that have a key, is in none.
pub fn who_sees_no_deadlock_is_in_none()
    ensures { WhoSeesNoDeadlockIsInNone }
{}

/// Where nobody owes a place a reschedule, and nothing was freed under its latch, no waiter there could be granted. So if all latches are free,
/// and nobody owes any place a reschedule, no waiter is forgotten at any key. A session owes a place a reschedule from a fast release there
/// that found the flag SLOW up until it gives the place's latch back after it looked the waiters through.
pub fn nobody_is_forgotten()
    ensures forgotten { NobodyIsForgotten }
    ensures rest { NobodyIsForgottenAtRest }
{}

/// What a session met of a wait, while its ticket waited by the record of a latch, stays so as long as the ticket is asked for: the wait's number, and that
/// it isn't unsettled.
pub fn met_waits_stay()
    ensures { MetWaitsStay }
{}

/// By a step that removes no ticket, weakens none, and opens no wait, no waiter becomes forgotten.
pub fn steps_that_free_nothing_forget_nobody()
    ensures { StepsThatFreeNothingForgetNobody }
{}
