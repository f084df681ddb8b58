//! Laws of the system of locks and of its steps. Each is proved as the contract of a function that does nothing.
ghost use Rattle.mdl_system.specs.BlockingLaws.{MoreBlocksMore, OnlyGoingFrees, NobodyForgottenUnlessFreed, EventsConcernOneKey, GrantingComesToAnEnd, GrantingThereIsEnough};
ghost use Rattle.mdl_system.specs.BookLaws.{LawfulByLists, GrantableByLists, ChangesByLists};
ghost use Rattle.mdl_system.specs.DeadlockLaws.{EventsMakeDeadlocksByWaiting, RunsMakeDeadlocksByWaiting, SearchesEndDebts};
ghost use Rattle.mdl_system.specs.NumberingLaws.{StepsKeepWellNumbered, EventsChangeHeld, WaitsLeaveHeld};
ghost use Rattle.mdl_system.specs.PermittedEvents.{EventsHappenWherePermitted, PlausibleEventsHappen};
ghost use Rattle.mdl_system.specs.Strength.{CoversByKind};
ghost use Rattle.mdl_system.specs.SystemLaws.{StepsKeepLawful, OthersHoldTheSame, DefinitionsChangeExclusively, DefinitionsStandStill};

/// An event can happen exactly if its conditions on the system are met.
pub fn events_happen_where_permitted<C, D>()
    ensures { EventsHappenWherePermitted C D }
{}

/// For each event whose own tickets and waits are plausible there is a lawful system in which it happens.
pub fn plausible_events_happen<C, D>()
    ensures { PlausibleEventsHappen C D }
{}

/// A lawful system stays lawful after any events: no two sessions have clashing granted tickets of one key. The system in which
/// no session holds or waits is lawful.
pub fn steps_keep_lawful<C, D>()
    ensures { StepsKeepLawful C D }
{}

/// A well-numbered system stays so after any events: tickets can be told apart by session and number, and no session waits
/// twice. The system in which no session holds or waits is well-numbered.
pub fn steps_keep_well_numbered<C, D>()
    ensures { StepsKeepWellNumbered C D }
{}

/// After an event of a well-numbered system, its session holds what `specs/NumberingLaws` says for each kind of event.
pub fn events_change_held<C, D>()
    ensures { EventsChangeHeld C D }
{}

/// In a well-numbered system, granting a waiter, or settling its wait as lost, changes nothing that any session holds.
pub fn waits_leave_held<C, D>()
    ensures { WaitsLeaveHeld C D }
{}

/// An event changes nothing that sessions other than its own hold.
pub fn others_hold_the_same<C, D>()
    ensures { OthersHoldTheSame C D }
{}

/// A definition is changed only by a session that holds its key exclusively.
pub fn definitions_change_exclusively<C, D>()
    ensures { DefinitionsChangeExclusively C D }
{}

/// While a session of a lawful system has a granted ticket of a key, in a mode that its lock uses, no other session changes the
/// key's definition.
pub fn definitions_stand_still<C, D>()
    ensures { DefinitionsStandStill C D }
{}

/// More granted and waiting tickets never make a request grantable.
pub fn more_blocks_more<D>()
    ensures { MoreBlocksMore D }
{}

/// A request becomes grantable only if a ticket is removed, or gets a mode that isn't at least as strong as before.
pub fn only_going_frees<C, D>()
    ensures { OnlyGoingFrees C D }
{}

/// No other event makes a waiter forgotten, unless a wait begins for a grantable request.
pub fn nobody_forgotten_unless_freed<C, D>()
    ensures { NobodyForgottenUnlessFreed C D }
{}

/// An event concerns the waiters of at most one key.
pub fn events_concern_one_key<C, D>()
    ensures { EventsConcernOneKey C D }
{}

/// In any system, waiters of a key can be granted until none of them is forgotten.
pub fn granting_comes_to_an_end<C, D>()
    ensures { GrantingComesToAnEnd C D }
{}

/// If no waiter was forgotten before an event, it is enough to grant waiters of its key until none of them is forgotten. Then no
/// waiter of any key is.
pub fn granting_there_is_enough<C, D>()
    ensures { GrantingThereIsEnough C D }
{}

/// An event of a well-numbered system makes deadlocks only through the session that begins to wait by it, if one does.
pub fn events_make_deadlocks_by_waiting<C, D>()
    ensures { EventsMakeDeadlocksByWaiting C D }
{}

/// A run of events from a well-numbered system makes deadlocks only through sessions that begin to wait in it.
pub fn runs_make_deadlocks_by_waiting<C, D>()
    ensures { RunsMakeDeadlocksByWaiting C D }
{}

/// Once a session is part of no deadlock, it needs no search: all deadlocks go through the other sessions that need one.
pub fn searches_end_debts<D>()
    ensures { SearchesEndDebts D }
{}

/// A system is lawful exactly if the granted list in each lock's book is.
pub fn lawful_by_lists<D>()
    ensures { LawfulByLists D }
{}

/// A request is grantable exactly if it is by the lists in its lock's book.
pub fn grantable_by_lists<D>()
    ensures { GrantableByLists D }
{}

/// A ticket that is added to, removed from or replaced in the granted list of one lock's book is so in the system, too.
pub fn changes_by_lists<D>()
    ensures { ChangesByLists D }
{}

/// For two modes that a lock uses, `covers` is what the matrix of the lock's kind says.
pub fn covers_by_kind()
    ensures { CoversByKind }
{}
