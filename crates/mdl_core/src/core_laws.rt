//! Laws of the lock space of one thread: its calls are events of the system of locks. Each is proved as the contract of a
//! function that does nothing.
ghost use Rattle.mdl_core.specs.CoreLaws.{CallsAreEvents, CallsKeepSound, GrantsWhatIsGrantable, UpgradesWhatIsGrantable, CallsLeadByEvents};
ghost use Rattle.mdl_core.specs.Determined.{AnswersAreDetermined, PlacesInUseKeepTheirKeys, PlacesPinsAndNumbersFollow};
ghost use Rattle.mdl_core.specs.SearchLaws.{SearchesFindDeadlocks, SearchesSuffice, SearchesLeaveNoDeadlock, OnlyNewWaitsMakeDeadlocks, SearchingEndsDeadlocks, WaitingLeavesNoDeadlock};

/// A call changes nothing in the system of locks, or it is an event there. After the event waiters of its key are granted, each
/// time the first that can be granted.
pub fn calls_are_events()
    ensures { CallsAreEvents }
{}

/// After each call the books and the seats agree, each key's version and definition are valid for it, no two sessions hold
/// clashing tickets of one key, and no waiter is forgotten.
pub fn calls_keep_sound()
    ensures { CallsKeepSound }
{}

/// Each answer, except that memory ran out, is the one that the system of locks determines, with the places of its keys, and the
/// pins and the last numbers of sessions.
pub fn answers_are_determined()
    ensures { AnswersAreDetermined }
{}

/// The places of the keys, and the pins and the last numbers of sessions after a call follow from those before it, the call and its
/// answer.
pub fn places_pins_and_numbers_follow()
    ensures { PlacesPinsAndNumbersFollow }
{}

/// No call takes its key from a place that a session pins, nor from one whose version isn't 0.
pub fn places_in_use_keep_their_keys()
    ensures { PlacesInUseKeepTheirKeys }
{}

/// A lock is granted at once exactly if the request for it is grantable.
pub fn grants_what_is_grantable()
    ensures { GrantsWhatIsGrantable }
{}

/// A held ticket gets another mode at once exactly if it is as strong already or the request for the mode is grantable.
pub fn upgrades_what_is_grantable()
    ensures { UpgradesWhatIsGrantable }
{}

/// Whatever calls are made on an empty space, events lead from the empty system to the system that it is in the end. That system
/// is lawful, and no waiter is forgotten in it.
pub fn calls_lead_by_events()
    ensures { CallsLeadByEvents }
{}

/// A search finds no cycle exactly if the session is part of no deadlock. Otherwise it returns the victim of the chosen one.
pub fn searches_find_deadlocks()
    ensures { SearchesFindDeadlocks }
{}

/// For a session in a space of at most 1,024 sessions, 1,024 searches are enough.
pub fn searches_suffice()
    ensures { SearchesSuffice }
{}

/// Once a session's searches are over, and none of them was refused, the session is part of no deadlock.
pub fn searches_leave_no_deadlock()
    ensures { SearchesLeaveNoDeadlock }
{}

/// A call makes a deadlock only by a wait that it begins, and the waiting session is then part of the deadlock.
pub fn only_new_waits_make_deadlocks()
    ensures { OnlyNewWaitsMakeDeadlocks }
{}

/// If all deadlocks go through some set of sessions, then once a session's searches are over all go through the others of the set.
pub fn searching_ends_deadlocks()
    ensures { SearchingEndsDeadlocks }
{}

/// If there was no deadlock, there is none after a session began to wait and its searches are over.
pub fn waiting_leaves_no_deadlock()
    ensures { WaitingLeavesNoDeadlock }
{}
