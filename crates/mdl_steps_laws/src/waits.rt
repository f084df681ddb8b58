//! The steps on wait words as events of the table's system. Each law is proved as the contract of a function that does
//! nothing.
ghost use Rattle.mdl_steps_laws.specs.WaitLaws.{OpeningBegins, SettlingLoses, GrantingGrantsWaiters, NextMayBeGranted, EndingHolds, EndingLeaves, MeetingRests};

/// When a session opens a wait under a latch, the wait begins in the system. What the session wrote into the book in hand before is no step.
pub fn opening_begins()
    ensures { OpeningBegins }
{}

/// When any session settles a wait as lost, the wait is lost in the system, and its ticket stays among the waiting ones.
pub fn settling_loses()
    ensures { SettlingLoses }
{}

/// When the holder of a latch grants a wait there, whose request is compatible and behind no other session's waiting ticket, the waiter is
/// granted in the system.
pub fn granting_grants_waiters()
    ensures { GrantingGrantsWaiters }
{}

/// The ticket that a search for the next grantable one finds meets the conditions for that grant.
pub fn next_may_be_granted()
    ensures { NextMayBeGranted }
{}

/// When a session ends a wait that was granted, it holds the ticket in the system from then on.
pub fn ending_holds()
    ensures { EndingHolds }
{}

/// When a session ends a wait that was lost, under the latch of its place, its ticket, which was waiting until then, is removed.
pub fn ending_leaves()
    ensures { EndingLeaves }
{}

/// Reading a wait word, or finding one that isn't the word to be settled, leaves the system unchanged.
pub fn meeting_rests()
    ensures { MeetingRests }
{}
