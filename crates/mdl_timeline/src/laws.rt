//! Laws of timelines. Each is proved as the contract of a function that does nothing.
ghost use Rattle.mdl_timeline.specs.TimelineLaws.{ArrowsAreWaits, EventsAreAnswers, HeldLocksAreGranted};

/// The events at the lines of a script show its answers, each once and in their order.
pub fn events_are_answers()
    ensures { EventsAreAnswers }
{}

/// The arrows of a wait lead to exactly the sessions that its session waits for right after the turn in which the wait begins. Other events have none.
pub fn arrows_are_waits()
    ensures { ArrowsAreWaits }
{}

/// What an event shows as held are exactly the granted tickets right after its turn.
pub fn held_locks_are_granted()
    ensures { HeldLocksAreGranted }
{}
