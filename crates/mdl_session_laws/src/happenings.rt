//! The relation of calls to sessions isn't empty: such calls can happen. Each law is proved as the contract of a function that does nothing.
ghost use Rattle.mdl_session_laws.specs.Happenings.{KeysAreFound, PinsAreGivenUp, LocksAreHad, WaitsAreBegun, WaitsAreLost, StandingsAreRead, StandingsAreChanged, MemoryRunsOut};

/// A key whose place the session doesn't know can get any place of which it knows no key.
pub fn keys_are_found()
    ensures { KeysAreFound }
{}

/// A pin can be given up, if the session has no ticket and no wait at the place.
pub fn pins_are_given_up()
    ensures { PinsAreGivenUp }
{}

/// A lock can be granted, if the session pins the place, has no wait, and requests a mode of the key's kind.
pub fn locks_are_had()
    ensures { LocksAreHad }
{}

/// A wait can begin, if the session pins the place, has no wait, and requests a mode of the key's kind.
pub fn waits_are_begun()
    ensures { WaitsAreBegun }
{}

/// A wait that is settled as a deadlock's victim can be ended.
pub fn waits_are_lost()
    ensures { WaitsAreLost }
{}

/// The version and definition that a session may meet under a ticket can be read.
pub fn standings_are_read()
    ensures { StandingsAreRead }
{}

/// The version and definition that a session may meet under a ticket that it holds in mode X can be changed, if they allow the change.
pub fn standings_are_changed()
    ensures { StandingsAreChanged }
{}

/// A call that takes memory can be refused because memory ran out, and then changes nothing.
pub fn memory_runs_out()
    ensures { MemoryRunsOut }
{}
