//! Laws of the answers that `mdl_view_text` prints as JSON: each is a JSON text, and a reader gets of it the rows that were printed. Each is
//! proved as the contract of a function that does nothing.
#![tactic(auto)]

ghost use Rattle.mdl_view_text_laws.specs.JsonLaws.{LocksAreJson, WaitsAreJson, WaysAreJson};

/// What `locks_json` prints is a JSON text, whose value has an object for each lock, with an object for each ticket.
pub fn locks_are_json()
    ensures { LocksAreJson }
{}

/// What `waits_json` prints is a JSON text, whose value has an object for each waiter with each session that blocks it.
pub fn waits_are_json()
    ensures { WaitsAreJson }
{}

/// What `why_json` prints is a JSON text, whose value has an object for each way, and for each wait that several acts are needed for.
pub fn ways_are_json()
    ensures { WaysAreJson }
{}
