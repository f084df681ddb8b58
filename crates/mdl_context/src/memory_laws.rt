//! Laws of calls that run out of memory, and what follows from them over the space of one thread. Each is proved as the contract
//! of a function that does nothing.
ghost use Rattle.mdl_context.specs.MemoryLaws.{WishesTellOfWant, UpgradesTellOfWant, WaitsTellOfWant, EndingsTakeNoMemory, ContextsCallForTheirSession, SureWishes, SureUpgrades, SureWaits, SureEndings};

/// A request for a lock that runs out of memory reports that, and nothing else.
pub fn wishes_tell_of_want()
    ensures { WishesTellOfWant }
{}

/// An upgrade that runs out of memory reports that, and nothing else.
pub fn upgrades_tell_of_want()
    ensures { UpgradesTellOfWant }
{}

/// A wait that runs out of memory while it goes on or is given up reports that, and nothing else. To go on takes no memory if
/// the searches for deadlocks are over and the wait isn't for an upgrade.
pub fn waits_tell_of_want()
    ensures { WaitsTellOfWant }
{}

/// Giving up a wait that isn't for an upgrade, releasing tickets, downgrading one, going back, and ending a statement or a
/// transaction take no memory.
pub fn endings_take_no_memory()
    ensures { EndingsTakeNoMemory }
{}

/// All calls of a context are made for its session, and don't read with the session's cache.
pub fn contexts_call_for_their_session()
    ensures { ContextsCallForTheirSession }
{}

/// Over the space of one thread, the result of a request for a lock is the outcome of its definition, unless memory runs out.
pub fn sure_wishes()
    ensures { SureWishes }
{}

/// Over the space of one thread, the result of an upgrade is the outcome of its definition, unless memory runs out.
pub fn sure_upgrades()
    ensures { SureUpgrades }
{}

/// Over the space of one thread, the result of a wait that goes on or is given up is the outcome of its definition, unless
/// memory runs out.
pub fn sure_waits()
    ensures { SureWaits }
{}

/// Over the space of one thread, the result is always the outcome of the definition for giving up a wait that isn't for an
/// upgrade, for releases, downgrades, going back, and the ends of statements and transactions.
pub fn sure_endings()
    ensures { SureEndings }
{}
