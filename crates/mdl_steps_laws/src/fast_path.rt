//! The steps of a lock word's fast path as events of the table's system. Each law is proved as the contract of a function that does
//! nothing.
ghost use Rattle.mdl_steps_laws.specs.FastLaws.{GrantingFastGrants, ReleasingFastReleases, MaterialisingRests, ReadingUnlatchedRests, WaitersHaveNoFastTickets};

/// A fast grant is a grant in the system, even if the session has other tickets of the key.
pub fn granting_fast_grants()
    ensures { GrantingFastGrants }
{}

/// A fast release is a release in the system.
pub fn releasing_fast_releases()
    ensures { ReleasingFastReleases }
{}

/// Materialising a session's fast tickets at a place leaves the system unchanged.
pub fn materialising_rests()
    ensures { MaterialisingRests }
{}

/// Reading a word without the latch, or finding a word that isn't the one that a fast grant expects, leaves the system unchanged.
pub fn reading_unlatched_rests()
    ensures { ReadingUnlatchedRests }
{}

/// A session that has a fast ticket has no wait.
pub fn waiters_have_no_fast_tickets()
    ensures { WaitersHaveNoFastTickets }
{}
