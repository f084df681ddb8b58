//! The headline: the main result as one law, proved as the contract of a function that does nothing.
ghost use Rattle.mdl_steps_laws.specs.Headline.{FreeLocksAreInOrder, ReadsStand, NotesStay, ReadingsNote, VersionsNote, HitsNote, DefinitionsStay};

/// Whenever a lock's latch is free, its word counts exactly the fast tickets held, its two flags show whether its lists hold an obtrusive
/// ticket or any ticket, and granted tickets of different sessions are compatible by the matrix. Every atomic step in every interleaving
/// keeps this. So the definition that a session reads under a ticket stays the same until the session loses the ticket or changes the
/// definition itself.
pub fn definitions_stay()
    ensures free { FreeLocksAreInOrder }
    ensures noted { ReadingsNote }
    ensures versions { VersionsNote }
    ensures hits { HitsNote }
    ensures kept { NotesStay }
    ensures stands { ReadsStand }
    ensures until { DefinitionsStay }
{}
