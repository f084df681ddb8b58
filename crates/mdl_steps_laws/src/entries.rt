//! What the entries in a session's list of steps tell of the table's system. The law is proved as the contract of a function that does nothing.
ghost use Rattle.mdl_steps_laws.specs.Entries.{EachEntryTellsItsEvent, EachTurnAddsOneEntry, EntriesAreSteps};

/// The entry that a session's list gains by a step tells the event of the step by its kind: a latch given back and flags lowered the event of
/// the deeds; a fast ticket granted or released, a wait opened, granted, lost or ended, and a version written theirs. By an entry of any other
/// kind nothing happens. Each step adds one entry, and the entries that a call adds are its steps, in order.
pub fn each_entry_tells_its_event()
    ensures told { EachEntryTellsItsEvent }
    ensures one { EachTurnAddsOneEntry }
    ensures steps { EntriesAreSteps }
{}
