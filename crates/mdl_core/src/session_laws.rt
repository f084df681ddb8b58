//! Laws of what a session has in the space of one thread, and of what its calls return. Each is proved as the contract of a
//! function that does nothing.
ghost use Rattle.mdl_core.specs.SessionLaws.{SessionsHaveWhatTheSystemSays, KillsJustThatWait, ReadsTellWhatStands, ChangesTellTheVersion, RefusesForCause};
ghost use Rattle.mdl_core.specs.RefusalLaws.{RefusesWishesInOrder, RefusesUnpinsInOrder, RefusesClonesInOrder, RefusesNewModesInOrder, RefusesMergesInOrder, RefusesChangesInOrder};

/// A session's held tickets and the state of its wait are those that it has in the system of locks. A number that is no session's
/// has nothing there.
pub fn sessions_have_what_the_system_says()
    ensures { SessionsHaveWhatTheSystemSays }
{}

/// A kill returns that it killed exactly if the session's wait has the number and is unsettled, which is then so in the system of
/// locks, too. Otherwise it changes nothing. The number that is returned for a session's wait is the wait's.
pub fn kills_just_that_wait()
    ensures { KillsJustThatWait }
{}

/// A read under a ticket returns the version and the definition that its key has in the system of locks. Reading changes nothing,
/// even if it is refused.
pub fn reads_tell_what_stands()
    ensures { ReadsTellWhatStands }
{}

/// A change of a definition is made under a ticket that is held in mode X, and returns the version that its key then has in the
/// system of locks. A refused change changes nothing.
pub fn changes_tell_the_version()
    ensures { ChangesTellTheVersion }
{}

/// A call is refused with `NoPlace` only if the session doesn't pin its place, or the place has no key, or every place has another key
/// and is in use, and with `InUse` only if the session has a ticket or a wait at the place. It is refused because no version, no room in the
/// lock or no number is left only if that limit is reached.
pub fn refuses_for_cause()
    ensures { RefusesForCause }
{}

/// A request for a lock is refused first if the session doesn't pin its place, then if the session waits, then if the mode isn't one
/// of the place's kind, and then if the session has used up its numbers, even if the lock is full.
pub fn refuses_wishes_in_order()
    ensures { RefusesWishesInOrder }
{}

/// An unpin is refused first if the session doesn't pin the place, and then if it has a ticket or a wait there. Otherwise it is made,
/// and changes only the session's pins.
pub fn refuses_unpins_in_order()
    ensures { RefusesUnpinsInOrder }
{}

/// A clone is refused first if the ticket isn't held, then if the session waits, then if the ticket can't be cloned in the mode,
/// then if the session has used up its numbers, and last if the lock is full.
pub fn refuses_clones_in_order()
    ensures { RefusesClonesInOrder }
{}

/// An upgrade or a downgrade is refused first if the ticket isn't held, and then if it may not get the mode. An upgrade is then
/// refused if the session waits.
pub fn refuses_new_modes_in_order()
    ensures { RefusesNewModesInOrder }
{}

/// A merge is refused first if one of the two tickets isn't held, then if the session waits, and last if the tickets may not be
/// merged.
pub fn refuses_merges_in_order()
    ensures { RefusesMergesInOrder }
{}

/// A change of a definition is refused first if the ticket isn't held, then if it isn't held in mode X, then if no version is left,
/// then if the key can't have such a definition, and last because of the definition that the key has.
pub fn refuses_changes_in_order()
    ensures { RefusesChangesInOrder }
{}
