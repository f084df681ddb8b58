//! What the rule of the running table means in the system of locks. Each law is proved as the contract of a function that does nothing.
ghost use Rattle.mdl_steps_laws.specs.TableLaws.{RunningTablesTellASystem, RunningTablesAreLawful, NextNumbersAreNew, OwnTicketsAreHeld, OnePlaceIsOneLock};
ghost use Rattle.mdl_steps_laws.specs.WaitsTold.{RunningTablesTellWaits};

/// Between any two steps of all sessions, the table has a lock for each key (its fast tickets and its book), and these locks make a system.
pub fn running_tables_tell_a_system()
    ensures { RunningTablesTellASystem }
{}

/// Between any two steps there is such a system with the table's waits, each in the state of its session's wait word.
pub fn running_tables_tell_waits()
    ensures { RunningTablesTellWaits }
{}

/// The table's system is lawful, whatever the interleaving: no two sessions hold clashing tickets of one key.
pub fn running_tables_are_lawful()
    ensures { RunningTablesAreLawful }
{}

/// The number of a session's next ticket is one that none of its granted tickets has, whatever their keys.
pub fn next_numbers_are_new()
    ensures { NextNumbersAreNew }
{}

/// A slow ticket in a session's view is in the book, and the session holds it, unless it is the ticket of a wait.
pub fn own_tickets_are_held()
    ensures { OwnTicketsAreHeld }
{}

/// A step that changes one place changes the lock of the place's key, and no other lock.
pub fn one_place_is_one_lock()
    ensures { OnePlaceIsOneLock }
{}
