//! The law of the order in which locks are requested. It is proved as the contract of a function that does nothing.
ghost use Rattle.mdl_script_laws.specs.KeysInOrder.{KeysStandInOrder};

/// Keys in key order, as DDL and LOCK TABLES lock them, are the same keys, each once, and each before all that follow it.
pub fn keys_stand_in_order()
    ensures { KeysStandInOrder }
{}
