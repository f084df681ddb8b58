//! Laws of scripts and deadlocks. Each is proved as the contract of a function that does nothing.
ghost use Rattle.mdl_script_laws.specs.NoDeadlocks.{NoDeadlockStands};

/// After each line of a script and the turns that follow it, there is no deadlock: a session whose wait closes one searches for it as
/// the wait begins, and a victim loses its wait.
pub fn no_deadlock_stands()
    ensures { NoDeadlockStands }
{}
