//! How a session's wait is settled. Each law is proved as the contract of a function that does nothing.
ghost use Rattle.mdl_session_laws.specs.SpaceLaws.{SettledWaitsStay, SettledWaitsAreToldSo};

/// A settled wait stays settled in the same way, until its session ends it.
pub fn settled_waits_stay()
    ensures { SettledWaitsStay }
{}

/// Once a session knows how its wait is settled, each call about its wait answers accordingly.
pub fn settled_waits_are_told_so()
    ensures { SettledWaitsAreToldSo }
{}
