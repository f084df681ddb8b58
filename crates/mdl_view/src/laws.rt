//! Laws of what this crate returns. Each is proved as the contract of a function that does nothing.
ghost use Rattle.mdl_view.specs.ViewLaws.{BlockingsAreWaits, GrantedAreFreed, NobodyIsForgotten, WaitingBehindIsClashing};

/// Of the locks of books, [`blockings`](crate::blockings) returns that one session blocks another exactly if the other waits for it.
pub fn blockings_are_waits()
    ensures { BlockingsAreWaits }
{}

/// A request that waits behind another one clashes with it, too, whatever the kind of the lock.
pub fn waiting_behind_is_clashing()
    ensures { WaitingBehindIsClashing }
{}

/// After the waits that are granted at once, none is left that can be granted.
pub fn nobody_is_forgotten()
    ensures { NobodyIsForgotten }
{}

/// Each wait that is granted at once after an act was blocked by tickets alone that the act takes.
pub fn granted_are_freed()
    ensures { GrantedAreFreed }
{}
