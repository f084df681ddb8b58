//! What the steps of a request for a lock (a wish) show, and the steps that grant waits. Each law is proved as the contract of a function
//! that does nothing.
ghost use Rattle.mdl_visits.specs.Grantings.{GrantedWaitsWereGrantable, WaitsLeftWerentGrantable};
ghost use Rattle.mdl_visits.specs.Visits.{BlockedWishesWerentGrantable, GrantedWishesWereGrantable};

/// A request that was blocked wasn't grantable at the step that showed it, whichever fast tickets of other sessions the lock's word
/// counted then.
pub fn blocked_wishes_werent_grantable()
    ensures { BlockedWishesWerentGrantable }
{}

/// A request that was granted was grantable at the step that granted it, whichever fast tickets there were then.
pub fn granted_wishes_were_grantable()
    ensures { GrantedWishesWereGrantable }
{}

/// A wait that was granted was grantable at the step that granted it, whichever fast tickets there were then.
pub fn granted_waits_were_grantable()
    ensures { GrantedWaitsWereGrantable }
{}

/// A wait that was passed over when others were granted wasn't grantable, whichever fast tickets of other sessions the lock's word
/// counted, or was settled before.
pub fn waits_left_werent_grantable()
    ensures { WaitsLeftWerentGrantable }
{}
