//! Laws of wishes (requests for locks), upgrades and waits, whatever the lock space answers. Each is proved as the contract of a
//! function that does nothing.
ghost use Rattle.mdl_context.specs.Outcomes.{UpgradesAreMet, WaitsAreMet};
ghost use Rattle.mdl_context.specs.WishLaws.{WishesAreMet, ExplicitWishesGain, TicketsAreUsedAgain};

/// A request for a lock results in a ticket at the key's place that is strong enough and has the requested duration, or in a wait for
/// such a ticket, or it leaves the kept tickets and the wait unchanged.
pub fn wishes_are_met()
    ensures { WishesAreMet }
{}

/// A request with explicit duration that gets a ticket gets a new one of its own.
pub fn explicit_wishes_gain()
    ensures { ExplicitWishesGain }
{}

/// If tickets of the key can be used again, the earliest of them is, before any is cloned. No call of the space is made, and nothing
/// changes.
pub fn tickets_are_used_again()
    ensures { TicketsAreUsedAgain }
{}

/// An upgrade gives the ticket a mode that is strong enough and leaves its number and duration, or it begins a wait for that, or it
/// changes nothing. All other tickets are unchanged.
pub fn upgrades_are_met()
    ensures { UpgradesAreMet }
{}

/// A wait that is lost leaves all tickets and their durations unchanged, and so does a wait that isn't settled or that fails. A lost
/// upgrade has changed no ticket at all, since an upgrade changes none before it is granted.
pub fn waits_are_met()
    ensures { WaitsAreMet }
{}
