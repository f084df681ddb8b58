//! What a session reads under its tickets. Each law is proved as the contract of a function that does nothing.
ghost use Rattle.mdl_session_laws.specs.SpaceLaws.{WhatIsReadStands, ChangesAreOfWhatWasRead, WhatIsReadMayStand};

/// The version and definition that a session has read stay true as long as it holds a ticket of the place, unless it changes them itself.
pub fn what_is_read_stands()
    ensures { WhatIsReadStands }
{}

/// If a session has read a place's definition, a change under a ticket in mode X is applied to that, or is refused because of that or for
/// lack of memory.
pub fn changes_are_of_what_was_read()
    ensures { ChangesAreOfWhatWasRead }
{}

/// The version and definition that a session has read are valid for the place's key, and it has seen no later version there.
pub fn what_is_read_may_stand()
    ensures { WhatIsReadMayStand }
{}
