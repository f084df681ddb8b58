//! Laws of the matrices and of strength. Each is proved as the contract of a function that does nothing.
ghost use Rattle.mdl_key.specs.Laws.{ClashingIsSymmetric, WaitsOnlyWhereItClashes, StrengthIsAPreorder};

/// If a request for one mode clashes with a lock in another, a request for the other clashes with a lock in the first.
pub fn clashing_is_symmetric()
    ensures { ClashingIsSymmetric }
{}

/// A request waits behind another only if it clashes with the other's mode.
pub fn waits_only_where_it_clashes()
    ensures { WaitsOnlyWhereItClashes }
{}

/// Each mode is at least as strong as itself. If a is at least as strong as b, and b as c, a is at least as strong as c.
pub fn strength_is_a_preorder()
    ensures { StrengthIsAPreorder }
{}
