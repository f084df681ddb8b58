//! Laws of changes. Each is proved as the contract of a function that does nothing.
ghost use Rattle.mdl_defs.specs.Laws.{ChangesKeepWellFormed, ChangesKeepStanding};

/// If there is no definition, a schema, or a table of 1 to [`MOST_COLUMNS`](crate::MOST_COLUMNS) columns, no two of one name, the same is true after any
/// change that isn't refused.
pub fn changes_keep_well_formed()
    ensures { ChangesKeepWellFormed }
{}

/// If a key's definition is of the key's kind and well formed, its version is within the limit, and version 0 has no
/// definition, the same is true after any change that isn't refused.
pub fn changes_keep_standing()
    ensures { ChangesKeepStanding }
{}
