//! Why reading a row fails.
ghost use Rattle.std.specs.Prelude.{◌≡◌};

use crate::row_error::RowError;
use std::alloc::AllocError;

/// Why reading a row fails.
#[derive(Clone, Copy, Debug, PartialEq, Eq)]
pub(crate) enum NoRow {
    /// The row is refused.
    Refused(RowError),
    /// Memory ran out.
    Memory,
}

impl From<RowError> for NoRow {
    ghost use Rattle.mdl_lock_rows.specs.declared.no_row.NoRow.TheVariants.{Refused};

    ghost from_gives = { λ error none. none ≡ Refused error };

    fn from(error: RowError) -> NoRow {
        NoRow::Refused(error)
    }
}

impl From<AllocError> for NoRow {
    ghost use Rattle.mdl_lock_rows.specs.declared.no_row.NoRow.TheVariants.{Memory};

    ghost from_gives = { λ _ none. none ≡ Memory };

    fn from(_: AllocError) -> NoRow {
        NoRow::Memory
    }
}
