//! Why no statement can be read.
ghost use Rattle.std.specs.Prelude.{◌≡◌};

use mdl_lines::LineError;
use std::alloc::AllocError;

/// Why no statement can be read.
#[derive(Clone, Copy, Debug, PartialEq, Eq)]
pub(crate) enum NoStatement {
    /// A word is wrong or missing.
    Refused(LineError),
    /// Memory ran out.
    Memory,
}

impl From<LineError> for NoStatement {
    ghost use Rattle.mdl_syntax.specs.declared.no_statement.NoStatement.TheVariants.{Refused};

    ghost from_gives = { λ error none. none ≡ Refused error };

    fn from(error: LineError) -> NoStatement {
        NoStatement::Refused(error)
    }
}

impl From<AllocError> for NoStatement {
    ghost use Rattle.mdl_syntax.specs.declared.no_statement.NoStatement.TheVariants.{Memory};

    ghost from_gives = { λ _ none. none ≡ Memory };

    fn from(_: AllocError) -> NoStatement {
        NoStatement::Memory
    }
}
