//! The marks of a session's work, as C keeps them.
ghost use Rattle.std.specs.Prelude.{◌≡◌};
ghost use Rattle.mdl_c_calls.specs.ContextCodes.{mark_in_c, mark_in_context};

/// A point in a session's work: `struct gaz_mark` of `gaz_codes.h`.
#[derive(Clone, Copy)]
#[repr(C)]
pub struct Mark {
    /// The number of kept tickets of the statement.
    pub statement: usize,
    /// The number of kept tickets of the transaction.
    pub transaction: usize,
}

impl Mark {
    /// Converts a context's mark.
    pub(crate) fn of(mark: mdl_context::Mark) -> Mark
        ensures { result ≡ mark_in_c mark }
    {
        Mark {
            statement: mark.statement,
            transaction: mark.transaction,
        }
    }

    /// Returns the mark in the form that a context takes.
    pub(crate) fn in_context(self) -> mdl_context::Mark
        ensures { result ≡ mark_in_context self }
    {
        mdl_context::Mark {
            statement: self.statement,
            transaction: self.transaction,
        }
    }
}
