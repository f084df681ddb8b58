//! Tickets.
ghost use Rattle.std.specs.Prelude.{◌≡◌};

use mdl_key::Mode;

/// A ticket in the book of a lock: its session holds the lock, or waits for it.
///
/// After MySQL 5.7, `MDL_ticket` of `sql/mdl.h`.
#[derive(Clone, Copy, Debug, PartialEq, Eq)]
pub struct Ticket {
    /// The number that the session gave this ticket.
    pub number: u64,
    /// The session, numbered from 1.
    pub session: u16,
    /// The mode that is held or requested.
    pub mode: Mode,
}

/// The value of an unused slot of a list: a ticket of no session.
impl Default for Ticket {
    ghost is_default = { λ ticket. ticket.session ≡ 0 };

    fn default() -> Ticket {
        Ticket {
            number: 0,
            session: 0,
            mode: Mode::IX,
        }
    }
}
