//! A wait, as a session's seat keeps it.
use mdl_calls::{Place, Settled, TicketId};
use mdl_key::Mode;

/// A wait that isn't ended, with the number of the ticket that waits.
#[derive(Clone, Copy)]
pub struct Pending {
    /// The number of the wait.
    pub number: u64,
    /// The number of the ticket that waits.
    pub id: TicketId,
    /// The place that the session waits at.
    pub place: Place,
    /// The mode that the session waits for.
    pub mode: Mode,
    /// How the wait is settled, if it is.
    pub settled: Option<Settled>,
}
