//! What a session does to its own tickets under a latch.
use mdl_key::Mode;

/// A change of the tickets that a session has at a place. A grant, a clone, an upgrade, a merge, a downgrade and a release are
/// each one or two deeds.
#[derive(Clone, Copy, Debug, PartialEq, Eq)]
pub enum Deed {
    /// The session gains a ticket with this number, in this mode.
    Gain(u64, Mode),
    /// The session's ticket with this number changes to this mode.
    Alter(u64, Mode),
    /// The session loses its ticket with this number.
    Lose(u64),
}
