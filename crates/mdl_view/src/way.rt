//! Ways out of a jam.
use crate::act::Act;

/// An act, and what follows from it.
#[derive(Clone, Copy, Debug, PartialEq, Eq)]
pub struct Way {
    /// The act.
    pub act: Act,
    /// How many waits are granted at once.
    pub at_once: usize,
    /// How many waits end in turn, those granted at once included.
    pub in_turn: usize,
}
