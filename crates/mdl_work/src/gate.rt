//! Calls before and after each statement of a session.

/// Is called before and after each statement of a session.
pub trait Gate {
    /// Is called when the statement of this line is about to start.
    fn before(&self, session: u16, line: u64);

    /// Is called when the statement of this line is over: it was answered, or memory ran out.
    fn after(&self, session: u16, line: u64);
}

/// A gate that does nothing.
#[derive(Clone, Copy, Debug, PartialEq, Eq)]
pub struct OpenGate;

impl Gate for OpenGate {
    fn before(&self, _session: u16, _line: u64) {}

    fn after(&self, _session: u16, _line: u64) {}
}
