//! Questions about a table of locks.

/// The form of an answer.
#[derive(Clone, Copy, Debug, PartialEq, Eq)]
pub enum Form {
    /// Lines for people.
    Text,
    /// An object of JSON for other programs.
    Json,
}

/// A question about a table of locks.
#[derive(Clone, Copy, Debug, PartialEq, Eq)]
pub enum Question {
    /// How many requests wait, whom to end so that they go on, and which of them the locks don't explain.
    Why(Form),
    /// Which tickets there are.
    Locks(Form),
    /// Who blocks whom.
    Waits(Form),
    /// Who blocks whom, as a graph.
    Graph,
}
