//! What a line of a lock script asks for.
use mdl_key::Mode;

/// What a session asks of the lock.
#[derive(Clone, Copy)]
pub enum Action {
    /// To be granted this mode, or to wait for it.
    Ask(Mode),
    /// To release what it holds.
    Release,
    /// To stop waiting.
    Timeout,
}

/// A line of a script: a session and its action.
#[derive(Clone, Copy)]
pub struct ScriptCommand {
    /// The session, from 1 to [`MOST_SESSIONS`](mdl_key::MOST_SESSIONS).
    pub session: u16,
    /// What the session asks for.
    pub action: Action,
}
