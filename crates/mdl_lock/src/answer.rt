//! The answers of the lock.
ghost use Rattle.std.specs.Prelude.{Some};
ghost use Rattle.mdl_lock.specs.Answering.{answer_text};

use mdl_key::Mode;
use std::fmt;

/// One line of the answers.
#[derive(Clone, Copy)]
pub enum Answer {
    /// The session holds the lock in this mode now.
    Granted(u16, Mode),
    /// The session waits for this mode.
    Waits(u16, Mode),
    /// The session released this mode.
    Released(u16, Mode),
    /// The session stopped waiting for this mode.
    TimedOut(u16, Mode),
    /// The session asked for a second ticket, or tried to release a ticket or to end a wait that it doesn't have.
    Refused(u16),
}

/// As `3 GRANTED SR` or `3 REFUSED`.
impl fmt::Display for Answer {
    ghost output = { λ answer. Some (answer_text answer) };

    fn fmt<W: fmt::Write>(&self, f: &mut fmt::Formatter<W>) -> fmt::Result {
        match *self {
            Answer::Granted(session, mode) => write!(f, "{session} GRANTED {mode}"),
            Answer::Waits(session, mode) => write!(f, "{session} WAITS {mode}"),
            Answer::Released(session, mode) => write!(f, "{session} RELEASED {mode}"),
            Answer::TimedOut(session, mode) => write!(f, "{session} TIMEDOUT {mode}"),
            Answer::Refused(session) => write!(f, "{session} REFUSED"),
        }
    }
}
