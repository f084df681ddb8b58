//! What an operator can do about a session.
ghost use Rattle.std.specs.Prelude.{◌≡◌};
ghost use Rattle.mdl_view.specs.Acts.{ends, is_taken, target_of};

use crate::ticket::Ticket;

/// An act of an operator about one session.
#[derive(Clone, Copy, Debug, PartialEq, Eq)]
pub enum Act {
    /// `KILL`: the session ends, and all its tickets go.
    Kill(usize),
    /// `KILL QUERY`: its statement ends, and the tickets of the statement go.
    KillQuery(usize),
}

impl Act {
    /// Returns the session that the act is about.
    pub fn target(self) -> usize
        ensures { result ≡ target_of self }
    {
        match self {
            Act::Kill(session) | Act::KillQuery(session) => session,
        }
    }

    /// Whether the act ends this session.
    pub fn ends(self, session: usize) -> bool
        ensures { result ≡ ends self session }
    {
        match self {
            Act::Kill(target) => session == target,
            Act::KillQuery(_) => false,
        }
    }

    /// Whether a ticket goes by the act.
    pub fn takes(self, ticket: Ticket) -> bool
        ensures { result ≡ is_taken self ticket }
    {
        match self {
            Act::Kill(target) => ticket.session == target,
            Act::KillQuery(target) => ticket.session == target && ticket.of_statement,
        }
    }
}
