//! The right to a session.
ghost use Rattle.std.specs.Prelude.{◌≡◌, [], None, length};

use crate::member::Member;

/// The right to a session that isn't open. There is one for each session of a space.
#[derive(Drop)]
pub struct Pass {
    pub(crate) member: Member,
    ghost empty: { (length member.tickets.slow ≡ 0) × (length member.tickets.fast ≡ 0) },
    ghost unwaited: { member.asks ≡ None },
    ghost paid: { member.seat.me.0.owes ≡ [] },
    ghost unpinned: { member.known.pins ≡ [] },
}

impl Pass {
    ghost use Rattle.mdl_shared.specs.Passes.{pass_number};

    /// Returns the session's number.
    pub fn number(&self) -> u16
        ensures { result ≡ pass_number self.now }
    {
        self.member.seat.number()
    }
}
