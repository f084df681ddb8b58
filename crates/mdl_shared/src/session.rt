//! Sessions, which make the calls.
ghost use Rattle.std.specs.Prelude.{◌≡◌, [], None};

use crate::member::Member;
use crate::{Manager, Pass};
use std::marker::Model;

/// A session of a lock space. It can't be dropped: it has to be closed ([`Session::close`]).
///
/// `R` is its way to wait while another session holds a latch that a call needs.
pub struct Session<R> {
    pub(crate) rt: R,
    pub(crate) member: Member,
}

// A session's value is its seat at the table, with what it knows and has there. The session's own lists hold the same (`Member`).
impl<R> Model for Session<R> {
    ghost use Rattle.mdl_shared.specs.Passes.{view_of};
    ghost use Rattle.mdl_shared.specs.SessionViews.{SessionView};

    ghost Value = { SessionView };

    ghost view = { λ s. view_of s.member };
}

impl<R> Session<R> {
    ghost use Rattle.mdl_calls.specs.SessionData.{SpeaksFor};
    ghost use Rattle.mdl_calls.specs.SessionLocks.{HasNothing};
    ghost use Rattle.mdl_shared.specs.Members.{IsMember};
    ghost use Rattle.mdl_shared.specs.Passes.{manager_table, pass_table, pass_view};
    ghost use Rattle.mdl_shared.specs.SessionViews.{data_of};

    /// Opens the session of a pass, which must be a pass of this manager. It pins no place. It takes no memory.
    pub fn open(rt: R, manager: &Manager, pass: Pass) -> Session<R>
        requires theirs { pass_table pass ≡ manager_table manager.now }
        ensures opened { result ≡ pass_view pass }
        ensures nothing { HasNothing (data_of result).own }
        ensures unpinned { result.pins ≡ [] }
        ensures paid { result.me.0.owes ≡ [] }
    {
        let _manager = manager;
        let Pass { member } = pass;
        Session { rt, member }
    }

    /// Returns the session's number, which is that of its pass. As a lock space the session speaks for this number only.
    pub fn number(&self) -> u16
        ensures number { result ≡ self.now.me.0.number }
        ensures speaks { SpeaksFor (data_of self.now) result }
        ensures lawful { IsMember self.now }
    {
        self.member.seat.number()
    }
}
