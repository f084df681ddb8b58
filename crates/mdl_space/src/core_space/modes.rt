//! Changing the modes of held tickets.
ghost use Rattle.std.specs.Prelude.{◌≡◌, ◌≢◌, None, Some, IsSome, IsTrue, OnOk, MatchResult, true, false};
ghost use Rattle.mdl_book.specs.Books.{lock_kind};
ghost use Rattle.mdl_book.specs.Granting.{is_compatible};
ghost use Rattle.mdl_book.specs.Tickets.{ticket_of};
ghost use Rattle.mdl_calls.specs.Words.{are_rising, done, upgrade_tried};
ghost use Rattle.mdl_core.specs.CoreCalls.{is_lower};
ghost use Rattle.mdl_core.specs.Cores.{is_free_for};
ghost use Rattle.mdl_core.specs.Words.{Makes, SpeaksFor, altering, book_at, downgrade_outcome, first_cause, folding, has_key, has_session, merge_causes, merge_outcome, seat_at, serving, upgrade_causes, upgrade_now_outcome};

use crate::core_space::CoreSpace;
use crate::granting::{NO_FAST, fold, is_free};
use crate::{Held, SpaceError, TicketId, Upgrade};
use mdl_key::Mode;
use mdl_system::{covers, may_downgrade, may_upgrade};

impl CoreSpace {
    /// Gives a held ticket a stronger mode, if that can be granted now. It takes no memory.
    pub(crate) fn upgrade_now(
        &mut self,
        who: u16,
        id: TicketId,
        mode: Mode,
    ) -> Result<Upgrade, SpaceError>
        requires { SpeaksFor self.old who }
        ensures { Makes false (upgrade_now_outcome who id mode) self.old (upgrade_tried result) self.new }
    {
        let Some(ticket) = self.seats[usize::from(who) - 1].ticket(id) else {
            return Err(SpaceError::NotHeld);
        };
        self.check_upgrade(who, ticket, mode)?;
        if covers(ticket.mode, mode) || self.alter_if_free(who, ticket, mode) {
            return Ok(Upgrade::Upgraded);
        }
        Ok(Upgrade::WouldWait)
    }

    /// Gives a held ticket the mode of another one, which is released. It takes no memory.
    pub(crate) fn merge(&mut self, who: u16, old: TicketId, new: TicketId) -> Result<(), SpaceError>
        requires { SpeaksFor self.old who }
        ensures { Makes false (merge_outcome who old new) self.old (done result) self.new }
    {
        let seat = &self.seats[usize::from(who) - 1];
        let Some(kept) = seat.ticket(old) else {
            return Err(SpaceError::NotHeld);
        };
        let Some(gone) = seat.ticket(new) else {
            return Err(SpaceError::NotHeld);
        };
        self.check_merge(who, kept, gone)?;
        self.fold(who, kept, gone);
        Ok(())
    }

    /// Gives a held ticket a weaker mode, and then grants waiters of its place.
    pub(crate) fn downgrade(&mut self, who: u16, id: TicketId, mode: Mode) -> Result<(), SpaceError>
        requires { SpeaksFor self.old who }
        ensures { Makes false (downgrade_outcome who id mode) self.old (done result) self.new }
    {
        let Some(ticket) = self.seats[usize::from(who) - 1].ticket(id) else {
            return Err(SpaceError::NotHeld);
        };
        if !self.is_lower(ticket, mode) {
            return Err(SpaceError::NotUpgradable);
        }
        self.alter(who, ticket, mode);
        self.serve(ticket.place);
        Ok(())
    }

    /// Checks that a session can request another mode of a held ticket.
    fn check_upgrade(&self, who: u16, ticket: Held, mode: Mode) -> Result<(), SpaceError>
        requires session { has_session who self.now ≡ true }
        requires key { has_key ticket.place self.now ≡ true }
        ensures { MatchResult result
            (λ _. first_cause (upgrade_causes who mode ticket self.now) ≡ None)
            (λ e. first_cause (upgrade_causes who mode ticket self.now) ≡ Some e) }
    {
        let kind = self.books[usize::from(ticket.place) - 1].key().kind();
        let is_allowed = covers(ticket.mode, mode) || may_upgrade(ticket.mode, mode);
        if !is_allowed || !kind.has_mode(mode) {
            return Err(SpaceError::NotUpgradable);
        }
        if self.seats[usize::from(who) - 1].wait().is_some() {
            return Err(SpaceError::AlreadyWaiting);
        }
        Ok(())
    }

    /// Whether a held ticket may be downgraded to a mode.
    fn is_lower(&self, ticket: Held, mode: Mode) -> bool
        requires { has_key ticket.place self.now ≡ true }
        ensures { result ≡ is_lower mode ticket self.now }
    {
        let kind = self.books[usize::from(ticket.place) - 1].key().kind();
        may_downgrade(ticket.mode, mode) && kind.has_mode(mode)
    }

    /// Checks that a session can merge two held tickets.
    fn check_merge(&self, who: u16, kept: Held, gone: Held) -> Result<(), SpaceError>
        requires { has_session who self.now ≡ true }
        ensures refused { MatchResult result
            (λ _. first_cause (merge_causes who kept gone self.now) ≡ None)
            (λ e. first_cause (merge_causes who kept gone self.now) ≡ Some e) }
        ensures two { OnOk result (kept.id ≢ gone.id) }
        ensures place { OnOk result (kept.place ≡ gone.place) }
    {
        if self.seats[usize::from(who) - 1].wait().is_some() {
            return Err(SpaceError::AlreadyWaiting);
        }
        let are_two = kept.id != gone.id;
        if !are_two || kept.place != gone.place || !covers(gone.mode, kept.mode) {
            return Err(SpaceError::BadMode);
        }
        Ok(())
    }

    /// Gives a session's held ticket a mode, if that can be granted now. Returns whether it did.
    fn alter_if_free(&mut self, who: u16, ticket: Held, mode: Mode) -> bool
        requires session { has_session who self.old ≡ true }
        requires key { has_key ticket.place self.old ≡ true }
        requires stands { IsSome (ticket_of who ticket.id (book_at ticket.place self.old).granted) }
        requires rising { IsTrue (are_rising (seat_at who self.old).held) }
        ensures free { result ≡ is_free_for who ticket.place mode self.old }
        ensures altered { result ≡ true → self.new ≡ altering who ticket mode self.old }
        ensures unchanged { result ≡ false → self.new ≡ self.old }
    {
        if !is_free(&self.books[usize::from(ticket.place) - 1], who, mode) {
            return false;
        }
        self.alter(who, ticket, mode);
        true
    }

    /// Gives a session's held ticket a mode that clashes with no granted ticket of another session.
    fn alter(&mut self, who: u16, ticket: Held, mode: Mode)
        requires session { has_session who self.old ≡ true }
        requires key { has_key ticket.place self.old ≡ true }
        requires stands { IsSome (ticket_of who ticket.id (book_at ticket.place self.old).granted) }
        requires rising { IsTrue (are_rising (seat_at who self.old).held) }
        requires compatible { is_compatible (lock_kind (book_at ticket.place self.old)) (book_at ticket.place self.old).granted who mode ≡ true }
        ensures { self.new ≡ altering who ticket mode self.old }
    {
        self.seats[usize::from(who) - 1].set_mode(ticket.id, mode);
        let book = &mut self.books[usize::from(ticket.place) - 1];
        book.set_mode(who, ticket.id, mode, NO_FAST).unwrap();
    }

    /// Gives one of a session's two held tickets of a place the mode of the other, which is released, and then grants
    /// waiters of the place.
    fn fold(&mut self, who: u16, kept: Held, gone: Held)
        requires session { has_session who self.old ≡ true }
        requires key { has_key kept.place self.old ≡ true }
        requires kept { IsSome (ticket_of who kept.id (book_at kept.place self.old).granted) }
        requires gone { IsSome (ticket_of who gone.id (book_at kept.place self.old).granted) }
        requires two { kept.id ≢ gone.id }
        requires rising { IsTrue (are_rising (seat_at who self.old).held) }
        requires compatible { is_compatible (lock_kind (book_at kept.place self.old)) (book_at kept.place self.old).granted who gone.mode ≡ true }
        ensures { self.new ≡ serving kept.place (folding who kept gone self.old) }
    {
        self.seats[usize::from(who) - 1].fold(kept.id, gone);
        let book = &mut self.books[usize::from(kept.place) - 1];
        fold(book, who, kept.id, gone);
        self.serve(kept.place);
    }
}
