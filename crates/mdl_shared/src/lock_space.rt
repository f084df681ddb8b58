//! A session as a lock space. It speaks for itself only.
ghost use Rattle.std.proofs.Common.{◌∙◌, ◌⊎◌, subst, sym};
ghost use Rattle.mdl_calls.specs.Reads.{AwaitsAt, HoldsAt};
ghost use Rattle.mdl_calls.specs.SessionData.{SpeaksFor, own_of, numbers_of, Knows, IsSettledAs, HasMet, HasRead, HasSeen};
ghost use Rattle.mdl_session_laws.specs.SessionJoins.{Joins};
ghost use Rattle.mdl_session_laws.proofs.SessionLaws.{session-laws};
ghost use Rattle.mdl_shared.specs.Debts.{Owes};
ghost use Rattle.mdl_shared.specs.KeptReads.{UsesKept};
ghost use Rattle.mdl_shared.specs.SessionViews.{data_of};
ghost use Rattle.mdl_shared.specs.AllSteps.{Shows};

use crate::Session;
use mdl_calls::{
    Attempt, Begun, Ended, Held, LockSpace, Place, Poll, Search, SpaceError, TicketId, TimedOut,
    Upgrade,
};
use mdl_defs::{Change, DefCache, VersionedDefinition};
use mdl_key::{Key, Mode};
use std::sync::Wait;

/// A session is a lock space for its own calls. It shows nothing of other sessions' calls. The caller passes the session's own number as
/// `who`.
impl<R: Wait> LockSpace for Session<R> {
    ghost speaks_for = { λ s. SpeaksFor (data_of s) };

    ghost own = { λ s. own_of (data_of s) };

    ghost knows = { λ s. Knows (data_of s) };

    ghost is_settled = { λ s. IsSettledAs (data_of s) };

    ghost numbers = { λ s. numbers_of (data_of s) };

    ghost has_read = { λ s. HasRead (data_of s) };

    ghost has_met = { λ s. HasMet (data_of s) };

    ghost has_seen = { λ s. HasSeen (data_of s) };

    ghost owes = { λ s. Owes s };

    // What the session has before a call is joined to what it has after it, and the call's steps show what they met and did.
    ghost joins = { λ s call answer t. Joins (data_of s) call answer (data_of t) × Shows call answer s t };

    // A read takes the definition from the cache if that keeps the one of the version found.
    ghost uses_cache = { λ s _ id answer before after t. UsesKept id answer s t before after };

    fn resolve(&mut self, _who: u16, key: &Key) -> Result<Place, SpaceError> {
        Session::resolve(self, key)
    }

    fn unpin(&mut self, _who: u16, place: Place) -> Result<(), SpaceError> {
        Session::unpin(self, place)
    }

    fn try_now(&mut self, _who: u16, place: Place, mode: Mode) -> Result<Attempt, SpaceError> {
        Session::try_now(self, place, mode)
    }

    fn begin_wait(&mut self, _who: u16, place: Place, mode: Mode) -> Result<Begun, SpaceError> {
        Session::begin_wait(self, place, mode)
    }

    fn search(&mut self, _who: u16) -> Result<Search, SpaceError> {
        self.search_deadlock()
    }

    fn poll_wait(&mut self, _who: u16) -> Result<Poll, SpaceError> {
        Session::poll_wait(self)
    }

    fn settle_timeout(&mut self, _who: u16) -> Result<TimedOut, SpaceError> {
        Session::settle_timeout(self)
    }

    fn end_wait(&mut self, _who: u16) -> Result<Ended, SpaceError> {
        Session::end_wait(self)
    }

    fn wait_of(&mut self, target: u16) -> Option<u64> {
        Session::wait_of(self, target)
    }

    fn kill(&mut self, target: u16, number: u64) -> bool {
        Session::kill(self, target, number)
    }

    fn release(&mut self, _who: u16, id: TicketId) -> Result<(), SpaceError> {
        Session::release(self, id)
    }

    fn clone_ticket(
        &mut self,
        _who: u16,
        id: TicketId,
        mode: Mode,
    ) -> Result<TicketId, SpaceError> {
        Session::clone_ticket(self, id, mode)
    }

    fn upgrade_now(&mut self, _who: u16, id: TicketId, mode: Mode) -> Result<Upgrade, SpaceError> {
        Session::upgrade_now(self, id, mode)
    }

    fn merge(&mut self, _who: u16, old: TicketId, new: TicketId) -> Result<(), SpaceError> {
        Session::merge(self, old, new)
    }

    fn downgrade(&mut self, _who: u16, id: TicketId, mode: Mode) -> Result<(), SpaceError> {
        Session::downgrade(self, id, mode)
    }

    fn read_definition(
        &mut self,
        _who: u16,
        id: TicketId,
    ) -> Result<VersionedDefinition, SpaceError> {
        Session::read_definition(self, id)
    }

    fn read_kept(
        &mut self,
        _who: u16,
        id: TicketId,
        cache: &mut DefCache,
    ) -> Result<VersionedDefinition, SpaceError> {
        Session::read_kept(self, id, cache)
    }

    fn change_definition(
        &mut self,
        _who: u16,
        id: TicketId,
        change: &Change,
    ) -> Result<u64, SpaceError> {
        Session::change_definition(self, id, change)
    }

    fn key_of(&mut self, _who: u16, place: Place) -> Result<Key, SpaceError> {
        Session::key_of(self, place)
    }

    fn tables_of(&mut self, _who: u16, schema: &str) -> Result<Vec<Place>, SpaceError> {
        Session::tables_of(self, schema)
    }

    fn held(&self, _who: u16) -> Result<Vec<Held>, SpaceError> {
        Session::held(self)
    }

    // They hold of the session's plain data. Of its debts its steps tell: a call leaves no new one, and a place can be in use by one.
    ghost laws = { session-laws data_of (λ a b call answer j. j.0)
        (λ a b call answer w place speaks j owes. (owes.0 ∙ j.0.number, j.1.debts place owes.1))
        (λ a b who place j. subst (λ w. HoldsAt place (data_of a).own ⊎ AwaitsAt place (data_of a).own ⊎ Owes a w place) (sym j.0.mine.0) j.1.met.1) };
}
