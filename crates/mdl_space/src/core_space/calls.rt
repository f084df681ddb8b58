//! The space of one thread as a lock space: each call has just one outcome, except that memory may run out.
ghost use Rattle.std.specs.Prelude.{◌≡◌};
ghost use Rattle.mdl_core.specs.CoreJoins.{SpeaksFor, locks_at, numbers_at, Knows, IsSettledAs, HasRead, HasSeen, Joins};
ghost use Rattle.mdl_core.proofs.SpaceLaws.{core-laws};

use super::CoreSpace;
use crate::{
    Attempt, Begun, Ended, Held, LockSpace, Place, Poll, Search, SpaceError, TicketId, TimedOut,
    Upgrade,
};
use mdl_defs::{Change, DefCache, VersionedDefinition};
use mdl_key::{Key, Mode};

impl LockSpace for CoreSpace {
    ghost speaks_for = { SpeaksFor };

    ghost own = { locks_at };

    ghost knows = { Knows };

    ghost is_settled = { IsSettledAs };

    ghost numbers = { numbers_at };

    ghost has_read = { HasRead };

    ghost has_met = { λ _ _ _ _. Unit {0} };

    ghost has_seen = { HasSeen };

    ghost owes = { λ _ _ _. ⊥ };

    ghost joins = { Joins };

    // A read leaves the cache unchanged.
    ghost uses_cache = { λ _ _ _ _ before after _. after ≡ before };

    fn resolve(&mut self, who: u16, key: &Key) -> Result<Place, SpaceError> {
        CoreSpace::resolve(self, who, key)
    }

    fn unpin(&mut self, who: u16, place: Place) -> Result<(), SpaceError> {
        CoreSpace::unpin(self, who, place)
    }

    fn try_now(&mut self, who: u16, place: Place, mode: Mode) -> Result<Attempt, SpaceError> {
        CoreSpace::try_now(self, who, place, mode)
    }

    fn begin_wait(&mut self, who: u16, place: Place, mode: Mode) -> Result<Begun, SpaceError> {
        CoreSpace::begin_wait(self, who, place, mode)
    }

    fn search(&mut self, who: u16) -> Result<Search, SpaceError> {
        CoreSpace::search_deadlock(self, who)
    }

    fn poll_wait(&mut self, who: u16) -> Result<Poll, SpaceError> {
        CoreSpace::poll_wait(self, who)
    }

    fn settle_timeout(&mut self, who: u16) -> Result<TimedOut, SpaceError> {
        CoreSpace::settle_timeout(self, who)
    }

    fn end_wait(&mut self, who: u16) -> Result<Ended, SpaceError> {
        CoreSpace::end_wait(self, who)
    }

    fn wait_of(&mut self, target: u16) -> Option<u64> {
        CoreSpace::wait_of(self, target)
    }

    fn kill(&mut self, target: u16, number: u64) -> bool {
        CoreSpace::kill(self, target, number)
    }

    fn release(&mut self, who: u16, id: TicketId) -> Result<(), SpaceError> {
        CoreSpace::release(self, who, id)
    }

    fn clone_ticket(&mut self, who: u16, id: TicketId, mode: Mode) -> Result<TicketId, SpaceError> {
        CoreSpace::clone_ticket(self, who, id, mode)
    }

    fn upgrade_now(&mut self, who: u16, id: TicketId, mode: Mode) -> Result<Upgrade, SpaceError> {
        CoreSpace::upgrade_now(self, who, id, mode)
    }

    fn merge(&mut self, who: u16, old: TicketId, new: TicketId) -> Result<(), SpaceError> {
        CoreSpace::merge(self, who, old, new)
    }

    fn downgrade(&mut self, who: u16, id: TicketId, mode: Mode) -> Result<(), SpaceError> {
        CoreSpace::downgrade(self, who, id, mode)
    }

    fn read_definition(
        &mut self,
        who: u16,
        ticket: TicketId,
    ) -> Result<VersionedDefinition, SpaceError> {
        CoreSpace::read_definition(self, who, ticket)
    }

    fn read_kept(
        &mut self,
        who: u16,
        id: TicketId,
        _cache: &mut DefCache,
    ) -> Result<VersionedDefinition, SpaceError> {
        CoreSpace::read_definition(self, who, id)
    }

    fn change_definition(
        &mut self,
        who: u16,
        id: TicketId,
        change: &Change,
    ) -> Result<u64, SpaceError> {
        CoreSpace::change_definition(self, who, id, change)
    }

    fn key_of(&mut self, _who: u16, place: Place) -> Result<Key, SpaceError> {
        CoreSpace::key_of(self, place)
    }

    fn tables_of(&mut self, _who: u16, schema: &str) -> Result<Vec<Place>, SpaceError> {
        CoreSpace::tables_of(self, schema)
    }

    fn held(&self, who: u16) -> Result<Vec<Held>, SpaceError> {
        CoreSpace::held(self, who)
    }

    ghost laws = { core-laws };
}
