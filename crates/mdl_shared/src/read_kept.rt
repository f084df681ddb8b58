//! Reads the definition of a key under a ticket, from the session's cache if that keeps it.
ghost use Rattle.std.specs.Prelude.{◌≡◌, ◌<◌, IfOk, OnErr};
ghost use Rattle.mdl_calls.specs.CallSpec.{Transition};
ghost use Rattle.mdl_calls.specs.calls.ReadKept as call;
ghost use Rattle.mdl_calls.specs.Words.{AreMet, read};
ghost use Rattle.mdl_calls.specs.SessionData.{HasMet};
ghost use Rattle.mdl_shared.specs.KeptReads.{MayKeep, ReadsKept};
ghost use Rattle.mdl_shared.specs.SessionViews.{data_of};
ghost use Rattle.mdl_shared.specs.StepSpec.{TakesSteps};
ghost use Rattle.mdl_shared.specs.calls.ReadKept as steps;

use crate::Session;
use mdl_calls::{SpaceError, TicketId};
use mdl_defs::{DefCache, VersionedDefinition};
use std::sync::Wait;

impl<R: Wait> Session<R> {
    /// Like [`Session::read_definition`], but reads a definition without the latch if the cache keeps the one of the key's version. What is
    /// read under the latch is kept in the cache, if there is a definition and memory for it. Each definition in the cache has to be one that
    /// this session read in this space. If memory runs out for a copy of what the cache keeps, the cache is left as it was, and the version is
    /// noted under the ticket nevertheless.
    pub fn read_kept(
        &mut self,
        id: TicketId,
        cache: &mut DefCache,
    ) -> Result<VersionedDefinition, SpaceError>
        requires met { AreMet (HasMet (data_of self.old) self.old.me.0.number) cache.old.kept }
        ensures joined { Transition (call.read_kept self.old.me.0.number id) (read result) (data_of self.old) (data_of self.new) }
        ensures shown { TakesSteps (steps.read_kept id) (read result) self.old self.new }
        ensures met { AreMet (HasMet (data_of self.new) self.new.me.0.number) cache.new.kept }
        ensures capacity { cache.new.capacity ≡ cache.old.capacity }
        ensures kept { IfOk result (λ standing. ReadsKept id standing self.old self.new cache.old cache.new) }
        ensures left { OnErr result (cache.new ≡ cache.old) }
    {
        let Some(held) = self.member.tickets.get(id) else {
            return Err(SpaceError::NotHeld);
        };
        let member = &mut self.member;
        let version = member.seat.read_version_kept(held.place, cache);
        let place = held.place as u16;
        if let Some(definition) = cache.peek(place, version) {
            member.tickets.note_all(held.place, version);
            let Ok(definition) = definition.clone() else {
                return Err(SpaceError::OutOfMemory);
            };
            let _first = cache.look(place, version);
            return Ok(VersionedDefinition {
                version,
                definition: Some(definition),
            });
        }
        let standing = self.read_definition(id)?;
        keep(cache, held.place, &standing);
        Ok(standing)
    }
}

// Keeps a copy of the definition of a place in the cache, if there is a definition and memory for it.
fn keep(cache: &mut DefCache, place: usize, standing: &VersionedDefinition)
    requires within { place < 65536 }
    ensures kept { MayKeep place standing.now cache.old cache.new }
{
    let Some(definition) = &standing.definition else {
        return;
    };
    if let Ok(copy) = definition.clone() {
        let _kept = cache.keep(place as u16, standing.version, copy);
    }
}
