//! Looks up the definition at a ticket's place in a cache of what the session read before, without the latch of the place.
//!
//! After MySQL 5.7, sql/sql_base.cc: `open_table`, which takes a table from the session's or the shared cache while its version is the current one.
ghost use Rattle.std.specs.Prelude.{◌≡◌, None, IfErr, IfOk};
ghost use Rattle.std.specs.Borrow.{sem};
ghost use Rattle.mdl_calls.specs.declared.space_error.SpaceError.TheVariants.{NotHeld};
ghost use Rattle.mdl_calls.specs.Words.{AreMet};
ghost use Rattle.mdl_calls.specs.SessionData.{HasMet};
ghost use Rattle.mdl_visits.specs.Numbers.{numbered};
ghost use Rattle.mdl_shared.specs.CacheEnds.{EndsCached};
ghost use Rattle.mdl_shared.specs.KeptReads.{FindsKept};
ghost use Rattle.mdl_shared.specs.SessionViews.{data_of, tickets_seen};

use crate::Session;
use mdl_calls::{SpaceError, TicketId};
use mdl_defs::{DefCache, Definition};

/// What a cache has for a ticket.
#[derive(Clone, Copy)]
pub enum Cached<'a> {
    /// The definition of the key of the ticket's place.
    Hit(&'a Definition),
    /// The cache keeps no definition of the key's version.
    Stale,
}

/// Returns the definition of the key of a ticket's place, if the cache keeps the one of the key's version. One step reads the version,
/// without the latch. Each definition in the cache has to be one that this session read in this space, and still is one afterwards. It takes
/// no memory.
pub fn read_cached<'a, R>(
    cache: &'a mut DefCache,
    session: &mut Session<R>,
    id: TicketId,
) -> Result<Cached<'a>, SpaceError>
    requires met { AreMet (HasMet (data_of session.old) session.old.me.0.number) cache.old.kept }
    ensures* ended { sem 𝓛 (EndsCached cache.entry id result session.old session.new) }
    ensures found { IfOk result (λ found. FindsKept id cache.old.kept found session.old session.new) }
    ensures refused { IfErr result (λ why. (why ≡ NotHeld) × (numbered id (tickets_seen session.old.me.0) ≡ None) × (session.new ≡ session.old)) }
{
    match session.member.tickets.get(id) {
        Some(held) => {
            let member = &mut session.member;
            let version = member.seat.read_version_kept(held.place, cache);
            match cache.look(held.place as u16, version) {
                Some(definition) => {
                    member.tickets.note_reached(held.place, version);
                    Ok(Cached::Hit(definition))
                }
                None => Ok(Cached::Stale),
            }
        }
        None => Err(SpaceError::NotHeld),
    }
}

impl<R> Session<R> {
    /// Like the function [`read_cached`], whose contract also says what is in the cache afterwards: use that one if you use the cache again.
    pub fn read_cached<'a>(
        &mut self,
        id: TicketId,
        cache: &'a mut DefCache,
    ) -> Result<Cached<'a>, SpaceError>
        requires met { AreMet (HasMet (data_of self.old) self.old.me.0.number) cache.old.kept }
        ensures found { IfOk result (λ found. FindsKept id cache.old.kept found self.old self.new) }
        ensures refused { IfErr result (λ why. (why ≡ NotHeld) × (numbered id (tickets_seen self.old.me.0) ≡ None) × (self.new ≡ self.old)) }
    {
        read_cached(cache, self, id)
    }
}
