//! Steps of a session that reads with a cache of its own, while another one makes changes, and their results.
ghost use Rattle.std.specs.Prelude.{◌≡◌, []};
ghost use Rattle.mdl_calls.specs.Words.{AreMet};
ghost use Rattle.mdl_shared.specs.SessionData.{HasMet};
ghost use Rattle.mdl_shared.specs.SessionViews.{data_of};

use crate::shared::acts::{Act, Lock, NO_MEMORY, Reply, make};
use crate::shared::rows::{Three, none_is_wrong, open_three};
use mdl_calls::{Attempt, LockSpace, Place, SpaceError, TicketId};
use mdl_defs::{Column, DefCache, Definition, VersionedDefinition};
use mdl_key::{Key, Mode};
use mdl_shared::{Cached, Fast, Session, read_cached};
use std::alloc::Global;
use std::process::Abort;
use std::sync::Wait;
use std::test::Fail;

/// Names of columns.
pub(crate) type Names = &'static [&'static str];

/// What a session finds for a ticket, by a look in its cache or by a read.
#[derive(Clone, Copy, PartialEq, Eq)]
pub(crate) enum Found {
    /// A table of just the columns that were named.
    Named,
    /// Another definition.
    Other,
    /// There is no definition.
    Nothing,
    /// The cache keeps no definition of the current version.
    Stale,
    /// It was refused.
    Refused,
}

/// A step, and its right result.
#[derive(Clone, Copy)]
pub(crate) enum Step {
    /// The other session does something.
    Beside(Act, Reply),
    /// The reader looks a key up.
    LookUp(Lock, Place),
    /// It takes a ticket to read with.
    Take(Place, TicketId),
    /// Likewise without the latch.
    TakeFast(Place, TicketId),
    /// It looks in its cache for a definition that has these columns.
    Look(TicketId, Names, Found),
    /// It reads with its cache: the version, and the definition. If the read is refused the version is 0.
    Read(TicketId, Names, u64, Found),
    /// It releases a ticket.
    GiveUp(TicketId),
    /// This number of definitions is in its cache.
    Keeps(usize),
}

/// What steps show, how many definitions the cache keeps, the steps, and what a last look finds: the ticket, and the names of the columns.
pub(crate) type Story = (&'static str, u16, &'static [Step], (TicketId, Names));

fn compared(definition: &Definition, names: Names) -> Found {
    match definition {
        Definition::Table(columns) if are_named(columns.as_slice(), names) => Found::Named,
        _ => Found::Other,
    }
}

fn are_named(columns: &[Column], names: Names) -> bool {
    if columns.len() != names.len() {
        return false;
    }
    for (column, name) in columns.iter().zip(names) {
        if column.name() != *name {
            return false;
        }
    }
    true
}

// Returns a key's version, and what its definition is.
fn standing_there(standing: &VersionedDefinition, names: Names) -> (u64, Found) {
    match &standing.definition {
        Some(definition) => (standing.version, compared(definition, names)),
        None => (standing.version, Found::Nothing),
    }
}

// Returns what a look in a cache found.
fn looked(outcome: Result<Cached<'_>, SpaceError>, names: Names) -> Found {
    match outcome {
        Ok(Cached::Hit(definition)) => compared(definition, names),
        Ok(Cached::Stale) => Found::Stale,
        Err(_) => Found::Refused,
    }
}

// A cache that keeps nothing keeps only what was met.
fn begin<S: LockSpace>(_space: &S, _who: u16, _cache: &DefCache)
    requires nothing { _cache.now.kept ≡ [] }
    ensures met { AreMet (S.has_met _space.now _who) _cache.now.kept }
{}

// Looks in a cache, without the latch. The cache may be used again.
fn look<R>(cache: &mut DefCache, session: &mut Session<R>, id: TicketId, names: Names) -> Found
    requires met { AreMet (HasMet (data_of session.old) session.old.me.0.number) cache.old.kept }
    ensures met { AreMet (HasMet (data_of session.new) session.new.me.0.number) cache.new.kept }
{
    looked(read_cached(cache, session, id), names)
}

// Reads under a ticket.
fn read<S: LockSpace>(
    space: &mut S,
    who: u16,
    id: TicketId,
    names: Names,
    cache: &mut DefCache,
) -> (u64, Found)
    requires speaks { S.speaks_for space.old who }
    requires met { AreMet (S.has_met space.old who) cache.old.kept }
    ensures met { AreMet (S.has_met space.new who) cache.new.kept }
{
    match space.read_kept(who, id, cache) {
        Ok(standing) => {
            let found = standing_there(&standing, names);
            drop(standing);
            found
        }
        Err(_) => (0, Found::Refused),
    }
}

// Looks a key up.
fn look_up<S: LockSpace>(space: &mut S, who: u16, key: &Key, _cache: &DefCache) -> Option<Place>
    requires speaks { S.speaks_for space.old who }
    requires met { AreMet (S.has_met space.old who) _cache.now.kept }
    ensures met { AreMet (S.has_met space.new who) _cache.now.kept }
{
    space.resolve(who, key).ok()
}

// Locks a place to read.
fn take<S: LockSpace>(space: &mut S, who: u16, place: Place, _cache: &DefCache) -> Option<TicketId>
    requires speaks { S.speaks_for space.old who }
    requires met { AreMet (S.has_met space.old who) _cache.now.kept }
    ensures met { AreMet (S.has_met space.new who) _cache.now.kept }
{
    match space.try_now(who, place, Mode::SR) {
        Ok(Attempt::Granted(id)) => Some(id),
        _ => None,
    }
}

// Releases a lock.
fn give_up<S: LockSpace>(space: &mut S, who: u16, id: TicketId, _cache: &DefCache) -> bool
    requires speaks { S.speaks_for space.old who }
    requires met { AreMet (S.has_met space.old who) _cache.now.kept }
    ensures met { AreMet (S.has_met space.new who) _cache.now.kept }
{
    space.release(who, id).is_ok()
}

// Takes a ticket to read with, without the latch.
fn take_fast<R>(session: &mut Session<R>, place: Place, _cache: &DefCache) -> Option<TicketId>
    requires met { AreMet (HasMet (data_of session.old) session.old.me.0.number) _cache.now.kept }
    ensures met { AreMet (HasMet (data_of session.new) session.new.me.0.number) _cache.now.kept }
{
    granted(session.try_fast(place, Mode::SR))
}

fn granted(outcome: Result<Fast, SpaceError>) -> Option<TicketId> {
    match outcome {
        Ok(Fast::Granted(id)) => Some(id),
        _ => None,
    }
}

// Whether a step of the reader has its right result.
fn does<R: Wait>(alloc: Global, cache: &mut DefCache, reader: &mut Session<R>, step: Step) -> bool
    requires met { AreMet (HasMet (data_of reader.old) reader.old.me.0.number) cache.old.kept }
    ensures met { AreMet (HasMet (data_of reader.new) reader.new.me.0.number) cache.new.kept }
{
    let who = reader.number();
    match step {
        Step::LookUp(lock, place) => match lock.key(alloc) {
            Ok(key) => look_up(reader, who, &key, cache) == Some(place),
            Err(_) => false,
        },
        Step::Take(place, id) => take(reader, who, place, cache) == Some(id),
        Step::TakeFast(place, id) => take_fast(reader, place, cache) == Some(id),
        Step::Look(id, names, wanted) => look(cache, reader, id, names) == wanted,
        Step::Read(id, names, version, wanted) => {
            read(reader, who, id, names, cache) == (version, wanted)
        }
        Step::GiveUp(id) => give_up(reader, who, id, cache),
        Step::Keeps(count) => cache.len() == count,
        Step::Beside(_, _) => true,
    }
}

// Whether a step of the other session, if it is one, has its right reply.
fn does_beside<R: Wait>(alloc: Global, other: &mut Session<R>, step: Step) -> bool {
    match step {
        Step::Beside(act, wanted) => make(alloc, other, act) == wanted,
        _ => true,
    }
}

// Returns the index of the first step with a wrong result, if there is one. The cache keeps nothing before the first.
fn first_wrong<R: Wait>(
    alloc: Global,
    cache: &mut DefCache,
    sessions: &mut Three<R>,
    steps: &[Step],
) -> Option<usize>
    requires nothing { cache.old.kept ≡ [] }
    ensures met { AreMet (HasMet (data_of sessions.new.one) sessions.new.one.me.0.number) cache.new.kept }
{
    let who = sessions.one.number();
    begin(&sessions.one, who, cache);
    for (at, step) in steps.iter().enumerate() {
        if !does(alloc, cache, &mut sessions.one, *step) {
            return Some(at);
        }
        if !does_beside(alloc, &mut sessions.two, *step) {
            return Some(at);
        }
    }
    None
}

// Returns the index of the first step with a wrong result, if there is one. After all steps the reader's own call has to find a definition that
// has these columns, before it releases its tickets.
fn first_wrong_at_last<R: Wait>(
    alloc: Global,
    cache: &mut DefCache,
    sessions: &mut Three<R>,
    steps: &[Step],
    last: (TicketId, Names),
) -> Option<usize>
    requires nothing { cache.old.kept ≡ [] }
{
    let wrong = first_wrong(alloc, cache, sessions, steps);
    let (id, names) = last;
    let found = looked(sessions.one.read_cached(id, cache), names);
    let gone = make(alloc, &mut sessions.one, Act::ReleaseAll);
    if wrong.is_none() && (found != Found::Named || gone == NO_MEMORY) {
        return Some(steps.len());
    }
    wrong
}

/// Makes the steps of a story and its last look, by two new sessions, the first of which has a cache, and fails the test if a result is wrong.
pub(crate) fn are_right<R: Wait + Abort + AllocGlobal>(rt: &R, story: Story) -> Result<(), Fail> {
    let (shown, capacity, steps, last) = story;
    let mut sessions = open_three(rt, 4)?;
    let Ok(mut cache) = DefCache::new(rt.alloc(), capacity) else {
        panic!(rt; "there is no memory for a cache");
    };
    let wrong = first_wrong_at_last(rt.alloc(), &mut cache, &mut sessions, steps, last);
    drop(cache);
    sessions.close(rt);
    none_is_wrong(rt, shown, wrong);
    Ok(())
}
