//! A session reads a table's definition under a fast ticket, with its cache or under the latch of the place.
ghost use Rattle.std.specs.Prelude.{◌≡◌};
ghost use Rattle.mdl_calls.specs.Words.{AreMet};
ghost use Rattle.mdl_calls.specs.SessionData.{HasMet};
ghost use Rattle.mdl_shared.specs.SessionViews.{data_of};

use crate::failure::Failure;
use crate::lap::{Lap, Race, Start};
use crate::patient::gain;
use crate::places::look_table_up;
use crate::session::take;
use mdl_calls::{Place, SpaceError, TicketId};
use mdl_defs::{Change, Column, Columns, DefCache, Definition, VersionedDefinition};
use mdl_key::Mode;
use mdl_shared::{Cached, Session, read_cached};
use std::alloc::Global;
use std::sync::Wait;
use std::time::{Clock, CpuClock};

/// How a session reads.
#[derive(Clone, Copy)]
pub enum Reading {
    /// It is lent the definition that its cache keeps, without the latch.
    Cached,
    /// It copies the definition that its cache keeps, without the latch.
    Kept,
    /// It copies the key's definition, under the latch.
    Latched,
}

/// Times reads of the last of `tables` tables. The session holds a ticket of each, and its cache keeps all of them.
pub fn time_reads<R: Wait + Clock + CpuClock>(
    rt: &R,
    alloc: Global,
    session: &mut Session<&R>,
    reading: &Reading,
    tables: u16,
    race: &Race,
) -> Result<Lap, Failure> {
    let mut ids = Vec::new(alloc);
    let lap = match hold_each(rt, alloc, session, tables, &mut ids) {
        Ok(()) => time_cached(rt, alloc, session, &ids, reading, tables, race),
        Err(why) => Err(why),
    };
    drop(ids);
    lap
}

// Gains a ticket to read of each table, and adds it to `ids`.
fn hold_each<R: Wait>(
    rt: &R,
    alloc: Global,
    session: &mut Session<&R>,
    tables: u16,
    ids: &mut Vec<TicketId>,
) -> Result<(), Failure> {
    for index in 0..tables {
        let place = look_table_up(alloc, session, index, 1)?;
        let id = gain(rt, session, place, Mode::SR)?;
        if ids.push(id).is_err() {
            return Err(Failure::Memory);
        }
    }
    Ok(())
}

// Fills a cache with all tables, and then times reads under the last ticket.
fn time_cached<R: Wait + Clock + CpuClock>(
    rt: &R,
    alloc: Global,
    session: &mut Session<&R>,
    ids: &[TicketId],
    reading: &Reading,
    tables: u16,
    race: &Race,
) -> Result<Lap, Failure> {
    let Some(last) = ids.last().copied() else {
        return Err(Failure::Unexpected);
    };
    let Ok(mut cache) = DefCache::new(alloc, tables) else {
        return Err(Failure::Memory);
    };
    let lap = if keep_all(session, ids, &mut cache) {
        read_last(rt, session, last, &mut cache, reading, race)
    } else {
        Err(Failure::Unexpected)
    };
    drop(cache);
    lap
}

// Times reads under a ticket, once all threads are ready.
fn read_last<R: Wait + Clock + CpuClock>(
    rt: &R,
    session: &mut Session<&R>,
    last: TicketId,
    cache: &mut DefCache,
    reading: &Reading,
    race: &Race,
) -> Result<Lap, Failure>
    requires met { AreMet (HasMet (data_of session.old) session.old.me.0.number) cache.old.kept }
{
    let start = Start::of(rt, race)?;
    let found = match reading {
        Reading::Cached => look_often(session, last, cache, race.turns),
        Reading::Kept => copy_often(session, last, cache, race.turns),
        Reading::Latched => read_often(session, last, race.turns),
    };
    start.lap(rt, race, found)
}

// Reads under each ticket, and keeps the tables in the cache. Whether all are defined.
fn keep_all<R: Wait>(session: &mut Session<R>, ids: &[TicketId], cache: &mut DefCache) -> bool
    requires met { AreMet (HasMet (data_of session.old) session.old.me.0.number) cache.old.kept }
    ensures met { AreMet (HasMet (data_of session.new) session.new.me.0.number) cache.new.kept }
{
    let mut all = true;
    for id in ids {
        all &= keeps(session, *id, cache);
    }
    all
}

// Reads a definition that the cache lends, `turns` times. Returns how often the cache kept it.
fn look_often<R>(session: &mut Session<R>, id: TicketId, cache: &mut DefCache, turns: u32) -> u32
    requires met { AreMet (HasMet (data_of session.old) session.old.me.0.number) cache.old.kept }
{
    let mut found = 0u32;
    for _turn in 0..turns {
        if looks(session, id, cache) {
            found = found.wrapping_add(1);
        }
    }
    found
}

// Whether the cache lends a table for the ticket.
fn looks<R>(session: &mut Session<R>, id: TicketId, cache: &mut DefCache) -> bool
    requires met { AreMet (HasMet (data_of session.old) session.old.me.0.number) cache.old.kept }
    ensures met { AreMet (HasMet (data_of session.new) session.new.me.0.number) cache.new.kept }
{
    is_hit(read_cached(cache, session, id))
}

// Whether a table was found.
fn is_hit(found: Result<Cached<'_>, SpaceError>) -> bool {
    match found {
        Ok(Cached::Hit(Definition::Table(_))) => true,
        _ => false,
    }
}

// Copies the definition that the cache keeps, `turns` times. Returns how often it was a table.
fn copy_often<R: Wait>(
    session: &mut Session<R>,
    id: TicketId,
    cache: &mut DefCache,
    turns: u32,
) -> u32
    requires met { AreMet (HasMet (data_of session.old) session.old.me.0.number) cache.old.kept }
{
    let mut found = 0u32;
    for _turn in 0..turns {
        if keeps(session, id, cache) {
            found = found.wrapping_add(1);
        }
    }
    found
}

// Copies the definition from the cache, or reads it and keeps it there. Whether it is a table.
fn keeps<R: Wait>(session: &mut Session<R>, id: TicketId, cache: &mut DefCache) -> bool
    requires met { AreMet (HasMet (data_of session.old) session.old.me.0.number) cache.old.kept }
    ensures met { AreMet (HasMet (data_of session.new) session.new.me.0.number) cache.new.kept }
{
    is_of_table(session.read_kept(id, cache))
}

// Whether the definition of a table was read.
fn is_of_table(read: Result<VersionedDefinition, SpaceError>) -> bool {
    let is_so = match &read {
        Ok(standing) => matches!(&standing.definition, Some(Definition::Table(_))),
        Err(_) => false,
    };
    drop(read);
    is_so
}

// Copies the key's definition under the latch, `turns` times. Returns how often it was a table.
fn read_often<R: Wait>(session: &mut Session<R>, id: TicketId, turns: u32) -> u32 {
    let mut found = 0u32;
    for _turn in 0..turns {
        if reads(session, id) {
            found = found.wrapping_add(1);
        }
    }
    found
}

// Copies the key's definition under the latch. Whether it is a table.
fn reads<R: Wait>(session: &mut Session<R>, id: TicketId) -> bool {
    is_of_table(session.read_definition(id))
}

/// Defines `tables` tables, each with `columns` columns.
pub fn create_all<R: Wait>(
    alloc: Global,
    session: &mut Session<R>,
    tables: u16,
    columns: u16,
) -> Result<(), Failure> {
    for index in 0..tables {
        let place = look_table_up(alloc, session, index, 0)?;
        create(alloc, session, place, columns)?;
    }
    Ok(())
}

// Defines a table of `columns` columns, under a key that has no definition.
fn create<R: Wait>(
    alloc: Global,
    session: &mut Session<R>,
    place: Place,
    columns: u16,
) -> Result<(), Failure> {
    let change = Change::Create(Definition::Table(columns_of(alloc, columns)?));
    let made = change_at(session, place, &change);
    drop(change);
    made
}

// Makes `count` columns.
fn columns_of(alloc: Global, count: u16) -> Result<Columns, Failure> {
    let mut columns = Columns::new(alloc);
    match name_columns(alloc, &mut columns, count) {
        Ok(()) => Ok(columns),
        Err(why) => Err(why),
    }
}

fn name_columns(alloc: Global, columns: &mut Columns, count: u16) -> Result<(), Failure> {
    for index in 0..count {
        columns.push(column(alloc, index)?)?;
    }
    Ok(())
}

// One of many columns.
fn column(alloc: Global, index: u16) -> Result<Column, Failure> {
    let name = format!(in alloc; "column_{index}")?;
    let column = Column::new(alloc, name.as_str());
    drop(name);
    Ok(column?)
}

// Locks a table in X, changes its definition, and releases it.
fn change_at<R: Wait>(
    session: &mut Session<R>,
    place: Place,
    change: &Change,
) -> Result<(), Failure> {
    let id = take(session, place, Mode::X)?;
    session.change_definition(id, change)?;
    session.release(id)?;
    Ok(())
}
