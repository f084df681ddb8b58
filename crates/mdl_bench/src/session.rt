//! The repeated calls of a session of the table that threads share, while no other session requests anything.
ghost use Rattle.std.specs.Prelude.{◌≡◌, true};
ghost use Rattle.mdl_key.specs.KeyLookups.{is_known};
ghost use Rattle.mdl_shared.specs.SessionViews.{data_of};

use crate::failure::Failure;
use crate::lap::{Lap, Race, Start};
use crate::places::{Places, look_all_up, look_table_up};
use crate::seat::{gain, give_up};
use crate::table::table;
use mdl_calls::{Attempt, Place, TicketId, Upgrade};
use mdl_key::{Key, Mode};
use mdl_shared::Session;
use std::alloc::Global;
use std::sync::Wait;
use std::time::{Clock, CpuClock};

/// The number of places that a session knows, and at how many of them, the last ones, it holds a ticket.
#[derive(Clone, Copy)]
pub struct Stock {
    pub known: u16,
    pub held: u16,
}

impl Stock {
    // The index of the table that is looked up last.
    fn last(self) -> u16 {
        self.known.saturating_sub(1)
    }
}

/// A call, or two, at the place that was looked up last.
#[derive(Clone, Copy)]
pub enum Call {
    /// The lock is taken in X and released. The session's own ticket doesn't block it.
    Exclusive,
    /// The place of the key, which the session knows, is looked up.
    Resolve,
    /// The key of the place is looked up.
    KeyOf,
    /// The version and definition of the key are read.
    Read,
    /// The ticket there is upgraded to a stronger mode, and downgraded to its own again.
    Alter,
}

// The place that was looked up last, and the ticket there, if any.
#[derive(Clone, Copy)]
struct Last {
    place: Place,
    id: TicketId,
}

/// Times fast tickets to read, which a session gains and releases at the place that it looked up last.
pub fn time_pairs<R: Wait + Clock + CpuClock>(
    rt: &R,
    alloc: Global,
    session: &mut Session<&R>,
    stock: Stock,
    race: &Race,
) -> Result<Lap, Failure> {
    stock_up(alloc, session, stock, Mode::SR)?;
    let place = look_table_up(alloc, session, stock.last(), 1)?;
    let start = Start::of(rt, race)?;
    let made = make_pairs(session, place, race.turns);
    start.lap(rt, race, made)
}

// Makes `turns` pairs of calls. Returns how many succeeded.
fn make_pairs<R>(session: &mut Session<R>, place: Place, turns: u32) -> u32
    requires known { is_known place (data_of session.old).known ≡ true }
{
    let mut made = 0u32;
    for _turn in 0..turns {
        let Some(id) = gain(session, place, Mode::SR) else {
            break;
        };
        if give_up(session, id) {
            made = made.wrapping_add(1);
        }
    }
    made
}

// Looks up the session's places, and takes its tickets in a mode. Returns the place that was looked up last, with its ticket.
fn stock_up<R: Wait>(
    alloc: Global,
    session: &mut Session<R>,
    stock: Stock,
    mode: Mode,
) -> Result<Last, Failure> {
    let mut last = Last { place: 0, id: 0 };
    for index in 0..stock.known {
        last.place = look_table_up(alloc, session, index, 0)?;
        if index.saturating_add(stock.held) >= stock.known {
            last.id = take(session, last.place, mode)?;
        }
    }
    Ok(last)
}

/// Takes a lock that is free.
pub fn take<R: Wait>(
    session: &mut Session<R>,
    place: Place,
    mode: Mode,
) -> Result<TicketId, Failure> {
    match session.try_now(place, mode)? {
        Attempt::Granted(id) => Ok(id),
        Attempt::WouldWait => Err(Failure::Unexpected),
    }
}

/// Times a session's calls.
pub fn time_calls<R: Wait + Clock + CpuClock>(
    rt: &R,
    alloc: Global,
    session: &mut Session<&R>,
    call: &Call,
    stock: Stock,
    race: &Race,
) -> Result<Lap, Failure> {
    let last = stock_up(alloc, session, stock, Mode::SU)?;
    let key = table(alloc, stock.last())?;
    let lap = call_often(rt, session, call, &key, last, race);
    drop(key);
    lap
}

// Times the calls. Fails with [`Failure::Unexpected`] unless all have the right answer.
fn call_often<R: Wait + Clock + CpuClock>(
    rt: &R,
    session: &mut Session<&R>,
    call: &Call,
    key: &Key,
    last: Last,
    race: &Race,
) -> Result<Lap, Failure> {
    let start = Start::of(rt, race)?;
    let mut made = 0u32;
    for _turn in 0..race.turns {
        let well = match call {
            Call::Exclusive => takes(session, last.place),
            Call::Resolve => has_place(session, key, last.place),
            Call::KeyOf => has_key(session, key, last.place),
            Call::Read => finds_nothing(session, last.id),
            Call::Alter => alters(session, last.id),
        };
        made = made.wrapping_add(u32::from(well));
    }
    start.lap(rt, race, made)
}

fn takes<R: Wait>(session: &mut Session<R>, place: Place) -> bool {
    match session.try_now(place, Mode::X) {
        Ok(Attempt::Granted(id)) => session.release(id).is_ok(),
        _ => false,
    }
}

/// Whether a key has this place.
pub fn has_place<R: Wait>(session: &mut Session<R>, key: &Key, place: Place) -> bool {
    match session.resolve(key) {
        Ok(found) => found == place,
        Err(_) => false,
    }
}

fn has_key<R>(session: &mut Session<R>, key: &Key, place: Place) -> bool {
    match session.key_of(place) {
        Ok(found) => {
            let is_so = found == *key;
            drop(found);
            is_so
        }
        Err(_) => false,
    }
}

fn finds_nothing<R: Wait>(session: &mut Session<R>, id: TicketId) -> bool {
    match session.read_definition(id) {
        Ok(standing) => {
            let is_none = standing.definition.is_none();
            drop(standing);
            is_none
        }
        Err(_) => false,
    }
}

fn alters<R: Wait>(session: &mut Session<R>, id: TicketId) -> bool {
    match session.upgrade_now(id, Mode::X) {
        Ok(Upgrade::Upgraded) => session.downgrade(id, Mode::SU).is_ok(),
        _ => false,
    }
}

/// Times transactions: a session gains fast tickets of GLOBAL in IX and of three tables in SW, and releases them.
pub fn time_transactions<R: Wait + Clock + CpuClock>(
    rt: &R,
    alloc: Global,
    session: &mut Session<&R>,
    race: &Race,
) -> Result<Lap, Failure> {
    let places = look_all_up(alloc, session, 0)?;
    let start = Start::of(rt, race)?;
    let made = transact_often(session, places, race.turns);
    start.lap(rt, race, made)
}

// Makes `turns` transactions. Returns how many succeeded.
fn transact_often<R>(session: &mut Session<R>, places: Places, turns: u32) -> u32
    requires global { is_known places.global (data_of session.old).known ≡ true }
    requires first { is_known places.first (data_of session.old).known ≡ true }
    requires second { is_known places.second (data_of session.old).known ≡ true }
    requires third { is_known places.third (data_of session.old).known ≡ true }
{
    let mut made = 0u32;
    for _turn in 0..turns {
        if transacts(session, places) {
            made = made.wrapping_add(1);
        }
    }
    made
}

// Gains the fast tickets and releases them, the last one first, as MySQL ends a transaction. Whether all calls succeeded.
fn transacts<R>(session: &mut Session<R>, places: Places) -> bool
    requires global { is_known places.global (data_of session.old).known ≡ true }
    requires first { is_known places.first (data_of session.old).known ≡ true }
    requires second { is_known places.second (data_of session.old).known ≡ true }
    requires third { is_known places.third (data_of session.old).known ≡ true }
    ensures known { (data_of session.new).known ≡ (data_of session.old).known }
{
    let Some(global) = gain(session, places.global, Mode::IX) else {
        return false;
    };
    let Some(first) = gain(session, places.first, Mode::SW) else {
        return false;
    };
    let Some(second) = gain(session, places.second, Mode::SW) else {
        return false;
    };
    let Some(third) = gain(session, places.third, Mode::SW) else {
        return false;
    };
    give_up(session, third)
        && give_up(session, second)
        && give_up(session, first)
        && give_up(session, global)
}
