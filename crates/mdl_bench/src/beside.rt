//! The repeated calls of a session on a thread of its own, beside other sessions.
ghost use Rattle.std.specs.Prelude.{◌≡◌, true};
ghost use Rattle.mdl_key.specs.KeyLookups.{is_known};
ghost use Rattle.mdl_shared.specs.SessionViews.{data_of};

use crate::failure::Failure;
use crate::lap::{Lap, Race, Start};
use crate::patient::{gain, give_up, take};
use crate::places::{Places, look_all_up};
use mdl_key::Mode;
use mdl_shared::Session;
use std::alloc::Global;
use std::sync::Wait;
use std::time::{Clock, CpuClock, Duration, Instant};

/// What is done in a turn.
#[derive(Clone, Copy)]
pub enum Part {
    /// A fast ticket to read is gained at the last table, and released.
    Pair,
    /// Tickets of GLOBAL in IX and of three tables in SW are gained, and all are released.
    Transaction,
    /// The same. Before the first, and every ten thousandth after it, an ALTER locks the last table in X, and releases it.
    TransactionOrAlter,
    /// X of the last table is gained, and released.
    Exclusive,
}

/// The number of turns for each ALTER.
pub const TURNS_AN_ALTER: u32 = 10_000;

/// Times a session's turns, once all threads are ready. If `own` is set it has tables of its own, otherwise all sessions have the same.
pub fn time_part<R: Wait + Clock + CpuClock>(
    rt: &R,
    alloc: Global,
    session: &mut Session<&R>,
    part: &Part,
    own: bool,
    race: &Race,
) -> Result<Lap, Failure> {
    let from = if own {
        session.number().saturating_mul(3)
    } else {
        0
    };
    let places = look_all_up(alloc, session, from)?;
    let start = Start::of(rt, race)?;
    let alters = turn_often(rt, session, places, part, race.turns)?;
    let lap = start.lap(rt, race, race.turns)?;
    Ok(Lap { alters, ..lap })
}

/// Makes `turns` turns. Returns how long all ALTERs among them took.
pub fn turn_often<R: Wait + Clock>(
    rt: &R,
    session: &mut Session<&R>,
    places: Places,
    part: &Part,
    turns: u32,
) -> Result<Duration, Failure>
    requires global { is_known places.global (data_of session.old).known ≡ true }
    requires first { is_known places.first (data_of session.old).known ≡ true }
    requires second { is_known places.second (data_of session.old).known ≡ true }
    requires third { is_known places.third (data_of session.old).known ≡ true }
{
    let mut alters = Duration::ZERO;
    for turn in 0..turns {
        match part {
            Part::Pair => pair(rt, session, places)?,
            Part::Transaction => transaction(rt, session, places)?,
            Part::TransactionOrAlter => {
                if turn % TURNS_AN_ALTER == 0 {
                    alters = alters.saturating_add(alter(rt, session, places)?);
                }
                transaction(rt, session, places)?;
            }
            Part::Exclusive => exclude(rt, session, places)?,
        }
    }
    Ok(alters)
}

// Gains a fast ticket at the last table, and releases it.
fn pair<R: Wait>(rt: &R, session: &mut Session<&R>, places: Places) -> Result<(), Failure>
    requires third { is_known places.third (data_of session.old).known ≡ true }
    ensures known { (data_of session.new).known ≡ (data_of session.old).known }
{
    let id = gain(rt, session, places.third, Mode::SR)?;
    give_up(session, places.third, id)
}

// Gains tickets of all four, and releases them. All sessions gain them in this order, so no two wait for each other.
fn transaction<R: Wait>(rt: &R, session: &mut Session<&R>, places: Places) -> Result<(), Failure>
    requires global { is_known places.global (data_of session.old).known ≡ true }
    requires first { is_known places.first (data_of session.old).known ≡ true }
    requires second { is_known places.second (data_of session.old).known ≡ true }
    requires third { is_known places.third (data_of session.old).known ≡ true }
    ensures known { (data_of session.new).known ≡ (data_of session.old).known }
{
    let a = gain(rt, session, places.global, Mode::IX)?;
    let b = gain(rt, session, places.first, Mode::SW)?;
    let c = gain(rt, session, places.second, Mode::SW)?;
    let d = gain(rt, session, places.third, Mode::SW)?;
    give_up(session, places.third, d)?;
    give_up(session, places.second, c)?;
    give_up(session, places.first, b)?;
    give_up(session, places.global, a)
}

// Locks the last table in X, and releases it.
fn exclude<R: Wait>(rt: &R, session: &mut Session<&R>, places: Places) -> Result<(), Failure>
    requires third { is_known places.third (data_of session.old).known ≡ true }
    ensures known { (data_of session.new).known ≡ (data_of session.old).known }
{
    let id = take(rt, session, places.third, Mode::X)?;
    give_up(session, places.third, id)
}

/// Locks the last table in X, and releases it. Returns how long that took.
pub fn alter<R: Wait + Clock>(
    rt: &R,
    session: &mut Session<&R>,
    places: Places,
) -> Result<Duration, Failure>
    requires third { is_known places.third (data_of session.old).known ≡ true }
    ensures known { (data_of session.new).known ≡ (data_of session.old).known }
{
    let began = Instant::now(rt)?;
    exclude(rt, session, places)?;
    Ok(began.elapsed(rt)?)
}
