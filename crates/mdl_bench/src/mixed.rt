//! Transactions with three of eight tables, beside other sessions, with an ALTER at times.
ghost use Rattle.std.specs.Prelude.{◌≡◌, true};
ghost use Rattle.mdl_key.specs.KeyLookups.{is_known};
ghost use Rattle.mdl_shared.specs.SessionViews.{data_of};

use crate::beside::{Part, TURNS_AN_ALTER, alter, turn_often};
use crate::failure::Failure;
use crate::lap::{Lap, Race, Start};
use crate::places::{Places, look_all_up};
use mdl_shared::Session;
use std::alloc::Global;
use std::sync::Wait;
use std::time::{Clock, CpuClock, Duration};

// How many of the eight tables can be the first of three.
const FIRSTS: u32 = 6;

// The number of turns with the same three tables: a block. Each session begins with other tables.
const BLOCK: u32 = 500;

/// Times a session's turns, once all threads are ready.
pub fn time_mixed<R: Wait + Clock + CpuClock>(
    rt: &R,
    alloc: Global,
    session: &mut Session<&R>,
    race: &Race,
) -> Result<Lap, Failure> {
    learn(alloc, session)?;
    let start = Start::of(rt, race)?;
    let alters = mix(rt, alloc, session, race.turns)?;
    let lap = start.lap(rt, race, race.turns)?;
    Ok(Lap { alters, ..lap })
}

// Looks up all eight tables.
fn learn<R: Wait>(alloc: Global, session: &mut Session<&R>) -> Result<(), Failure> {
    for first in 0..FIRSTS {
        look_all_up(alloc, session, first as u16)?;
    }
    Ok(())
}

// Makes `turns` turns. Returns how long all ALTERs among them took.
fn mix<R: Wait + Clock>(
    rt: &R,
    alloc: Global,
    session: &mut Session<&R>,
    turns: u32,
) -> Result<Duration, Failure> {
    let mut alters = Duration::ZERO;
    for block in 0..turns.div_ceil(BLOCK) {
        alters = alters.saturating_add(make_block(rt, alloc, session, block, turns)?);
    }
    Ok(alters)
}

// Makes the turns of a block, or those of `turns` turns that are left. Returns how long its ALTER took, if it has one.
fn make_block<R: Wait + Clock>(
    rt: &R,
    alloc: Global,
    session: &mut Session<&R>,
    block: u32,
    turns: u32,
) -> Result<Duration, Failure> {
    let first = block.wrapping_add(u32::from(session.number())) % FIRSTS;
    let places = look_all_up(alloc, session, first as u16)?;
    let made = block.saturating_mul(BLOCK);
    let spent = alter_at(rt, session, places, made)?;
    let left = turns.saturating_sub(made);
    turn_often(rt, session, places, &Part::Transaction, left.min(BLOCK))?;
    Ok(spent)
}

// Makes an ALTER if the number of turns made before is a multiple of [`TURNS_AN_ALTER`]. Returns how long it took.
fn alter_at<R: Wait + Clock>(
    rt: &R,
    session: &mut Session<&R>,
    places: Places,
    made: u32,
) -> Result<Duration, Failure>
    requires third { is_known places.third (data_of session.old).known ≡ true }
    ensures known { (data_of session.new).known ≡ (data_of session.old).known }
{
    if made % TURNS_AN_ALTER == 0 {
        alter(rt, session, places)
    } else {
        Ok(Duration::ZERO)
    }
}
