//! A session with many tickets: how long it takes to release them, or to make them slow.
use crate::failure::Failure;
use crate::lap::{Lap, Race};
use crate::places::look_table_up;
use crate::session::take;
use mdl_calls::TicketId;
use mdl_key::Mode;
use mdl_shared::Session;
use std::alloc::Global;
use std::sync::Wait;
use std::time::{Clock, Duration, Instant};

// The number of tables over which the tickets are spread, and so the index of another one.
const SPREAD: u16 = 250;

/// What a session with many fast tickets does in a turn.
#[derive(Clone, Copy)]
pub enum Many {
    /// It releases them, from the newest to the oldest.
    End,
    /// It takes X of another table, before which they become slow.
    Slow,
}

/// Times what a session does with `tickets` tickets. It gains them before each turn.
pub fn time_many<R: Wait + Clock>(
    rt: &R,
    alloc: Global,
    session: &mut Session<&R>,
    many: &Many,
    tickets: u16,
    race: &Race,
) -> Result<Lap, Failure> {
    let mut ids = Vec::new(alloc);
    let spent = turn_often(rt, alloc, session, many, tickets, race.turns, &mut ids);
    drop(ids);
    Ok(Lap::by_clock(spent?))
}

// Makes `turns` turns. Returns how long all of them took.
fn turn_often<R: Wait + Clock>(
    rt: &R,
    alloc: Global,
    session: &mut Session<&R>,
    many: &Many,
    tickets: u16,
    turns: u32,
    ids: &mut Vec<TicketId>,
) -> Result<Duration, Failure> {
    let mut spent = Duration::ZERO;
    for _turn in 0..turns {
        gain_all(alloc, session, tickets, ids)?;
        let turn = match many {
            Many::End => time_end(rt, session, ids.as_slice()),
            Many::Slow => time_slowing(rt, alloc, session, ids.as_slice()),
        };
        spent = spent.saturating_add(turn?);
        ids.clear();
    }
    Ok(spent)
}

// Gains `tickets` tickets to read, spread over tables.
fn gain_all<R: Wait>(
    alloc: Global,
    session: &mut Session<&R>,
    tickets: u16,
    ids: &mut Vec<TicketId>,
) -> Result<(), Failure> {
    for index in 0..tickets {
        let place = look_table_up(alloc, session, index % SPREAD, 0)?;
        let id = take(session, place, Mode::SR)?;
        if ids.push(id).is_err() {
            return Err(Failure::Memory);
        }
    }
    Ok(())
}

// Releases all tickets. Returns how long that took.
fn time_end<R: Wait + Clock>(
    rt: &R,
    session: &mut Session<&R>,
    ids: &[TicketId],
) -> Result<Duration, Failure> {
    let began = Instant::now(rt)?;
    release_all(session, ids)?;
    Ok(began.elapsed(rt)?)
}

// Takes X of another table. Returns how long that took. Then releases all.
fn time_slowing<R: Wait + Clock>(
    rt: &R,
    alloc: Global,
    session: &mut Session<&R>,
    ids: &[TicketId],
) -> Result<Duration, Failure> {
    let place = look_table_up(alloc, session, SPREAD, 0)?;
    let began = Instant::now(rt)?;
    let id = take(session, place, Mode::X)?;
    let spent = began.elapsed(rt)?;
    session.release(id)?;
    release_all(session, ids)?;
    Ok(spent)
}

// Releases tickets, from the last one to the first.
fn release_all<R: Wait>(session: &mut Session<&R>, ids: &[TicketId]) -> Result<(), Failure> {
    for id in ids.iter().rev() {
        session.release(*id)?;
    }
    Ok(())
}
