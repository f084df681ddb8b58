//! Times the tasks of sessions of a new table, each on a thread of its own.
use crate::beside::{Part, time_part};
use crate::failure::Failure;
use crate::guests::{Guest, open_all};
use crate::lap::{Lap, Race, Start};
use crate::many::{Many, time_many};
use crate::mixed::time_mixed;
use crate::reads::{Reading, create_all, time_reads};
use crate::session::{Call, Stock, time_calls, time_pairs, time_transactions};
use crate::words::Step;
use mdl_key::{MOST_PLACES, MOST_SESSIONS};
use mdl_shared::Session;
use std::alloc::Global;
use std::sync::Wait;
use std::thread;
use std::thread::Threads;
use std::time::{Clock, CpuClock};

/// What each session does in its turns.
#[derive(Drop)]
pub enum Task {
    /// No calls, only atomic steps.
    Steps(Step),
    /// Fast tickets to read, of a session with a stock.
    Pairs(Stock),
    /// Calls of a session with a stock.
    Calls(Call, Stock),
    /// Transactions.
    Transactions,
    /// Transactions and other parts, beside other sessions. If the flag is set each session has tables of its own, otherwise all have the same.
    Beside(Part, bool),
    /// Transactions with three of eight tables, and ALTERs at times, beside other sessions.
    Mixed,
    /// Reads of the last of this number of tables, each with this number of columns.
    Reads(Reading, u16, u16),
    /// What a session with this number of tickets does.
    Burdened(Many, u16),
}

impl Task {
    // Prepares the task by another session: it defines the tables that are read.
    fn prepare<R: Wait>(&self, alloc: Global, session: &mut Session<&R>) -> Result<(), Failure> {
        match self {
            Task::Reads(_, tables, columns) => create_all(alloc, session, *tables, *columns),
            _ => Ok(()),
        }
    }

    // Performs the task by a session that has nothing yet.
    fn play<R: Wait + Clock + CpuClock>(
        &self,
        rt: &R,
        alloc: Global,
        session: &mut Session<&R>,
        race: &Race,
    ) -> Result<Lap, Failure> {
        match self {
            Task::Steps(step) => time_steps(rt, step, session.number(), race),
            Task::Pairs(stock) => time_pairs(rt, alloc, session, *stock, race),
            Task::Calls(call, stock) => time_calls(rt, alloc, session, call, *stock, race),
            Task::Transactions => time_transactions(rt, alloc, session, race),
            Task::Beside(part, own) => time_part(rt, alloc, session, part, *own, race),
            Task::Mixed => time_mixed(rt, alloc, session, race),
            Task::Reads(reading, tables, _) => {
                time_reads(rt, alloc, session, reading, *tables, race)
            }
            Task::Burdened(many, tickets) => time_many(rt, alloc, session, many, *tickets, race),
        }
    }
}

// Times the steps of a thread.
fn time_steps<R: Clock + CpuClock>(
    rt: &R,
    step: &Step,
    thread: u16,
    race: &Race,
) -> Result<Lap, Failure> {
    let start = Start::of(rt, race)?;
    let made = race.words.make(step, thread, race.turns);
    start.lap(rt, race, made)
}

/// Times a task on `threads` threads, each with `turns` turns.
pub fn time_task<R: Threads + Wait + Sync + Clock + CpuClock>(
    rt: &R,
    alloc: Global,
    task: &Task,
    threads: u16,
    turns: u32,
) -> Result<Lap, Failure> {
    let race = Race::new(alloc, threads, turns)?;
    let mut guests = Vec::new(alloc);
    let lap = match seat_all(rt, alloc, task, threads, &mut guests) {
        Ok(()) => run(rt, alloc, guests, task, &race),
        Err(why) => {
            drop(guests);
            Err(why)
        }
    };
    drop(race);
    lap
}

// Opens the sessions of a new table, prepares the task by the last one, and keeps one session for each thread.
fn seat_all<'r, R: Wait>(
    rt: &'r R,
    alloc: Global,
    task: &Task,
    threads: u16,
    guests: &mut Vec<Guest<'r, R>>,
) -> Result<(), Failure> {
    open_all(rt, alloc, MOST_PLACES, MOST_SESSIONS, guests)?;
    if let Some(last) = guests.last_mut() {
        task.prepare(alloc, &mut last.session)?;
    }
    guests.truncate(usize::from(threads));
    Ok(())
}

// Performs the task by each session on a thread of its own. Returns the lap of all threads.
fn run<R: Threads + Wait + Sync + Clock + CpuClock>(
    rt: &R,
    alloc: Global,
    guests: Vec<Guest<'_, R>>,
    task: &Task,
    race: &Race,
) -> Result<Lap, Failure> {
    let laps = thread::map_vec(rt, guests, &|guest| play(rt, alloc, guest, task, race));
    match laps {
        Ok(laps) => slowest(&laps),
        Err(_) => Err(Failure::Memory),
    }
}

// Performs the task by a session, and closes the session.
fn play<R: Wait + Clock + CpuClock>(
    rt: &R,
    alloc: Global,
    mut guest: Guest<'_, R>,
    task: &Task,
    race: &Race,
) -> Result<Lap, Failure> {
    let lap = task.play(rt, alloc, &mut guest.session, race);
    drop(guest);
    lap
}

// Returns the lap of all threads: the times of the slowest one, and the ALTERs of all.
fn slowest(laps: &[Result<Lap, Failure>]) -> Result<Lap, Failure> {
    let mut all = Lap::NONE;
    for lap in laps {
        all = all.beside((*lap)?);
    }
    Ok(all)
}
