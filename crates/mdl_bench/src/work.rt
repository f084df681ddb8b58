//! The work that is timed for a figure.
use crate::beside::TURNS_AN_ALTER;
use crate::books::{Asked, Shape, time_asking, time_grants, time_searches};
use crate::contexts::{Home, Plan, Wish, time_context};
use crate::crowds::{Crowd, time_crowd};
use crate::failure::Failure;
use crate::lap::Lap;
use crate::play::{Task, time_task};
use crate::probes::{time_key_probes, time_version_probes};
use crate::space::time_taking;
use crate::through::time_through;
use std::alloc::Global;
use std::sync::Wait;
use std::thread::Threads;
use std::time::{Clock, CpuClock, Duration};

/// The work that is timed for a figure.
pub enum Work {
    /// A task of sessions of the table that threads share, one on each thread: its time by the clock.
    Plays(Task),
    /// The same: the longest processor time of a thread.
    Processors(Task),
    /// The same: the time if each turn took the mean time of an ALTER.
    Alters(Task),
    /// Many sessions of the table that threads share, on one thread.
    Crowds(Crowd),
    /// A context of a session of the table that threads share. The session holds this number of tickets.
    Shared(Wish, u16),
    /// Ends of transactions of such a session. Each ends with this number of tickets.
    Ends(u16),
    /// A context of a session of a space of one thread. The session holds this number of tickets.
    Alone(Wish, u16),
    /// Contexts of sessions of the table that threads share, one on each thread. If the flag is set each session has tables of its own, otherwise
    /// all have the same.
    Through(Wish, bool),
    /// A session of a space of one thread, without a context. It holds this number of tickets.
    Takes(u16),
    /// A book of this number of tickets.
    Asks(Asked, u16),
    /// A book of this number of waiters, which are granted one after another.
    Grants(u16),
    /// Books of this number of sessions, searched for a deadlock.
    Searches(Shape, u16),
    /// A map of this number of keys.
    Keys(u16),
    /// A map of this number of places and versions.
    Versions(u16),
}

impl Work {
    /// Returns how long `turns` turns took, with everything set up anew. Fails if an answer is wrong.
    pub fn round<R: Threads + Wait + Sync + Clock + CpuClock>(
        &self,
        rt: &R,
        alloc: Global,
        threads: u16,
        turns: u32,
    ) -> Result<Duration, Failure> {
        match self {
            Work::Plays(task) => Ok(time_task(rt, alloc, task, threads, turns)?.clock),
            Work::Processors(task) => Ok(time_task(rt, alloc, task, threads, turns)?.processor),
            Work::Alters(task) => Ok(of_alters(
                time_task(rt, alloc, task, threads, turns)?,
                threads,
                turns,
            )),
            Work::Crowds(crowd) => time_crowd(rt, alloc, crowd, turns),
            Work::Shared(wish, tickets) => {
                time_wish(rt, alloc, &Home::Shared, *wish, *tickets, turns)
            }
            Work::Ends(tickets) => {
                time_context(rt, alloc, &Home::Shared, Plan::Ends(*tickets), turns)
            }
            Work::Alone(wish, tickets) => {
                time_wish(rt, alloc, &Home::Alone, *wish, *tickets, turns)
            }
            Work::Through(wish, own) => time_through(rt, alloc, *wish, *own, threads, turns),
            Work::Takes(tickets) => time_taking(rt, alloc, *tickets, turns),
            Work::Asks(asked, tickets) => time_asking(rt, alloc, asked, *tickets, turns),
            Work::Grants(waiters) => time_grants(rt, alloc, *waiters, turns),
            Work::Searches(shape, sessions) => time_searches(rt, alloc, shape, *sessions, turns),
            Work::Keys(keys) => time_key_probes(rt, alloc, *keys, turns),
            Work::Versions(places) => time_version_probes(rt, alloc, *places, turns),
        }
    }
}

// Times turns of a session's context.
fn time_wish<R: Wait + Clock + CpuClock>(
    rt: &R,
    alloc: Global,
    home: &Home,
    wish: Wish,
    tickets: u16,
    turns: u32,
) -> Result<Duration, Failure> {
    let plan = Plan::Turns {
        wish,
        tickets,
        from: 0,
    };
    time_context(rt, alloc, home, plan, turns)
}

// Returns how long the turns would take if each took the mean time of an ALTER. A thread makes one before every [`TURNS_AN_ALTER`] turns.
fn of_alters(lap: Lap, threads: u16, turns: u32) -> Duration {
    let each = u64::from(turns.div_ceil(TURNS_AN_ALTER));
    let alters = each.saturating_mul(u64::from(threads));
    let nanoseconds = u64::try_from(lap.alters.as_nanos()).unwrap_or(u64::MAX);
    let one = nanoseconds.checked_div(alters).unwrap_or(u64::MAX);
    Duration::from_nanos(one.saturating_mul(u64::from(turns)))
}
