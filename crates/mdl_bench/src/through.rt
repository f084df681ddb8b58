//! Contexts of sessions of the table that threads share, each on a thread of its own.
ghost use Rattle.std.specs.Prelude.{◌≡◌, All};
ghost use Rattle.mdl_shared.specs.Passes.{manager_table, pass_table};

use crate::contexts::{Plan, Wish, time_pass};
use crate::failure::Failure;
use crate::lap::{Lap, Race};
use mdl_key::MOST_PLACES;
use mdl_shared::{Manager, Pass};
use std::alloc::{AllocError, Global};
use std::sync::Wait;
use std::thread;
use std::thread::{JoinHandle, Scope, Threads};
use std::time::{Clock, CpuClock, Duration};

type Thread = JoinHandle<Result<Lap, Failure>>;

/// Times the turns of the sessions of a new table, one on each of `threads` threads. If `own` is set each has tables of its own, otherwise all
/// have the same.
pub fn time_through<R: Threads + Wait + Sync + Clock + CpuClock>(
    rt: &R,
    alloc: Global,
    wish: Wish,
    own: bool,
    threads: u16,
    turns: u32,
) -> Result<Duration, Failure> {
    let race = Race::new(alloc, threads, turns)?;
    let lap = match Manager::new(alloc, MOST_PLACES, threads) {
        Ok((manager, passes)) => {
            let lap = run(rt, alloc, &manager, passes, wish, own, &race);
            drop(manager);
            lap
        }
        Err(_) => Err(Failure::Unmade),
    };
    drop(race);
    Ok(lap?.clock)
}

// The same for the sessions of these passes. Returns the lap of all threads.
fn run<R: Threads + Wait + Sync + Clock + CpuClock>(
    rt: &R,
    alloc: Global,
    manager: &Manager,
    passes: Vec<Pass>,
    wish: Wish,
    own: bool,
    race: &Race,
) -> Result<Lap, Failure>
    requires { All (λ pass. pass_table pass ≡ manager_table manager.now) passes.items }
{
    thread::scope(
        thread::scope_env(),
        rt,
        move |scope| -> Result<Lap, Failure>
            requires { All (λ pass. pass_table pass ≡ manager_table manager.now) passes.items }
        {
            let threads = start_all(scope, rt, alloc, manager, passes, wish, own, race)?;
            join_all(rt, threads)
        },
    )
}

// Starts a thread for each session.
fn start_all<'s, E, R: Threads + Wait + Sync + Clock + CpuClock>(
    scope: &Scope<'s, E>,
    rt: &'s R,
    alloc: Global,
    manager: &'s Manager,
    passes: Vec<Pass>,
    wish: Wish,
    own: bool,
    race: &'s Race,
) -> Result<Vec<Thread>, AllocError>
    requires { All (λ pass. pass_table pass ≡ manager_table manager.now) passes.items }
{
    let mut threads = Vec::new(alloc);
    for pass in passes {
        let plan = plan_of(&pass, wish, own);
        threads.push(start(scope, rt, alloc, manager, pass, plan, race)?)?;
    }
    Ok(threads)
}

// What the session of a pass does.
fn plan_of(pass: &Pass, wish: Wish, own: bool) -> Plan {
    let from = if own {
        pass.number().saturating_mul(3)
    } else {
        0
    };
    Plan::Turns {
        wish,
        tickets: 0,
        from,
    }
}

// Starts a session on a thread.
fn start<'s, E, R: Threads + Wait + Sync + Clock + CpuClock>(
    scope: &Scope<'s, E>,
    rt: &'s R,
    alloc: Global,
    manager: &'s Manager,
    pass: Pass,
    plan: Plan,
    race: &'s Race,
) -> Result<Thread, AllocError>
    requires { pass_table pass ≡ manager_table manager.now }
{
    let thread = scope.spawn(
        move || -> Result<Lap, Failure>
            requires { pass_table pass ≡ manager_table manager.now }
        { time_pass(rt, rt, alloc, manager, pass, plan, race) },
    )?;
    Ok(thread)
}

// Waits for the ends of all threads. Returns the lap of all: the times of the slowest one.
fn join_all<R: Threads>(rt: &R, threads: Vec<Thread>) -> Result<Lap, Failure> {
    let mut all = Lap::NONE;
    for thread in threads {
        all = all.beside(thread.join(rt)?);
    }
    Ok(all)
}
