//! A thread for each session that is asked for something.
ghost use Rattle.std.specs.Prelude.{◌≡◌, All};
ghost use Rattle.mdl.specs.mdl_shared.Passes.{manager_table, pass_table};

use crate::requests::{Request, is_asked, read_requests};
use crate::session::serve;
use mdl::key::{MOST_PLACES, MOST_SESSIONS};
use mdl::{Manager, Pass};
use std::alloc::{AllocError, Global};
use std::sync::Wait;
use std::thread;
use std::thread::{JoinHandle, Scope, Threads};

/// Writes the errors of lines that are no requests, and then what each session answers, in the order of their numbers.
///
/// It fails where memory is wanting, or a thread can't be started.
pub fn answers<R: Threads + Wait + Sync>(
    text: &mut String,
    rt: &R,
    alloc: Global,
    input: &[u8],
) -> Result<(), AllocError> {
    let requests = read_requests(alloc, input, text)?;
    match Manager::new(alloc, MOST_PLACES, MOST_SESSIONS) {
        Ok((manager, passes)) => push_all(text, rt, alloc, &manager, passes, &requests),
        Err(_error) => Err(AllocError),
    }
}

// Writes what all sessions answer.
fn push_all<R: Threads + Wait + Sync>(
    text: &mut String,
    rt: &R,
    alloc: Global,
    manager: &Manager,
    passes: Vec<Pass>,
    requests: &[Request<'_>],
) -> Result<(), AllocError>
    requires { All (λ pass. pass_table pass ≡ manager_table manager.now) passes.items }
{
    thread::scope(
        thread::scope_env(),
        rt,
        move |scope| -> Result<(), AllocError>
            requires { All (λ pass. pass_table pass ≡ manager_table manager.now) passes.items }
        {
            let threads = start_all(scope, rt, alloc, manager, passes, requests)?;
            join_all(text, rt, threads)
        },
    )
}

type Thread = JoinHandle<Result<String, AllocError>>;

// Starts a thread for each session that has requests.
fn start_all<'s, E, R: Threads + Wait + Sync>(
    scope: &Scope<'s, E>,
    rt: &'s R,
    alloc: Global,
    manager: &'s Manager,
    passes: Vec<Pass>,
    requests: &'s [Request<'s>],
) -> Result<Vec<Thread>, AllocError>
    requires { All (λ pass. pass_table pass ≡ manager_table manager.now) passes.items }
{
    let mut threads = Vec::new(alloc);
    for pass in passes {
        if is_asked(requests, pass.number()) {
            threads.push(start(scope, rt, alloc, manager, pass, requests)?)?;
        }
    }
    Ok(threads)
}

// Starts a session on a thread.
fn start<'s, E, R: Threads + Wait + Sync>(
    scope: &Scope<'s, E>,
    rt: &'s R,
    alloc: Global,
    manager: &'s Manager,
    pass: Pass,
    requests: &'s [Request<'s>],
) -> Result<Thread, AllocError>
    requires { pass_table pass ≡ manager_table manager.now }
{
    let thread = scope.spawn(
        move || -> Result<String, AllocError>
            requires { pass_table pass ≡ manager_table manager.now }
        { serve(rt, alloc, manager, pass, requests) },
    )?;
    Ok(thread)
}

// Waits for the ends of all threads, and writes what they answer.
fn join_all<R: Threads>(text: &mut String, rt: &R, threads: Vec<Thread>) -> Result<(), AllocError> {
    for thread in threads {
        let answered = thread.join(rt)?;
        text.push_str(&answered)?;
    }
    Ok(())
}
