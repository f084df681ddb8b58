//! Plays scripts on threads, from text to text.
ghost use Rattle.std.specs.Prelude.{◌≡◌, ◌≤◌, All, IfOk, length};
ghost use Rattle.std.specs.List.{list_all};
ghost use Rattle.mdl_shared.specs.Passes.{manager_table, pass_table};
ghost use Rattle.mdl_stmt.specs.Attendance.{IsCapacity};
ghost use Rattle.mdl_script.specs.Turns.{has_pass};

use mdl_script::{DEFAULT_CACHE, Gate, Ran, run_on, run_threads};
use mdl_shared::{Manager, Pass};
use mdl_syntax::{Script, parse};
use std::alloc::{AllocError, Global};
use std::mem::drop;
use std::process::Abort;
use std::sync::Wait;
use std::test::Fail;
use std::thread::Threads;

/// Returns the lines of a row, which are separated by ` / `.
pub(crate) fn lines(alloc: Global, row: &str) -> Result<String, AllocError> {
    let mut text = String::new(alloc);
    for line in row.split(" / ") {
        text.push_str(line)?;
        text.push('\n')?;
    }
    Ok(text)
}

/// Fails unless a script has this text when no session has patience. The lines of both are separated by ` / `.
pub(crate) fn must_be_played_so<R: Threads + Wait + Sync + Abort, G: Gate + Sync>(
    rt: &R,
    alloc: Global,
    script: &str,
    text: &str,
    gate: &G,
) -> Result<(), Fail> {
    let asked = lines(alloc, script)?;
    let played = played(rt, alloc, asked.as_str(), gate);
    drop(asked);
    let played = played?;
    must_be(rt, alloc, played.as_str(), text)?;
    drop(played);
    Ok(())
}

// Fails unless these are the lines of a row.
fn must_be(rt: &impl Abort, alloc: Global, text: &str, row: &str) -> Result<(), AllocError> {
    let wanted = lines(alloc, row)?;
    assert!(rt; text == wanted.as_str(), "{text}");
    drop(wanted);
    Ok(())
}

// Returns the text of a run of a script.
fn played<R: Threads + Wait + Sync, G: Gate + Sync>(
    rt: &R,
    alloc: Global,
    script: &str,
    gate: &G,
) -> Result<String, Fail> {
    let script = parse(alloc, script.as_bytes())?;
    let played = run_threads(rt, alloc, &script, 0, DEFAULT_CACHE, gate);
    drop(script);
    Ok(played?)
}

// Whether one of these passes is that of the session.
fn has_pass(passes: &[Pass], who: u16) -> bool
    ensures { result ≡ has_pass passes.now who }
{
    passes.iter().any(|pass| pass.number() == who)
}

// Whether there is a pass for the session of each line.
fn are_there(passes: &[Pass], script: &Script) -> bool
    ensures { result ≡ list_all (λ line. has_pass passes.now line.session) script.now }
{
    script
        .lines()
        .iter()
        .all(|line| has_pass(passes, line.session))
}

/// Plays a script over an existing lock table, with these of its passes. Returns the text, and the passes that come back.
pub(crate) fn played_on<R: Threads + Wait + Sync, G: Gate + Sync>(
    rt: &R,
    alloc: Global,
    manager: &Manager,
    passes: Vec<Pass>,
    script: &str,
    patience: u32,
    cache: u16,
    gate: &G,
) -> Result<Ran, Fail>
    requires capacity { IsCapacity cache }
    requires some { 1 ≤ length passes.items }
    requires theirs { All (λ pass. pass_table pass ≡ manager_table manager.now) passes.items }
    ensures some { IfOk result (λ ran. 1 ≤ length ran.passes.items) }
    ensures theirs { IfOk result (λ ran. All (λ pass. pass_table pass ≡ manager_table manager.now) ran.passes.items) }
{
    let script = parse(alloc, script.as_bytes())?;
    if !are_there(&passes, &script) {
        return Err(Fail::from("a session has no pass"));
    }
    Ok(run_on(rt, alloc, manager, passes, &script, patience, cache, gate)?)
}
