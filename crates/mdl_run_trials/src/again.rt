//! A second script is played by the sessions of a first one, over the passes that came back.
ghost use Rattle.std.specs.Prelude.{◌≡◌, ◌≤◌, All, IfOk, length};
ghost use Rattle.mdl_shared.specs.Passes.{manager_table, pass_table};

use crate::playing::played_on;
use mdl_key::MOST_PLACES;
use mdl_script::{DEFAULT_CACHE, OpenGate, Ran};
use mdl_shared::{Manager, Pass};
use std::alloc::Global;
use std::mem::drop;
use std::sync::Wait;
use std::test::Fail;
use std::thread::Threads;

// Session 3 has no line in the first script.
const FIRST: &str = "2 CREATE TABLE t x\n2 BEGIN\n2 SELECT t\n";

const SECOND: &str = "1 SELECT t\n2 SELECT t\n3 SELECT t\n";

const TEXT: &str = "\
1 1 OK test.t@1(x)
2 2 OK test.t@1(x)
3 3 OK test.t@1(x)
FINAL SCHEMA test@1
FINAL TABLE test.t@1(x)
";

// Plays a script over a lock table with these of its passes. No session has patience.
fn played<R: Threads + Wait + Sync>(
    rt: &R,
    alloc: Global,
    manager: &Manager,
    passes: Vec<Pass>,
    script: &str,
) -> Result<Ran, Fail>
    requires some { 1 ≤ length passes.items }
    requires theirs { All (λ pass. pass_table pass ≡ manager_table manager.now) passes.items }
    ensures some { IfOk result (λ ran. 1 ≤ length ran.passes.items) }
    ensures theirs { IfOk result (λ ran. All (λ pass. pass_table pass ≡ manager_table manager.now) ran.passes.items) }
{
    played_on(
        rt,
        alloc,
        manager,
        passes,
        script,
        0,
        DEFAULT_CACHE,
        &OpenGate,
    )
}

// Plays the first script. Returns the passes that come back.
fn passes_of_first<R: Threads + Wait + Sync>(
    rt: &R,
    alloc: Global,
    manager: &Manager,
    passes: Vec<Pass>,
) -> Result<Vec<Pass>, Fail>
    requires some { 1 ≤ length passes.items }
    requires theirs { All (λ pass. pass_table pass ≡ manager_table manager.now) passes.items }
    ensures some { IfOk result (λ left. 1 ≤ length left.items) }
    ensures theirs { IfOk result (λ left. All (λ pass. pass_table pass ≡ manager_table manager.now) left.items) }
{
    let Ran { text, passes } = played(rt, alloc, manager, passes, FIRST)?;
    drop(text);
    Ok(passes)
}

// Plays the second script after the first. Whether it has its text, and each of them gives all three passes back.
fn are_played<R: Threads + Wait + Sync>(
    rt: &R,
    alloc: Global,
    manager: &Manager,
    passes: Vec<Pass>,
) -> Result<bool, Fail>
    requires some { 1 ≤ length passes.items }
    requires theirs { All (λ pass. pass_table pass ≡ manager_table manager.now) passes.items }
{
    let passes = passes_of_first(rt, alloc, manager, passes)?;
    let all = passes.len() == 3;
    let ran = played(rt, alloc, manager, passes, SECOND)?;
    let is_so = all && ran.text.as_str() == TEXT && ran.passes.len() == 3;
    drop(ran);
    Ok(is_so)
}

#[test]
fn a_second_script_finds_the_tables_of_the_first(rt: HostRuntime) -> Result<(), Fail> {
    let (manager, passes) = Manager::new(rt.alloc(), MOST_PLACES, 3)?;
    let are_played = are_played(&rt, rt.alloc(), &manager, passes);
    drop(manager);
    assert!(rt; are_played?);
    Ok(())
}
