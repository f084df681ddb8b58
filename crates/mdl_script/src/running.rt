//! Plays a script of statements with a thread for each of its sessions.
ghost use Rattle.std.specs.Prelude.{◌≡◌, ◌≢◌, ◌≤◌, [], ◌∷◌, true, All, IfOk, length};
ghost use Rattle.std.specs.String.{string_bytes};
ghost use Rattle.mdl_calls.specs.Words.{HasNothing};
ghost use Rattle.mdl_shared.specs.Passes.{manager_table, pass_number, pass_table, pass_view};
ghost use Rattle.mdl_shared.specs.SessionViews.{data_of};
ghost use Rattle.mdl_stmt.specs.Attendance.{IsCapacity};
ghost use Rattle.mdl_script.specs.Answers.{IsIdleAt, options_of};
ghost use Rattle.mdl_script.specs.RunTexts.{named_sessions};
ghost use Rattle.mdl_script.specs.Runs.{ComeBack, IsRunBetween, IsRunFrom, IsRunOf};
ghost use Rattle.mdl_script.specs.Turns.{has_pass};

use crate::asking::{books, make_first_schema, take_turn};
use crate::finals::push_finals;
use crate::on_thread::close;
use crate::run::SharedRun;
use crate::turns::{push_turns, start_all, take_first};
use mdl_key::{MOST_PLACES, MOST_SESSIONS};
use mdl_shared::{Manager, Pass, Session};
use mdl_syntax::Script;
use mdl_work::Gate;
use std::alloc::{AllocError, Global};
use std::sync::Wait;
use std::thread;
use std::thread::{Scope, Threads};

/// What a run leaves: its text, and the passes of its sessions.
#[derive(Drop)]
pub struct Ran {
    /// The text that [`run_threads`] describes.
    pub text: String,
    /// All passes that the run got. The first is the first again, the others come in any order.
    pub passes: Vec<Pass>,
}

/// Plays a script over an existing lock table: each session that the script names executes its own lines, on a thread of its own. Returns the
/// text that [`run_threads`] describes, and the passes, by which the sessions can be opened again.
///
/// The session of the first pass runs in the caller's thread. Before its own lines it creates the schema `test`, unless it exists, and when
/// all others have ended it audits all books. The other threads start once it has asked for the schema.
///
/// Each session has a cache of its own, which keeps at most `cache` definitions.
///
/// If memory runs out or a thread can't be started, the passes are lost, and nobody can open their sessions again.
pub fn run_on<R: Threads + Wait + Sync, G: Gate + Sync>(
    rt: &R,
    alloc: Global,
    manager: &Manager,
    passes: Vec<Pass>,
    script: &Script,
    patience: u32,
    cache: u16,
    gate: &G,
) -> Result<Ran, AllocError>
    requires capacity { IsCapacity cache }
    requires some { 1 ≤ length passes.items }
    requires theirs { All (λ pass. pass_table pass ≡ manager_table manager.now) passes.items }
    requires there { All (λ who. has_pass passes.items who ≡ true) (named_sessions script.now) }
    ensures ran { IfOk result (λ ran. IsRunFrom (options_of patience cache) script.now passes.items ran.passes.items (string_bytes ran.text)) }
    ensures theirs { IfOk result (λ ran. All (λ pass. pass_table pass ≡ manager_table manager.now) ran.passes.items) }
{
    let mut others = passes;
    let first = take_first(&mut others);
    thread::scope(
        thread::scope_env(),
        rt,
        move |scope| -> Result<Ran, AllocError>
            requires first { pass_table first ≡ manager_table manager.now }
            requires theirs { All (λ pass. pass_table pass ≡ manager_table manager.now) others.items }
            requires there { All (λ who. who ≢ pass_number first → has_pass others.items who ≡ true) (named_sessions script.now) }
            requires capacity { IsCapacity cache }
            ensures ran { IfOk result (λ ran. IsRunFrom (options_of patience cache) script.entry.now (first ∷ others.items) ran.passes.items (string_bytes ran.text)) }
            ensures theirs { IfOk result (λ ran. All (λ pass. pass_table pass ≡ manager_table manager.entry.now) ran.passes.items) }
        {
            let run = SharedRun {
                rt,
                alloc,
                manager,
                script,
                patience,
                cache,
                gate,
            };
            ran_in(scope, &run, first, others)
        },
    )
}

// Runs. The session of the first pass runs here, the others on threads of the scope.
fn ran_in<'s, E, R: Threads + Wait + Sync, G: Gate + Sync>(
    scope: &Scope<'s, E>,
    run: &SharedRun<'s, R, G>,
    first: Pass,
    others: Vec<Pass>,
) -> Result<Ran, AllocError>
    requires capacity { IsCapacity run.now.cache }
    requires first { pass_table first ≡ manager_table run.now.manager.now }
    requires theirs { All (λ pass. pass_table pass ≡ manager_table run.now.manager.now) others.items }
    requires there { All (λ who. who ≢ pass_number first → has_pass others.items who ≡ true) (named_sessions run.now.script.now) }
    ensures ran { IfOk result (λ ran. IsRunFrom (options_of run.now.patience run.now.cache) run.now.script.now (first ∷ others.items) ran.passes.items (string_bytes ran.text)) }
    ensures theirs { IfOk result (λ ran. All (λ pass. pass_table pass ≡ manager_table run.now.manager.now) ran.passes.items) }
{
    let mut asker = Session::open(run.rt, run.manager, first);
    let who = asker.number();
    let ran = ran_by(scope, run, others, &mut asker, who);
    let closed = close(asker);
    let Ran { text, mut passes } = ran?;
    passes.insert(0, closed)?;
    Ok(Ran { text, passes })
}

// Runs, by calls of the session that runs here. It has no ticket and no wait at the end, and owes no place a reschedule, also if memory ran out.
// The passes are those of the others.
fn ran_by<'s, E, R: Threads + Wait + Sync, G: Gate + Sync>(
    scope: &Scope<'s, E>,
    run: &SharedRun<'s, R, G>,
    others: Vec<Pass>,
    asker: &mut Session<&R>,
    who: u16,
) -> Result<Ran, AllocError>
    requires capacity { IsCapacity run.now.cache }
    requires theirs { All (λ pass. pass_table pass ≡ manager_table run.now.manager.now) others.items }
    requires there { All (λ other. other ≢ who → has_pass others.items other ≡ true) (named_sessions run.now.script.now) }
    requires idle { IsIdleAt (manager_table run.now.manager.now) who asker.old }
    requires paid { asker.old.me.0.owes ≡ [] }
    ensures ran { IfOk result (λ ran. IsRunBetween (options_of run.now.patience run.now.cache) run.now.script.now others.items ran.passes.items asker.old asker.new (string_bytes ran.text)) }
    ensures back { IfOk result (λ ran. ComeBack run.now.script.now who others.items ran.passes.items) }
    ensures theirs { IfOk result (λ ran. All (λ pass. pass_table pass ≡ manager_table run.now.manager.now) ran.passes.items) }
    ensures there { IfOk result (λ ran. asker.new.table ≡ manager_table run.now.manager.now) }
    ensures number { IfOk result (λ ran. asker.new.me.0.number ≡ who) }
    ensures nothing { HasNothing (data_of asker.new).own }
    ensures paid { asker.new.me.0.owes ≡ [] }
{
    let mut passes = others;
    make_first_schema(run, asker, who)?;
    let turns = start_all(scope, run, &mut passes, who, asker)?;
    let own = take_turn(run, asker, who)?;
    let mut text = String::new(run.alloc);
    push_turns(&mut text, &mut passes, run, turns, &own)?;
    push_finals(&mut text, books(asker)?)?;
    Ok(Ran { text, passes })
}

/// Plays a script over a new lock table, in which nothing is defined yet: each session that the script names executes its own lines, on a
/// thread of its own. A session looks at a wait up to `patience` times before the wait times out, and its cache keeps at most `cache`
/// definitions.
///
/// Returns a text: for each session, in rising order, a line for each answer, and then a line for each key that has a definition at the end,
/// in the order of keys. Fails if memory runs out or a thread can't be started.
pub fn run_threads<R: Threads + Wait + Sync, G: Gate + Sync>(
    rt: &R,
    alloc: Global,
    script: &Script,
    patience: u32,
    cache: u16,
    gate: &G,
) -> Result<String, AllocError>
    requires capacity { IsCapacity cache }
    ensures { IfOk result (λ text. IsRunOf (options_of patience cache) script.now (string_bytes text)) }
{
    let Ok((manager, passes)) = Manager::new(alloc, MOST_PLACES, MOST_SESSIONS) else {
        return Err(AllocError);
    };
    let ran = run_on(rt, alloc, &manager, passes, script, patience, cache, gate)?;
    let Ran { text, passes: _ } = ran;
    Ok(text)
}
