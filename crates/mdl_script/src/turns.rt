//! The turns of a run: the sessions that a script names, in rising order, each with the thread on which it runs.
ghost use Rattle.std.specs.Prelude.{◌≡◌, ◌≢◌, [], ◌∷◌, ◌++◌, ◌==◌, ℕ, Some, true, All, IfOk, OnOk, map, position, slice_get, ◌≤◌, length};
ghost use Rattle.std.specs.List.Sorted.{IsPermutation};
ghost use Rattle.std.specs.String.{string_bytes};
ghost use Rattle.mdl_shared.specs.Passes.{manager_table, pass_number, pass_table};
ghost use Rattle.mdl_stmt.specs.Attendance.{IsCapacity};
ghost use Rattle.mdl_script.specs.Answers.{options_of};
ghost use Rattle.mdl_script.specs.RunTexts.{named_sessions};
ghost use Rattle.mdl_script.specs.Runs.{HasMadeFirst};
ghost use Rattle.mdl_script.specs.Turns.{CameBack, GainsAnswers, IsAboutLines, IsTurn, has_pass, pass_sent, passes_sent};

use crate::on_thread::{Answered, work_pass};
use crate::run::{SharedRun, named_sessions};
use crate::told::push_answers;
use mdl_key::MOST_SESSIONS;
use mdl_shared::{Pass, Session};
use mdl_stmt::Reply;
use mdl_syntax::Script;
use mdl_work::Gate;
use std::alloc::AllocError;
use std::snapshot::Snapshot;
use std::sync::Wait;
use std::thread::{Promise, PromisedHandle, Scope, Threads};

/// What a session's thread promises: it gives back the pass that it got, and answers that the session gave to its lines of the script between
/// the two, unless memory ran out.
#[derive(Drop)]
pub(crate) struct AnswersOf<'s> {
    pub(crate) pass: Snapshot<Pass>,
    pub(crate) script: &'s Script,
    pub(crate) patience: u32,
    pub(crate) cache: u16,
}

impl<'s> Promise<Answered> for AnswersOf<'s> {
    ghost kept_by = { λ p r. CameBack (options_of p.patience p.cache) p.script.now p.pass.value r };
}

/// A session, with its thread. There is none if it runs in the thread that started the others.
#[derive(Drop)]
pub(crate) struct SessionThread<'s> {
    pub(crate) who: u16,
    pub(crate) thread: Option<PromisedHandle<Answered, AnswersOf<'s>>>,
}

/// Takes the first pass from a list. The order of the others may change.
pub(crate) fn take_first(passes: &mut Vec<Pass>) -> Pass
    requires { 1 ≤ length passes.old.items }
    ensures first { slice_get passes.old.items 0 ≡ Some result }
    ensures others { IsPermutation passes.old.items (result ∷ passes.new.items) }
{
    passes.swap_remove(0)
}

/// Takes the pass of a session from a list. The order of the others may change.
fn take(passes: &mut Vec<Pass>, who: u16) -> Pass
    requires { has_pass passes.old.items who ≡ true }
    ensures number { pass_number result ≡ who }
    ensures rest { IsPermutation passes.old.items (result ∷ passes.new.items) }
{
    match index_of(passes, who) {
        Some(place) => passes.swap_remove(place),
        None => unreachable!(),
    }
}

/// Returns where the pass of a session is.
fn index_of(passes: &[Pass], who: u16) -> Option<usize>
    ensures { result ≡ position (λ pass. pass_number pass == who) passes.now }
{
    passes.iter().position(|pass| pass.number() == who)
}

/// Starts the session of a pass on a thread of its own.
fn start_thread<'s, E, R: Threads + Wait + Sync, G: Gate + Sync>(
    scope: &Scope<'s, E>,
    run: &SharedRun<'s, R, G>,
    pass: Pass,
) -> Result<PromisedHandle<Answered, AnswersOf<'s>>, AllocError>
    requires theirs { pass_table pass ≡ manager_table run.now.manager.now }
    requires capacity { IsCapacity run.now.cache }
    ensures pass { IfOk result (λ thread. thread.promise.pass.value ≡ pass) }
    ensures about { IfOk result (λ thread. IsAboutLines (options_of run.now.patience run.now.cache) run.now.script.now thread.promise) }
{
    // The closure gets each of these by itself. Of a struct that has them under a lifetime, the proof knows nothing.
    let (rt, gate, manager, script) = (run.rt, run.gate, run.manager, run.script);
    let (alloc, patience, cache) = (run.alloc, run.patience, run.cache);
    let promise = AnswersOf {
        pass: Snapshot::of(&pass),
        script,
        patience,
        cache,
    };
    let thread = scope.spawn_with(promise, move || {
        work_pass(rt, alloc, manager, pass, script, patience, cache, gate)
    })?;
    Ok(thread)
}

/// Starts the turn of a session, on a thread unless the session is `mine`.
fn start_turn<'s, E, R: Threads + Wait + Sync, G: Gate + Sync>(
    scope: &Scope<'s, E>,
    run: &SharedRun<'s, R, G>,
    passes: &mut Vec<Pass>,
    mine: u16,
    who: u16,
) -> Result<SessionThread<'s>, AllocError>
    requires theirs { All (λ pass. pass_table pass ≡ manager_table run.now.manager.now) passes.old.items }
    requires capacity { IsCapacity run.now.cache }
    requires there { who ≢ mine → has_pass passes.old.items who ≡ true }
    ensures who { IfOk result (λ turn. turn.who ≡ who) }
    ensures turn { IfOk result (λ turn. IsTurn (options_of run.now.patience run.now.cache) run.now.script.now mine turn) }
    ensures sent { IfOk result (λ turn. IsPermutation passes.old.items (pass_sent turn ++ passes.new.items)) }
    ensures theirs { All (λ pass. pass_table pass ≡ manager_table run.now.manager.now) passes.new.items }
    ensures others { (other : ℕ) → other ≢ who → has_pass passes.new.items other ≡ has_pass passes.old.items other }
{
    if who == mine {
        return Ok(SessionThread { who, thread: None });
    }
    let pass = take(passes, who);
    let thread = start_thread(scope, run, pass)?;
    Ok(SessionThread {
        who,
        thread: Some(thread),
    })
}

/// Starts the turns of all sessions that the script names, except that `mine` runs in this thread. The asker has made the first schema.
pub(crate) fn start_all<'s, E, R: Threads + Wait + Sync, G: Gate + Sync>(
    scope: &Scope<'s, E>,
    run: &SharedRun<'s, R, G>,
    passes: &mut Vec<Pass>,
    mine: u16,
    asker: &Session<&R>,
) -> Result<Vec<SessionThread<'s>>, AllocError>
    requires theirs { All (λ pass. pass_table pass ≡ manager_table run.now.manager.now) passes.old.items }
    requires capacity { IsCapacity run.now.cache }
    requires there { All (λ who. who ≢ mine → has_pass passes.old.items who ≡ true) (named_sessions run.now.script.now) }
    requires made { HasMadeFirst (options_of run.now.patience run.now.cache) mine asker.now }
    ensures sessions { IfOk result (λ turns. map (λ turn. turn.who) turns.items ≡ named_sessions run.now.script.now) }
    ensures turns { IfOk result (λ turns. All (IsTurn (options_of run.now.patience run.now.cache) run.now.script.now mine) turns.items) }
    ensures sent { IfOk result (λ turns. IsPermutation passes.old.items (passes_sent turns.items ++ passes.new.items)) }
{
    let _asker = asker;
    let named = named_sessions(run.script);
    let mut turns = Vec::new(run.alloc);
    for who in 1..MOST_SESSIONS + 1 {
        if named.contains(who) {
            turns.push(start_turn(scope, run, passes, mine, who)?)?;
        }
    }
    Ok(turns)
}

/// A session, and its answers.
#[derive(Drop)]
pub(crate) struct Transcript {
    pub(crate) who: u16,
    pub(crate) answers: Vec<(u64, Reply)>,
}

/// Waits for the end of a turn, appends its session's answers to a text, and adds the pass that comes back to the passes. `own` has the answers
/// of the session that runs in this thread.
fn push_turn<R: Threads, G>(
    out: &mut String,
    passes: &mut Vec<Pass>,
    run: &SharedRun<R, G>,
    turn: SessionThread<'_>,
    own: &Transcript,
) -> Result<(), AllocError>
    requires { IsTurn (options_of run.now.patience run.now.cache) run.now.script.now own.now.who turn }
    ensures { OnOk result (GainsAnswers (options_of run.now.patience run.now.cache) run.now.script.now own.now.who own.now.answers.items (turn.entry ∷ []) (string_bytes out.old) (string_bytes out.new) passes.old.items passes.new.items) }
{
    let SessionThread { who, thread } = turn;
    match thread {
        Some(thread) => {
            let Answered { pass, answers } = thread.join(run.rt);
            passes.push(pass)?;
            push_answers(out, who, &answers?)
        }
        None => push_answers(out, who, &own.answers),
    }
}

/// Does so with all turns, in order.
pub(crate) fn push_turns<R: Threads, G>(
    out: &mut String,
    passes: &mut Vec<Pass>,
    run: &SharedRun<R, G>,
    turns: Vec<SessionThread<'_>>,
    own: &Transcript,
) -> Result<(), AllocError>
    requires { All (IsTurn (options_of run.now.patience run.now.cache) run.now.script.now own.now.who) turns.items }
    ensures { OnOk result (GainsAnswers (options_of run.now.patience run.now.cache) run.now.script.now own.now.who own.now.answers.items turns.entry.items (string_bytes out.old) (string_bytes out.new) passes.old.items passes.new.items) }
{
    for turn in turns {
        push_turn(out, passes, run, turn, own)?;
    }
    Ok(())
}
