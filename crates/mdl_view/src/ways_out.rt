//! The ways out of a jam.
ghost use Rattle.std.specs.Prelude.{◌≡◌, ◌≢◌, ◌+◌, ◌<◌, ◌≤◌, ◌||◌, ℕ, true, false, All, IsPermutation, OnOk, IfOk, length};
ghost use Rattle.std.specs.List.{AllWithin, HoldsAt};
ghost use Rattle.mdl_view.specs.GoingOn.{no_ticket};
ghost use Rattle.mdl_view.specs.Passes.{AreKnown, AreOrdered, AreWaysBelow, frees_at, frees_some, is_alone_before, with_way};
ghost use Rattle.mdl_view.specs.SessionSets.{has};
ghost use Rattle.mdl_view.specs.Ways.{AreWays, IsWay, is_better, spares_session};

use crate::act::Act;
use crate::against::{ModeSessions, blocking_sessions};
use crate::going_on::in_turn;
use crate::granting::at_once;
use crate::lock::Lock;
use crate::session_set::SessionSet;
use crate::ticket::Ticket;
use crate::way::Way;
use std::alloc::{AllocError, Global};

/// Returns the acts that help, the best first: those by which most waits end in turn, of equal ones `KILL QUERY` before `KILL`, then those by
/// which most waits are granted at once, then in order of their sessions. `KILL` is named only where it helps more than `KILL QUERY` of the same
/// session.
pub fn ways(alloc: Global, locks: &[Lock]) -> Result<Vec<Way>, AllocError>
    ensures { IfOk result (λ found. AreWays locks.now found.items) }
{
    let candidates = sole_blockers(alloc, locks)?;
    let mut found = Vec::new(alloc);
    for session in 0..candidates.bound() {
        add_ways_of(alloc, &mut found, locks, &candidates, session)?;
    }
    Ok(found)
}

// Adds the ways out about one session, each in its place, if the session is among the candidates.
fn add_ways_of(
    alloc: Global,
    found: &mut Vec<Way>,
    locks: &[Lock],
    candidates: &SessionSet,
    session: usize,
) -> Result<(), AllocError>
    requires known { AreWaysBelow locks.now session found.old.items }
    requires candidates { frees_some locks.now session ≡ true → has candidates.now session ≡ true }
    ensures { OnOk result (AreWaysBelow locks.now (session + 1) found.new.items) }
{
    if !candidates.contains(session) {
        return Ok(());
    }
    let query = way_of(alloc, locks, Act::KillQuery(session))?;
    let kill = way_of(alloc, locks, Act::Kill(session))?;
    place_if(query.in_turn >= 1, found, query)?;
    place_if(query.in_turn < kill.in_turn, found, kill)?;
    Ok(())
}

// An act, with what follows from it.
fn way_of(alloc: Global, locks: &[Lock], act: Act) -> Result<Way, AllocError>
    ensures way { IfOk result (IsWay locks.now) }
    ensures act { IfOk result (λ way. way.act ≡ act) }
{
    let granted = at_once(alloc, locks, act)?;
    let going_on = in_turn(alloc, locks, act)?;
    Ok(Way {
        act,
        at_once: granted.as_slice().len(),
        in_turn: going_on.as_slice().len(),
    })
}

// Puts a way before the first that it is better than, if it is to be named.
fn place_if(named: bool, found: &mut Vec<Way>, way: Way) -> Result<(), AllocError>
    requires apart { All (λ other. other.act ≢ way.act) found.old.items }
    requires in_order { AreOrdered found.old.items }
    ensures in_order { OnOk result (AreOrdered found.new.items) }
    ensures put { OnOk result (IsPermutation (with_way named way found.old.items) found.new.items) }
{
    if !named {
        return Ok(());
    }
    let place = place_of(found, way);
    found.insert(place, way)?;
    Ok(())
}

// The place of the first way that this one is better than, or of the end.
fn place_of(found: &[Way], way: Way) -> usize
    ensures within { result ≤ length found.now }
    ensures before { AllWithin (λ other. is_better way other ≡ false) found.now 0 result }
    ensures at { result < length found.now → HoldsAt (λ other. is_better way other ≡ true) found.now result }
{
    for (place, other) in found.iter().enumerate() {
        if is_better(way, *other) {
            return place;
        }
    }
    found.len()
}

// Whether one way is better than another.
fn is_better(one: Way, other: Way) -> bool
    ensures { result ≡ is_better one other }
{
    if one.in_turn != other.in_turn {
        return one.in_turn > other.in_turn;
    }
    if spares_session(one.act) != spares_session(other.act) {
        return spares_session(one.act);
    }
    if one.at_once != other.at_once {
        return one.at_once > other.at_once;
    }
    one.act.target() < other.act.target()
}

// Whether an act ends a session's statement alone.
fn spares_session(act: Act) -> bool
    ensures { result ≡ spares_session act }
{
    match act {
        Act::Kill(_) => false,
        Act::KillQuery(_) => true,
    }
}

// Sessions among which are all that block some wait alone. Only acts about them help.
fn sole_blockers(alloc: Global, locks: &[Lock]) -> Result<SessionSet, AllocError>
    ensures some { IfOk result (λ found. (session : ℕ) → frees_some locks.now session ≡ true → has found session ≡ true) }
    ensures rest { IfOk result (λ found. found.rest ≡ false) }
{
    let mut found = SessionSet::new(alloc);
    for lock in locks {
        add_sole_blockers(alloc, &mut found, lock)?;
    }
    Ok(found)
}

// Adds sessions among which are all that block some wait at this lock alone.
fn add_sole_blockers(alloc: Global, found: &mut SessionSet, lock: &Lock) -> Result<(), AllocError>
    ensures put { OnOk result ((session : ℕ) → (has found.old session || frees_at session lock.now) ≡ true → has found.new session ≡ true) }
    ensures rest { OnOk result (found.new.rest ≡ found.old.rest) }
{
    let mut known = Vec::new(alloc);
    for ask in lock.waiting() {
        add_sole_blocker(alloc, &mut known, found, lock, *ask)?;
    }
    Ok(())
}

// Adds the session that alone blocks a request, if there is one.
fn add_sole_blocker(
    alloc: Global,
    known: &mut Vec<ModeSessions>,
    found: &mut SessionSet,
    lock: &Lock,
    ask: Ticket,
) -> Result<(), AllocError>
    requires { AreKnown lock.now no_ticket known.old.items }
    ensures known { AreKnown lock.now no_ticket known.new.items }
    ensures put { OnOk result ((session : ℕ) → (has found.old session || is_alone_before lock.now session ask) ≡ true → has found.new session ≡ true) }
    ensures rest { OnOk result (found.new.rest ≡ found.old.rest) }
{
    let sessions = blocking_sessions(alloc, known, lock, ask.mode)?;
    if let Some(session) = sessions.only_other(ask.session) {
        found.insert(session)?;
    }
    Ok(())
}
