//! Which waits end in turn after an act.
ghost use Rattle.std.specs.Prelude.{◌≡◌, ◌&&◌, ◌∷◌, ◌++◌, ◌==◌, [], ℕ, false, not, map, filter, OnOk, IfOk};
ghost use Rattle.mdl_view.specs.Acts.{ends, target_of};
ghost use Rattle.mdl_view.specs.Blockings.{at_lock, waits_that};
ghost use Rattle.mdl_view.specs.GoingOn.{EndAfter, EndInTurn, Sessions, goes_on, in_turn, is_gone, no_ticket};
ghost use Rattle.mdl_view.specs.Passes.{AreKnown, Proceeds, is_kept, is_on_side, session_of};
ghost use Rattle.mdl_view.specs.SessionSets.{has, taken_by};

use crate::act::Act;
use crate::against::{ModeSessions, goes_on, is_blocked};
use crate::at_lock::AtLock;
use crate::lock::Lock;
use crate::session_set::SessionSet;
use crate::ticket::Ticket;
use crate::waits::add_at_lock;
use std::alloc::{AllocError, Global};

/// Returns the waits that end in turn after an act, if each session that is granted its lock ends: lock by lock, and for each lock in order of
/// arrival. Waits of the session that the act is about aren't among them.
pub fn in_turn(alloc: Global, locks: &[Lock], act: Act) -> Result<Vec<AtLock>, AllocError>
    ensures { IfOk result (λ found. (ended : Sessions) × EndAfter act locks.now ended × (found.items ≡ in_turn act ended locks.now)) }
{
    let helped = helped_by(alloc, locks, act)?;
    kept_waits(alloc, locks, &helped, true)
}

/// The sessions that end in turn after an act, other than the one that the act is about.
pub(crate) fn helped_by(alloc: Global, locks: &[Lock], act: Act) -> Result<SessionSet, AllocError>
    ensures ended { IfOk result (λ helped. (ended : Sessions) × EndAfter act locks.now ended
        × ((session : ℕ) → has helped session ≡ (ended session && not (session == target_of act)))) }
    ensures rest { IfOk result (λ helped. helped.rest ≡ false) }
{
    let mut ended = ended_after(alloc, locks, act)?;
    ended.remove(act.target())?;
    Ok(ended)
}

// The sessions that end in turn after an act.
fn ended_after(alloc: Global, locks: &[Lock], act: Act) -> Result<SessionSet, AllocError>
    ensures ended { IfOk result (λ ended. EndAfter act locks.now (has ended)) }
    ensures rest { IfOk result (λ ended. ended.rest ≡ false) }
{
    let mut ended = ended_by(alloc, act)?;
    end_in_turn(alloc, locks, Some(act), &mut ended)?;
    Ok(ended)
}

// The session that an act ends, if it ends one.
fn ended_by(alloc: Global, act: Act) -> Result<SessionSet, AllocError>
    ensures ended { IfOk result (λ ended. (session : ℕ) → has ended session ≡ ends act session) }
    ensures rest { IfOk result (λ ended. ended.rest ≡ false) }
{
    let mut ended = SessionSet::new(alloc);
    match act {
        Act::Kill(target) => {
            ended.insert(target)?;
            Ok(ended)
        }
        Act::KillQuery(_) => Ok(ended),
    }
}

/// The blocked waits of the sessions of a set, or of those that it doesn't have.
pub(crate) fn kept_waits(
    alloc: Global,
    locks: &[Lock],
    sessions: &SessionSet,
    inside: bool,
) -> Result<Vec<AtLock>, AllocError>
    ensures { IfOk result (λ found. found.items ≡ waits_that (is_kept (has sessions.now) inside) 0 locks.now) }
{
    let mut found = Vec::new(alloc);
    for (place, lock) in locks.iter().enumerate() {
        add_kept(alloc, &mut found, place, lock, sessions, inside)?;
    }
    Ok(found)
}

// Adds those of the waits at one lock.
fn add_kept(
    alloc: Global,
    found: &mut Vec<AtLock>,
    place: usize,
    lock: &Lock,
    sessions: &SessionSet,
    inside: bool,
) -> Result<(), AllocError>
    ensures { OnOk result (found.new.items ≡ found.old.items ++ map (at_lock place) (filter (is_kept (has sessions.now) inside lock.now) lock.now.waiting)) }
{
    let mut known = Vec::new(alloc);
    for ask in lock.waiting() {
        if is_kept(alloc, &mut known, lock, sessions, inside, *ask)? {
            add_at_lock(found, place, *ask)?;
        }
    }
    Ok(())
}

// Whether a wait is blocked, and its session is inside, or outside.
fn is_kept(
    alloc: Global,
    known: &mut Vec<ModeSessions>,
    lock: &Lock,
    sessions: &SessionSet,
    inside: bool,
    ask: Ticket,
) -> Result<bool, AllocError>
    requires { AreKnown lock.now no_ticket known.old.items }
    ensures known { AreKnown lock.now no_ticket known.new.items }
    ensures value { IfOk result (λ kept. kept ≡ is_kept (has sessions.now) inside lock.now ask) }
{
    let blocked = is_blocked(alloc, known, lock, ask)?;
    Ok(blocked && is_on_side(sessions, inside, ask.session))
}

// Whether a session is inside, or outside.
fn is_on_side(sessions: &SessionSet, inside: bool, session: usize) -> bool
    ensures { result ≡ is_on_side (has sessions.now) inside session }
{
    if inside {
        sessions.contains(session)
    } else {
        !sessions.contains(session)
    }
}

/// Puts into a set the sessions that end in turn, when those in it have ended and what the act takes has gone.
pub(crate) fn end_in_turn(
    alloc: Global,
    locks: &[Lock],
    act: Option<Act>,
    ended: &mut SessionSet,
) -> Result<(), AllocError>
    ensures value { OnOk result (EndInTurn (taken_by act) (has ended.old) locks.now (has ended.new)) }
    ensures rest { ended.new.rest ≡ ended.old.rest }
{
    'passes: loop {
        if !go_on(alloc, locks, act, ended)? {
            return Ok(());
        }
    }
}

// Makes a pass over these locks. Says whether it put a session into the set.
fn go_on(
    alloc: Global,
    locks: &[Lock],
    act: Option<Act>,
    ended: &mut SessionSet,
) -> Result<bool, AllocError>
    ensures value { IfOk result (λ some. Proceeds (taken_by act) locks.now (has ended.old) (has ended.new) some) }
    ensures rest { ended.new.rest ≡ ended.old.rest }
{
    let mut some = false;
    for lock in locks {
        let here = go_on_at(alloc, lock, act, ended)?;
        some |= here;
    }
    Ok(some)
}

// Puts in the sessions whose waits at a lock go on. Says whether there is one.
fn go_on_at(
    alloc: Global,
    lock: &Lock,
    act: Option<Act>,
    ended: &mut SessionSet,
) -> Result<bool, AllocError>
    ensures value { IfOk result (λ some. Proceeds (taken_by act) (lock.now ∷ []) (has ended.old) (has ended.new) some) }
    ensures rest { ended.new.rest ≡ ended.old.rest }
{
    let found = going_on_at(alloc, lock, act, ended)?;
    let sessions = found.as_slice();
    ended.insert_all(sessions)?;
    Ok(!sessions.is_empty())
}

// The sessions whose waits at a lock go on.
fn going_on_at(
    alloc: Global,
    lock: &Lock,
    act: Option<Act>,
    ended: &SessionSet,
) -> Result<Vec<usize>, AllocError>
    ensures { IfOk result (λ found. found.items
        ≡ map session_of (filter (goes_on (is_gone (taken_by act) (has ended.now)) lock.now) lock.now.waiting)) }
{
    let mut known = Vec::new(alloc);
    let mut left = Vec::new(alloc);
    let mut found = Vec::new(alloc);
    for ask in lock.waiting() {
        if goes_on(alloc, &mut known, &mut left, lock, act, ended, *ask)? {
            found.push(ask.session)?;
        }
    }
    Ok(found)
}
