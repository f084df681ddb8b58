//! Deadlocks: the waits that no session that isn't blocked can end.
ghost use Rattle.std.specs.Prelude.{◌≡◌, ◌&&◌, ◌==◌, ℕ, not, IfOk, OnOk};
ghost use Rattle.mdl_view.specs.Blockings.{is_blocked, is_blocked_here, waits_blocked};
ghost use Rattle.mdl_view.specs.GoingOn.{AreStuck, no_ticket};
ghost use Rattle.mdl_view.specs.Passes.{AreKnown};
ghost use Rattle.mdl_view.specs.SessionSets.{has};

use crate::against::{ModeSessions, is_blocked};
use crate::at_lock::AtLock;
use crate::going_on::{end_in_turn, kept_waits};
use crate::lock::Lock;
use crate::session_set::SessionSet;
use crate::ticket::Ticket;
use std::alloc::{AllocError, Global};

/// Returns the waits that are in a deadlock or behind one, lock by lock, and for each lock in order of arrival: those that wouldn't end even if
/// each session that isn't blocked ended.
pub fn stuck_waits(alloc: Global, locks: &[Lock]) -> Result<Vec<AtLock>, AllocError>
    ensures { IfOk result (λ found. AreStuck locks.now found.items) }
{
    let mut ended = unblocked_sessions(alloc, locks)?;
    end_in_turn(alloc, locks, None, &mut ended)?;
    kept_waits(alloc, locks, &ended, false)
}

// The sessions that no ticket blocks anywhere.
fn unblocked_sessions(alloc: Global, locks: &[Lock]) -> Result<SessionSet, AllocError>
    ensures { IfOk result (λ found. (session : ℕ) → has found session ≡ not (waits_blocked locks.now session)) }
{
    let mut found = SessionSet::all(alloc);
    for lock in locks {
        remove_blocked_at(alloc, &mut found, lock)?;
    }
    Ok(found)
}

// Takes out the sessions that are blocked at a lock.
fn remove_blocked_at(alloc: Global, found: &mut SessionSet, lock: &Lock) -> Result<(), AllocError>
    ensures { OnOk result ((session : ℕ) → has found.new session ≡ (has found.old session && not (is_blocked_here session lock.now))) }
{
    let mut known = Vec::new(alloc);
    for ask in lock.waiting() {
        remove_blocked(alloc, &mut known, found, lock, *ask)?;
    }
    Ok(())
}

// Takes out the session of a request that is blocked.
fn remove_blocked(
    alloc: Global,
    known: &mut Vec<ModeSessions>,
    found: &mut SessionSet,
    lock: &Lock,
    ask: Ticket,
) -> Result<(), AllocError>
    requires { AreKnown lock.now no_ticket known.old.items }
    ensures known { AreKnown lock.now no_ticket known.new.items }
    ensures removed { OnOk result ((session : ℕ) → has found.new session ≡ (has found.old session && not (ask.session == session && is_blocked lock.now ask))) }
{
    if is_blocked(alloc, known, lock, ask)? {
        found.remove(ask.session)?;
    }
    Ok(())
}
