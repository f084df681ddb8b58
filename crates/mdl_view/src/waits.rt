//! Which waits are blocked, and which no ticket explains.
ghost use Rattle.std.specs.Prelude.{◌≡◌, ◌++◌, ◌∷◌, [], map, filter, OnOk, IfOk};
ghost use Rattle.std.specs.List.{list_any};
ghost use Rattle.mdl_view.specs.Blockings.{at_lock, blocked_waits, holds_against, is_blocked, is_unexplained, unexplained_waits, waits_before};

use crate::at_lock::AtLock;
use crate::blocking::{holds_against, waits_before};
use crate::lock::Lock;
use crate::ticket::Ticket;
use std::alloc::{AllocError, Global};

/// Returns the waits that some ticket blocks, lock by lock, and for each lock in order of arrival.
pub fn blocked_waits(alloc: Global, locks: &[Lock]) -> Result<Vec<AtLock>, AllocError>
    ensures { IfOk result (λ found. found.items ≡ blocked_waits locks.now) }
{
    let mut found = Vec::new(alloc);
    for (place, lock) in locks.iter().enumerate() {
        add_blocked(alloc, &mut found, place, lock)?;
    }
    Ok(found)
}

/// Returns the waits for which no ticket shows a reason, in the same order: nothing blocks them, and they aren't behind a settled wait that is
/// about to go. Whoever holds the lock isn't among the tickets.
pub fn unexplained_waits(alloc: Global, locks: &[Lock]) -> Result<Vec<AtLock>, AllocError>
    ensures { IfOk result (λ found. found.items ≡ unexplained_waits locks.now) }
{
    let mut found = Vec::new(alloc);
    for (place, lock) in locks.iter().enumerate() {
        add_unexplained(alloc, &mut found, place, lock)?;
    }
    Ok(found)
}

// Adds the waits of a lock that are blocked.
fn add_blocked(
    alloc: Global,
    found: &mut Vec<AtLock>,
    place: usize,
    lock: &Lock,
) -> Result<(), AllocError>
    ensures { OnOk result (found.new.items ≡ found.old.items ++ map (at_lock place) (filter (is_blocked lock.now) lock.now.waiting)) }
{
    let few = lock.sample(alloc)?;
    add_blocked_by(found, place, &few, lock.waiting())
}

// Adds those of these requests that are blocked at a lock.
fn add_blocked_by(
    found: &mut Vec<AtLock>,
    place: usize,
    lock: &Lock,
    asks: &[Ticket],
) -> Result<(), AllocError>
    ensures { OnOk result (found.new.items ≡ found.old.items ++ map (at_lock place) (filter (is_blocked lock.now) asks.now)) }
{
    for ask in asks {
        if is_blocked(lock, *ask) {
            add_at_lock(found, place, *ask)?;
        }
    }
    Ok(())
}

// Adds the waits of a lock that no ticket explains.
fn add_unexplained(
    alloc: Global,
    found: &mut Vec<AtLock>,
    place: usize,
    lock: &Lock,
) -> Result<(), AllocError>
    ensures { OnOk result (found.new.items ≡ found.old.items ++ map (at_lock place) (filter (is_unexplained lock.now) lock.now.waiting)) }
{
    let few = lock.sample(alloc)?;
    add_unexplained_by(found, place, &few, lock.waiting())
}

// Adds those of these requests that no ticket of a lock explains.
fn add_unexplained_by(
    found: &mut Vec<AtLock>,
    place: usize,
    lock: &Lock,
    asks: &[Ticket],
) -> Result<(), AllocError>
    ensures { OnOk result (found.new.items ≡ found.old.items ++ map (at_lock place) (filter (is_unexplained lock.now) asks.now)) }
{
    for ask in asks {
        if is_unexplained(lock, *ask) {
            add_at_lock(found, place, *ask)?;
        }
    }
    Ok(())
}

/// Adds one ticket.
pub(crate) fn add_at_lock(
    found: &mut Vec<AtLock>,
    lock: usize,
    ticket: Ticket,
) -> Result<(), AllocError>
    ensures { OnOk result (found.new.items ≡ found.old.items ++ at_lock lock ticket ∷ []) }
{
    found.push(AtLock { lock, ticket })?;
    Ok(())
}

/// Whether some ticket of a lock blocks a request.
pub(crate) fn is_blocked(lock: &Lock, ask: Ticket) -> bool
    ensures { result ≡ is_blocked lock.now ask }
{
    is_held_against(lock, lock.granted(), ask) || is_behind(lock, lock.waiting(), ask)
}

/// Whether no ticket of a lock explains why a request waits.
pub(crate) fn is_unexplained(lock: &Lock, ask: Ticket) -> bool
    ensures { result ≡ is_unexplained lock.now ask }
{
    !is_blocked(lock, ask) && !is_behind(lock, lock.settled(), ask)
}

/// Whether one of these granted tickets blocks a request at a lock of this kind.
pub(crate) fn is_held_against(lock: &Lock, granted: &[Ticket], ask: Ticket) -> bool
    ensures { result ≡ list_any (holds_against lock.now ask) granted.now }
{
    granted.iter().any(|held| holds_against(lock, ask, *held))
}

/// Whether one of these waiting tickets blocks a request at a lock of this kind.
pub(crate) fn is_behind(lock: &Lock, waiting: &[Ticket], ask: Ticket) -> bool
    ensures { result ≡ list_any (waits_before lock.now ask) waiting.now }
{
    waiting
        .iter()
        .any(|pending| waits_before(lock, ask, *pending))
}
