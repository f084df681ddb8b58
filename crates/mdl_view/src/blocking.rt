//! Which tickets block which.
ghost use Rattle.std.specs.Prelude.{◌≡◌, ◌++◌, ◌∷◌, [], map, filter, OnOk, IfOk};
ghost use Rattle.mdl_view.specs.Blockings.{blocking, blockings_at, blockings_in, blockings_of, holds_against, waits_before};

use crate::lock::Lock;
use crate::lock_mode::{lock_clashes, lock_waits_behind};
use crate::ticket::Ticket;
use std::alloc::{AllocError, Global};

/// Why a ticket blocks a waiting one.
#[derive(Clone, Copy, Debug, PartialEq, Eq)]
pub enum Reason {
    /// The ticket is granted, and the waiting one clashes with it.
    Holds,
    /// The ticket waits, and the other one waits behind it.
    WaitsBefore,
}

/// A waiting ticket, and a ticket of another session that blocks it.
#[derive(Clone, Copy, Debug, PartialEq, Eq)]
pub struct Blocking {
    /// The index of the lock among those examined, counted from 0.
    pub lock: usize,
    /// The ticket that waits.
    pub waiter: Ticket,
    /// The ticket that blocks it.
    pub other: Ticket,
    /// Why it blocks it.
    pub reason: Reason,
}

/// Returns each waiting ticket with each ticket that blocks it: lock by lock, for each lock waiter by waiter in order of arrival, and for each
/// waiter granted tickets before waiting ones.
pub fn blockings(alloc: Global, locks: &[Lock]) -> Result<Vec<Blocking>, AllocError>
    ensures { IfOk result (λ found. found.items ≡ blockings_in 0 locks.now) }
{
    let mut found = Vec::new(alloc);
    for (place, lock) in locks.iter().enumerate() {
        add_lock(&mut found, place, lock)?;
    }
    Ok(found)
}

// Adds the blockings of one lock.
fn add_lock(found: &mut Vec<Blocking>, place: usize, lock: &Lock) -> Result<(), AllocError>
    ensures { OnOk result (found.new.items ≡ found.old.items ++ blockings_at place lock.now) }
{
    for ask in lock.waiting() {
        add_holders(found, place, lock, *ask)?;
        add_waiters(found, place, lock, *ask)?;
    }
    Ok(())
}

// Adds the granted tickets that block a request.
fn add_holders(
    found: &mut Vec<Blocking>,
    place: usize,
    lock: &Lock,
    ask: Ticket,
) -> Result<(), AllocError>
    ensures { OnOk result (found.new.items ≡ found.old.items ++ map (blocking place ask Reason.Holds) (filter (holds_against lock.now ask) lock.now.granted)) }
{
    for held in lock.granted() {
        if holds_against(lock, ask, *held) {
            add(found, place, ask, *held, Reason::Holds)?;
        }
    }
    Ok(())
}

// Adds the waiting tickets that block a request.
fn add_waiters(
    found: &mut Vec<Blocking>,
    place: usize,
    lock: &Lock,
    ask: Ticket,
) -> Result<(), AllocError>
    ensures { OnOk result (found.new.items ≡ found.old.items ++ map (blocking place ask Reason.WaitsBefore) (filter (waits_before lock.now ask) lock.now.waiting)) }
{
    for pending in lock.waiting() {
        if waits_before(lock, ask, *pending) {
            add(found, place, ask, *pending, Reason::WaitsBefore)?;
        }
    }
    Ok(())
}

// Adds one blocking.
fn add(
    found: &mut Vec<Blocking>,
    lock: usize,
    waiter: Ticket,
    other: Ticket,
    reason: Reason,
) -> Result<(), AllocError>
    ensures { OnOk result (found.new.items ≡ found.old.items ++ blocking lock waiter reason other ∷ []) }
{
    found.push(Blocking {
        lock,
        waiter,
        other,
        reason,
    })?;
    Ok(())
}

/// Whether a granted ticket blocks a request at this lock: it is another session's, and they clash.
pub(crate) fn holds_against(lock: &Lock, ask: Ticket, held: Ticket) -> bool
    ensures { result ≡ holds_against lock.now ask held }
{
    held.session != ask.session && lock_clashes(lock.kind(), ask.mode, held.mode)
}

/// Whether a waiting ticket blocks a request at this lock: it is another session's, and the request waits behind it.
pub(crate) fn waits_before(lock: &Lock, ask: Ticket, pending: Ticket) -> bool
    ensures { result ≡ waits_before lock.now ask pending }
{
    pending.session != ask.session && lock_waits_behind(lock.kind(), ask.mode, pending.mode)
}
