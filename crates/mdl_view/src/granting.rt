//! Which waits are granted at once after an act.
ghost use Rattle.std.specs.Prelude.{◌≡◌, ◌&&◌, ◌++◌, ◌∷◌, [], map, if◌then◌else◌, OnOk, IfOk};
ghost use Rattle.std.specs.List.{list_any};
ghost use Rattle.mdl_view.specs.Acts.{is_taken, lock_after};
ghost use Rattle.mdl_view.specs.AtOnce.{KeepsSample, at_once, can_be_granted, granted_at, granted_from, takes_any};
ghost use Rattle.mdl_view.specs.Blockings.{at_lock, is_blocked};

use crate::act::Act;
use crate::at_lock::AtLock;
use crate::lock::Lock;
use crate::sample::{add_to_sample, sample_of};
use crate::ticket::Ticket;
use crate::waits::{add_at_lock, is_behind, is_blocked, is_held_against};
use std::alloc::{AllocError, Global};

/// Returns the waits that are granted at once after an act, lock by lock, and for each lock in order of arrival.
pub fn at_once(alloc: Global, locks: &[Lock], act: Act) -> Result<Vec<AtLock>, AllocError>
    ensures { IfOk result (λ found. found.items ≡ at_once act locks.now) }
{
    let mut found = Vec::new(alloc);
    for (place, lock) in locks.iter().enumerate() {
        add_at_once(alloc, &mut found, place, lock, act)?;
    }
    Ok(found)
}

/// Adds the waits of one lock that are granted at once after an act.
pub(crate) fn add_at_once(
    alloc: Global,
    found: &mut Vec<AtLock>,
    place: usize,
    lock: &Lock,
    act: Act,
) -> Result<(), AllocError>
    ensures { OnOk result (found.new.items ≡ found.old.items ++ map (at_lock place) (granted_at lock.now (lock_after act lock.now))) }
{
    let granted = granted_at(alloc, lock, act)?;
    add_tickets(found, place, &granted)
}

// The waits of one lock that are granted at once after an act. Where the act takes no ticket, nobody is.
fn granted_at(alloc: Global, lock: &Lock, act: Act) -> Result<Vec<Ticket>, AllocError>
    ensures { IfOk result (λ got. got.items ≡ granted_at lock.now (lock_after act lock.now)) }
{
    if !takes_any(lock, act) {
        return Ok(Vec::new(alloc));
    }
    let few = lock.sample(alloc)?;
    let after = lock.after(alloc, act)?;
    granted_after(alloc, &few, &after)
}

// The waits that are granted at a lock, of those that were blocked before.
fn granted_after(alloc: Global, before: &Lock, after: &Lock) -> Result<Vec<Ticket>, AllocError>
    ensures { IfOk result (λ got. got.items ≡ granted_from after.now (is_blocked before.now) after.now.granted [] after.now.waiting) }
{
    let waiting = sample_of(alloc, after.waiting())?;
    let mut granted = sample_of(alloc, after.granted())?;
    let mut got = Vec::new(alloc);
    for ask in after.waiting() {
        let is_granted = is_granted(before, after, &granted, &waiting, *ask);
        grant_if(is_granted, &mut granted, &mut got, *ask)?;
    }
    Ok(got)
}

// Adds a request to the granted ones, and to a sample of them, if it is granted.
fn grant_if(
    is_granted: bool,
    granted: &mut Vec<Ticket>,
    got: &mut Vec<Ticket>,
    ask: Ticket,
) -> Result<(), AllocError>
    ensures got { OnOk result (got.new.items ≡ got.old.items ++ (if is_granted then ask ∷ [] else [])) }
    ensures sample { OnOk result (KeepsSample (if is_granted then ask ∷ [] else []) granted.old.items granted.new.items) }
{
    if is_granted {
        add_to_sample(granted, ask)?;
        got.push(ask)?;
    }
    Ok(())
}

// Whether a request was blocked before, and can be granted beside these granted and these waiting tickets.
fn is_granted(
    before: &Lock,
    after: &Lock,
    granted: &[Ticket],
    waiting: &[Ticket],
    ask: Ticket,
) -> bool
    ensures { result ≡ (is_blocked before.now ask && can_be_granted after.now granted.now waiting.now ask) }
{
    is_blocked(before, ask) && can_be_granted(after, granted, waiting, ask)
}

// Whether a request can be granted beside these granted and these waiting tickets.
fn can_be_granted(lock: &Lock, granted: &[Ticket], waiting: &[Ticket], ask: Ticket) -> bool
    ensures { result ≡ can_be_granted lock.now granted.now waiting.now ask }
{
    !is_held_against(lock, granted, ask) && !is_behind(lock, waiting, ask)
}

// Whether an act takes a ticket of a lock.
fn takes_any(lock: &Lock, act: Act) -> bool
    ensures { result ≡ takes_any act lock.now }
{
    takes_one(lock.granted(), act) || takes_one(lock.waiting(), act)
}

// Whether an act takes one of these tickets.
fn takes_one(tickets: &[Ticket], act: Act) -> bool
    ensures { result ≡ list_any (is_taken act) tickets.now }
{
    tickets.iter().any(|ticket| act.takes(*ticket))
}

// Adds tickets of one lock.
fn add_tickets(found: &mut Vec<AtLock>, place: usize, tickets: &[Ticket]) -> Result<(), AllocError>
    ensures { OnOk result (found.new.items ≡ found.old.items ++ map (at_lock place) tickets.now) }
{
    for ticket in tickets {
        add_at_lock(found, place, *ticket)?;
    }
    Ok(())
}
