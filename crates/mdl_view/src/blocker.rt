//! The sessions that block a request.
ghost use Rattle.std.specs.Prelude.{◌≡◌, filter, fold, nat_eq, OnOk, IfOk};
ghost use Rattle.std.specs.List.{list_any};
ghost use Rattle.mdl_view.specs.Blockings.{holds_against, waits_before};
ghost use Rattle.mdl_view.specs.Ways.{blockers_of, with_session};

use crate::blocking::{holds_against, waits_before};
use crate::lock::Lock;
use crate::ticket::Ticket;
use std::alloc::{AllocError, Global};

/// Returns the sessions that block a request at a lock, each once: those that hold the lock first, then those that wait for it, each in the order
/// of their tickets.
pub fn blockers(alloc: Global, lock: &Lock, ask: Ticket) -> Result<Vec<usize>, AllocError>
    ensures { IfOk result (λ found. found.items ≡ blockers_of lock.now ask) }
{
    let mut found = Vec::new(alloc);
    add_holders(&mut found, lock, ask)?;
    add_waiters(&mut found, lock, ask)?;
    Ok(found)
}

// Adds the sessions whose granted tickets block a request.
fn add_holders(found: &mut Vec<usize>, lock: &Lock, ask: Ticket) -> Result<(), AllocError>
    ensures { OnOk result (found.new.items ≡ fold with_session found.old.items (filter (holds_against lock.now ask) lock.now.granted)) }
{
    for held in lock.granted() {
        if holds_against(lock, ask, *held) {
            add_session(found, *held)?;
        }
    }
    Ok(())
}

// Adds the sessions whose waiting tickets block a request.
fn add_waiters(found: &mut Vec<usize>, lock: &Lock, ask: Ticket) -> Result<(), AllocError>
    ensures { OnOk result (found.new.items ≡ fold with_session found.old.items (filter (waits_before lock.now ask) lock.now.waiting)) }
{
    for pending in lock.waiting() {
        if waits_before(lock, ask, *pending) {
            add_session(found, *pending)?;
        }
    }
    Ok(())
}

// Adds the session of a ticket, unless it is there.
fn add_session(found: &mut Vec<usize>, ticket: Ticket) -> Result<(), AllocError>
    ensures { OnOk result (found.new.items ≡ with_session found.old.items ticket) }
{
    if !has_session(found, ticket.session) {
        found.push(ticket.session)?;
    }
    Ok(())
}

// Whether a session is among these.
fn has_session(sessions: &[usize], session: usize) -> bool
    ensures { result ≡ list_any (nat_eq session) sessions.now }
{
    sessions.iter().any(|known| session == *known)
}
