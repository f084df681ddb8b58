//! What a session holds.
ghost use Rattle.std.specs.Prelude.{◌≡◌, ◌++◌, map, filter, OnOk, IfOk};
ghost use Rattle.mdl_view.specs.Blockings.{at_lock};
ghost use Rattle.mdl_view.specs.Held.{held_by, is_of};

use crate::at_lock::AtLock;
use crate::lock::Lock;
use crate::waits::add_at_lock;
use std::alloc::{AllocError, Global};

/// Returns the granted tickets of a session, lock by lock, and for each lock in their order.
pub fn held_by(alloc: Global, locks: &[Lock], session: usize) -> Result<Vec<AtLock>, AllocError>
    ensures { IfOk result (λ found. found.items ≡ held_by session locks.now) }
{
    let mut found = Vec::new(alloc);
    for (place, lock) in locks.iter().enumerate() {
        add_held(&mut found, place, lock, session)?;
    }
    Ok(found)
}

// Adds the granted tickets of a session at one lock.
fn add_held(
    found: &mut Vec<AtLock>,
    place: usize,
    lock: &Lock,
    session: usize,
) -> Result<(), AllocError>
    ensures { OnOk result (found.new.items ≡ found.old.items ++ map (at_lock place) (filter (is_of session) lock.now.granted)) }
{
    for held in lock.granted() {
        if held.session == session {
            add_at_lock(found, place, *held)?;
        }
    }
    Ok(())
}
