//! Waits that no single act ends.
ghost use Rattle.std.specs.Prelude.{◌≡◌, ◌&&◌, ◌||◌, ◌++◌, ◌==◌, ℕ, false, not, map, filter, OnOk, IfOk};
ghost use Rattle.mdl_view.specs.Blockings.{at_lock, waits_that};
ghost use Rattle.mdl_view.specs.GoingOn.{no_ticket};
ghost use Rattle.mdl_view.specs.Passes.{AreKnown};
ghost use Rattle.mdl_view.specs.SessionSets.{has};
ghost use Rattle.mdl_view.specs.Ways.{AreHelped, AreJoint, needs_several};

use crate::against::{ModeSessions, blocking_sessions};
use crate::at_lock::AtLock;
use crate::going_on::helped_by;
use crate::lock::Lock;
use crate::session_set::SessionSet;
use crate::ticket::Ticket;
use crate::waits::add_at_lock;
use crate::way::Way;
use std::alloc::{AllocError, Global};

/// Returns the waits that end only if several sessions end, lock by lock, and for each lock in order of arrival: more than one session blocks them,
/// and they end by none of these ways.
pub fn joint_waits(alloc: Global, locks: &[Lock], ways: &[Way]) -> Result<Vec<AtLock>, AllocError>
    ensures { IfOk result (λ found. AreJoint locks.now ways.now found.items) }
{
    let helped = helped_by_all(alloc, locks, ways)?;
    several_waits(alloc, locks, &helped)
}

// The sessions that end in turn by one of these ways.
fn helped_by_all(alloc: Global, locks: &[Lock], ways: &[Way]) -> Result<SessionSet, AllocError>
    ensures { IfOk result (λ helped. AreHelped locks.now ways.now (has helped)) }
{
    let mut all = SessionSet::new(alloc);
    for way in ways {
        let helped = helped_by(alloc, locks, way.act)?;
        all.insert_set(&helped)?;
    }
    Ok(all)
}

// The waits of other sessions that several ones block.
fn several_waits(
    alloc: Global,
    locks: &[Lock],
    helped: &SessionSet,
) -> Result<Vec<AtLock>, AllocError>
    ensures { IfOk result (λ found. found.items ≡ waits_that (needs_several (has helped.now)) 0 locks.now) }
{
    let mut found = Vec::new(alloc);
    for (place, lock) in locks.iter().enumerate() {
        add_several(alloc, &mut found, place, lock, helped)?;
    }
    Ok(found)
}

// Adds those of the waits at one lock.
fn add_several(
    alloc: Global,
    found: &mut Vec<AtLock>,
    place: usize,
    lock: &Lock,
    helped: &SessionSet,
) -> Result<(), AllocError>
    ensures { OnOk result (found.new.items ≡ found.old.items ++ map (at_lock place) (filter (needs_several (has helped.now) lock.now) lock.now.waiting)) }
{
    let mut known = Vec::new(alloc);
    for ask in lock.waiting() {
        if needs_several(alloc, &mut known, lock, helped, *ask)? {
            add_at_lock(found, place, *ask)?;
        }
    }
    Ok(())
}

// Whether several sessions block a request, and none of the ways ends it.
fn needs_several(
    alloc: Global,
    known: &mut Vec<ModeSessions>,
    lock: &Lock,
    helped: &SessionSet,
    ask: Ticket,
) -> Result<bool, AllocError>
    requires { AreKnown lock.now no_ticket known.old.items }
    ensures known { AreKnown lock.now no_ticket known.new.items }
    ensures value { IfOk result (λ several. several ≡ needs_several (has helped.now) lock.now ask) }
{
    let sessions = blocking_sessions(alloc, known, lock, ask.mode)?;
    Ok(!helped.contains(ask.session) && sessions.has_others(ask.session))
}
