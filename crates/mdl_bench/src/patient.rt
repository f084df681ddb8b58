//! Calls of sessions beside sessions of other threads: they try again if the word changed meanwhile, and wait if the lock isn't free.
ghost use Rattle.std.specs.Prelude.{◌≡◌, true};
ghost use Rattle.mdl_key.specs.KeyLookups.{is_known};
ghost use Rattle.mdl_shared.specs.SessionViews.{data_of};

use crate::failure::Failure;
use mdl_calls::{Attempt, Begun, Ended, Place, Poll, TicketId};
use mdl_key::Mode;
use mdl_shared::{Fast, Released, Session};
use std::sync::Wait;
use std::thread;

/// Gains a fast ticket, however often other sessions change the lock's word meanwhile. If the fast path is closed, waits for the lock.
pub fn gain<R: Wait>(
    rt: &R,
    session: &mut Session<&R>,
    place: Place,
    mode: Mode,
) -> Result<TicketId, Failure>
    requires known { is_known place (data_of session.old).known ≡ true }
    ensures known { (data_of session.new).known ≡ (data_of session.old).known }
{
    for _ in rt.forever() {
        match session.try_fast(place, mode) {
            Ok(Fast::Granted(id)) => return Ok(id),
            Ok(Fast::Contended(_)) => {}
            Ok(Fast::Obtruded(_)) => return wait_for(rt, session, place, mode),
            Ok(Fast::Limit) => return Err(Failure::Unexpected),
            Err(_) => return Err(Failure::Refused),
        }
    }
    unreachable!()
}

/// Acquires a lock, and waits for it if it isn't free.
pub fn take<R: Wait>(
    rt: &R,
    session: &mut Session<&R>,
    place: Place,
    mode: Mode,
) -> Result<TicketId, Failure>
    ensures known { (data_of session.new).known ≡ (data_of session.old).known }
{
    match session.try_now(place, mode) {
        Ok(Attempt::Granted(id)) => Ok(id),
        Ok(Attempt::WouldWait) => wait_for(rt, session, place, mode),
        Err(_) => Err(Failure::Refused),
    }
}

// Waits for a lock. Other threads go on meanwhile.
fn wait_for<R: Wait>(
    rt: &R,
    session: &mut Session<&R>,
    place: Place,
    mode: Mode,
) -> Result<TicketId, Failure>
    ensures known { (data_of session.new).known ≡ (data_of session.old).known }
{
    match session.begin_wait(place, mode) {
        Ok(Begun::Granted(id)) => return Ok(id),
        Ok(Begun::Waiting(_)) => {}
        Err(_) => return Err(Failure::Refused),
    }
    wait(rt, session);
    match session.end_wait() {
        Ok(Ended::Granted(id)) => Ok(id),
        _ => Err(Failure::Unexpected),
    }
}

// Waits until the session's wait is settled, or can't be polled.
fn wait<R: Wait>(rt: &R, session: &mut Session<&R>)
    ensures known { (data_of session.new).known ≡ (data_of session.old).known }
{
    for _ in rt.forever() {
        match session.poll_wait() {
            Ok(Poll::Pending) => thread::yield_now(),
            _ => return,
        }
    }
    unreachable!()
}

/// Releases a ticket, and reschedules the place if the release owes it.
pub fn give_up<R: Wait>(
    session: &mut Session<&R>,
    place: Place,
    id: TicketId,
) -> Result<(), Failure>
    requires known { is_known place (data_of session.old).known ≡ true }
    ensures known { (data_of session.new).known ≡ (data_of session.old).known }
{
    match session.release_fast(id) {
        Ok(Released { owes }) => {
            if owes {
                session.reschedule(place);
            }
            Ok(())
        }
        Err(_) => give_up_slow(session, id),
    }
}

// Releases a slow ticket.
fn give_up_slow<R: Wait>(session: &mut Session<&R>, id: TicketId) -> Result<(), Failure>
    ensures known { (data_of session.new).known ≡ (data_of session.old).known }
{
    match session.release(id) {
        Ok(()) => Ok(()),
        Err(_) => Err(Failure::Refused),
    }
}
