//! Sessions of the table that threads share: how they are closed, and calls after which they still know all keys that they knew.
ghost use Rattle.std.specs.Prelude.{◌≡◌, ℕ, true, IfOk};
ghost use Rattle.mdl_key.specs.KeyLookups.{is_known};
ghost use Rattle.mdl_shared.specs.SessionViews.{data_of};

use crate::failure::Failure;
use mdl_calls::{Held, Place, SpaceError, TicketId};
use mdl_key::{Key, Mode};
use mdl_shared::{CloseError, Fast, Released, Session};
use std::sync::Wait;

/// Returns the place of a key. The session knows the key from then on, and all that it knew before. It has room for `tickets` more tickets.
pub fn look_up<R: Wait>(
    session: &mut Session<R>,
    key: &Key,
    tickets: usize,
) -> Result<Place, Failure>
    ensures known { IfOk result (λ place. is_known place (data_of session.new).known ≡ true) }
    ensures kept { (place : ℕ) → is_known place (data_of session.old).known ≡ true → is_known place (data_of session.new).known ≡ true }
{
    let place = match session.resolve(key) {
        Ok(place) => place,
        Err(_) => return Err(Failure::Refused),
    };
    match session.reserve_tickets(tickets) {
        Ok(()) => Ok(place),
        Err(_) => Err(Failure::Memory),
    }
}

/// Tries to gain a fast ticket. Returns its number if it is granted.
pub fn gain<R>(session: &mut Session<R>, place: Place, mode: Mode) -> Option<TicketId>
    requires known { is_known place (data_of session.old).known ≡ true }
    ensures known { (data_of session.new).known ≡ (data_of session.old).known }
{
    match session.try_fast(place, mode) {
        Ok(Fast::Granted(id)) => Some(id),
        _ => None,
    }
}

/// Releases a fast ticket. Whether the session had it, and owes no reschedule.
pub fn give_up<R>(session: &mut Session<R>, id: TicketId) -> bool
    ensures known { (data_of session.new).known ≡ (data_of session.old).known }
{
    match session.release_fast(id) {
        Ok(Released { owes }) => !owes,
        Err(_) => false,
    }
}

/// Closes a session, and before releases all that it has, and makes the reschedules that it owes. If memory runs out for the list of its tickets,
/// tries again.
pub fn close<R: Wait, W: Wait + Drop>(rt: &R, mut session: Session<W>) {
    for _ in rt.forever() {
        match session.close() {
            Ok(pass) => {
                drop(pass);
                return;
            }
            Err(CloseError::HoldsTickets(open)) => {
                session = open;
                let _ = give_all_up(&mut session);
            }
            Err(CloseError::Owes(open, place)) => {
                session = open;
                session.reschedule(place);
            }
        }
    }
    unreachable!()
}

// Ends a session's wait, and releases all its tickets.
fn give_all_up<R: Wait>(session: &mut Session<R>) -> Result<(), SpaceError> {
    if session.settle_timeout().is_ok() {
        session.end_wait()?;
    }
    let held = session.held()?;
    let released = release_all(session, &held);
    drop(held);
    released
}

fn release_all<R: Wait>(session: &mut Session<R>, held: &[Held]) -> Result<(), SpaceError> {
    for ticket in held {
        session.release(ticket.id)?;
    }
    Ok(())
}
