//! Sessions of a space that threads share, which are opened and closed on one thread here.
ghost use Rattle.std.specs.Prelude.{◌≡◌, length, IfOk};
ghost use Rattle.mdl_shared.specs.Passes.{ArePasses, manager_table};

use mdl_shared::{CloseError, Manager, NewError, Pass, Session};
use mdl_space::Place;
use std::alloc::Global;
use std::mem::drop;
use std::sync::Wait;

/// Returns a space of `places` places and the passes of its three sessions. Tries a second time if memory runs out.
pub(crate) fn new_passes(alloc: Global, places: u16) -> Result<(Manager, Vec<Pass>), NewError>
    ensures { IfOk result (λ made. (length made.1.items ≡ 3) × ArePasses (manager_table made.0) made.1.items) }
{
    match Manager::new(alloc, places, 3) {
        Err(NewError::OutOfMemory) => Manager::new(alloc, places, 3),
        outcome => outcome,
    }
}

/// Closes a session, and before releases all that it has, and makes the reschedules that it owes. Whether it had and owed nothing.
pub(crate) fn closes<R: Wait + Drop>(rt: &impl Wait, session: Session<R>) -> bool {
    let mut session = session;
    let mut had_nothing = true;
    for _ in rt.forever() {
        match session.close() {
            Ok(pass) => {
                drop(pass);
                return had_nothing;
            }
            Err(CloseError::HoldsTickets(open)) => {
                session = open;
                give_up(&mut session);
                had_nothing = false;
            }
            Err(CloseError::Owes(open, place)) => {
                session = open;
                session.reschedule(place);
                had_nothing = false;
            }
        }
    }
    unreachable!()
}

/// Closes a session that has nothing, but owes a place a reschedule, and makes that before. Whether it was so.
pub(crate) fn pays<R: Wait + Drop>(rt: &impl Wait, session: Session<R>, owed: Place) -> bool {
    match session.close() {
        Ok(pass) => {
            drop(pass);
            false
        }
        Err(CloseError::HoldsTickets(open)) => {
            let _had_nothing = closes(rt, open);
            false
        }
        Err(CloseError::Owes(open, place)) => {
            let mut session = open;
            session.reschedule(place);
            closes(rt, session) && place == owed
        }
    }
}

// Ends the session's wait, and releases its first ticket.
fn give_up<R: Wait>(session: &mut Session<R>) {
    let _settled = session.settle_timeout();
    let _ended = session.end_wait();
    let Ok(held) = session.held() else {
        return;
    };
    if let Some(ticket) = held.first() {
        let _released = session.release(ticket.id);
    }
}
