//! A session outside the script holds a table lock while the script is played over the same lock table.
ghost use Rattle.std.specs.Prelude.{◌≡◌, ◌≤◌, All, length};
ghost use Rattle.mdl_shared.specs.Passes.{manager_table, pass_table};

use crate::playing::played_on;
use mdl_calls::{Attempt, Place, TicketId};
use mdl_defs::{Column, Definition, VersionedDefinition};
use mdl_key::{Key, MOST_PLACES, MOST_SESSIONS, Mode};
use mdl_script::{DEFAULT_CACHE, OpenGate, Ran};
use mdl_shared::{CloseError, Manager, Pass, Session};
use std::alloc::Global;
use std::mem::drop;
use std::process::Abort;
use std::sync::Wait;
use std::test::Fail;
use std::thread::Threads;

const SCRIPT: &str = "1 CREATE TABLE t x\n1 CREATE TABLE u x\n";

const TEXT: &str = "1 1 ERR 1205\n2 1 OK\nFINAL SCHEMA test@1\nFINAL TABLE test.u@1(x)\n";

// Locks a table of the schema test, if the lock can be granted at once, and returns the ticket.
fn take<R: Wait>(
    session: &mut Session<R>,
    alloc: Global,
    table: &str,
    mode: Mode,
) -> Option<TicketId> {
    let place = place_of(session, alloc, table)?;
    match session.try_now(place, mode) {
        Ok(Attempt::Granted(id)) => Some(id),
        Ok(Attempt::WouldWait) | Err(_) => None,
    }
}

fn place_of<R: Wait>(session: &mut Session<R>, alloc: Global, table: &str) -> Option<Place> {
    let key = Key::table(alloc, "test", table).ok()?;
    let place = session.resolve(&key);
    drop(key);
    place.ok()
}

// Whether a table can be locked for reading at once, and has just been created.
fn sees_new<R: Wait>(session: &mut Session<R>, alloc: Global, table: &str) -> bool {
    let Some(id) = take(session, alloc, table, Mode::SR) else {
        return false;
    };
    let is_new = match session.read_definition(id) {
        Ok(standing) => is_new_table(standing),
        Err(_) => false,
    };
    session.release(id).is_ok() && is_new
}

// Whether this is the first version of a table with the one column x.
fn is_new_table(standing: VersionedDefinition) -> bool {
    let is_new = match &standing.definition {
        Some(Definition::Table(columns)) => {
            standing.version == 1 && are_only_x(columns.as_slice())
        }
        _ => false,
    };
    drop(standing);
    is_new
}

fn are_only_x(columns: &[Column]) -> bool {
    match columns {
        [column] => column.name() == "x",
        _ => false,
    }
}

// Plays a script while the session `own` has table t locked. Returns the text of the run, and whether the session then sees that table u is new and
// can release its own ticket.
fn played_beside<R: Threads + Wait + Sync>(
    rt: &R,
    alloc: Global,
    manager: &Manager,
    passes: Vec<Pass>,
    script: &str,
    own: &mut Session<&R>,
) -> (Result<Ran, Fail>, bool)
    requires some { 1 ≤ length passes.items }
    requires theirs { All (λ pass. pass_table pass ≡ manager_table manager.now) passes.items }
{
    let Some(id) = take(own, alloc, "t", Mode::X) else {
        drop(passes);
        return (Err(Fail::from("the table is not free")), false);
    };
    let ran = played_on(
        rt,
        alloc,
        manager,
        passes,
        script,
        0,
        DEFAULT_CACHE,
        &OpenGate,
    );
    let sees_new = sees_new(own, alloc, "u");
    (ran, own.release(id).is_ok() && sees_new)
}

/// Closes a session, which must have no ticket and no wait, and owe no place a reschedule.
pub(crate) fn close<R: Drop>(rt: &impl Abort, session: Session<R>) {
    match session.close() {
        Ok(pass) => drop(pass),
        Err(CloseError::HoldsTickets(_session)) => panic!(rt; "the session has a ticket or a wait"),
        Err(CloseError::Owes(_session, place)) => panic!(rt; "place {place} is owed a reschedule"),
    }
}

#[test]
fn a_table_that_is_not_free_is_missed(rt: HostRuntime) -> Result<(), Fail> {
    let (manager, mut passes) = Manager::new(rt.alloc(), MOST_PLACES, MOST_SESSIONS)?;
    let Some(last) = passes.pop() else {
        panic!(rt; "there is no session");
    };
    let mut own = Session::open(&rt, &manager, last);
    let (ran, sees_new) = played_beside(&rt, rt.alloc(), &manager, passes, SCRIPT, &mut own);
    drop(manager);
    close(&rt, own);
    let ran = ran?;
    let has_text = ran.text.as_str() == TEXT;
    drop(ran);
    assert!(rt; has_text && sees_new);
    Ok(())
}
