//! Sessions open and close, on two threads.
ghost use Rattle.std.specs.Prelude.{◌≡◌, ◌+◌, ◌<◌, length};
ghost use Rattle.mdl_shared.specs.Passes.{ArePasses, manager_table, pass_table, pass_view};

use mdl_shared::{CloseError, Manager, Pass, Session};
use std::mem::drop;
use std::process::Abort;
use std::test::Fail;
use std::thread;

/// Closes a session that has no ticket and owes nothing, and returns its pass.
pub(crate) fn closed<R: Drop>(rt: &impl Abort, session: Session<R>) -> Pass
    ensures { pass_table result ≡ session.table }
{
    match session.close() {
        Ok(pass) => pass,
        Err(CloseError::HoldsTickets(_session)) => panic!(rt; "the session holds no ticket"),
        Err(CloseError::Owes(_session, place)) => panic!(rt; "place {place} is owed nothing"),
    }
}

/// Closes a session that has no ticket and owes nothing.
pub(crate) fn close<R: Drop>(rt: &impl Abort, session: Session<R>) {
    drop(closed(rt, session));
}

/// Removes and returns the pass of the last session.
pub(crate) fn take_last(_manager: &Manager, passes: &mut Vec<Pass>) -> Pass
    requires some { 0 < length passes.old.items }
    requires theirs { ArePasses (manager_table _manager.now) passes.old.items }
    ensures left { length passes.new.items + 1 ≡ length passes.old.items }
    ensures theirs { ArePasses (manager_table _manager.now) passes.new.items }
    ensures table { pass_table result ≡ manager_table _manager.now }
{
    passes.remove(passes.len() - 1)
}

// Opens a pass's session, and closes it. It has no ticket yet.
fn reopen(manager: &Manager, pass: Pass) -> Pass
    requires { pass_table pass ≡ manager_table manager.now }
    ensures { pass_view result ≡ pass_view pass }
{
    let session = Session::open((), manager, pass);
    match session.close() {
        Ok(pass) => pass,
        Err(CloseError::HoldsTickets(_session)) => unreachable!(),
        Err(CloseError::Owes(_session, _place)) => unreachable!(),
    }
}

// Opens and closes a session `times` times, and returns its number.
fn reopened(manager: &Manager, mut pass: Pass, times: u32) -> u16
    requires { pass_table pass ≡ manager_table manager.now }
{
    for _ in 0..times {
        pass = reopen(manager, pass);
    }
    let number = pass.number();
    drop(pass);
    number
}

#[test]
fn two_threads_open_two_sessions(rt: HostRuntime) -> Result<(), Fail> {
    let (manager, mut passes) = Manager::new(rt.alloc(), 1, 2)?;
    let two = passes.remove(1);
    let one = passes.remove(0);
    let manager = &manager;
    let (first, second) = thread::join(
        &rt,
        move || reopened(manager, one, 20_000),
        move || reopened(manager, two, 20_000),
    );
    assert!(rt; first == 1 && second == 2);
    Ok(())
}
