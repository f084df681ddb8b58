//! `mdl_shared`: two sessions share a table.
use mdl_calls::Attempt;
use mdl_key::{Key, Mode};
use mdl_shared::{Manager, Session};
use std::process::Abort;
use std::test::Fail;

/// Closes a session that has given up all tickets and owes nothing, and answers the number of its pass.
fn close<R: Drop>(rt: &impl Abort, session: Session<R>) -> u16 {
    match session.close() {
        Ok(pass) => {
            let number = pass.number();
            drop(pass);
            number
        }
        Err(_open) => panic!(rt; "it has no ticket"),
    }
}

#[test]
fn two_sessions_share_a_table(rt: HostRuntime) -> Result<(), Fail> {
    let table = Key::table(rt.alloc(), "test", "orders")?;
    let (manager, mut passes) = Manager::new(rt.alloc(), 256, 2)?; // places and sessions
    // Each could be opened on a thread of its own.
    let mut second = Session::open(&rt, &manager, passes.remove(1));
    let mut first = Session::open(&rt, &manager, passes.remove(0));
    // The key has a place, the same to both.
    assert!(rt; first.resolve(&table) == Ok(1) && second.resolve(&table) == Ok(1));
    // Who looks at the table keeps the other one from having it for itself.
    let (looked, wanted) = (first.try_now(1, Mode::S), second.try_now(1, Mode::X));
    assert!(rt; looked == Ok(Attempt::Granted(1)) && wanted == Ok(Attempt::WouldWait));
    // Who has given up all tickets can be closed, and its pass is there again.
    let given_up = first.release(1);
    let numbers = (close(&rt, first), close(&rt, second));
    assert!(rt; given_up.is_ok() && numbers == (1, 2));
    Ok(())
}
