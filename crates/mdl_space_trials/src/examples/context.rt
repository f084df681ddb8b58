//! `mdl_context`: a session that goes back to a savepoint.
use mdl_context::{Acquire, Context, Request};
use mdl_key::{Duration, Key, Mode};
use mdl_space::CoreSpace;
use std::test::Fail;

#[test]
fn a_session_goes_back_to_a_savepoint(rt: HostRuntime) -> Result<(), Fail> {
    let orders = Key::table(rt.alloc(), "test", "orders")?;
    let mut space = CoreSpace::new(rt.alloc(), 256, 64)?; // places and sessions
    let mut context = Context::new(rt.alloc(), 1); // of session 1
    let savepoint = context.savepoint();
    let request = Request {
        key: &orders,
        mode: Mode::SR,
        duration: Duration::Transaction,
    };
    let acquired = context.acquire(&mut space, request);
    assert!(rt; acquired == Ok(Acquire::Acquired(1)) && context.kept().len() == 1);
    // What was gained since the savepoint is given up.
    let given_up = context.rollback_to(&mut space, savepoint);
    assert!(rt; given_up.is_ok() && context.kept().is_empty());
    Ok(())
}
