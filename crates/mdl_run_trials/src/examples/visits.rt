//! `mdl_visits`: a session looks the place of a key up.
use mdl_key::Key;
use mdl_steps::Maker;
use mdl_visits::resolve;
use std::sync::Arc;
use std::test::Fail;

#[test]
fn a_session_looks_a_key_up(rt: HostRuntime) -> Result<(), Fail> {
    let (table, mut maker) = Maker::of_places(rt.alloc(), 3, 2)?; // places and sessions
    let Some(mut seat) = maker.enrol(Arc::new(rt.alloc(), table)?) else {
        panic!(rt; "there is room for two");
    };
    let orders = Key::table(rt.alloc(), "test", "orders")?;
    let lines = Key::table(rt.alloc(), "test", "lines")?;
    // A new key gets the next place, and keeps it.
    assert_eq!(rt; resolve(&rt, &mut seat, rt.alloc(), &orders), Ok(1));
    assert_eq!(rt; resolve(&rt, &mut seat, rt.alloc(), &lines), Ok(2));
    assert_eq!(rt; resolve(&rt, &mut seat, rt.alloc(), &orders), Ok(1));
    Ok(())
}
