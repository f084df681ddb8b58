//! `mdl_steps`: a session at the latch of a place.
use mdl_steps::Maker;
use std::sync::Arc;
use std::test::Fail;

#[test]
fn a_session_takes_a_latch(rt: HostRuntime) -> Result<(), Fail> {
    let (table, mut maker) = Maker::of_places(rt.alloc(), 3, 2)?; // places and sessions
    let Some(mut seat) = maker.enrol(Arc::new(rt.alloc(), table)?) else {
        panic!(rt; "there is room for two");
    };
    let Some(latch) = seat.take_latch(2) else {
        panic!(rt; "nobody else is there");
    };
    // Nobody has a ticket there, so the word's flags may be down.
    let needs = seat.needs(&latch);
    assert!(rt; !needs.slow && !needs.obtrusive);
    seat.put_latch(latch, &[]);
    Ok(())
}
