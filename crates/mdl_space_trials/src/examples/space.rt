//! `mdl_space`: a change that waits in a lock space, and three keys in a space of two places.
use mdl_key::{Key, Mode};
use mdl_space::{Attempt, Begun, CoreSpace, Ended, LockSpace, SpaceError};
use std::test::Fail;

#[test]
fn a_change_waits_in_a_space(rt: HostRuntime) -> Result<(), Fail> {
    let orders = Key::table(rt.alloc(), "test", "orders")?;
    let mut space = CoreSpace::new(rt.alloc(), 256, 64)?; // places and sessions
    assert!(rt; space.resolve(1, &orders) == Ok(1)); // the place of the table
    assert!(rt; space.resolve(2, &orders) == Ok(1)); // each session that locks it pins its place
    // Session 1 reads the table, and session 2 waits to change it.
    assert!(rt; space.try_now(1, 1, Mode::SR) == Ok(Attempt::Granted(1)));
    assert!(rt; space.begin_wait(2, 1, Mode::X) == Ok(Begun::Waiting(1)));
    // The reader goes, and the change has its turn.
    assert!(rt; space.release(1, 1).is_ok());
    assert!(rt; space.end_wait(2) == Ok(Ended::Granted(1)));
    // The reader needs the place no longer. The other session does, as long as it has its ticket.
    assert!(rt; space.unpin(1, 1).is_ok());
    assert!(rt; space.unpin(2, 1) == Err(SpaceError::InUse));
    Ok(())
}

// Three keys in a space of two places.
#[test]
fn places_are_given_anew(rt: HostRuntime) -> Result<(), Fail> {
    let first = Key::user_lock(rt.alloc(), "first")?;
    let second = Key::user_lock(rt.alloc(), "second")?;
    let third = Key::user_lock(rt.alloc(), "third")?;
    let mut space = CoreSpace::new(rt.alloc(), 2, 1)?;
    assert!(rt; space.resolve(1, &first) == Ok(1));
    assert!(rt; space.resolve(1, &second) == Ok(2));
    // The session pins both places.
    assert!(rt; space.resolve(1, &third) == Err(SpaceError::NoPlace));
    // Once it needs the first no longer, the third key gets that place.
    assert!(rt; space.unpin(1, 1).is_ok());
    assert!(rt; space.resolve(1, &third) == Ok(1));
    assert!(rt; space.try_now(1, 1, Mode::X) == Ok(Attempt::Granted(1)));
    assert!(rt; space.resolve(1, &first) == Err(SpaceError::NoPlace));
    Ok(())
}
