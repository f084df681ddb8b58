//! `mdl_system`: what a held mode may become.
use mdl_key::Mode;
use mdl_system::{covers, may_downgrade, may_upgrade};

#[test]
fn an_alteration_changes_its_mode(rt: HostRuntime) {
    // Who alters a table prepares the change in SU, makes it in X, and goes back.
    assert!(rt; may_upgrade(Mode::SU, Mode::X) && may_downgrade(Mode::X, Mode::SU));
    // Who only reads it can't come to change it so.
    assert!(rt; !may_upgrade(Mode::SR, Mode::X));
    // X serves for each wish for SR, and SR for none for X.
    assert!(rt; covers(Mode::X, Mode::SR) && !covers(Mode::SR, Mode::X));
}
