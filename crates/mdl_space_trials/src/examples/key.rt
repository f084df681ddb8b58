//! `mdl_key`: a key, and which modes of it clash.
use mdl_key::{Key, Kind, Mode, conflicts_granted, conflicts_waiting};
use std::test::Fail;

#[test]
fn modes_of_a_table_clash(rt: HostRuntime) -> Result<(), Fail> {
    let kind = Key::table(rt.alloc(), "test", "orders")?.kind();
    assert!(rt; kind == Kind::Object);
    // A reader stands in the way of a change, and who reads later waits behind that.
    assert!(rt;
        conflicts_granted(kind, Mode::X, Mode::SR) && conflicts_waiting(kind, Mode::SR, Mode::X)
    );
    // High priority waits behind nothing.
    assert!(rt; !conflicts_waiting(kind, Mode::SH, Mode::X));
    Ok(())
}
