//! Lines that were parsed before they are drawn.
use mdl_timeline::{draw, draw_lines};
use std::test::Fail;

#[test]
fn no_lines_are_drawn(rt: HostRuntime) -> Result<(), Fail> {
    let alloc = rt.alloc();
    let picture = draw_lines(alloc, b"", &[])?;
    let same = draw(alloc, b"# nothing\n", u64::MAX)?;
    assert!(rt; picture.as_slice() == same.as_slice());
    Ok(())
}
