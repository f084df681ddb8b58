//! `mdl_timeline`: a drop that waits for a transaction.
use mdl_timeline::draw;
use std::test::Fail;

#[test]
fn a_script_is_drawn(rt: HostRuntime) -> Result<(), Fail> {
    let alloc = rt.alloc();
    let script = b"1 CREATE TABLE t x\n1 BEGIN\n1 SELECT t\n2 DROP TABLE t\n1 COMMIT\n";
    let picture = draw(alloc, script, u64::MAX)?;
    assert!(rt; picture.starts_with(b"<svg"));
    Ok(())
}
