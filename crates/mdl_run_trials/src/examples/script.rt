//! `mdl_script`: a script of statements, from bytes to bytes.
use mdl_script::replay;
use std::test::Fail;

#[test]
fn a_script_is_played(rt: HostRuntime) -> Result<(), Fail> {
    let alloc = rt.alloc();
    let mut script =
        b"1 CREATE TABLE t x\n1 BEGIN\n1 SELECT t\n2 DROP TABLE t\n1 COMMIT\n".as_slice();
    let mut answers = Vec::new(alloc);
    replay(alloc, &mut script, &mut answers)?;
    // The drop waits for the transaction that has read the table.
    let wanted = "1 1 OK\n2 1 OK\n3 1 OK test.t@1(x)\n4 2 WAIT TABLE test.t X\n5 1 OK\n4 2 OK\n";
    assert_eq!(rt; answers.as_slice(), wanted.as_bytes());
    Ok(())
}
