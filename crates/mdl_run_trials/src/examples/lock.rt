//! `mdl_lock`: one lock that a script drives.
use mdl_key::Kind;
use mdl_lock::lock_run;
use std::test::Fail;

#[test]
fn a_script_drives_a_lock(rt: HostRuntime) -> Result<(), Fail> {
    let alloc = rt.alloc();
    let mut script = b"1 SR\n2 X\n1 RELEASE\n".as_slice();
    let mut answers = Vec::new(alloc);
    lock_run(alloc, Kind::Object, &mut script, &mut answers)?;
    let wanted = "1 GRANTED SR\n2 WAITS X\n1 RELEASED SR\n2 GRANTED X\n";
    assert_eq!(rt; answers.as_slice(), wanted.as_bytes());
    Ok(())
}
