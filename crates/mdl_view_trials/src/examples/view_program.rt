//! `mdl_view_program`: a reader's transaction stops a DROP TABLE.
use mdl_view_program::{Form, Question, view_script};
use std::test::Fail;

#[test]
fn a_script_is_looked_at(rt: HostRuntime) -> Result<(), Fail> {
    let alloc = rt.alloc();
    let mut script = b"1 CREATE TABLE t x\n1 BEGIN\n1 SELECT t\n2 DROP TABLE t\n".as_slice();
    let mut output = Vec::new(alloc);
    let end = view_script(
        alloc,
        Question::Why(Form::Text),
        u64::MAX,
        &mut script,
        &mut output,
    );
    assert!(rt; end.is_ok());
    assert_eq!(rt;
        output.as_slice(),
        b"1 request waits. Ways out, the best first. Do one, and look again:
1. End session 1
   1 wait ends at once
   session 1 holds SR of TABLE test.t
   session 2 gets X of TABLE test.t
"
            .as_slice()
    );
    Ok(())
}
