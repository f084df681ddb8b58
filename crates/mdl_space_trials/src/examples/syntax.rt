//! `mdl_syntax`: a script of statements, and one that is refused.
use mdl_lines::{Fault, LineError};
use mdl_syntax::{Statement, parse};
use std::test::Fail;

#[test]
fn a_script_is_read(rt: HostRuntime) -> Result<(), Fail> {
    // The first refused line refuses a script. There are 1,024 sessions at most.
    let refused = parse(rt.alloc(), b"1 BEGIN\n1025 BEGIN\n").err();
    assert!(rt; refused == Some(Fault::Refused(2, LineError::BadSession)));
    // Here the first line is a comment.
    let script = parse(
        rt.alloc(),
        b"# who has ordered?\n1 SELECT orders shop.customers\n",
    )?;
    let is_read = match script.lines() {
        [line] => line.number == 2
            && line.session == 1
            && matches!(line.statement, Statement::Select(_)),
        _ => false,
    };
    assert!(rt; is_read);
    Ok(())
}
