//! `mdl_lines`: the words of a line, a fault, and the lines of a text.
use mdl_lines::{
    Fault, LineError, first_words, is_comment, line_at, lines_of, push, push_number, report,
    session_of,
};
use std::test::Fail;

#[test]
fn lines_are_read_and_a_fault_told(rt: HostRuntime) -> Result<(), Fail> {
    assert!(rt; is_comment(b"# session 3 is done") == Ok(true));
    let is_read = match first_words(b"3 COMMIT") {
        Some((who, Some(what))) => session_of(who) == Some(3) && what == b"COMMIT".as_slice(),
        _ => false,
    };
    assert!(rt; is_read);
    // There are 1,024 sessions at most.
    assert!(rt; session_of(b"1025").is_none());
    let mut told = Vec::new(rt.alloc());
    let status = report(&Fault::Refused(2, LineError::BadSession), &mut told);
    assert!(rt; status == 1 && told.as_slice() == b"line 2: BadSession\n".as_slice());
    let lines = lines_of(rt.alloc(), b"1 BEGIN\r\n2 COMMIT\n")?;
    assert!(rt; line_at(&lines, 1) == b"1 BEGIN".as_slice() && line_at(&lines, 4).is_empty());
    push(&mut told, b"lines: ")?;
    push_number(&mut told, lines.len() as u64)?;
    assert!(rt; told.as_slice() == b"line 2: BadSession\nlines: 3".as_slice());
    Ok(())
}
