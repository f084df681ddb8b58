//! `mdl_explain`: what a line locks, in words.
use mdl_explain::explain;

#[test]
fn a_line_is_explained(rt: HostRuntime) {
    let alloc = rt.alloc();
    let mut script = b"7 GET_LOCK import\n".as_slice();
    let mut told = Vec::new(alloc);
    assert!(rt; explain(alloc, &mut script, &mut told).is_ok());
    let wanted = b"line 1, session 7:
  X of the user-level lock, until the session releases it; the reply is 1
";
    assert_eq!(rt; told.as_slice(), wanted.as_slice());
}
