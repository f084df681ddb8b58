//! `mdl_program`: what a program does once its command line is read.
use mdl_key::KeyError;
use mdl_program::{Run, run_asked};

#[test]
fn a_program_ends_with_its_status(rt: HostRuntime) {
    let alloc = rt.alloc();
    let asked: Result<Run, KeyError> = Ok(Run::Replay);
    let mut input = b"1 BEGIN\n0 BEGIN\n".as_slice();
    let mut output = Vec::new(alloc);
    let mut errors = Vec::new(alloc);
    let status = run_asked(&rt, alloc, &asked, &mut input, &mut output, &mut errors);
    // A refused line refuses the script, and then nothing is written.
    assert_eq!(rt; status, 1);
    assert_eq!(rt; errors.as_slice(), b"line 2: BadSession\n".as_slice());
    assert!(rt; output.is_empty());
}
