//! `mdlsim` runs scripts of metadata locks: `mdlsim lock` reads a script of one lock from standard input, and prints the answers
//! of the lock. `mdlsim replay` reads a script of statements, and prints what becomes of each. `mdlsim run` plays such a script
//! with each session on a thread of its own, and `mdlsim explain` says what its lines lock. `mdlsim matrix` prints which modes
//! clash, and which wait behind which, and `mdlsim --version` prints the version.
#![tactic(auto)]

mod command_line;
mod explaining;
mod program;

use mdl_program::lack_words;
use program::run_words;
use std::io;
use std::process::ExitCode;

fn main(rt: HostRuntime) -> ExitCode {
    ExitCode::from(match words_given(&rt) {
        Ok(words) => run_words(
            &rt,
            rt.alloc(),
            words.as_slice(),
            &mut rt.stdin(),
            &mut rt.stdout(),
            &mut rt.stderr(),
        ),
        Err(error) => lack_words(&error, &mut rt.stderr()),
    })
}

// Returns the words of the command line.
fn words_given(rt: &HostRuntime) -> io::Result<Vec<String>> {
    let words = std::env::args(rt)?;
    Ok(words.collect(rt.alloc())?)
}
