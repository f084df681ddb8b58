//! `mdlview` says who blocks whom. `mdlview why` reads the rows of a server's metadata locks from standard input, and prints the deadlocks, and
//! what would follow if each of the sessions that block others and wait for none ended. `mdlview locks`, `mdlview waits` and `mdlview graph`
//! print the locks, the waits, and a graph of the waits. With `--script` it plays a script of statements, and examines the locks that it
//! leaves; `mdlview timeline` prints a picture of it, or a page. With `--json` it prints an object of JSON. `mdlview --version` prints its version.
#![tactic(auto)]

mod asked;
mod command_line;
mod help;
mod program;
mod query;

use mdl_program::lack_words;
use program::run_words;
use std::io;
use std::process::ExitCode;

fn main(rt: HostRuntime) -> ExitCode {
    ExitCode::from(match words_given(&rt) {
        Ok(words) => run_words(
            rt.alloc(),
            words.as_slice(),
            &mut rt.stdin(),
            &mut rt.stdout(),
            &mut rt.stderr(),
        ),
        Err(error) => lack_words(&error, &mut rt.stderr()),
    })
}

// The words of the command line.
fn words_given(rt: &HostRuntime) -> io::Result<Vec<String>> {
    let words = std::env::args(rt)?;
    Ok(words.collect(rt.alloc())?)
}
