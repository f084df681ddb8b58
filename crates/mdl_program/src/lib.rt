//! What a program of the locks does and prints, once the words of its command line are read: it executes a script over one lock,
//! plays a script of statements, in one thread or with a thread for each session, explains what its lines lock, or prints the matrices.
//!
//! [`run_asked`] does what was asked for, reports a fault on the stream of errors, and returns the exit status.
//!
//! # Example
//!
//! ```
//! use mdl_key::KeyError;
//! use mdl_program::{Run, run_asked};
//!
//! let alloc = rt.alloc();
//! let asked: Result<Run, KeyError> = Ok(Run::Replay);
//! let mut input = b"1 BEGIN\n0 BEGIN\n".as_slice();
//! let mut output = Vec::new(alloc);
//! let mut errors = Vec::new(alloc);
//! let status = run_asked(&rt, alloc, &asked, &mut input, &mut output, &mut errors);
//! // A refused line refuses the script, and then nothing is written.
//! assert_eq!(rt; status, 1);
//! assert_eq!(rt; errors.as_slice(), b"line 2: BadSession\n".as_slice());
//! assert!(rt; output.is_empty());
//! ```
#![tactic(auto)]

mod program;
mod threads;

pub use program::{Run, lack_words, run_asked};
