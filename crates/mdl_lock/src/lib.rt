//! One metadata lock that a script drives, and the matrices of both kinds of lock.
//!
//! [`lock_run`] reads a script, checks all of its lines, executes them over one book, and writes the answers.
//! [`matrix_run`] prints which modes clash, and which wait behind which.
//!
//! # Example
//!
//! ```
//! use mdl_key::Kind;
//! use mdl_lock::lock_run;
//!
//! let alloc = rt.alloc();
//! let mut script = b"1 SR\n2 X\n1 RELEASE\n".as_slice();
//! let mut answers = Vec::new(alloc);
//! lock_run(alloc, Kind::Object, &mut script, &mut answers)?;
//! let wanted = "1 GRANTED SR\n2 WAITS X\n1 RELEASED SR\n2 GRANTED X\n";
//! assert_eq!(rt; answers.as_slice(), wanted.as_bytes());
//! ```
#![tactic(auto)]

mod answer;
mod lines;
mod lock_answers;
mod lock_script;
mod matrices;
mod parse;
mod script_command;

pub use answer::Answer;
pub use lock_script::lock_run;
pub use matrices::{matrices_are_known, matrix_run};
pub use script_command::{Action, ScriptCommand};
