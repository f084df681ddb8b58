//! Scripts of statements, played in one thread, or with a thread for each session.
//!
//! [`replay`] plays a whole script, and a [`Play`] plays it line by line and shows its locks between the lines.
//!
//! # Example
//!
//! ```
//! use mdl_script::replay;
//!
//! let alloc = rt.alloc();
//! let mut script =
//!     b"1 CREATE TABLE t x\n1 BEGIN\n1 SELECT t\n2 DROP TABLE t\n1 COMMIT\n".as_slice();
//! let mut answers = Vec::new(alloc);
//! replay(alloc, &mut script, &mut answers)?;
//! // The drop waits for the transaction that has read the table.
//! let wanted = "1 1 OK\n2 1 OK\n3 1 OK test.t@1(x)\n4 2 WAIT TABLE test.t X\n5 1 OK\n4 2 OK\n";
//! assert_eq!(rt; answers.as_slice(), wanted.as_bytes());
//! ```
#![tactic(auto)]

mod asking;
mod finals;
mod first_space;
mod laws;
mod on_thread;
mod play;
mod replaying;
mod run;
mod running;
mod told;
mod turns;

pub use laws::runs_have_one_text;
pub use mdl_lines::{Fault, LineError};
pub use mdl_syntax::{Line, Script, Statement, parse};
pub use mdl_work::{Gate, OpenGate, work};
pub use play::{DEFAULT_CACHE, MOST_TURNS, Play};
pub use replaying::{lines_until, replay, space_after};
pub use running::{Ran, run_on, run_threads};
pub use told::{News, Told, push_end, push_news, push_told};
