//! What `mdlview` does once the words of its command line are read: it examines a table of locks, and writes the answer to a question.
//!
//! [`view_script`] plays a script and examines the locks that it leaves. [`view_rows`] examines those of a server's rows. [`answer`] answers a
//! question about any locks. [`draw_script`] draws what happens at the lines of a script, and [`draw_page`] writes a page around that picture.
//!
//! # Example
//!
//! ```
//! use mdl_view_program::{Form, Question, view_script};
//!
//! let alloc = rt.alloc();
//! let mut script = b"1 CREATE TABLE t x\n1 BEGIN\n1 SELECT t\n2 DROP TABLE t\n".as_slice();
//! let mut output = Vec::new(alloc);
//! let end = view_script(
//!     alloc,
//!     Question::Why(Form::Text),
//!     u64::MAX,
//!     &mut script,
//!     &mut output,
//! );
//! assert!(rt; end.is_ok());
//! assert_eq!(rt;
//!     output.as_slice(),
//!     b"1 request waits. Ways out, the best first. Do one, and look again:
//! 1. End session 1
//!    1 wait ends at once
//!    session 1 holds SR of TABLE test.t
//!    session 2 gets X of TABLE test.t
//! "
//!         .as_slice()
//! );
//! ```
#![tactic(auto)]

mod answers;
mod pages;
mod program;
mod question;
mod rows;

pub use answers::{answer, answer_of_books};
pub use pages::draw_page;
pub use program::{draw_script, view_script};
pub use question::{Form, Question};
pub use rows::{Explained, RowsFault, view_rows};
