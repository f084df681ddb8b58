//! Lines of scripts, and the streams that scripts come from: what the scripts of all commands share.
//!
//! [`is_comment`] checks a line as a whole, [`first_words`] finds its first words, and [`session_of`] reads the number of a
//! session. A [`LineError`] says why a line is refused, and a [`Fault`] what prevented a script from being run to its end.
//! [`report`] prints a fault. [`read_all`] and [`write_all`] work on any reader and writer, however few bytes it gives or takes
//! at a time. [`lines_of`] cuts a text into lines, [`line_at`] returns one of them, and [`push`], [`push_number`] and [`push_digits`]
//! append to a text.
//!
//! # Example
//!
//! ```
//! use mdl_lines::{
//!     Fault, LineError, first_words, is_comment, line_at, lines_of, push, push_number, report, session_of,
//! };
//!
//! assert!(rt; is_comment(b"# session 3 is done") == Ok(true));
//! let is_read = match first_words(b"3 COMMIT") {
//!     Some((who, Some(what))) => session_of(who) == Some(3) && what == b"COMMIT".as_slice(),
//!     _ => false,
//! };
//! assert!(rt; is_read);
//! // There are 1,024 sessions at most.
//! assert!(rt; session_of(b"1025").is_none());
//! let mut told = Vec::new(rt.alloc());
//! let status = report(&Fault::Refused(2, LineError::BadSession), &mut told);
//! assert!(rt; status == 1 && told.as_slice() == b"line 2: BadSession\n".as_slice());
//! let lines = lines_of(rt.alloc(), b"1 BEGIN\r\n2 COMMIT\n")?;
//! assert!(rt; line_at(&lines, 1) == b"1 BEGIN".as_slice() && line_at(&lines, 4).is_empty());
//! push(&mut told, b"lines: ")?;
//! push_number(&mut told, lines.len() as u64)?;
//! assert!(rt; told.as_slice() == b"line 2: BadSession\nlines: 3".as_slice());
//! ```
#![tactic(auto)]

mod device;
mod fault;
mod lines;
mod telling;
mod text;

pub use device::{read_all, write_all};
pub use fault::{Fault, LineError};
pub use lines::{
    first_words, is_blank, is_comment, line_at, lines_of, session_of, strip_carriage_return,
};
pub use telling::report;
pub use text::{push, push_digits, push_number};
