//! The script language of statements: what a line can ask for, and how it is read.
//!
//! [`parse`] reads a [`Script`]: its [`Line`]s, each of which asks a session for a [`Statement`]. A statement's tables are
//! [`Tables`], each the key of its lock, those of LOCK TABLES are [`TableLocks`], and a savepoint's name is a [`Name`]. One
//! table in `specs/Forms` has the forms of all statements, key words first.
//!
//! # Example
//!
//! ```
//! use mdl_lines::{Fault, LineError};
//! use mdl_syntax::{Statement, parse};
//!
//! // The first refused line refuses a script. There are 1,024 sessions at most.
//! let refused = parse(rt.alloc(), b"1 BEGIN\n1025 BEGIN\n").err();
//! assert!(rt; refused == Some(Fault::Refused(2, LineError::BadSession)));
//! // Here the first line is a comment.
//! let script = parse(
//!     rt.alloc(),
//!     b"# who has ordered?\n1 SELECT orders shop.customers\n",
//! )?;
//! let is_read = match script.lines() {
//!     [line] => line.number == 2
//!         && line.session == 1
//!         && matches!(line.statement, Statement::Select(_)),
//!     _ => false,
//! };
//! assert!(rt; is_read);
//! ```
#![tactic(auto)]

mod forms;
mod key_words;
mod laws;
mod lines;
mod name;
mod no_statement;
mod script;
mod statement;
mod table_locks;
mod table_names;
mod tables;
mod verb;
mod words;

pub use laws::{line_numbers_rise, statements_are_within_limits};
pub use lines::parse;
pub use name::Name;
pub use script::{Line, Script};
pub use statement::{Algorithm, Alteration, LockType, Priority, Statement};
pub use table_locks::{TableLock, TableLocks};
pub use tables::Tables;
