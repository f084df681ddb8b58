//! The statements of a session, over any lock space.
//!
//! # Example
//!
//! ```
//! use mdl_space::CoreSpace;
//! use mdl_stmt::{Progress, Reply, Runner};
//! use mdl_syntax::{Line, parse};
//! use std::alloc::Global;
//!
//! /// Whether the last of some statements reads tables. All are of session 1, which is alone in its space.
//! fn reads_at_last<'s>(alloc: Global, lines: &'s [Line]) -> bool {
//!     let Ok(mut space) = CoreSpace::new(alloc, 256, 64) else {
//!         return false;
//!     };
//!     let Ok(mut runner) = Runner::new(alloc, 1, 64) else {
//!         return false;
//!     };
//!     let mut reads = false;
//!     for line in lines {
//!         if runner.is_waiting() {
//!             break;
//!         }
//!         let progress = runner.start(&mut space, &line.statement);
//!         reads = matches!(&progress, Ok(Progress::Done(Reply::Columns(_))));
//!     }
//!     runner.leave(&mut space);
//!     reads
//! }
//!
//! let alloc = rt.alloc();
//! let text = b"1 CREATE SCHEMA shop\n1 CREATE TABLE shop.orders id\n1 SELECT shop.orders\n";
//! let script = parse(alloc, text)?;
//! assert!(rt; reads_at_last(alloc, script.lines()));
//! ```
#![tactic(auto)]

mod altering;
mod altering_locked;
mod creating;
mod creating_schemas;
mod dropping;
mod dropping_schemas;
mod explicit;
mod flushing;
mod got;
mod keeping;
mod kept_stage;
mod key_lists;
mod leaving;
mod lock_list;
mod lock_loops;
mod locking;
mod out_of_memory;
mod owned_runner;
mod performing;
mod player;
mod progress;
mod reading;
mod renaming;
mod rows;
mod runner;
mod savepoint;
mod stage;
mod transactions;
mod unlocking;
mod user_locks;

pub use mdl_rows::{
    ErrorNumber, Reply, TableShown, TablesShown, sessions_keep_their_number,
    statements_call_for_their_session, statements_keep_the_space_sound, statements_tell_of_want,
    sure_statements,
};
pub use mdl_syntax::Statement;
pub use out_of_memory::OutOfMemory;
pub use owned_runner::OwnedRunner;
pub use progress::Progress;
pub use runner::Runner;
