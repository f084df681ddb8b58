//! The timeline of a script: who waits for whom, and from which line to which.
//!
//! [`draw`] plays a script of statements, and draws what happens at its lines: see [`mdl_picture`] for what the picture shows. [`draw_lines`] does so
//! with lines that were parsed.
//!
//! # Example
//!
//! ```
//! use mdl_timeline::draw;
//!
//! let alloc = rt.alloc();
//! let script = b"1 CREATE TABLE t x\n1 BEGIN\n1 SELECT t\n2 DROP TABLE t\n1 COMMIT\n";
//! let picture = draw(alloc, script, u64::MAX)?;
//! assert!(rt; picture.starts_with(b"<svg"));
//! ```
#![tactic(auto)]

mod drawing;
mod events;
mod held;
mod in_the_way;
mod laws;
mod moments;
mod statements;

pub use drawing::{draw, draw_lines};
pub use laws::{arrows_are_waits, events_are_answers, held_locks_are_granted};
