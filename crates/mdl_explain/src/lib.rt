//! What the lines of a script lock, in which order, and what they check: the steps of each statement's plan, in words.
//!
//! # Example
//!
//! ```
//! use mdl_explain::explain;
//!
//! let alloc = rt.alloc();
//! let mut script = b"7 GET_LOCK import\n".as_slice();
//! let mut told = Vec::new(alloc);
//! assert!(rt; explain(alloc, &mut script, &mut told).is_ok());
//! let wanted = b"line 1, session 7:
//!   X of the user-level lock, until the session releases it; the reply is 1
//! ";
//! assert_eq!(rt; told.as_slice(), wanted.as_slice());
//! ```
#![tactic(auto)]

mod explaining;
mod laws;
mod phrases;
mod plan_text;

pub use explaining::explain;
pub use laws::{other_plans_are_told, steps_are_lines};
