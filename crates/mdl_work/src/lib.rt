//! Sessions that execute their lines of a script, each over any lock space.
//!
//! # Example
//!
//! ```
//! use mdl_space::CoreSpace;
//! use mdl_stmt::Reply;
//! use mdl_syntax::parse;
//! use mdl_work::{OpenGate, work};
//!
//! let alloc = rt.alloc();
//! let text = b"1 CREATE SCHEMA shop\n2 BEGIN\n1 DROP SCHEMA shop\n";
//! let script = parse(alloc, text)?;
//! let mut space = CoreSpace::new(alloc, 256, 64)?;
//! // With a wait it is patient for 100 looks, and its cache keeps 64 definitions.
//! let answers = work(alloc, &mut space, 1, &script, 100, 64, &OpenGate)?;
//! // Lines 1 and 3 are those of session 1.
//! assert_eq!(rt; answers.len(), 2);
//! assert!(rt; matches!(answers.last(), Some((_, Reply::Ok))));
//! ```
#![tactic(auto)]

mod gate;
mod pins;
mod waiting;
mod worker;
mod working;

pub use gate::{Gate, OpenGate};
pub use pins::work_leaves_no_pin;
pub use worker::MOST_WAITS;
pub use working::{work, work_lines};
