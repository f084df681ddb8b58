//! The answers of [`mdl_view`] as text: tables of locks and waits, the graph of waits, and whom to end so that waits go on.
//!
//! [`Names`] has the names of locks, and what a server's rows say of its sessions. [`locks_text`] and [`waits_text`] print tables, a line for each
//! row, with tabs between the columns. [`graph_text`] prints a graph in Graphviz's DOT language. [`find`] finds the ways out, and [`why_text`]
//! prints what to type. [`locks_json`], [`waits_json`] and [`why_json`] print the same facts as JSON, and [`add_notes`] says under a table which
//! waits can't be explained.
//!
//! # Example
//!
//! ```
//! use mdl_lock_rows::read_lock_rows;
//! use mdl_view_text::{Names, find, key_text, why_text};
//!
//! let alloc = rt.alloc();
//! let rows =
//!     b"OBJECT_TYPE\tOBJECT_SCHEMA\tOBJECT_NAME\tLOCK_TYPE\tLOCK_STATUS\tOWNER_THREAD_ID\tPROCESSLIST_ID\tUSER\tHOST\tCOMMAND\tTIME
//! TABLE\tshop\torders\tSHARED_READ\tGRANTED\t48\t8\tapp\tweb3\tSleep\t412
//! TABLE\tshop\torders\tEXCLUSIVE\tPENDING\t52\t15\troot\tlocalhost\tQuery\t300
//! ";
//! let found = read_lock_rows(alloc, rows)?;
//! let mut names = Names::new(alloc, found.owners);
//! for key in &found.keys {
//!     names.add_lock(key_text(alloc, key.object_type(), key.schema(), key.name())?)?;
//! }
//! let text = why_text(alloc, &names, &find(alloc, &found.locks)?, &found.left_out)?;
//! assert_eq!(rt;
//!     text.as_slice(),
//!     b"1 request waits. Ways out, the best first. Do one, and look again:
//! 1. KILL 8;  -- app@web3, Sleep 412 s
//!    1 wait ends at once
//!    connection 8 (thread 48) holds SR of TABLE shop.orders
//!    connection 15 (thread 52) gets X of TABLE shop.orders
//! "
//!         .as_slice()
//! );
//! ```
#![tactic(auto)]

mod act_texts;
mod findings;
mod graph;
mod json_rows;
mod json_text;
mod json_why;
mod layout;
mod left_out;
mod names;
mod owners;
mod refusal;
mod refused_words;
mod rows;
mod text;
mod unexplained;
mod upgraded;
mod why;

pub use findings::{BlockedWait, Findings, WayFound, find};
pub use graph::graph_text;
pub use json_rows::{locks_json, waits_json};
pub use json_why::why_json;
pub use layout::lines_fit;
pub use left_out::{add_comments, add_notes, are_all_explained};
pub use names::{Names, key_text, names_of};
pub use refused_words::explanation;
pub use rows::{locks_text, waits_text};
pub use upgraded::{add_upgrades, add_upgrades_comment};
pub use why::why_text;
