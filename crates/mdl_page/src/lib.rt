//! Pages around pictures. [`page`] returns one page of HTML that needs nothing else: a picture of a timeline, the text of its script, and the
//! [`LineFacts`] of each line, which the page shows for the line under the pointer, or for the one that keys chose.
//!
//! # Example
//!
//! ```
//! use mdl_page::{LineFacts, page};
//!
//! let alloc = rt.alloc();
//! let mut lines = Vec::new(alloc);
//! lines.push(LineFacts {
//!     line: 3,
//!     locks: Vec::from_slice(alloc, b"{\"locks\":[]}")?,
//!     waits: Vec::from_slice(alloc, b"{\"waits\":[]}")?,
//!     why: Vec::from_slice(alloc, b"{\"waits\":0}")?,
//! })?;
//! let text = page(alloc, b"<svg></svg>", b"# A script", &lines)?;
//! let data = b"[{\"line\":3,\"locks\":{\"locks\":[]},\"waits\":{\"waits\":[]},\"why\":{\"waits\":0}}]";
//! assert!(rt; text.starts_with(b"<!DOCTYPE html>"));
//! assert!(rt;
//!     text.windows(data.len())
//!         .any(|bytes| bytes == data.as_slice())
//! );
//! ```
#![tactic(auto)]

mod data;
mod facts;
mod frame;
mod laws;
mod pages;
mod script;
mod source;
mod style;

pub use facts::LineFacts;
pub use laws::{data_has_no_markup, text_has_no_markup};
pub use pages::page;
