//! Words of a command line: whether they are one given word, and lemmas about the options that `clap` reads from them.
//!
//! # Example
//!
//! ```
//! use mdl_words::is_only_word;
//!
//! assert!(rt; is_only_word(&["mdlsim", "--version"], "--version"));
//! assert!(rt; !is_only_word(&["mdlsim", "--version", "lock"], "--version"));
//! ```
#![tactic(auto)]

mod only;

pub use only::is_only_word;
