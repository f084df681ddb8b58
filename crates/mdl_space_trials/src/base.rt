//! Tests of the base crates: keys and modes, words, definitions, books, strength, deadlocks, and the language of scripts.
//!
//! Each crate has its tests in the module that is named for its subject: `keys` those of `mdl_key`, `words` of `mdl_word`, `definitions` of `mdl_defs`,
//! `books` of `mdl_book`, `strength` of `mdl_system`, `deadlocks` of `mdl_graph`, and `syntax` of `mdl_syntax`; `texts` has the causes of their refusals,
//! and those of `mdl_calls`, as they are printed. They use only what these crates make public, so that the crates themselves have no tests and are
//! proved once. Cases are rows of tables, and a test is a loop over one (`rows` tells which row is wrong).
mod books;
mod deadlocks;
mod definitions;
mod keys;
pub(crate) mod rows;
mod strength;
mod syntax;
mod texts;
mod words;
