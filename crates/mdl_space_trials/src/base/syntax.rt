//! Tests of the script language: scripts, and what the parser reads of them or why it refuses them.
//!
//! Everything here is for tests. `scripts` has them in tables, one row each. `written` puts what was read into words, so that a row can say it.
mod scripts;
mod written;
