//! Trials of the search for deadlocks.
//!
//! Everything here is for tests. `plain` finds the chosen cycle by trying every path, which is proved to be the same cycle. `searches` compares the
//! two on random waits. `by_hand` has worked examples, and large graphs whose cycles are easy to see.
mod by_hand;
mod plain;
mod searches;
