//! Random calls of contexts and of a space, compared with a very plain program.
//!
//! `plain` is a lock space with the contexts of its sessions, written as simply as possible: one list of tickets and one of sessions with their
//! waits, read from end to end, and deadlocks found by trying every path. `chance` gives pseudo-random numbers, which are the same in each run.
//! `contexts` makes thousands of random calls of the contexts of five sessions over one space, and compares every answer. `spaces` does so with calls of
//! a space, among them those that pin places, give pins up and change definitions. There are more keys than places, so that places are given anew. Both
//! make no upgrades, which have stories of their own. `pins` compares in the end who pins what.
mod chance;
mod contexts;
mod pins;
pub(crate) mod plain;
mod spaces;
