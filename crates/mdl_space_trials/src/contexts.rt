//! Worked examples of contexts, over the lock space of one thread.
//!
//! `acts` has the calls of a session and their replies, and `rows` plays lists of both in a hall. Each other file has stories of one kind.
pub(crate) mod acts;
mod deadlocks;
mod many;
mod marks;
mod memory;
mod order;
mod places;
mod rows;
mod upgrades;
mod user_locks;
mod waits;
