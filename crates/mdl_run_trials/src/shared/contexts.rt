//! Tests of contexts and statements over sessions of the lock space that threads share, on one thread.
//!
//! Everything here is for tests. A `desk` is a session with its `statements`: `turns` are those of one session or of two. `debts` has the contexts of
//! sessions that owe a reschedule.
mod debts;
mod desk;
mod statements;
mod turns;
