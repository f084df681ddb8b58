//! The rows of figures.
mod lower;
mod one_thread;
mod threads;

pub use lower::LOWER;
pub use one_thread::{ONE_THREAD, READS_AND_WAITS};
pub use threads::THREADS;
