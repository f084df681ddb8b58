//! Flags by which threads wait for each other.
use std::sync::atomic::{AtomicBool, Ordering};
use std::thread;

// How many times a thread checks a flag before it gives up.
const MOST_TURNS: u32 = 1_000_000_000;

/// A flag that is raised once.
#[derive(Drop)]
pub(crate) struct Flag {
    raised: AtomicBool,
}

impl Flag {
    pub(crate) fn lowered() -> Flag {
        Flag {
            raised: AtomicBool::new(false),
        }
    }

    pub(crate) fn raise(&self) {
        self.raised.store(true, Ordering::SeqCst);
    }

    pub(crate) fn is_raised(&self) -> bool {
        self.raised.load(Ordering::SeqCst)
    }

    /// Whether the flag is raised in time. The thread yields between the checks.
    pub(crate) fn comes_up(&self) -> bool {
        for _turn in 0..MOST_TURNS {
            if self.is_raised() {
                return true;
            }
            thread::yield_now();
        }
        false
    }
}
