//! How long a thread takes for its turns, once all threads of a race are ready.
use crate::failure::Failure;
use crate::words::Words;
use std::alloc::Global;
use std::sync::atomic::{AtomicU32, Ordering};
use std::thread;
use std::time::{Clock, CpuClock, Duration, Instant};

// How often a thread checks whether the others are ready, before it begins without them: for a second or so.
const LOOKS: u32 = 1_000_000;

/// What the threads of a race share: the count of those that are ready, so that all begin at once, words for atomic steps, and the number of
/// turns that each makes.
#[derive(Drop)]
pub struct Race {
    here: AtomicU32,
    threads: u16,
    pub words: Words,
    pub turns: u32,
}

impl Race {
    /// Returns a race of `threads` threads, each with `turns` turns.
    pub fn new(alloc: Global, threads: u16, turns: u32) -> Result<Race, Failure> {
        Ok(Race {
            here: AtomicU32::new(0),
            threads,
            words: Words::new(alloc)?,
            turns,
        })
    }

    // Waits for the others.
    fn await_all(&self) {
        self.here.fetch_add(1, Ordering::SeqCst);
        for _look in 0..LOOKS {
            if self.here.load(Ordering::SeqCst) >= u32::from(self.threads) {
                return;
            }
            thread::yield_now();
        }
    }
}

/// How long turns took, by the clock and in processor time, and how long the ALTERs among them took.
#[derive(Clone, Copy)]
pub struct Lap {
    pub clock: Duration,
    pub processor: Duration,
    pub alters: Duration,
}

impl Lap {
    /// The lap of no thread.
    pub const NONE: Lap = Lap {
        clock: Duration::ZERO,
        processor: Duration::ZERO,
        alters: Duration::ZERO,
    };

    /// Returns the lap of a thread that tells only its time by the clock.
    pub fn by_clock(clock: Duration) -> Lap {
        Lap {
            clock,
            processor: Duration::ZERO,
            alters: Duration::ZERO,
        }
    }

    /// Returns the lap of two threads: the longer time of each kind, and the sum of their ALTERs.
    pub fn beside(self, other: Lap) -> Lap {
        Lap {
            clock: self.clock.max(other.clock),
            processor: self.processor.max(other.processor),
            alters: self.alters.saturating_add(other.alters),
        }
    }
}

/// The time from which a thread's turns are measured.
#[derive(Clone, Copy)]
pub struct Start {
    at: Instant,
    used: Duration,
}

impl Start {
    /// Waits for all threads of a race, and returns the time then.
    pub fn of<R: Clock + CpuClock>(rt: &R, race: &Race) -> Result<Start, Failure> {
        race.await_all();
        let used = rt.thread_cpu_time()?;
        let at = Instant::now(rt)?;
        Ok(Start { at, used })
    }

    /// Returns the time since then. Fails with [`Failure::Unexpected`] unless each turn of the race succeeded.
    pub fn lap<R: Clock + CpuClock>(self, rt: &R, race: &Race, well: u32) -> Result<Lap, Failure> {
        let clock = self.at.elapsed(rt)?;
        let used = rt.thread_cpu_time()?;
        if well != race.turns {
            return Err(Failure::Unexpected);
        }
        Ok(Lap {
            clock,
            processor: used.saturating_sub(self.used),
            alters: Duration::ZERO,
        })
    }
}

/// Returns the time since `began`. Fails with [`Failure::Unexpected`] unless as many turns succeeded as were made.
pub fn spent_since<R: Clock>(
    rt: &R,
    began: Instant,
    well: u32,
    made: u32,
) -> Result<Duration, Failure> {
    let spent = began.elapsed(rt)?;
    if well == made {
        Ok(spent)
    } else {
        Err(Failure::Unexpected)
    }
}
