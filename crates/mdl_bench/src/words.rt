//! Atomic steps alone, on words that are laid out as those of the table are.
use crate::failure::Failure;
use std::alloc::Global;
use std::sync::atomic::{AtomicU64, Ordering};

// The number of places that have words: those of a table of 64 places, and the directory.
const PLACES: usize = 65;

// The number of words of a place. The first is its latch, and the second its lock's word.
const A_PLACE: usize = 8;

// What a ticket adds to a lock's word.
const ONE: u64 = 1 << 20;

// Both flags of a lock's word.
const FLAGS: u64 = 3 << 60;

// The most tries of an exchange. They run out only if something is wrong.
const TRIES: u32 = 1_000_000;

/// What is done in a turn.
#[derive(Clone, Copy)]
pub enum Step {
    /// A ticket is counted in a word, and removed again.
    Pair,
    /// The same in four words.
    Transaction,
    /// A lock is taken in X and released.
    Exclusive,
    /// This number of words are raised by one exchange each.
    Exchanges(u16),
    /// The latches of all places are taken and given back.
    Latches,
    /// A word is read.
    Load,
    /// A ticket is counted in a word that other threads change.
    PairBeside,
    /// A ticket is counted in such a word, and in three words of the thread's own.
    TransactionBeside,
}

/// The words of some places. All of them are 0 at first.
#[derive(Drop)]
pub struct Words {
    all: Vec<AtomicU64>,
}

impl Words {
    pub fn new(alloc: Global) -> Result<Words, Failure> {
        let mut all = Vec::new(alloc);
        for _word in 0..PLACES * A_PLACE {
            if all.push(AtomicU64::new(0)).is_err() {
                return Err(Failure::Memory);
            }
        }
        Ok(Words { all })
    }

    /// Makes `turns` turns for a thread. Returns how many succeeded.
    pub fn make(&self, step: &Step, thread: u16, turns: u32) -> u32 {
        match step {
            Step::Pair => self.count_pairs(turns),
            Step::Transaction => self.count_four(turns),
            Step::Exclusive => self.latch_pairs(turns),
            Step::Exchanges(places) => self.exchange_all(usize::from(*places), turns),
            Step::Latches => self.latch_all(turns),
            Step::Load => self.load_often(turns),
            Step::PairBeside => self.count_beside(turns),
            Step::TransactionBeside => {
                self.count_four_beside(usize::from(thread % 4) * 3 + 1, turns)
            }
        }
    }

    /// Returns the word of a place's lock.
    pub fn word(&self, place: usize) -> Option<&AtomicU64> {
        self.all.get(place.wrapping_mul(A_PLACE).wrapping_add(1))
    }

    // Reads a word. Returns how often it was 0.
    fn load_often(&self, turns: u32) -> u32 {
        let Some(word) = self.word(0) else {
            return 0;
        };
        let mut made = 0u32;
        for _turn in 0..turns {
            if word.load(Ordering::SeqCst) == 0 {
                made = made.wrapping_add(1);
            }
        }
        made
    }

    // Counts a ticket in a word, and removes it again. Returns how often the word counted nothing else.
    fn count_pairs(&self, turns: u32) -> u32 {
        let Some(word) = self.word(0) else {
            return 0;
        };
        let mut made = 0u32;
        for _turn in 0..turns {
            if gain(word) && give_up(word) {
                made = made.wrapping_add(1);
            }
        }
        made
    }

    // The same in the words of four places.
    fn count_four(&self, turns: u32) -> u32 {
        let (Some(a), Some(b), Some(c), Some(d)) = (
            self.word(0),
            self.word(1),
            self.word(2),
            self.word(3),
        ) else {
            return 0;
        };
        let mut made = 0u32;
        for _turn in 0..turns {
            let gained = gain(a) && gain(b) && gain(c) && gain(d);
            if gained && give_up(d) && give_up(c) && give_up(b) && give_up(a) {
                made = made.wrapping_add(1);
            }
        }
        made
    }

    // Takes a lock in X and releases it. Returns how often its latch was free, and no other thread had the lock.
    fn latch_pairs(&self, turns: u32) -> u32 {
        let (Some(latch), Some(word)) = (self.all.first(), self.word(0)) else {
            return 0;
        };
        let mut made = 0u32;
        for _turn in 0..turns {
            if take(latch, word) && put(latch, word) {
                made = made.wrapping_add(1);
            }
        }
        made
    }

    // Raises the first words of `places` places by one exchange each. Returns how often none failed.
    fn exchange_all(&self, places: usize, turns: u32) -> u32 {
        let mut made = 0u32;
        for turn in 0..turns {
            let mut well = true;
            for word in self.all.iter().step_by(A_PLACE).take(places) {
                well &= exchange(word, u64::from(turn));
            }
            made = made.wrapping_add(u32::from(well));
        }
        made
    }

    // Takes the latches of all places, and gives them back. Returns how often all were free.
    fn latch_all(&self, turns: u32) -> u32 {
        let mut made = 0u32;
        for _turn in 0..turns {
            let mut free = true;
            for latch in self.all.iter().step_by(A_PLACE) {
                free &= take_latch(latch);
            }
            for latch in self.all.iter().step_by(A_PLACE) {
                latch.store(0, Ordering::SeqCst);
            }
            made = made.wrapping_add(u32::from(free));
        }
        made
    }

    // Counts a ticket in a word that other threads change, and removes it again. Returns how often both succeeded.
    fn count_beside(&self, turns: u32) -> u32 {
        let Some(word) = self.word(0) else {
            return 0;
        };
        let mut made = 0u32;
        for _turn in 0..turns {
            if gain_beside(word) && give_up_beside(word) {
                made = made.wrapping_add(1);
            }
        }
        made
    }

    // The same in the first word, and in the words of three places from `place` on.
    fn count_four_beside(&self, place: usize, turns: u32) -> u32 {
        let (Some(a), Some(b), Some(c), Some(d)) = (
            self.word(0),
            self.word(place),
            self.word(place.wrapping_add(1)),
            self.word(place.wrapping_add(2)),
        ) else {
            return 0;
        };
        let mut made = 0u32;
        for _turn in 0..turns {
            let gained = gain_beside(a) && gain_beside(b) && gain_beside(c) && gain_beside(d);
            let given = give_up_beside(d) && give_up_beside(c) && give_up_beside(b);
            if gained && given && give_up_beside(a) {
                made = made.wrapping_add(1);
            }
        }
        made
    }
}

// Raises a word by one. Whether it was `from`.
fn exchange(word: &AtomicU64, from: u64) -> bool {
    let more = from.wrapping_add(1);
    word.compare_exchange(from, more, Ordering::SeqCst, Ordering::SeqCst)
        .is_ok()
}

// Counts a ticket by one exchange. Whether the word was 0.
fn gain(word: &AtomicU64) -> bool {
    word.compare_exchange(0, ONE, Ordering::SeqCst, Ordering::SeqCst)
        .is_ok()
}

// Removes the ticket again. Whether the word counted nothing else.
fn give_up(word: &AtomicU64) -> bool {
    word.fetch_sub(ONE, Ordering::SeqCst) == ONE
}

// Counts a ticket: tries exchanges until one replaces the value that was read last. Whether one did.
fn gain_beside(word: &AtomicU64) -> bool {
    let mut found = word.load(Ordering::SeqCst);
    for _try in 0..TRIES {
        let more = found.wrapping_add(ONE);
        match word.compare_exchange(found, more, Ordering::SeqCst, Ordering::SeqCst) {
            Ok(_) => return true,
            Err(other) => found = other,
        }
    }
    false
}

// Removes the ticket again. Whether it was counted.
fn give_up_beside(word: &AtomicU64) -> bool {
    word.fetch_sub(ONE, Ordering::SeqCst) >= ONE
}

// Takes the latch, sets the flags, reads the word, and gives the latch back. Whether latch and word were as expected.
fn take(latch: &AtomicU64, word: &AtomicU64) -> bool {
    let free = take_latch(latch);
    word.fetch_or(FLAGS, Ordering::SeqCst);
    let read = word.load(Ordering::SeqCst);
    latch.store(0, Ordering::SeqCst);
    free && read == FLAGS
}

// Takes the latch, clears the flags, and gives the latch back. Whether latch and word were as expected.
fn put(latch: &AtomicU64, word: &AtomicU64) -> bool {
    let free = take_latch(latch);
    let found = word.fetch_and(!FLAGS, Ordering::SeqCst);
    latch.store(0, Ordering::SeqCst);
    free && found == FLAGS
}

// Takes a latch. Whether it was free.
fn take_latch(latch: &AtomicU64) -> bool {
    latch
        .compare_exchange(0, 1, Ordering::SeqCst, Ordering::SeqCst)
        .is_ok()
}
