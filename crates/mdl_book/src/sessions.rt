//! Sets of session numbers.
ghost use Rattle.std.specs.Prelude.{◌≡◌, ℕ, ◌≤◌};
ghost use Rattle.std.specs.FinSet as set;
ghost use Rattle.mdl_book.specs.SessionSets.{IsEverySession};

use std::marker::Model;

// The greatest number that a set can have. The least is 1.
const MOST: u16 = 1024;

/// A set of session numbers, from 1 to 1,024. It takes no memory beyond its 128 bytes.
#[derive(Drop)]
pub struct Sessions {
    words: [u64; 16],
}

impl Model for Sessions {
    ghost use Rattle.std.specs.Ordering.{nat_cmp};
    ghost use Rattle.std.specs.FinSet as set;
    ghost use Rattle.std.specs.Coded.{coded_ℕ};
    ghost use Rattle.mdl_book.specs.SessionBits.{sessions_in};

    ghost Value = { set.FinSet nat_cmp };

    ghost coded = { set.code coded_ℕ };

    ghost view = { λ s. sessions_in s.words };
}

impl Sessions {
    /// Returns the empty set.
    pub fn new() -> Sessions
        ensures { result ≡ set.empty }
    {
        Sessions { words: [0; 16] }
    }

    /// Returns the set of all sessions, from 1 to 1,024.
    pub fn all() -> Sessions
        ensures { IsEverySession result }
    {
        Sessions {
            words: [u64::MAX; 16],
        }
    }

    /// Whether the session is in the set.
    pub fn contains(&self, session: u16) -> bool
        ensures { result ≡ set.contains self.now session }
    {
        let words = &self.words;
        if session == 0 || session > MOST {
            return false;
        }
        let place = session - 1;
        words[usize::from(place / 64)] & (1 << (place % 64)) != 0
    }

    /// Adds a session to the set.
    pub fn insert(&mut self, session: u16)
        requires positive { 1 ≤ session }
        requires within { session ≤ 1024 }
        ensures { self.new ≡ set.insert self.old session }
    {
        let place = session - 1;
        self.words[usize::from(place / 64)] |= 1 << (place % 64);
    }

    /// Removes a session from the set. If it isn't in the set, nothing changes.
    pub fn remove(&mut self, session: u16)
        ensures { self.new ≡ set.remove self.old session }
    {
        let words = &mut self.words;
        if session == 0 || session > MOST {
            return;
        }
        let place = session - 1;
        words[usize::from(place / 64)] &= !(1 << (place % 64));
    }
}
