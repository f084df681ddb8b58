//! The word, and what is read from it.
ghost use Rattle.std.specs.Prelude.{◌≡◌, ℕ, Bool, ◌&&◌, nat_lt, List, [], ◌∷◌};
ghost use Rattle.mdl_key.specs.Matrices.{clashes};
ghost use Rattle.mdl_word.specs.Words.{Encodes, flags_alone, all_but_flags, counts_of, slow_flag, obtrusive_flag, increment_of, blocks_by};

use mdl_key::{Kind, Mode, conflicts_granted};

const COUNT_BITS: u32 = 20;

const COUNT_MASK: u64 = (1 << COUNT_BITS) - 1;

// What one ticket adds, by the class in which it is counted.
const FIRST: u64 = 1;

const SECOND: u64 = 1 << COUNT_BITS;

const THIRD: u64 = 1 << (2 * COUNT_BITS);

/// The packed word of one lock: three counts of fast tickets, one for each class of modes, and two flags.
///
/// | bits      | what they hold                                               | object lock | scoped lock |
/// |-----------|--------------------------------------------------------------|-------------|-------------|
/// | 63 and 62 | always 0                                                     |             |             |
/// | 61        | [`Word::OBTRUSIVE`]: a ticket in an obtrusive mode is listed |             |             |
/// | 60        | [`Word::SLOW`]: a ticket is listed                           |             |             |
/// | 59 to 40  | how many fast tickets class 2 has                            | SW and SWLP | always 0    |
/// | 39 to 20  | how many fast tickets class 1 has                            | SR          | always 0    |
/// | 19 to 0   | how many fast tickets class 0 has                            | S and SH    | IX          |
///
/// A ticket is listed if it is in one of the lock's lists, granted or waiting. A fast ticket is only counted.
///
/// After MySQL 5.7, `MDL_lock::m_fast_path_state` of `sql/mdl.cc`, which calls the flags `HAS_OBTRUSIVE` and
/// `HAS_SLOW_PATH`. The layout is this project's own.
#[derive(Clone, Copy, Debug, PartialEq, Eq)]
pub struct Word(pub u64);

impl Word {
    /// The bit that says that a ticket is in one of the lock's lists.
    pub const SLOW: u64 = 1 << 60;

    /// The bit that says that one of these tickets is in an obtrusive mode.
    pub const OBTRUSIVE: u64 = 1 << 61;

    /// Returns the number that one fast ticket adds to the word. It is `None` for an obtrusive mode, and for one that the
    /// kind doesn't use: their tickets are not counted.
    pub fn increment(kind: Kind, mode: Mode) -> Option<u64>
        ensures { result ≡ increment_of kind mode }
    {
        match (kind, mode) {
            (Kind::Scoped, Mode::IX) => Some(FIRST),
            (Kind::Object, Mode::S | Mode::SH) => Some(FIRST),
            (Kind::Object, Mode::SR) => Some(SECOND),
            (Kind::Object, Mode::SW | Mode::SWLP) => Some(THIRD),
            _ => None,
        }
    }

    /// Returns a mask: `|` with it raises these flags of a word and leaves the others unchanged, in one atomic step.
    pub fn raising(slow: bool, obtrusive: bool) -> u64
        ensures { result ≡ flags_alone slow obtrusive }
    {
        match (slow, obtrusive) {
            (false, false) => 0,
            (true, false) => Word::SLOW,
            (false, true) => Word::OBTRUSIVE,
            (true, true) => Word::SLOW | Word::OBTRUSIVE,
        }
    }

    /// Returns a mask: `&` with it leaves these flags of a word unchanged and lowers the others, in one atomic step. It
    /// raises no flag.
    pub fn keeping(slow: bool, obtrusive: bool) -> u64
        ensures { result ≡ all_but_flags slow obtrusive }
    {
        !Word::raising(!slow, !obtrusive)
    }

    /// Whether [`Word::OBTRUSIVE`] is raised.
    pub fn obtrusive(self) -> bool
        ensures any_number { result ≡ obtrusive_flag self.0 }
        ensures lawful_word { (a b c : ℕ) (slow obtrusive : Bool) →
            Encodes self.0 a b c slow obtrusive → result ≡ obtrusive }
    {
        self.0 & Word::OBTRUSIVE != 0
    }

    /// Whether [`Word::SLOW`] is raised.
    pub fn slow(self) -> bool
        ensures any_number { result ≡ slow_flag self.0 }
        ensures lawful_word { (a b c : ℕ) (slow obtrusive : Bool) →
            Encodes self.0 a b c slow obtrusive → result ≡ slow }
    {
        self.0 & Word::SLOW != 0
    }

    /// Returns how many fast tickets are counted in each class: S and SH, or IX; SR; SW and SWLP.
    pub fn counts(self) -> [u32; 3]
        ensures any_number { result ≡ counts_of self.0 }
        ensures lawful_word { (a b c : ℕ) (slow obtrusive : Bool) →
            Encodes self.0 a b c slow obtrusive → result ≡ a ∷ b ∷ c ∷ [] }
    {
        [
            (self.0 & COUNT_MASK) as u32,
            ((self.0 >> COUNT_BITS) & COUNT_MASK) as u32,
            ((self.0 >> (2 * COUNT_BITS)) & COUNT_MASK) as u32,
        ]
    }

    /// Whether a fast ticket blocks a request for `ask`: a class has one, and its modes clash with `ask`.
    pub fn blocks(self, kind: Kind, ask: Mode) -> bool
        ensures any_number { result ≡ blocks_by (counts_of self.0) kind ask }
        ensures lawful_word { (a b c : ℕ) (slow obtrusive : Bool) →
            Encodes self.0 a b c slow obtrusive → result ≡ blocks_by (a ∷ b ∷ c ∷ []) kind ask }
    {
        let [first, second, third] = self.counts();
        match kind {
            Kind::Scoped => is_in_the_way(first, kind, ask, Mode::IX),
            Kind::Object => {
                is_in_the_way(first, kind, ask, Mode::S)
                    || is_in_the_way(second, kind, ask, Mode::SR)
                    || is_in_the_way(third, kind, ask, Mode::SW)
            }
        }
    }
}

// Whether there are tickets in the mode `held`, by their count, and they clash with `ask`.
fn is_in_the_way(count: u32, kind: Kind, ask: Mode, held: Mode) -> bool
    ensures { result ≡ (nat_lt 0 count && clashes kind ask held) }
{
    count != 0 && conflicts_granted(kind, ask, held)
}
