//! The packed word.
use crate::base::rows::{Row, are_right};
use mdl_key::{Kind, Mode};
use mdl_word::Word;
use std::alloc::Global;

// Two tickets in S, one in SR and one in SW.
const TWO_S_ONE_SR_ONE_SW: u64 = 0x0000_0100_0010_0002;

// A ticket in SU, which is in a book's list.
const ONE_SU: u64 = 0x3000_0000_0000_0000;

// A mode, and what a ticket in it adds to the word of a lock of each kind.
struct Increment(Mode, Option<u64>, Option<u64>);

impl Row for Increment {
    fn goes_so(&self, _alloc: Global) -> bool {
        Word::increment(Kind::Scoped, self.0) == self.1
            && Word::increment(Kind::Object, self.0) == self.2
    }
}

const INCREMENTS: &[Increment] = &[
    Increment(Mode::IX, Some(0x1), None),
    Increment(Mode::S, None, Some(0x1)),
    Increment(Mode::SH, None, Some(0x1)),
    Increment(Mode::SR, None, Some(0x10_0000)),
    Increment(Mode::SW, None, Some(0x100_0000_0000)),
    Increment(Mode::SWLP, None, Some(0x100_0000_0000)),
    Increment(Mode::SU, None, None),
    Increment(Mode::SRO, None, None),
    Increment(Mode::SNW, None, None),
    Increment(Mode::SNRW, None, None),
    Increment(Mode::X, None, None),
];

#[test]
fn increments(rt: HostRuntime) {
    are_right(&rt, rt.alloc(), INCREMENTS);
}

// Whether a word has these counts and flags.
fn says(word: u64, counts: [u32; 3], slow: bool, obtrusive: bool) -> bool {
    let word = Word(word);
    word.counts() == counts && word.slow() == slow && word.obtrusive() == obtrusive
}

// A word, its counts and its two flags.
struct Content(u64, [u32; 3], bool, bool);

impl Row for Content {
    fn goes_so(&self, _alloc: Global) -> bool {
        says(self.0, self.1, self.2, self.3)
    }
}

const FIELDS: &[Content] = &[
    Content(0, [0, 0, 0], false, false),
    Content(TWO_S_ONE_SR_ONE_SW, [2, 1, 1], false, false),
    Content(ONE_SU, [0, 0, 0], true, true),
    Content(Word::SLOW, [0, 0, 0], true, false),
    Content(Word::OBTRUSIVE, [0, 0, 0], false, true),
    Content(
        0x0fff_ffff_ffff_ffff,
        [1_048_575, 1_048_575, 1_048_575],
        false,
        false,
    ),
];

#[test]
fn fields(rt: HostRuntime) {
    are_right(&rt, rt.alloc(), FIELDS);
}

// Two flags, the word that raises them, and the word that keeps them.
struct Flags(bool, bool, u64, u64);

const FLAGS: &[Flags] = &[
    Flags(false, false, 0, 0xcfff_ffff_ffff_ffff),
    Flags(true, false, 0x1000_0000_0000_0000, 0xdfff_ffff_ffff_ffff),
    Flags(false, true, 0x2000_0000_0000_0000, 0xefff_ffff_ffff_ffff),
    Flags(true, true, 0x3000_0000_0000_0000, u64::MAX),
];

impl Row for Flags {
    fn goes_so(&self, _alloc: Global) -> bool {
        let Flags(slow, obtrusive, raising, keeping) = *self;
        let raised = TWO_S_ONE_SR_ONE_SW | Word::raising(slow, obtrusive);
        Word::raising(slow, obtrusive) == raising
            && Word::keeping(slow, obtrusive) == keeping
            && says(raised, [2, 1, 1], slow, obtrusive)
    }
}

#[test]
fn flags_at_once(rt: HostRuntime) {
    are_right(&rt, rt.alloc(), FLAGS);
}

// A word, a requested mode, and whether the word blocks it.
struct Blocked(u64, Kind, Mode, bool);

impl Row for Blocked {
    fn goes_so(&self, _alloc: Global) -> bool {
        Word(self.0).blocks(self.1, self.2) == self.3
    }
}

const BLOCKED: &[Blocked] = &[
    Blocked(0x1, Kind::Object, Mode::X, true),
    Blocked(0x1, Kind::Object, Mode::SNRW, false),
    Blocked(0x10_0000, Kind::Object, Mode::SNRW, true),
    Blocked(0x10_0000, Kind::Object, Mode::SNW, false),
    Blocked(0x100_0000_0000, Kind::Object, Mode::SRO, true),
    Blocked(0x100_0000_0000, Kind::Object, Mode::SNW, true),
    Blocked(0x100_0000_0000, Kind::Object, Mode::SU, false),
    Blocked(ONE_SU, Kind::Object, Mode::X, false),
    Blocked(0x1, Kind::Scoped, Mode::S, true),
    Blocked(0x1, Kind::Scoped, Mode::X, true),
    Blocked(0x1, Kind::Scoped, Mode::IX, false),
];

#[test]
fn blocked_requests(rt: HostRuntime) {
    are_right(&rt, rt.alloc(), BLOCKED);
}
