//! What the word of a lock is as fast tickets are granted and released.
use crate::shared::steps::rows::{Answer, Case, Deed, Row};
use mdl_key::Mode;
use mdl_steps::{Loss, WaitWord};
use mdl_word::Word;

const FREE: Answer = Answer::Lock(Word(0));

const OBTRUDED: Answer = Answer::Obtruded(Word(0x3000_0000_0000_0000));

// A wait for X keeps new fast tickets away, and is granted once the session that released the last one reschedules the place.
const WAITED_FOR: &[Row] = &[
    (1, Deed::TryFast(Mode::SR), Answer::Granted),
    (1, Deed::LockWord, Answer::Lock(Word(0x0000_0000_0010_0000))),
    (2, Deed::BeginWait(Mode::X), Answer::Waiting(1)),
    (2, Deed::WaitWord(2), Answer::Wait(WaitWord(9))),
    (3, Deed::LockWord, Answer::Lock(Word(0x3000_0000_0010_0000))),
    (
        3,
        Deed::TryFast(Mode::S),
        Answer::Obtruded(Word(0x3000_0000_0010_0000)),
    ),
    (1, Deed::ReleaseFast, Answer::Owes(true)),
    (1, Deed::LockWord, Answer::Lock(Word(0x3000_0000_0000_0000))),
    (2, Deed::WaitWord(2), Answer::Wait(WaitWord(9))),
    (1, Deed::Reschedule, Answer::Done),
    (2, Deed::WaitWord(2), Answer::Wait(WaitWord(10))),
    (2, Deed::EndWait, Answer::Granted),
    (2, Deed::WaitWord(2), Answer::Wait(WaitWord(8))),
    (3, Deed::TryFast(Mode::S), OBTRUDED),
    (2, Deed::Release, Answer::Done),
    (2, Deed::LockWord, FREE),
    (3, Deed::TryFast(Mode::S), Answer::Granted),
    (3, Deed::LockWord, Answer::Lock(Word(0x0000_0000_0000_0001))),
];

// A wait that was killed before that isn't granted, and nothing is left of it once it has ended.
const KILLED: &[Row] = &[
    (1, Deed::TryFast(Mode::SR), Answer::Granted),
    (2, Deed::BeginWait(Mode::X), Answer::Waiting(1)),
    (
        2,
        Deed::Settle(2, 1, Loss::Killed),
        Answer::Wait(WaitWord(9)),
    ),
    (1, Deed::ReleaseFast, Answer::Owes(true)),
    (1, Deed::Reschedule, Answer::Done),
    (2, Deed::WaitWord(2), Answer::Wait(WaitWord(13))),
    (2, Deed::EndWait, Answer::Lost(5)),
    (1, Deed::LockWord, FREE),
];

// If no ticket is listed, no session can wait for the one that is released.
const ALONE: &[Row] = &[
    (1, Deed::TryFast(Mode::SW), Answer::Granted),
    (1, Deed::LockWord, Answer::Lock(Word(0x0000_0100_0000_0000))),
    (1, Deed::ReleaseFast, Answer::Owes(false)),
    (1, Deed::LockWord, FREE),
    (1, Deed::ReleaseFast, Answer::Refused),
];

// A listed ticket in a mode that isn't obtrusive leaves the fast path open. A session that releases a fast ticket beside it can't know that none
// waits.
const BESIDE_LISTED: &[Row] = &[
    (2, Deed::TryNow(Mode::SW), Answer::Granted),
    (1, Deed::LockWord, Answer::Lock(Word(0x1000_0000_0000_0000))),
    (1, Deed::TryFast(Mode::X), Answer::Refused),
    (1, Deed::TryFast(Mode::S), Answer::Granted),
    (1, Deed::LockWord, Answer::Lock(Word(0x1000_0000_0000_0001))),
    (1, Deed::ReleaseFast, Answer::Owes(true)),
    (1, Deed::LockWord, Answer::Lock(Word(0x1000_0000_0000_0000))),
];

pub(crate) const CASES: &[Case] = &[
    ("a wait is granted after the last fast ticket", WAITED_FOR),
    (
        "a killed wait is not granted after the last fast ticket",
        KILLED,
    ),
    ("a fast ticket goes without a trace", ALONE),
    (
        "fast tickets are granted beside a listed one",
        BESIDE_LISTED,
    ),
];
