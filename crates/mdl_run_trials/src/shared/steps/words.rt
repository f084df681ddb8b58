//! What the words of a lock and of a wait are, from one visit to the next.
use crate::shared::steps::rows::{Answer, Case, Deed, Row};
use mdl_key::Mode;
use mdl_steps::{Loss, WaitWord};
use mdl_word::Word;

const FREE: Answer = Answer::Lock(Word(0));

const LISTED: Answer = Answer::Lock(Word(0x1000_0000_0000_0000));

const OBTRUSIVE: Answer = Answer::Lock(Word(0x3000_0000_0000_0000));

// The wait's word has the wait's number and its state, the lock's word the flags that its lists need.
const GRANTED: &[Row] = &[
    (1, Deed::TryNow(Mode::SR), Answer::Granted),
    (1, Deed::LockWord, LISTED),
    (2, Deed::BeginWait(Mode::X), Answer::Waiting(1)),
    (1, Deed::WaitWord(2), Answer::Wait(WaitWord(9))),
    (1, Deed::LockWord, OBTRUSIVE),
    (1, Deed::Release, Answer::Done),
    (2, Deed::WaitWord(2), Answer::Wait(WaitWord(10))),
    (2, Deed::EndWait, Answer::Granted),
    (2, Deed::WaitWord(2), Answer::Wait(WaitWord(8))),
    (2, Deed::Release, Answer::Done),
    (2, Deed::LockWord, FREE),
];

// A kill is seen in the word of the wait that it hits, and a late one leaves the word of the next wait unchanged.
const KILLED: &[Row] = &[
    (1, Deed::TryNow(Mode::X), Answer::Granted),
    (2, Deed::BeginWait(Mode::SR), Answer::Waiting(1)),
    (1, Deed::WaitWord(2), Answer::Wait(WaitWord(9))),
    (
        1,
        Deed::Settle(2, 1, Loss::Killed),
        Answer::Wait(WaitWord(9)),
    ),
    (1, Deed::WaitWord(2), Answer::Wait(WaitWord(13))),
    (
        1,
        Deed::Settle(2, 1, Loss::Killed),
        Answer::Wait(WaitWord(13)),
    ),
    (
        2,
        Deed::Settle(2, 1, Loss::Timeout),
        Answer::Wait(WaitWord(13)),
    ),
    (1, Deed::Release, Answer::Done),
    (2, Deed::WaitWord(2), Answer::Wait(WaitWord(13))),
    (2, Deed::EndWait, Answer::Lost(5)),
    (2, Deed::WaitWord(2), Answer::Wait(WaitWord(8))),
    (2, Deed::LockWord, FREE),
    (1, Deed::TryNow(Mode::X), Answer::Granted),
    (2, Deed::BeginWait(Mode::SR), Answer::Waiting(2)),
    (2, Deed::WaitWord(2), Answer::Wait(WaitWord(17))),
    (
        1,
        Deed::Settle(2, 1, Loss::Killed),
        Answer::Wait(WaitWord(17)),
    ),
    (2, Deed::WaitWord(2), Answer::Wait(WaitWord(17))),
    (1, Deed::Release, Answer::Done),
    (2, Deed::WaitWord(2), Answer::Wait(WaitWord(18))),
    (
        1,
        Deed::Settle(2, 2, Loss::Killed),
        Answer::Wait(WaitWord(18)),
    ),
    (2, Deed::EndWait, Answer::Granted),
    (2, Deed::WaitWord(2), Answer::Wait(WaitWord(16))),
];

// The ticket of a lost wait still blocks others, with its flags, until the wait is ended.
const LOST: &[Row] = &[
    (1, Deed::TryNow(Mode::SR), Answer::Granted),
    (2, Deed::BeginWait(Mode::X), Answer::Waiting(1)),
    (
        1,
        Deed::Settle(2, 1, Loss::Killed),
        Answer::Wait(WaitWord(9)),
    ),
    (3, Deed::LockWord, OBTRUSIVE),
    (3, Deed::TryNow(Mode::SR), Answer::WouldWait),
    (3, Deed::WaitWord(2), Answer::Wait(WaitWord(13))),
    (2, Deed::EndWait, Answer::Lost(5)),
    (3, Deed::WaitWord(2), Answer::Wait(WaitWord(8))),
    (3, Deed::LockWord, LISTED),
    (3, Deed::TryNow(Mode::SR), Answer::Granted),
];

const IDLE: Answer = Answer::Wait(WaitWord(0));

// The word of a session that never waited is 0, to itself and to others, and nothing settles the wait that it may open next.
const NEVER_WAITED: &[Row] = &[
    (1, Deed::WaitWord(1), IDLE),
    (2, Deed::WaitWord(1), IDLE),
    (1, Deed::WaitWord(2), IDLE),
    (2, Deed::Settle(1, 1, Loss::Killed), IDLE),
    (1, Deed::WaitWord(1), IDLE),
];

pub(crate) const CASES: &[Case] = &[
    ("who never waited is idle", NEVER_WAITED),
    ("the words tell of a wait that is granted", GRANTED),
    ("the words tell of a wait that is killed", KILLED),
    ("the words tell of a lost wait until it is ended", LOST),
];
