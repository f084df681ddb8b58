//! Tickets that are found by session and number, and change their modes.
use super::steps::{Answer, CONFLICT, Life, NO_FAST, NOT_HERE, Step, Steps, YES};
use mdl_key::{Kind, Mode};
use mdl_word::Word;

// The words of one fast ticket: in S, and in SW.
const FAST_S: Word = Word(0x1);

const FAST_SW: Word = Word(0x100_0000_0000);

// Three granted tickets, two of which have the same number, and three waiting ones, likewise.
const TWINS: Steps = &[
    (Step::Grant(1, 1, Mode::S, NO_FAST), Answer::Done),
    (Step::Grant(1, 2, Mode::SH, NO_FAST), Answer::Done),
    (Step::Grant(1, 2, Mode::SR, NO_FAST), Answer::Done),
    (Step::Enqueue(2, 1, Mode::X), Answer::Done),
    (Step::Enqueue(2, 2, Mode::SU), Answer::Done),
    (Step::Enqueue(2, 2, Mode::SW), Answer::Done),
    // Tickets that don't exist.
    (Step::Admit(1, 1), NOT_HERE),
    (Step::Admit(2, 3), NOT_HERE),
    (Step::Cancel(1, 1), NOT_HERE),
    (Step::Cancel(2, 3), NOT_HERE),
    (Step::Remove(2, 1), NOT_HERE),
    (Step::Remove(1, 3), NOT_HERE),
    (Step::Remove(3, 1), NOT_HERE),
    (Step::Grant(3, 1, Mode::X, NO_FAST), CONFLICT),
    (
        Step::BookView(
            &[(1, 1, Mode::S), (1, 2, Mode::SH), (1, 2, Mode::SR)],
            &[(2, 1, Mode::X), (2, 2, Mode::SU), (2, 2, Mode::SW)],
        ),
        YES,
    ),
    // Of two tickets with one number the first is taken.
    (Step::Remove(1, 2), Answer::Gives(1, 2, Mode::SH)),
    (Step::Admit(2, 2), Answer::Gives(2, 2, Mode::SU)),
    (Step::Cancel(2, 1), Answer::Gives(2, 1, Mode::X)),
    (
        Step::BookView(
            &[(1, 1, Mode::S), (1, 2, Mode::SR), (2, 2, Mode::SU)],
            &[(2, 2, Mode::SW)],
        ),
        YES,
    ),
];

// Two tickets with one number have their own modes.
const TWINS_CHANGED: Steps = &[
    (Step::Grant(1, 1, Mode::S, NO_FAST), Answer::Done),
    (Step::Grant(1, 1, Mode::X, NO_FAST), Answer::Done),
    (Step::SetMode(1, 1, Mode::SR, NO_FAST), Answer::Done),
    (Step::Remove(1, 1), Answer::Gives(1, 1, Mode::SR)),
    (Step::Remove(1, 1), Answer::Gives(1, 1, Mode::X)),
    (Step::Needs, Answer::Needs(false, false)),
];

// Tickets are removed from the middle, from the front and from the end.
const FROM_EACH_PLACE: Steps = &[
    (Step::Needs, Answer::Needs(false, false)),
    (Step::Enqueue(1, 7, Mode::SR), Answer::Done),
    (Step::Enqueue(2, 1, Mode::SW), Answer::Done),
    (Step::Enqueue(1, 8, Mode::SH), Answer::Done),
    (Step::Cancel(2, 7), NOT_HERE),
    (Step::Admit(2, 1), Answer::Gives(2, 1, Mode::SW)),
    (Step::Admit(1, 7), Answer::Gives(1, 7, Mode::SR)),
    (Step::Admit(1, 8), Answer::Gives(1, 8, Mode::SH)),
    (Step::SetMode(2, 7, Mode::X, NO_FAST), NOT_HERE),
    (Step::SetMode(1, 7, Mode::S, NO_FAST), Answer::Done),
    (
        Step::BookView(&[(2, 1, Mode::SW), (1, 7, Mode::S), (1, 8, Mode::SH)], &[]),
        YES,
    ),
    (Step::Remove(1, 7), Answer::Gives(1, 7, Mode::S)),
    (Step::Remove(2, 1), Answer::Gives(2, 1, Mode::SW)),
    (Step::Remove(1, 8), Answer::Gives(1, 8, Mode::SH)),
    (Step::Remove(1, 8), NOT_HERE),
    (Step::Needs, Answer::Needs(false, false)),
];

// Session 1 has SU between the S of session 2 and the SH of session 3.
const CHANGED: Steps = &[
    (Step::Grant(2, 1, Mode::S, NO_FAST), Answer::Done),
    (Step::Grant(1, 1, Mode::SR, NO_FAST), Answer::Done),
    (Step::Grant(1, 2, Mode::SU, NO_FAST), Answer::Done),
    (Step::Grant(3, 1, Mode::SH, NO_FAST), Answer::Done),
    (Step::Enqueue(4, 1, Mode::X), Answer::Done),
    // A refused call changes nothing.
    (Step::SetMode(4, 1, Mode::SR, NO_FAST), NOT_HERE),
    (Step::SetMode(3, 2, Mode::X, NO_FAST), NOT_HERE),
    (Step::SetMode(2, 2, Mode::X, FAST_S), NOT_HERE),
    (Step::SetMode(1, 2, Mode::X, NO_FAST), CONFLICT),
    (Step::SetMode(1, 2, Mode::SNW, FAST_SW), CONFLICT),
    (Step::SetMode(2, 1, Mode::SNW, NO_FAST), CONFLICT),
    (
        Step::BookView(
            &[
                (2, 1, Mode::S),
                (1, 1, Mode::SR),
                (1, 2, Mode::SU),
                (3, 1, Mode::SH),
            ],
            &[(4, 1, Mode::X)],
        ),
        YES,
    ),
    // Neither the session's own SR nor the waiting X blocks it.
    (Step::SetMode(1, 2, Mode::SNRW, FAST_S), Answer::Done),
    (
        Step::BookView(
            &[
                (2, 1, Mode::S),
                (1, 1, Mode::SR),
                (1, 2, Mode::SNRW),
                (3, 1, Mode::SH),
            ],
            &[(4, 1, Mode::X)],
        ),
        YES,
    ),
    (Step::SetMode(1, 2, Mode::X, NO_FAST), CONFLICT),
    (Step::Remove(2, 1), Answer::Gives(2, 1, Mode::S)),
    (Step::Remove(3, 1), Answer::Gives(3, 1, Mode::SH)),
    (Step::SetMode(1, 2, Mode::X, NO_FAST), Answer::Done),
    (Step::SetMode(1, 2, Mode::SU, NO_FAST), Answer::Done),
    (
        Step::BookView(&[(1, 1, Mode::SR), (1, 2, Mode::SU)], &[(4, 1, Mode::X)]),
        YES,
    ),
];

pub(super) const LIVES: &[Life] = &[
    Life("of twins the first is taken", Kind::Object, TWINS),
    Life("twins change one by one", Kind::Object, TWINS_CHANGED),
    Life("tickets go from each place", Kind::Object, FROM_EACH_PLACE),
    Life("a mode changes in its place", Kind::Object, CHANGED),
];
