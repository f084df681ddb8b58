//! Books of locks that are granted and that sessions wait for.
use super::steps::{Answer, CONFLICT, Life, NO, NO_FAST, NOT_HERE, Step, Steps, YES};
use mdl_key::{Kind, Mode};

const LIFE: Steps = &[
    (Step::Next(NO_FAST, &[]), Answer::FindsNobody),
    (Step::Grant(1, 7, Mode::SR, NO_FAST), Answer::Done),
    (Step::Enqueue(2, 1, Mode::X), Answer::Done),
    (Step::Enqueue(3, 4, Mode::SR), Answer::Done),
    (Step::Next(NO_FAST, &[]), Answer::FindsNobody),
    (Step::Remove(1, 7), Answer::Gives(1, 7, Mode::SR)),
    (Step::Next(NO_FAST, &[]), Answer::Finds(2, 1)),
    (Step::Admit(2, 1), Answer::Gives(2, 1, Mode::X)),
    (Step::BookView(&[(2, 1, Mode::X)], &[(3, 4, Mode::SR)]), YES),
    (Step::Next(NO_FAST, &[]), Answer::FindsNobody),
    (Step::Cancel(3, 4), Answer::Gives(3, 4, Mode::SR)),
    (Step::Remove(2, 1), Answer::Gives(2, 1, Mode::X)),
    (Step::BookView(&[], &[]), YES),
];

const IN_TURN: Steps = &[
    (Step::CanGrant(1, Mode::IX, NO_FAST), YES),
    (Step::Grant(1, 1, Mode::IX, NO_FAST), Answer::Done),
    (Step::CanGrant(2, Mode::S, NO_FAST), NO),
    (Step::Enqueue(2, 1, Mode::S), Answer::Done),
    (Step::CanGrant(3, Mode::IX, NO_FAST), NO),
    (Step::Enqueue(3, 1, Mode::IX), Answer::Done),
    (Step::Enqueue(4, 1, Mode::X), Answer::Done),
    (Step::Next(NO_FAST, &[]), Answer::FindsNobody),
    // Each ticket is removed, and the next is granted.
    (Step::Remove(1, 1), Answer::Gives(1, 1, Mode::IX)),
    (Step::Next(NO_FAST, &[]), Answer::Finds(4, 1)),
    (Step::Admit(4, 1), Answer::Gives(4, 1, Mode::X)),
    (Step::Remove(4, 1), Answer::Gives(4, 1, Mode::X)),
    (Step::Next(NO_FAST, &[]), Answer::Finds(2, 1)),
    (Step::Admit(2, 1), Answer::Gives(2, 1, Mode::S)),
    (Step::Remove(2, 1), Answer::Gives(2, 1, Mode::S)),
    (Step::Next(NO_FAST, &[]), Answer::Finds(3, 1)),
    (Step::Admit(3, 1), Answer::Gives(3, 1, Mode::IX)),
    (Step::BookView(&[(3, 1, Mode::IX)], &[]), YES),
];

const BESIDE_OTHERS: Steps = &[
    (Step::Grant(1, 1, Mode::SU, NO_FAST), Answer::Done),
    (Step::Grant(2, 1, Mode::SR, NO_FAST), Answer::Done),
    (Step::Enqueue(1, 2, Mode::SNW), Answer::Done),
    (Step::Enqueue(3, 1, Mode::SNRW), Answer::Done),
    (Step::CanGrant(1, Mode::SU, NO_FAST), YES),
    (Step::CanGrant(2, Mode::SU, NO_FAST), NO),
    (Step::CanGrant(1, Mode::X, NO_FAST), NO),
    (Step::CanGrant(2, Mode::X, NO_FAST), NO),
    (Step::CanGrant(1, Mode::SR, NO_FAST), NO),
    (Step::CanGrant(3, Mode::SR, NO_FAST), YES),
    (Step::CanGrant(1, Mode::SW, NO_FAST), NO),
    (Step::CanGrant(3, Mode::SW, NO_FAST), NO),
    (Step::CanGrant(4, Mode::SH, NO_FAST), YES),
    (Step::CanGrant(4, Mode::S, NO_FAST), YES),
    (Step::Remove(2, 1), Answer::Gives(2, 1, Mode::SR)),
    (Step::CanGrant(1, Mode::X, NO_FAST), YES),
];

const OVERTAKEN: Steps = &[
    (Step::Grant(1, 1, Mode::SR, NO_FAST), Answer::Done),
    (Step::Enqueue(2, 1, Mode::X), Answer::Done),
    (Step::CanGrant(1, Mode::SR, NO_FAST), NO),
    (Step::Grant(1, 2, Mode::SR, NO_FAST), Answer::Done),
    (Step::Grant(2, 2, Mode::X, NO_FAST), CONFLICT),
    (
        Step::BookView(&[(1, 1, Mode::SR), (1, 2, Mode::SR)], &[(2, 1, Mode::X)]),
        YES,
    ),
];

const LATER_AND_SETTLED: Steps = &[
    (Step::Grant(9, 1, Mode::SNRW, NO_FAST), Answer::Done),
    (Step::Enqueue(1, 1, Mode::SW), Answer::Done),
    (Step::Enqueue(2, 1, Mode::X), Answer::Done),
    (Step::Enqueue(3, 1, Mode::X), Answer::Done),
    (Step::Remove(9, 1), Answer::Gives(9, 1, Mode::SNRW)),
    // The SW, which came first, is behind the two X.
    (Step::Next(NO_FAST, &[]), Answer::Finds(2, 1)),
    (Step::Next(NO_FAST, &[2]), Answer::Finds(3, 1)),
    // A ticket whose wait is settled still blocks.
    (Step::Next(NO_FAST, &[2, 3]), Answer::FindsNobody),
    (Step::Cancel(2, 1), Answer::Gives(2, 1, Mode::X)),
    (Step::Next(NO_FAST, &[2, 3]), Answer::FindsNobody),
    (Step::Cancel(3, 1), Answer::Gives(3, 1, Mode::X)),
    (Step::Next(NO_FAST, &[2, 3]), Answer::Finds(1, 1)),
    (Step::Next(NO_FAST, &[1, 2, 3]), Answer::FindsNobody),
];

const BY_INDEX: Steps = &[
    (Step::Grant(1, 1, Mode::X, NO_FAST), Answer::Done),
    (Step::Enqueue(2, 1, Mode::SR), Answer::Done),
    (Step::Enqueue(3, 5, Mode::SW), Answer::Done),
    (Step::Enqueue(4, 2, Mode::SH), Answer::Done),
    (Step::NextAt(NO_FAST, &[]), Answer::FindsNobody),
    (Step::Remove(1, 1), Answer::Gives(1, 1, Mode::X)),
    (
        Step::NextAt(NO_FAST, &[2]),
        Answer::FindsAt(1, 3, 5, Mode::SW),
    ),
    (Step::AdmitAt(3), NOT_HERE),
    (Step::AdmitAt(1), Answer::Gives(3, 5, Mode::SW)),
    (
        Step::BookView(&[(3, 5, Mode::SW)], &[(2, 1, Mode::SR), (4, 2, Mode::SH)]),
        YES,
    ),
    (
        Step::NextAt(NO_FAST, &[]),
        Answer::FindsAt(0, 2, 1, Mode::SR),
    ),
    (Step::AdmitAt(0), Answer::Gives(2, 1, Mode::SR)),
    (Step::AdmitAt(0), Answer::Gives(4, 2, Mode::SH)),
    (Step::AdmitAt(0), NOT_HERE),
    // The list that was emptied is used again.
    (Step::Enqueue(5, 1, Mode::X), Answer::Done),
    (
        Step::BookView(
            &[(3, 5, Mode::SW), (2, 1, Mode::SR), (4, 2, Mode::SH)],
            &[(5, 1, Mode::X)],
        ),
        YES,
    ),
];

pub(super) const LIVES: &[Life] = &[
    Life("an ordinary life", Kind::Object, LIFE),
    Life("a schema is served in turn", Kind::Scoped, IN_TURN),
    Life(
        "other sessions alone are looked at",
        Kind::Object,
        BESIDE_OTHERS,
    ),
];

pub(super) const LIVES_OF_WAITERS: &[Life] = &[
    Life("a clone overtakes", Kind::Object, OVERTAKEN),
    Life(
        "later and settled waiters count",
        Kind::Object,
        LATER_AND_SETTLED,
    ),
    Life("waiters are granted by their index", Kind::Object, BY_INDEX),
];
