//! Requests beside tickets of the same session and of others, granted or waiting. A waiting ticket can be admitted at any time.
use super::steps::{Answer, Life, NO, NO_FAST, Step, Steps, YES};
use mdl_key::{Kind, Mode};

const OWN_GRANTED: Steps = &[
    (Step::Grant(1, 1, Mode::SR, NO_FAST), Answer::Done),
    (Step::Grant(2, 1, Mode::SR, NO_FAST), Answer::Done),
    (Step::Grant(3, 1, Mode::SW, NO_FAST), Answer::Done),
    (Step::CanGrant(9, Mode::SU, NO_FAST), YES),
    (Step::CanGrant(3, Mode::SNW, NO_FAST), YES),
    (Step::CanGrant(1, Mode::SNW, NO_FAST), NO),
    (Step::CanGrant(3, Mode::X, NO_FAST), NO),
];

const OWN_WAITING: Steps = &[
    (Step::Enqueue(1, 1, Mode::X), Answer::Done),
    (Step::Enqueue(2, 1, Mode::SNW), Answer::Done),
    (Step::CanGrant(9, Mode::SH, NO_FAST), YES),
    (Step::CanGrant(1, Mode::SR, NO_FAST), YES),
    (Step::CanGrant(2, Mode::SR, NO_FAST), NO),
    (Step::CanGrant(1, Mode::SW, NO_FAST), NO),
];

const LEFT_MODES: Steps = &[
    (Step::Enqueue(1, 1, Mode::X), Answer::Done),
    (Step::Enqueue(2, 1, Mode::IX), Answer::Done),
    (Step::Admit(1, 1), Answer::Gives(1, 1, Mode::X)),
    (Step::Admit(2, 1), Answer::Gives(2, 1, Mode::IX)),
    (Step::CanGrant(9, Mode::IX, NO_FAST), NO),
    (Step::SetMode(1, 1, Mode::IX, NO_FAST), Answer::Done),
    (Step::CanGrant(9, Mode::IX, NO_FAST), YES),
    (Step::CanGrant(9, Mode::S, NO_FAST), NO),
    (Step::Remove(1, 1), Answer::Gives(1, 1, Mode::IX)),
    (Step::Remove(2, 1), Answer::Gives(2, 1, Mode::IX)),
    (Step::CanGrant(9, Mode::X, NO_FAST), YES),
];

pub(super) const LIVES: &[Life] = &[
    Life("own granted tickets", Kind::Object, OWN_GRANTED),
    Life("own waiting tickets", Kind::Object, OWN_WAITING),
    Life("modes that are left", Kind::Scoped, LEFT_MODES),
];
