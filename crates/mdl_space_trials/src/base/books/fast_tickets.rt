//! Fast tickets, which the word counts and no list has, and what the word's flags have to say of the lists.
use super::steps::{Answer, CONFLICT, Life, NO, NO_FAST, Step, Steps, YES};
use mdl_key::{Kind, Mode};
use mdl_word::Word;

// The words of one fast ticket: in S or IX, in SR, and in SW.
const FAST_S: Word = Word(0x1);

const FAST_SR: Word = Word(0x10_0000);

const FAST_SW: Word = Word(0x100_0000_0000);

// The table's book is empty at first. Fast tickets clash with some modes, in each call that is given the word.
const FAST_AT_A_TABLE: Steps = &[
    (Step::CanGrant(1, Mode::X, FAST_SR), NO),
    (Step::CanGrant(1, Mode::SNW, FAST_SR), YES),
    (Step::CanGrant(1, Mode::SNRW, FAST_S), YES),
    (Step::CanGrant(1, Mode::SU, FAST_SW), YES),
    (Step::CanGrant(1, Mode::SNW, FAST_SW), NO),
    (Step::Enqueue(1, 1, Mode::SNRW), Answer::Done),
    (Step::Next(FAST_SR, &[]), Answer::FindsNobody),
    (Step::Next(FAST_S, &[]), Answer::Finds(1, 1)),
    (Step::Grant(1, 2, Mode::SNRW, FAST_SR), CONFLICT),
    (Step::Grant(1, 2, Mode::SNRW, FAST_S), Answer::Done),
];

const FAST_IN_A_SCHEMA: Steps = &[
    (Step::CanGrant(1, Mode::IX, FAST_S), YES),
    (Step::CanGrant(1, Mode::S, FAST_S), NO),
    (Step::CanGrant(1, Mode::X, FAST_S), NO),
    (Step::Grant(1, 1, Mode::IX, FAST_S), Answer::Done),
    (Step::Needs, Answer::Needs(false, true)),
    (Step::SetMode(1, 1, Mode::S, FAST_S), CONFLICT),
    (Step::SetMode(1, 1, Mode::S, NO_FAST), Answer::Done),
    (Step::Needs, Answer::Needs(true, true)),
];

const NEEDS: Steps = &[
    (Step::Needs, Answer::Needs(false, false)),
    (Step::Grant(1, 1, Mode::SW, NO_FAST), Answer::Done),
    (Step::Needs, Answer::Needs(false, true)),
    (Step::Enqueue(2, 1, Mode::SNW), Answer::Done),
    (Step::Needs, Answer::Needs(true, true)),
    (Step::Cancel(2, 1), Answer::Gives(2, 1, Mode::SNW)),
    (Step::Needs, Answer::Needs(false, true)),
    (Step::SetMode(1, 1, Mode::SU, NO_FAST), Answer::Done),
    (Step::Needs, Answer::Needs(true, true)),
    (Step::Remove(1, 1), Answer::Gives(1, 1, Mode::SU)),
    (Step::Needs, Answer::Needs(false, false)),
    (Step::Enqueue(2, 2, Mode::SWLP), Answer::Done),
    (Step::Needs, Answer::Needs(false, true)),
];

// The obtrusive modes of a table.
const OBTRUSIVE_AT_A_TABLE: Steps = &[
    (Step::Grant(1, 1, Mode::SR, NO_FAST), Answer::Done),
    (Step::Grant(2, 1, Mode::SH, NO_FAST), Answer::Done),
    (Step::Grant(3, 1, Mode::SW, NO_FAST), Answer::Done),
    (Step::Needs, Answer::Needs(false, true)),
    (Step::SetMode(2, 1, Mode::SU, NO_FAST), Answer::Done),
    (Step::Needs, Answer::Needs(true, true)),
    (Step::Remove(2, 1), Answer::Gives(2, 1, Mode::SU)),
    (Step::Needs, Answer::Needs(false, true)),
];

// The same modes on a schema, whose kind doesn't have them.
const OBTRUSIVE_AT_A_SCHEMA: Steps = &[
    (Step::Grant(1, 1, Mode::SR, NO_FAST), Answer::Done),
    (Step::Grant(2, 1, Mode::SH, NO_FAST), Answer::Done),
    (Step::Grant(3, 1, Mode::SW, NO_FAST), Answer::Done),
    (Step::Needs, Answer::Needs(true, true)),
];

pub(super) const LIVES: &[Life] = &[
    Life("fast tickets of a table", Kind::Object, FAST_AT_A_TABLE),
    Life("fast tickets of a schema", Kind::Scoped, FAST_IN_A_SCHEMA),
    Life("what comes and goes", Kind::Object, NEEDS),
    Life("obtrusive at a table", Kind::Object, OBTRUSIVE_AT_A_TABLE),
    Life("obtrusive at a schema", Kind::Scoped, OBTRUSIVE_AT_A_SCHEMA),
];
