//! The matrices as they are printed, and strength by them.
use crate::base::rows::{self, are_right};
use mdl_key::{
    Kind, Mode, at_least, conflicts_granted, conflicts_waiting, granted_row, obtrusive_row,
    waiting_row,
};
use std::alloc::Global;

// The matrices of MySQL 5.7, sql/mdl.cc: a kind, the requested mode, the granted modes that clash with it, and the pending modes that it is behind.
struct Row(Kind, Mode, &'static [Mode], &'static [Mode]);

const ROWS: &[Row] = &[
    Row(
        Kind::Scoped,
        Mode::IX,
        &[Mode::S, Mode::X],
        &[Mode::S, Mode::X],
    ),
    Row(Kind::Scoped, Mode::S, &[Mode::IX, Mode::X], &[Mode::X]),
    Row(Kind::Scoped, Mode::X, &[Mode::IX, Mode::S, Mode::X], &[]),
    Row(Kind::Object, Mode::S, &[Mode::X], &[Mode::X]),
    Row(Kind::Object, Mode::SH, &[Mode::X], &[]),
    Row(
        Kind::Object,
        Mode::SR,
        &[Mode::SNRW, Mode::X],
        &[Mode::SNRW, Mode::X],
    ),
    Row(
        Kind::Object,
        Mode::SW,
        &[Mode::SRO, Mode::SNW, Mode::SNRW, Mode::X],
        &[Mode::SNW, Mode::SNRW, Mode::X],
    ),
    Row(
        Kind::Object,
        Mode::SWLP,
        &[Mode::SRO, Mode::SNW, Mode::SNRW, Mode::X],
        &[Mode::SRO, Mode::SNW, Mode::SNRW, Mode::X],
    ),
    Row(
        Kind::Object,
        Mode::SU,
        &[Mode::SU, Mode::SNW, Mode::SNRW, Mode::X],
        &[Mode::X],
    ),
    Row(
        Kind::Object,
        Mode::SRO,
        &[Mode::SW, Mode::SWLP, Mode::SNRW, Mode::X],
        &[Mode::SW, Mode::SNRW, Mode::X],
    ),
    Row(
        Kind::Object,
        Mode::SNW,
        &[
            Mode::SW,
            Mode::SWLP,
            Mode::SU,
            Mode::SNW,
            Mode::SNRW,
            Mode::X,
        ],
        &[Mode::X],
    ),
    Row(
        Kind::Object,
        Mode::SNRW,
        &[
            Mode::SR,
            Mode::SW,
            Mode::SWLP,
            Mode::SU,
            Mode::SRO,
            Mode::SNW,
            Mode::SNRW,
            Mode::X,
        ],
        &[Mode::X],
    ),
    Row(
        Kind::Object,
        Mode::X,
        &[
            Mode::S,
            Mode::SH,
            Mode::SR,
            Mode::SW,
            Mode::SWLP,
            Mode::SU,
            Mode::SRO,
            Mode::SNW,
            Mode::SNRW,
            Mode::X,
        ],
        &[],
    ),
];

// Whether the matrices have a row.
impl rows::Row for Row {
    fn goes_so(&self, _alloc: Global) -> bool {
        let Row(kind, ask, granted, waiting) = self;
        for mode in &Mode::ALL {
            if conflicts_granted(*kind, *ask, *mode) != granted.contains(mode)
                || conflicts_waiting(*kind, *ask, *mode) != waiting.contains(mode)
            {
                return false;
            }
        }
        true
    }
}

#[test]
fn each_entry_is_as_in_the_table(rt: HostRuntime) {
    are_right(&rt, rt.alloc(), ROWS);
}

// Some rows of the matrices as bit maps.
fn bit_maps() -> [u16; 6] {
    [
        granted_row(Kind::Scoped, Mode::IX),
        waiting_row(Kind::Scoped, Mode::S),
        granted_row(Kind::Object, Mode::SR),
        waiting_row(Kind::Object, Mode::SRO),
        obtrusive_row(Kind::Scoped),
        obtrusive_row(Kind::Object),
    ]
}

const BIT_MAPS: [u16; 6] = [
    0b100_0000_0010,
    0b100_0000_0000,
    0b110_0000_0000,
    0b110_0001_0000,
    0b111_1111_1110,
    0b111_1100_0001,
];

#[test]
fn rows_are_bit_maps(rt: HostRuntime) {
    assert!(rt; bit_maps() == BIT_MAPS);
}

// Two modes of a kind, and whether each is at least as strong as the other.
struct Strength(Kind, Mode, Mode, bool, bool);

impl rows::Row for Strength {
    fn goes_so(&self, _alloc: Global) -> bool {
        let Strength(kind, a, b, first, second) = self;
        at_least(*kind, *a, *b) == *first && at_least(*kind, *b, *a) == *second
    }
}

const STRENGTH: &[Strength] = &[
    Strength(Kind::Object, Mode::SU, Mode::SR, true, false),
    Strength(Kind::Object, Mode::SNRW, Mode::SRO, true, false),
    Strength(Kind::Object, Mode::SNW, Mode::SRO, true, false),
    Strength(Kind::Object, Mode::SU, Mode::SW, false, false),
    Strength(Kind::Object, Mode::SU, Mode::SRO, false, false),
    Strength(Kind::Object, Mode::S, Mode::SH, true, true),
    Strength(Kind::Object, Mode::SW, Mode::SWLP, true, true),
    Strength(Kind::Object, Mode::X, Mode::SNRW, true, false),
    Strength(Kind::Scoped, Mode::S, Mode::IX, false, false),
    Strength(Kind::Scoped, Mode::X, Mode::S, true, false),
];

#[test]
fn compares_modes_by_strength(rt: HostRuntime) {
    are_right(&rt, rt.alloc(), STRENGTH);
}
