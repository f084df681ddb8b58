//! The rows of the matrices: for each kind and each requested mode, the set of modes that it clashes with or waits behind.
//!
//! A set of modes is a bit map, after MySQL 5.7, `MDL_lock::bitmap_t` of `sql/mdl.cc`: bit n stands for the mode at place n in
//! the order of modes.
use crate::Mode;

const NONE: u16 = 0;

const IX: u16 = 1 << Mode::IX as u16;

const S: u16 = 1 << Mode::S as u16;

const SH: u16 = 1 << Mode::SH as u16;

const SR: u16 = 1 << Mode::SR as u16;

const SW: u16 = 1 << Mode::SW as u16;

const SWLP: u16 = 1 << Mode::SWLP as u16;

const SU: u16 = 1 << Mode::SU as u16;

const SRO: u16 = 1 << Mode::SRO as u16;

const SNW: u16 = 1 << Mode::SNW as u16;

const SNRW: u16 = 1 << Mode::SNRW as u16;

const X: u16 = 1 << Mode::X as u16;

// The modes that clash with the requested one when another session holds them: first for scoped locks, then for object locks.
pub(super) const GRANTED: [[u16; 11]; 2] = [
    [
        S | X, // IX
        IX | X, // S
        NONE, // SH
        NONE, // SR
        NONE, // SW
        NONE, // SWLP
        NONE, // SU
        NONE, // SRO
        NONE, // SNW
        NONE, // SNRW
        IX | S | X, // X
    ],
    [
        NONE, // IX
        X, // S
        X, // SH
        SNRW | X, // SR
        SRO | SNW | SNRW | X, // SW
        SRO | SNW | SNRW | X, // SWLP
        SU | SNW | SNRW | X, // SU
        SW | SWLP | SNRW | X, // SRO
        SW | SWLP | SU | SNW | SNRW | X, // SNW
        SR | SW | SWLP | SU | SRO | SNW | SNRW | X, // SNRW
        S | SH | SR | SW | SWLP | SU | SRO | SNW | SNRW | X, // X
    ],
];

// The modes that the requested one waits behind when another session waits for them, in the same order.
pub(super) const WAITING: [[u16; 11]; 2] = [
    [
        S | X, // IX
        X, // S
        NONE, // SH
        NONE, // SR
        NONE, // SW
        NONE, // SWLP
        NONE, // SU
        NONE, // SRO
        NONE, // SNW
        NONE, // SNRW
        NONE, // X
    ],
    [
        NONE, // IX
        X, // S
        NONE, // SH
        SNRW | X, // SR
        SNW | SNRW | X, // SW
        SRO | SNW | SNRW | X, // SWLP
        X, // SU
        SW | SNRW | X, // SRO
        X, // SNW
        X, // SNRW
        NONE, // X
    ],
];
