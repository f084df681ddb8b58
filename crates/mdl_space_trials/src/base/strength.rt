//! Strength between two modes of one kind.
use crate::base::rows::{Row, are_right};
use mdl_key::Mode;
use mdl_system::{covers, may_downgrade, may_upgrade};
use std::alloc::Global;

// Two modes, and whether the first is as strong as the second.
struct Strong(Mode, Mode, bool);

impl Row for Strong {
    fn goes_so(&self, _alloc: Global) -> bool {
        covers(self.0, self.1) == self.2
    }
}

const STRONG: &[Strong] = &[
    Strong(Mode::SU, Mode::SR, true),
    Strong(Mode::SU, Mode::SW, false),
    Strong(Mode::SNRW, Mode::SRO, true),
    Strong(Mode::S, Mode::IX, false),
    Strong(Mode::X, Mode::IX, true),
    Strong(Mode::S, Mode::SH, true),
    Strong(Mode::SH, Mode::S, true),
];

// SU is as strong as SR and not as SW, SNRW as SRO; S of a scope isn't as strong as IX; S and SH are each as strong as
// the other.
#[test]
fn strength_is_that_of_a_common_kind(rt: HostRuntime) {
    are_right(&rt, rt.alloc(), STRONG);
}

// A held mode, another mode, and whether the first may become the second by an upgrade and by a downgrade.
struct Becomes(Mode, Mode, bool, bool);

impl Row for Becomes {
    fn goes_so(&self, _alloc: Global) -> bool {
        may_upgrade(self.0, self.1) == self.2 && may_downgrade(self.0, self.1) == self.3
    }
}

const BECOMES: &[Becomes] = &[
    Becomes(Mode::SU, Mode::SNW, true, false),
    Becomes(Mode::SU, Mode::X, true, false),
    Becomes(Mode::SNW, Mode::SNRW, true, false),
    Becomes(Mode::SNRW, Mode::X, true, false),
    Becomes(Mode::SNW, Mode::SU, false, true),
    Becomes(Mode::X, Mode::SNRW, false, true),
    Becomes(Mode::X, Mode::SU, false, true),
    Becomes(Mode::SNRW, Mode::SU, false, false),
    Becomes(Mode::SR, Mode::X, false, false),
    Becomes(Mode::X, Mode::S, false, false),
    Becomes(Mode::X, Mode::X, false, false),
];

// SU, SNW and SNRW may be upgraded to each mode after them in this order, and to X. X may be downgraded to each of them, and SNW to SU.
#[test]
fn few_modes_become_others(rt: HostRuntime) {
    are_right(&rt, rt.alloc(), BECOMES);
}
