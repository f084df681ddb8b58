//! Pseudorandom numbers, which are the same in each run.
use mdl_calls::Held;
use mdl_key::Mode;

const MODES: [Mode; 10] = [
    Mode::S,
    Mode::SH,
    Mode::SR,
    Mode::SW,
    Mode::SWLP,
    Mode::SU,
    Mode::SRO,
    Mode::SNW,
    Mode::SNRW,
    Mode::X,
];

/// A sequence of such numbers.
#[derive(Clone, Copy)]
pub(crate) struct Chance {
    state: u64,
}

impl Chance {
    /// Returns the sequence of a number.
    pub(crate) fn new(number: u16) -> Chance {
        Chance {
            state: u64::from(number),
        }
    }

    /// Returns the next number of the sequence, below a bound, or 0 if the bound is 0.
    pub(crate) fn below(&mut self, bound: usize) -> usize {
        self.state = self
            .state
            .wrapping_mul(6_364_136_223_846_793_005)
            .wrapping_add(1_442_695_040_888_963_407);
        let drawn = (self.state >> 33) as usize;
        drawn.checked_rem(bound).unwrap_or(0)
    }

    /// Returns one of the modes of a table's lock.
    pub(crate) fn mode(&mut self) -> Mode {
        MODES.get(self.below(10)).copied().unwrap_or(Mode::S)
    }

    /// Returns one of the tickets, if there is one.
    pub(crate) fn ticket(&mut self, held: &[Held]) -> Option<Held> {
        held.get(self.below(held.len())).copied()
    }
}
