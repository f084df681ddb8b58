//! Pseudo-random numbers, the same in each run.
ghost use Rattle.std.specs.Prelude.{◌<◌};

use crate::by_chance::plain::Plain;
use crate::contexts::acts::{Act, Lock};
use crate::hall::SESSIONS;
use mdl_key::{Duration, Kind, Mode};
use mdl_space::TicketId;

// What is drawn, some of it more often than the rest.
const OBJECT_MODES: [Mode; 16] = [
    Mode::S,
    Mode::SH,
    Mode::SR,
    Mode::SR,
    Mode::SR,
    Mode::SW,
    Mode::SW,
    Mode::SW,
    Mode::SWLP,
    Mode::SU,
    Mode::SU,
    Mode::SRO,
    Mode::SNW,
    Mode::SNRW,
    Mode::X,
    Mode::IX,
];

const SCOPED_MODES: [Mode; 8] = [
    Mode::IX,
    Mode::IX,
    Mode::IX,
    Mode::IX,
    Mode::S,
    Mode::S,
    Mode::X,
    Mode::SR,
];

const DURATIONS: [Duration; 8] = [
    Duration::Statement,
    Duration::Statement,
    Duration::Statement,
    Duration::Transaction,
    Duration::Transaction,
    Duration::Transaction,
    Duration::Transaction,
    Duration::Explicit,
];

/// A sequence in which each number follows from the last.
#[derive(Clone, Copy)]
pub(crate) struct Chance(pub(crate) u64);

impl Chance {
    /// Draws a number below this one.
    pub(crate) fn draw(&mut self, below: u16) -> u16
        requires { 0 < below }
        ensures { result < below }
    {
        self.0 = self
            .0
            .wrapping_mul(6_364_136_223_846_793_005)
            .wrapping_add(1_442_695_040_888_963_407);
        ((self.0 >> 33) % u64::from(below)) as u16
    }

    // Draws one of six locks.
    fn draw_lock(&mut self) -> Lock {
        match self.draw(10) {
            0..=3 => Lock::A,
            4 | 5 => Lock::B,
            6 => Lock::Schema,
            7 => Lock::Global,
            8 => Lock::Commit,
            _ => Lock::User,
        }
    }

    /// Draws one of these locks, or of three more.
    pub(crate) fn draw_any_lock(&mut self) -> Lock {
        match self.draw(4) {
            0 => Lock::Numbered(self.draw(3)),
            _ => self.draw_lock(),
        }
    }

    /// Draws a mode to request a lock of this kind in, mostly one of the kind.
    pub(crate) fn draw_mode(&mut self, kind: Kind) -> Mode {
        match kind {
            Kind::Object => OBJECT_MODES[usize::from(self.draw(16))],
            Kind::Scoped => SCOPED_MODES[usize::from(self.draw(8))],
        }
    }

    /// Draws a request for a lock by a context, which waits if need be in most cases.
    pub(crate) fn draw_acquire(&mut self) -> Act {
        let lock = self.draw_any_lock();
        let mode = self.draw_mode(lock.kind());
        let duration = DURATIONS[usize::from(self.draw(8))];
        if self.draw(4) == 0 {
            Act::TryAcquire(lock, mode, duration)
        } else {
            Act::Acquire(lock, mode, duration)
        }
    }

    /// Draws the number of a ticket that the session holds, or at times any number.
    pub(crate) fn draw_id(&mut self, plain: &Plain, who: u16) -> TicketId {
        let at = self.draw(6);
        if self.draw(8) == 0 {
            return u64::from(at);
        }
        match plain.held_at(who, usize::from(at)) {
            Some(number) => number,
            None => 1,
        }
    }

    /// Draws a session and the number of its wait, to kill it, or at times that of the wait before.
    pub(crate) fn draw_kill(&mut self, plain: &Plain) -> (u16, u64) {
        let target = self.draw(SESSIONS) + 1;
        let number = match plain.wait(target) {
            Some(wait) => wait.number,
            None => 1,
        };
        if self.draw(3) == 0 {
            (target, number.saturating_sub(1))
        } else {
            (target, number)
        }
    }

    /// Draws a number up to `most`, or at times one more.
    pub(crate) fn draw_up_to(&mut self, most: usize) -> usize {
        let some = usize::from(self.draw(8));
        if self.draw(16) == 0 {
            return most.wrapping_add(1);
        }
        some.min(most)
    }
}
