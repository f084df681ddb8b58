//! Readers and writers for tests: they move a few bytes at a call, and slip at most once.
ghost use Rattle.std.specs.Prelude.{◌≡◌, ◌≤◌, IfOk};

use std::alloc::Global;
use std::io;
use std::io::{ErrorKind, Read, Write};

/// What a call does in place of its work when the device slips.
#[derive(Clone, Copy)]
pub(crate) enum Slip {
    /// The call fails with an error of this kind.
    Fails(ErrorKind),
    /// The call reports that it moved no byte.
    MovesNothing,
}

impl Slip {
    fn answer(self) -> io::Result<usize>
        ensures { IfOk result (λ count. count ≡ 0) }
    {
        match self {
            Slip::Fails(kind) => Err(io::Error::from(kind)),
            Slip::MovesNothing => Ok(0),
        }
    }
}

/// How many bytes a device moves at a call at most, and when it slips.
#[derive(Clone, Copy)]
pub(crate) struct Habit {
    step: usize,
    // The bytes left until the slip, and the slip.
    slip: Option<(usize, Slip)>,
}

/// Moves at most 7 bytes at a call, and never slips.
pub(crate) const SOUND: Habit = Habit {
    step: 7,
    slip: None,
};

/// Fails at the first call.
pub(crate) const GONE: Habit = Habit {
    step: 7,
    slip: Some((0, Slip::Fails(ErrorKind::BrokenPipe))),
};

impl Habit {
    /// Moves at most `step` bytes at a call, and never slips.
    pub(crate) fn steps_of(step: usize) -> Habit {
        Habit { step, slip: None }
    }

    /// The same habit with one slip after `bytes` bytes.
    pub(crate) fn slips_after(self, bytes: usize, slip: Slip) -> Habit {
        Habit {
            step: self.step,
            slip: Some((bytes, slip)),
        }
    }

    // Returns how many of these bytes the next call moves, or its slip.
    fn next(&mut self, bytes: usize) -> Result<usize, Slip>
        ensures { IfOk result (λ count. count ≤ bytes) }
    {
        let count = bytes.min(self.step);
        let Some((left, slip)) = self.slip else {
            return Ok(count);
        };
        if left == 0 {
            self.slip = None;
            return Err(slip);
        }
        let count = count.min(left);
        self.slip = Some((left - count, slip));
        Ok(count)
    }
}

/// A reader of a text, with a habit.
#[derive(Drop)]
pub(crate) struct Source<'a> {
    text: &'a [u8],
    habit: Habit,
}

impl<'a> Source<'a> {
    pub(crate) fn new(text: &'a [u8], habit: Habit) -> Source<'a> {
        Source { text, habit }
    }
}

impl Read for Source<'_> {
    fn read(&mut self, buf: &mut [u8]) -> io::Result<usize> {
        match self.habit.next(buf.len().min(self.text.len())) {
            Ok(count) => {
                let (given, rest) = self.text.split_at(count);
                buf[..count].copy_from_slice(given);
                self.text = rest;
                Ok(count)
            }
            Err(slip) => slip.answer(),
        }
    }
}

/// A writer that keeps the bytes it has taken.
#[derive(Drop)]
pub(crate) struct Target {
    pub(crate) taken: Vec<u8>,
    habit: Habit,
}

impl Target {
    pub(crate) fn new(alloc: Global, habit: Habit) -> Target {
        Target {
            taken: Vec::new(alloc),
            habit,
        }
    }
}

impl Write for Target {
    fn write(&mut self, buf: &[u8]) -> io::Result<usize> {
        match self.habit.next(buf.len()) {
            Ok(count) => match self.taken.extend_from_slice(&buf[..count]) {
                Ok(()) => Ok(count),
                Err(_) => Err(io::Error::from(ErrorKind::OutOfMemory)),
            },
            Err(slip) => slip.answer(),
        }
    }

    fn flush(&mut self) -> io::Result<()> {
        Ok(())
    }
}
