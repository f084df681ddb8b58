//! A session waits for a latch: that of a place, or the directory's.
ghost use Rattle.std.specs.Prelude.{◌≡◌, length};
ghost use Rattle.mdl_visits.specs.Visits.{Arrives, MayVisit, TakesDirectory};

use mdl_steps::{Latched, LatchedDirectory, TableSeat};
use std::sync::Wait;
use std::thread;

/// Takes the latch of a place, and waits for it as long as another session holds it.
#[inline]
pub(crate) fn await_latch<R: Wait>(rt: &R, seat: &mut TableSeat, place: usize) -> Latched
    requires at { MayVisit place seat.old }
    ensures arrives { Arrives place seat.old result.place seat.new }
{
    match seat.take_latch(place) {
        Some(latch) => latch,
        None => await_taken_latch(rt, seat, place),
    }
}

// The same once the latch was found taken: another try comes after other threads had their turn. It is apart so that the first try is
// inlined alone.
#[inline(never)]
fn await_taken_latch<R: Wait>(rt: &R, seat: &mut TableSeat, place: usize) -> Latched
    requires at { MayVisit place seat.old }
    ensures arrives { Arrives place seat.old result.place seat.new }
{
    for _ in rt.forever() {
        thread::yield_now();
        if let Some(latch) = seat.take_latch(place) {
            return latch;
        }
    }
    unreachable!()
}

/// Takes the directory's latch, and waits for it as long as another session holds it.
pub(crate) fn await_directory<R: Wait>(rt: &R, seat: &mut TableSeat) -> LatchedDirectory
    requires first { length seat.old.me.0.latches ≡ 0 }
    ensures taken { TakesDirectory seat.old seat.new }
{
    for _ in rt.forever() {
        if let Some(latch) = seat.take_directory() {
            return latch;
        }
        thread::yield_now();
    }
    unreachable!()
}
