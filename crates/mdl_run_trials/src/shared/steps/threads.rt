//! Two sessions on two threads.
ghost use Rattle.std.specs.Prelude.{◌≡◌, []};
ghost use Rattle.mdl_steps.specs.Seats.{IsPlace};

use crate::shared::steps::visits::visit;
use mdl_steps::{Maker, TableSeat};
use std::sync::Arc;
use std::test::Fail;
use std::thread;

// Whether a session found no ticket at a place each time that it got the latch, in `visits` visits.
fn saw_nobody(mut seat: TableSeat, place: usize, visits: u32) -> bool
    requires place { IsPlace seat.table place }
    requires idle { seat.me.0.latches ≡ [] }
{
    let mut nobody = true;
    for _ in 0..visits {
        nobody = visit(&mut seat, place) != Some(false) && nobody;
    }
    nobody
}

// Flags that one session raises under the latch are down again before the other gets the latch.
#[test]
fn two_threads_take_one_latch(rt: HostRuntime) -> Result<(), Fail> {
    let (table, mut maker) = Maker::of_places(rt.alloc(), 1, 2)?;
    let Ok(table) = Arc::new(rt.alloc(), table) else {
        panic!(rt; "there is memory to share the table");
    };
    let Ok(for_one) = Arc::try_clone(&table) else {
        panic!(rt; "there may be another owner");
    };
    let Ok(for_two) = Arc::try_clone(&table) else {
        panic!(rt; "there may be a third owner");
    };
    let one = maker.enrol(for_one);
    let two = maker.enrol(for_two);
    let (Some(one), Some(two)) = (one, two) else {
        panic!(rt; "there is room for two");
    };
    drop(table);
    drop(maker);
    let (first, second) = thread::join(
        &rt,
        move || saw_nobody(one, 1, 20_000),
        move || saw_nobody(two, 1, 20_000),
    );
    assert!(rt; first && second);
    Ok(())
}
