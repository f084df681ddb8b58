//! The places of keys.
ghost use Rattle.std.specs.Prelude.{◌≡◌, IfOk, OnOk, OnErr};
ghost use Rattle.mdl_steps.specs.declared.view.Keys.{Keys};
ghost use Rattle.mdl_steps.specs.SeatStates.{AtItsTable};
ghost use Rattle.mdl_steps.specs.Seats.{HasDirectory};
ghost use Rattle.mdl_visits.specs.Idle.{HoldsNoLatch};
ghost use Rattle.mdl_visits.specs.Lookups.{HasLooked, HasNamed, HoldsKeys, IsLookupAnswer, IsNext, LearnsKeyPlace, TookDirectory};
ghost use Rattle.mdl_visits.specs.Visits.{MakesSteps};

use crate::latches::{await_directory, await_latch};
use crate::resolve_error::ResolveError;
use mdl_key::Key;
use mdl_steps::{LatchedDirectory, TableSeat};
use std::alloc::{AllocError, Global};
use std::sync::Wait;

/// Returns the place of a key, which never changes: the one that it has, or otherwise the next one, which no other key had before. The
/// session knows it from then on.
pub fn resolve<R: Wait>(
    rt: &R,
    seat: &mut TableSeat,
    alloc: Global,
    key: &Key,
) -> Result<usize, ResolveError>
    requires idle { HoldsNoLatch seat.old.me }
    ensures idle { HoldsNoLatch seat.new.me }
    ensures known { IfOk result (λ place. LearnsKeyPlace key.now place seat.old seat.new) }
    ensures refused { OnErr result (MakesSteps seat.old.me seat.new.me) }
    ensures answer { (k left : Keys) × AtItsTable seat.old seat.new (TookDirectory seat.old.table.slots k left) × IsLookupAnswer seat.old.table.slots key.now k left result }
{
    let directory = await_directory(rt, seat);
    match place_for(rt, seat, &directory, alloc, key) {
        Ok(place) => {
            seat.put_directory(directory, place);
            Ok(place)
        }
        Err(cause) => {
            seat.put_directory(directory, 0);
            Err(cause)
        }
    }
}

// The place of a key by the directory in hand. A new key gets the next one.
fn place_for<R: Wait>(
    rt: &R,
    seat: &mut TableSeat,
    directory: &LatchedDirectory,
    alloc: Global,
    key: &Key,
) -> Result<usize, ResolveError>
    requires held { (k : Keys) × HoldsKeys k seat.old }
    ensures looked { (k : Keys) → HasDirectory k seat.old.me → AtItsTable seat.old seat.new (HasLooked seat.old.table.slots key.now k result) }
    ensures refused { OnErr result (seat.new ≡ seat.old) }
{
    if let Some(place) = seat.place_of(directory, key) {
        return Ok(place);
    }
    let slots = seat.slot_count();
    let place = seat.key_count(directory) + 1;
    if place >= slots {
        return Err(ResolveError::NoPlace);
    }
    match name_key(rt, seat, directory, alloc, key, place) {
        Ok(()) => Ok(place),
        Err(AllocError) => Err(ResolveError::OutOfMemory),
    }
}

// Gives the next place to a key that has none. All that takes memory is done before another latch is taken.
fn name_key<R: Wait>(
    rt: &R,
    seat: &mut TableSeat,
    directory: &LatchedDirectory,
    alloc: Global,
    key: &Key,
    place: usize,
) -> Result<(), AllocError>
    requires new { (k : Keys) × IsNext place key.now k seat.old }
    ensures named { OnOk result ((k : Keys) → HasDirectory k seat.old.me → AtItsTable seat.old seat.new (HasNamed key.now k)) }
    ensures unchanged { OnErr result (seat.new ≡ seat.old) }
{
    let listed = key.clone()?;
    let named = key.clone()?;
    seat.list_key(directory, listed)?;
    let latch = await_latch(rt, seat, place);
    seat.name_book(&latch, alloc, named);
    seat.put_latch_naming(latch, directory);
    Ok(())
}
