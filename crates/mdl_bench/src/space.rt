//! A session of a space of one thread takes locks and releases them.
ghost use Rattle.std.specs.Prelude.{ℕ};

use crate::failure::Failure;
use crate::lap::spent_since;
use crate::table::table;
use mdl_calls::{Attempt, LockSpace, Place};
use mdl_key::{MOST_PLACES, MOST_SESSIONS, Mode};
use mdl_space::CoreSpace;
use std::alloc::Global;
use std::time::{Clock, Duration, Instant};

/// Times `turns` turns, each at the next place. The session and another one hold `tickets` tickets each.
pub fn time_taking<R: Clock>(
    rt: &R,
    alloc: Global,
    tickets: u16,
    turns: u32,
) -> Result<Duration, Failure> {
    let Ok(mut space) = CoreSpace::new(alloc, MOST_PLACES, MOST_SESSIONS) else {
        return Err(Failure::Unmade);
    };
    let spent = timed(rt, alloc, &mut space, tickets, turns);
    drop(space);
    spent
}

// The same in a space where no session has anything yet.
fn timed<R: Clock, S: LockSpace>(
    rt: &R,
    alloc: Global,
    space: &mut S,
    tickets: u16,
    turns: u32,
) -> Result<Duration, Failure>
    requires first { S.speaks_for space.old 1 }
    requires second { S.speaks_for space.old 2 }
{
    name_places(alloc, space, 1)?;
    name_places(alloc, space, 2)?;
    hold(space, 1, tickets)?;
    hold(space, 2, tickets)?;
    let began = Instant::now(rt)?;
    let made = take_often(space, turns);
    spent_since(rt, began, made, turns)
}

// Looks up the key of a table for each place, which a session pins.
fn name_places<S: LockSpace>(alloc: Global, space: &mut S, who: u16) -> Result<(), Failure>
    requires { S.speaks_for space.old who }
    ensures { (w : ℕ) → S.speaks_for space.old w → S.speaks_for space.new w }
{
    for index in 0..MOST_PLACES {
        let key = table(alloc, index)?;
        let is_pinned = space.resolve(who, &key).is_ok();
        drop(key);
        if !is_pinned {
            return Err(Failure::Refused);
        }
    }
    Ok(())
}

// Takes `tickets` tickets for a session, spread over the places.
fn hold<S: LockSpace>(space: &mut S, who: u16, tickets: u16) -> Result<(), Failure>
    requires { S.speaks_for space.old who }
    ensures { (w : ℕ) → S.speaks_for space.old w → S.speaks_for space.new w }
{
    for index in 0..tickets {
        match space.try_now(who, index % MOST_PLACES + 1, Mode::SR) {
            Ok(Attempt::Granted(_)) => {}
            _ => return Err(Failure::Unexpected),
        }
    }
    Ok(())
}

// The first session takes and releases a lock, each time at the next place. Returns how often that succeeded.
fn take_often<S: LockSpace>(space: &mut S, turns: u32) -> u32
    requires { S.speaks_for space.old 1 }
{
    let mut taken = 0u32;
    for turn in 0..turns {
        if takes(space, (turn % 256) as u16 + 1) {
            taken = taken.wrapping_add(1);
        }
    }
    taken
}

// Takes a lock and releases it. Whether both succeeded.
fn takes<S: LockSpace>(space: &mut S, place: Place) -> bool
    requires { S.speaks_for space.old 1 }
    ensures { S.speaks_for space.new 1 }
{
    match space.try_now(1, place, Mode::SR) {
        Ok(Attempt::Granted(id)) => space.release(1, id).is_ok(),
        _ => false,
    }
}
