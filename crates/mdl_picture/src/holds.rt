//! What sessions hold, as bars.
ghost use Rattle.std.specs.Prelude.{◌≡◌, ◌++◌, find, map, IfOk, OnOk};
ghost use Rattle.std.specs.List.{list_any};
ghost use Rattle.std.specs.Option.{option_copied, option_map};
ghost use Rattle.mdl_picture.specs.Bars.{place_of};
ghost use Rattle.mdl_picture.specs.Holds.{goes_on, has_lock, hold_from, holds_after, holds_from, holds_of, is_drawn, is_new, is_same, is_without, new_locks};

use crate::bars::place_of;
use crate::layout::{Column, EventBox};
use crate::moment::Held;
use std::alloc::{AllocError, Global};
use std::marker::Model;

/// The bar of a lock that a session holds.
#[derive(Drop)]
pub(crate) struct Hold<'a> {
    /// The lock.
    pub(crate) lock: &'a Held,
    /// The line at which the bar begins.
    pub(crate) line: u64,
    /// The x coordinate where it begins.
    pub(crate) x: u64,
    /// The column where the lock is released, if it is.
    pub(crate) released: Option<Column>,
}

impl<'a> Model for Hold<'a> {
    ghost use Rattle.mdl_picture.specs.Holds.{Hold};

    ghost Value = { Hold };

    ghost view = { λ hold. record {
      lock = hold.lock.now;
      line = hold.line;
      x = hold.x;
      released = hold.released;
    } };
}

/// Returns the bars of what is held after the events of these boxes.
pub(crate) fn holds_of<'b, 'a>(
    alloc: Global,
    boxes: &'b [EventBox<'a>],
) -> Result<Vec<Hold<'a>>, AllocError>
    ensures { IfOk result (λ holds. holds.items ≡ holds_of boxes.now) }
{
    let mut holds = Vec::new(alloc);
    let mut before: &[Held] = &[];
    for (place, drawn) in boxes.iter().enumerate() {
        let event = drawn.event;
        add_holds(&mut holds, before, drawn, &boxes[place + 1..])?;
        before = &event.held;
    }
    Ok(holds)
}

// Adds the bars that begin at a box, where these locks are held before.
fn add_holds<'b, 'a>(
    holds: &mut Vec<Hold<'a>>,
    before: &[Held],
    drawn: &'b EventBox<'a>,
    later: &'b [EventBox<'a>],
) -> Result<(), AllocError>
    ensures { OnOk result (holds.new.items ≡ holds.old.items ++ holds_from before.now drawn.now later.now) }
{
    let event = drawn.event;
    for (place, lock) in event.held.iter().enumerate() {
        if is_new(before, &event.held[place + 1..], lock) {
            holds.push(hold_from(drawn, later, lock))?;
        }
    }
    Ok(())
}

// Whether the bar of a lock begins, where these locks are held before, and these others are behind it in the list.
fn is_new(before: &[Held], others: &[Held], lock: &Held) -> bool
    ensures { result ≡ is_new before.now others.now lock.now }
{
    is_drawn(lock) && !(has_lock(before, lock) || has_lock(others, lock))
}

// Whether a lock has a bar: an intention lock has none.
fn is_drawn(lock: &Held) -> bool
    ensures { result ≡ is_drawn lock.now }
{
    lock.mode.as_slice() != b"IX".as_slice()
}

// Whether a lock is among others.
fn has_lock(locks: &[Held], lock: &Held) -> bool
    ensures { result ≡ has_lock locks.now lock.now }
{
    locks.iter().any(|other| is_same(lock, other))
}

// Whether two are one lock, held by one session in one mode.
fn is_same(one: &Held, other: &Held) -> bool
    ensures { result ≡ is_same one.now other.now }
{
    one.session == other.session
        && one.mode.as_slice() == other.mode.as_slice()
        && one.lock.as_slice() == other.lock.as_slice()
}

// The bar of a lock that begins at a box, before these later ones.
fn hold_from<'b, 'a>(drawn: &'b EventBox<'a>, later: &'b [EventBox<'a>], lock: &'a Held) -> Hold<'a>
    ensures { result ≡ hold_from drawn.now later.now lock.now }
{
    Hold {
        lock,
        line: drawn.line,
        x: drawn.x,
        released: first_without(later, lock).map(place_of),
    }
}

// The first box after whose event a lock isn't held.
fn first_without<'b, 'a>(boxes: &'b [EventBox<'a>], lock: &Held) -> Option<&'b EventBox<'a>>
    ensures { option_copied result ≡ find (is_without lock.now) boxes.now }
{
    boxes.iter().find(|drawn| is_without(drawn, lock))
}

// Whether a lock isn't held after the event of a box.
fn is_without(drawn: &EventBox<'_>, lock: &Held) -> bool
    ensures { result ≡ is_without lock.now drawn.now }
{
    let event = drawn.event;
    !has_lock(&event.held, lock)
}

/// Whether a bar isn't over at this x coordinate.
pub(crate) fn goes_on(x: u64, hold: &Hold<'_>) -> bool
    ensures { result ≡ goes_on x hold.now }
{
    match hold.released {
        Some(column) => x < column.x,
        None => true,
    }
}

/// Returns the session of a bar.
pub(crate) fn session_of(hold: &Hold<'_>) -> u16
    ensures { result ≡ hold.now.lock.session }
{
    let lock = hold.lock;
    lock.session
}
