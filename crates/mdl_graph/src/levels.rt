//! How many steps each session is from a given one. A step leads from a session to one that it waits for.
ghost use Rattle.std.specs.Prelude.{◌≡◌, ℕ, ◌<◌, ◌≤◌, ◌+◌, ◌||◌, ◌&&◌, ◌==◌, true, not, length, OnOk, IfOk};
ghost use Rattle.std.specs.List.{list_any};
ghost use Rattle.mdl_graph.specs.Searches.{IsOver, AreBelow, AreDone, AreRows, are_joined, holds, is_at, level_of, opened, next_of, stands_in, unreached, waits_by, waits_in, walk};

use crate::stands::Stands;
use crate::waits::Waits;
use std::alloc::{AllocError, Global};
use std::mem;

/// Returns how many steps a session is away, or 0 if it wasn't reached.
pub(crate) fn level_at(levels: &[usize], session: usize) -> usize
    ensures { result ≡ level_of levels.now session }
{
    match levels.get(session) {
        Some(level) => *level,
        None => 0,
    }
}

// Sets how many steps a session is away, unless it was reached before.
fn offer(
    levels: &mut Vec<usize>,
    reached: &mut Vec<usize>,
    session: usize,
    steps: usize,
) -> Result<(), AllocError>
    requires within { session < length levels.old.items }
    requires steps { 0 < steps }
    ensures len { length levels.new.items ≡ length levels.old.items }
    ensures levels { OnOk result ((other : ℕ) → level_of levels.new.items other ≡ opened steps (other == session) (level_of levels.old.items other)) }
    ensures reached { OnOk result ((other : ℕ) → stands_in reached.new.items other
        ≡ (stands_in reached.old.items other || ((level_of levels.old.items other == 0) && not (level_of levels.new.items other == 0)))) }
    ensures count { OnOk result (length reached.new.items + unreached levels.new.items ≡ length reached.old.items + unreached levels.old.items) }
{
    if levels[session] == 0 {
        levels[session] = steps;
        reached.push(session)?;
    }
    Ok(())
}

// Goes one step back from a session to the others that wait in a row.
fn reach(
    levels: &mut Vec<usize>,
    reached: &mut Vec<usize>,
    waits: &Waits<'_>,
    row: usize,
    next: usize,
    steps: usize,
) -> Result<(), AllocError>
    requires within { AreBelow (length levels.old.items) waits.now }
    requires steps { 0 < steps }
    ensures len { length levels.new.items ≡ length levels.old.items }
    ensures levels { OnOk result ((session : ℕ) → level_of levels.new.items session ≡ opened steps (waits_in waits.now row next session) (level_of levels.old.items session)) }
    ensures reached { OnOk result ((session : ℕ) → stands_in reached.new.items session
        ≡ (stands_in reached.old.items session || ((level_of levels.old.items session == 0) && not (level_of levels.new.items session == 0)))) }
    ensures count { OnOk result (length reached.new.items + unreached levels.new.items ≡ length reached.old.items + unreached levels.old.items) }
{
    for wait in waits.near(row) {
        let session = usize::from(wait.1);
        if wait.0 == row && session != next {
            offer(levels, reached, session, steps)?;
        }
    }
    Ok(())
}

// Goes one step back from a session to those that wait for it. A row whose waiters were all reached is skipped.
fn turn(
    levels: &mut Vec<usize>,
    reached: &mut Vec<usize>,
    done: &mut Vec<bool>,
    waits: &Waits<'_>,
    stands: &Stands<'_>,
    next: usize,
    steps: usize,
) -> Result<(), AllocError>
    requires within { AreBelow (length levels.old.items) waits.now }
    requires rows { AreBelow (length done.old.items) stands.now }
    requires done { AreDone done.old.items waits.now levels.old.items }
    requires steps { 0 < steps }
    ensures len { length levels.new.items ≡ length levels.old.items }
    ensures rows { length done.new.items ≡ length done.old.items }
    ensures done { OnOk result (AreDone done.new.items waits.now levels.new.items) }
    ensures levels { OnOk result ((session : ℕ) → level_of levels.new.items session ≡ opened steps (waits_by waits.now stands.now session next) (level_of levels.old.items session)) }
    ensures reached { OnOk result ((session : ℕ) → stands_in reached.new.items session
        ≡ (stands_in reached.old.items session || ((level_of levels.old.items session == 0) && not (level_of levels.new.items session == 0)))) }
    ensures count { OnOk result (length reached.new.items + unreached levels.new.items ≡ length reached.old.items + unreached levels.old.items) }
{
    let mut at = stands.last(next);
    while at > 0 {
        let row = stands.row(at - 1);
        at = stands.before(at - 1);
        if !done[row] {
            reach(levels, reached, waits, row, next, steps)?;
            done[row] = level_at(levels, next) != 0;
        }
    }
    Ok(())
}

// Goes one step back from some sessions.
fn spread(
    levels: &mut Vec<usize>,
    reached: &mut Vec<usize>,
    done: &mut Vec<bool>,
    waits: &Waits<'_>,
    stands: &Stands<'_>,
    front: &[usize],
    steps: usize,
) -> Result<(), AllocError>
    requires within { AreBelow (length levels.old.items) waits.now }
    requires rows { AreBelow (length done.old.items) stands.now }
    requires done { AreDone done.old.items waits.now levels.old.items }
    requires steps { 0 < steps }
    ensures len { length levels.new.items ≡ length levels.old.items }
    ensures rows { length done.new.items ≡ length done.old.items }
    ensures done { OnOk result (AreDone done.new.items waits.now levels.new.items) }
    ensures levels { OnOk result ((session : ℕ) → level_of levels.new.items session
        ≡ opened steps (list_any (waits_by waits.now stands.now session) front.now) (level_of levels.old.items session)) }
    ensures reached { OnOk result ((session : ℕ) → stands_in reached.new.items session
        ≡ (stands_in reached.old.items session || ((level_of levels.old.items session == 0) && not (level_of levels.new.items session == 0)))) }
    ensures count { OnOk result (length reached.new.items + unreached levels.new.items ≡ length reached.old.items + unreached levels.old.items) }
{
    for next in front {
        turn(levels, reached, done, waits, stands, *next, steps)?;
    }
    Ok(())
}

/// Returns how many steps each session is from one of them. The search ends once it is back at that session itself.
pub(crate) fn levels_back(
    alloc: Global,
    waits: &Waits<'_>,
    stands: &Stands<'_>,
    count: usize,
    rows: usize,
    from: usize,
) -> Result<Vec<usize>, AllocError>
    requires few { count ≤ 65536 }
    requires within { AreBelow count waits.now }
    requires rows { AreBelow rows stands.now }
    ensures over { IfOk result (λ levels. IsOver (waits_by waits.now stands.now) from levels.items) }
    ensures len { IfOk result (λ levels. length levels.items ≡ count) }
{
    let mut levels = vec![in alloc; 0; count]?;
    let mut done = vec![in alloc; false; rows]?;
    let mut front = vec![in alloc; from]?;
    let mut reached = Vec::with_capacity(alloc, count)?;
    let mut steps = 0;
    while !front.is_empty() && level_at(&levels, from) == 0 {
        steps += 1;
        spread(
            &mut levels,
            &mut reached,
            &mut done,
            waits,
            stands,
            &front,
            steps,
        )?;
        front.clear();
        mem::swap(&mut front, &mut reached);
    }
    Ok(levels)
}
