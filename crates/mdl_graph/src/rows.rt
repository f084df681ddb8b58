//! Which sessions wait at a lock, and which block them: a row for each mode that is requested there.
ghost use Rattle.std.specs.Prelude.{◌≡◌, ℕ, ◌≤◌, ◌<◌, true, false, ◌||◌, ◌&&◌, ◌==◌, ◌++◌, length, take, OnOk, IfOk, MatchOption, slice_index};
ghost use Rattle.std.specs.FinSet as set;
ghost use Rattle.std.specs.List.{list_any};
ghost use Rattle.mdl_key.specs.Modes.{mode_rank};
ghost use Rattle.mdl_graph.specs.WaitsFor.{holds_against, waits_ahead, waits_at, wishes_at};
ghost use Rattle.mdl_graph.specs.Searches.{holds, are_joined, AreRows, AreOfModes, stands_against};

use crate::Member;
use crate::lists::Lists;
use mdl_book::Sessions;
use mdl_key::{Mode, conflicts_granted, conflicts_waiting, weight};
use std::alloc::AllocError;

// What a graph has room for, once a session waits.
const ROOM: usize = 64;

/// Makes room for many locks before the first one is added, so that the first few don't take memory one by one.
pub(crate) fn make_room(
    wishes: &mut Vec<Member>,
    ranks: &mut Vec<usize>,
    waits: &mut Vec<(usize, u16)>,
    stands: &mut Vec<(u16, usize)>,
) -> Result<(), AllocError>
    ensures wishes { wishes.new.items ≡ wishes.old.items }
    ensures ranks { ranks.new.items ≡ ranks.old.items }
    ensures waits { waits.new.items ≡ waits.old.items }
    ensures stands { stands.new.items ≡ stands.old.items }
{
    if wishes.is_empty() {
        wishes.reserve(ROOM)?;
        ranks.reserve(ROOM)?;
        waits.reserve(ROOM)?;
        stands.reserve(ROOM)?;
    }
    Ok(())
}

/// Whether a session waits in some row.
pub(crate) fn waits_in_some(waits: &[(usize, u16)], session: u16) -> bool
    ensures { result ≡ list_any (λ wait. wait.1 == session) waits.now }
{
    waits.iter().any(|wait| wait.1 == session)
}

/// Whether a session blocks some row.
pub(crate) fn stands_in_some(stands: &[(u16, usize)], session: u16) -> bool
    ensures { result ≡ list_any (λ stand. stand.0 == session) stands.now }
{
    stands.iter().any(|stand| stand.0 == session)
}

/// Adds the requests of the unsettled sessions that wait at a lock, and their rows, at the end. Such a request is a wish here.
pub(crate) fn add_waiters(
    wishes: &mut Vec<Member>,
    ranks: &mut Vec<usize>,
    waits: &mut Vec<(usize, u16)>,
    stands: &mut Vec<(u16, usize)>,
    settled: &Sessions,
    book: &Lists,
) -> Result<(), AllocError>
    requires known { (row session : ℕ) → length ranks.old.items ≤ row → holds waits.old.items row session ≡ false }
    requires fresh { (row session : ℕ) → length ranks.old.items ≤ row → holds stands.old.items session row ≡ false }
    ensures wishes_kept { take (length wishes.old.items) wishes.new.items ≡ wishes.old.items }
    ensures ranks_kept { take (length ranks.old.items) ranks.new.items ≡ ranks.old.items }
    ensures waits_kept { take (length waits.old.items) waits.new.items ≡ waits.old.items }
    ensures stands_kept { take (length stands.old.items) stands.new.items ≡ stands.old.items }
    ensures known { OnOk result ((row session : ℕ) → length ranks.new.items ≤ row → holds waits.new.items row session ≡ false) }
    ensures fresh { OnOk result ((row session : ℕ) → length ranks.new.items ≤ row → holds stands.new.items session row ≡ false) }
    ensures wishes { OnOk result (wishes.new.items ≡ wishes.old.items ++ wishes_at (set.contains settled.now) book.now) }
    ensures ties { OnOk result ((waiter other : ℕ) → are_joined waits.new.items stands.new.items waiter other
        ≡ (are_joined waits.old.items stands.old.items waiter other || waits_at (set.contains settled.now) book.now waiter other)) }
{
    let namespace = book.namespace();
    let first = ranks.len();
    for ticket in book.waiting() {
        if !settled.contains(ticket.session) {
            let row = row_of(ranks, stands, first, settled, book, ticket.mode)?;
            wishes.push(Member {
                session: ticket.session,
                weight: weight(namespace, ticket.mode),
            })?;
            waits.push((row, ticket.session))?;
        }
    }
    Ok(())
}

// Returns the row of a requested mode, and makes it if there is none.
fn row_of(
    ranks: &mut Vec<usize>,
    stands: &mut Vec<(u16, usize)>,
    first: usize,
    settled: &Sessions,
    book: &Lists,
    mode: Mode,
) -> Result<usize, AllocError>
    requires begun { first ≤ length ranks.old.items }
    requires fresh { (row session : ℕ) → length ranks.old.items ≤ row → holds stands.old.items session row ≡ false }
    requires modes { AreOfModes (set.contains settled.now) book.now first ranks.old.items stands.old.items }
    ensures ranks_len { length ranks.old.items ≤ length ranks.new.items }
    ensures stands_len { length stands.old.items ≤ length stands.new.items }
    ensures ranks_kept { take (length ranks.old.items) ranks.new.items ≡ ranks.old.items }
    ensures stands_kept { take (length stands.old.items) stands.new.items ≡ stands.old.items }
    ensures fresh { OnOk result ((row session : ℕ) → length ranks.new.items ≤ row → holds stands.new.items session row ≡ false) }
    ensures modes { OnOk result (AreOfModes (set.contains settled.now) book.now first ranks.new.items stands.new.items) }
    ensures same { OnOk result ((row session : ℕ) → row < length ranks.old.items → holds stands.new.items session row ≡ holds stands.old.items session row) }
    ensures known { IfOk result (λ row. row < length ranks.new.items) }
    ensures row { IfOk result (λ row. (session : ℕ) → holds stands.new.items session row ≡ stands_against (set.contains settled.now) book.now mode session) }
{
    if let Some(row) = known_row(ranks, first, mode) {
        return Ok(row);
    }
    let row = ranks.len();
    stand_holders(stands, book, mode, row)?;
    stand_waiters(stands, settled, book, mode, row)?;
    ranks.push(mode as usize)?;
    Ok(row)
}

// Returns the row of a mode, from the first one on, if there is one.
fn known_row(ranks: &[usize], first: usize, mode: Mode) -> Option<usize>
    ensures { MatchOption result (Unit {0}) (λ row. (first ≤ row) × (row < length ranks.now) × (mode_rank mode ≡ slice_index ranks.now row)) }
{
    for row in first..ranks.len() {
        if ranks[row] == mode as usize {
            return Some(row);
        }
    }
    None
}

// Adds which sessions block a mode's row by a granted ticket: it clashes with a request for the mode.
fn stand_holders(
    stands: &mut Vec<(u16, usize)>,
    book: &Lists,
    mode: Mode,
    row: usize,
) -> Result<(), AllocError>
    ensures len { length stands.old.items ≤ length stands.new.items }
    ensures kept { take (length stands.old.items) stands.new.items ≡ stands.old.items }
    ensures stands { OnOk result ((session one : ℕ) → holds stands.new.items session one
        ≡ (holds stands.old.items session one || (row == one && holds_against book.now mode session))) }
{
    let kind = book.namespace().kind();
    for held in book.granted() {
        if conflicts_granted(kind, mode, held.mode) {
            stand_once(stands, held.session, row)?;
        }
    }
    Ok(())
}

// Adds which unsettled sessions block a mode's row by a waiting ticket: a request for the mode waits behind it.
fn stand_waiters(
    stands: &mut Vec<(u16, usize)>,
    settled: &Sessions,
    book: &Lists,
    mode: Mode,
    row: usize,
) -> Result<(), AllocError>
    ensures len { length stands.old.items ≤ length stands.new.items }
    ensures kept { take (length stands.old.items) stands.new.items ≡ stands.old.items }
    ensures stands { OnOk result ((session one : ℕ) → holds stands.new.items session one
        ≡ (holds stands.old.items session one || (row == one && waits_ahead (set.contains settled.now) book.now mode session))) }
{
    let kind = book.namespace().kind();
    for pending in book.waiting() {
        if !settled.contains(pending.session) && conflicts_waiting(kind, mode, pending.mode) {
            stand_once(stands, pending.session, row)?;
        }
    }
    Ok(())
}

// Adds that a session blocks a row, unless the last pair says that: of tickets of one session that follow each other, one is added.
fn stand_once(stands: &mut Vec<(u16, usize)>, session: u16, row: usize) -> Result<(), AllocError>
    ensures len { length stands.old.items ≤ length stands.new.items }
    ensures kept { take (length stands.old.items) stands.new.items ≡ stands.old.items }
    ensures stands { OnOk result ((other one : ℕ) → holds stands.new.items other one
        ≡ (holds stands.old.items other one || (session == other && row == one))) }
{
    let count = stands.len();
    if count > 0 && stands[count - 1].0 == session && stands[count - 1].1 == row {
        return Ok(());
    }
    stands.push((session, row))?;
    Ok(())
}
