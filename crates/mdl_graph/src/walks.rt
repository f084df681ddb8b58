//! The path back to a session, found by how many steps the others are from it.
ghost use Rattle.std.specs.Prelude.{◌≡◌, ℕ, ◌<◌, ◌≤◌, ◌⊎◌, ◌||◌, ◌&&◌, ◌==◌, not, length, map, find, IfOk};
ghost use Rattle.std.specs.List.{list_any};
ghost use Rattle.mdl_graph.specs.Graphs.{member_of};
ghost use Rattle.mdl_graph.specs.Searches.{level_of, next_of, waits_by, waits_in, walk};

use crate::Member;
use crate::level_links::LevelLinks;
use crate::stands::Stands;
use crate::waits::Waits;
use crate::weights::weights_of;
use std::alloc::{AllocError, Global};

// Whether one session waits for another, found by the rows that the other one blocks.
fn waits_for(waits: &Waits<'_>, stands: &Stands<'_>, waiter: usize, other: usize) -> bool
    ensures { result ≡ waits_by waits.now stands.now waiter other }
{
    let mut at = stands.last(other);
    while at > 0 {
        let row = stands.row(at - 1);
        if waiter != other && waits.has(row, waiter) {
            return true;
        }
        at = stands.before(at - 1);
    }
    false
}

// Returns the least session that a session waits for, of those `steps` steps away from the start of the search. It is the
// session itself if there is none.
fn next_of(
    links: &LevelLinks<'_>,
    waits: &Waits<'_>,
    stands: &Stands<'_>,
    steps: usize,
    session: usize,
) -> usize
    requires some { 0 < steps }
    requires near { steps < links.now.1 }
    ensures value { (from : ℕ) → result ≡ next_of (waits_by waits.now stands.now) from links.now.0 steps session }
    ensures within { (result < length links.now.0) ⊎ (result ≡ session) }
{
    let mut at = links.first(steps);
    while at > 0 {
        if waits_for(waits, stands, session, at - 1) {
            return at - 1;
        }
        at = links.after(at - 1);
    }
    session
}

/// Returns the path of `steps` steps from a session back to itself, without its end. Each member has the weight of its request.
pub(crate) fn walk(
    alloc: Global,
    levels: &[usize],
    waits: &Waits<'_>,
    stands: &Stands<'_>,
    wishes: &[Member],
    from: u16,
    steps: usize,
) -> Result<Vec<Member>, AllocError>
    requires { length levels.now ≤ 65536 }
    ensures { IfOk result (λ members. members.items ≡ map (member_of wishes.now) (walk (waits_by waits.now stands.now) from levels.now steps from)) }
{
    let mut session = usize::from(from);
    let weights = weights_of(alloc, wishes, levels.len().max(session + 1))?;
    let links = LevelLinks::new(alloc, levels, steps)?;
    let mut members = Vec::with_capacity(alloc, steps)?;
    for step in 0..steps {
        members.push(Member {
            session: session as u16,
            weight: weights[session],
        })?;
        if step + 1 < steps {
            session = next_of(&links, waits, stands, steps - 1 - step, session);
        }
    }
    Ok(members)
}
