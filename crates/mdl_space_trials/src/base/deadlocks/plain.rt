//! Finds the chosen cycle by trying every path, to compare the search with. It is meant for a few sessions.
ghost use Rattle.std.specs.Prelude.{◌≡◌, ◌<◌, ◌++◌, [], ◌∷◌, length, IfOk};
ghost use Rattle.std.specs.Option.{option_map};
ghost use Rattle.mdl_graph.specs.Cycles.{in_order, is_chosen_before, chosen_cycle};
ghost use Rattle.mdl_space_trials.specs.base.deadlocks.Ways.{waits_by, search_of, better_of, IsWay, IsChosenOf};

use std::alloc::{AllocError, Global};

/// Returns the chosen cycle through a session, among these sessions. Each pair says that its first session waits for its second.
pub fn plain_cycle(
    alloc: Global,
    ties: &[(u16, u16)],
    sessions: &[u16],
    from: u16,
) -> Result<Option<Vec<u16>>, AllocError>
    ensures { IfOk result (λ found. option_map (λ cycle. cycle.items) found ≡ chosen_cycle (waits_by ties.now) sessions.now from) }
{
    if !sessions.contains(&from) {
        return Ok(None);
    }
    let Some(mut way) = plain_way(alloc, ties, sessions, &[from], from, sessions.len())? else {
        return Ok(None);
    };
    way.insert(0, from)?;
    Ok(Some(way))
}

// Returns the chosen way from the last session of a path back to its first one, over at most `most` other sessions.
fn plain_way(
    alloc: Global,
    ties: &[(u16, u16)],
    sessions: &[u16],
    path: &[u16],
    last: u16,
    most: usize,
) -> Result<Option<Vec<u16>>, AllocError>
    requires { 0 < length path.now }
    ensures { IfOk result (λ found. IsChosenOf (IsWay (search_of ties.now sessions.now path.now) path.now last most) (option_map (λ way. way.items) found)) }
{
    if waits(ties, last, path[0]) {
        return Ok(Some(Vec::new(alloc)));
    }
    let mut best = None;
    if most == 0 {
        return Ok(best);
    }
    for &next in sessions {
        if waits(ties, last, next) && !path.contains(&next) {
            let longer = with(alloc, path, next)?;
            let way = plain_way(alloc, ties, sessions, &longer, next, most - 1)?;
            best = better(best, next, way)?;
        }
    }
    Ok(best)
}

// Whether one session waits for another.
fn waits(ties: &[(u16, u16)], waiter: u16, other: u16) -> bool
    ensures { result ≡ waits_by ties.now waiter other }
{
    ties.iter().any(|&(one, two)| one == waiter && two == other)
}

// Returns the path with one more session at the end.
fn with(alloc: Global, path: &[u16], next: u16) -> Result<Vec<u16>, AllocError>
    ensures { IfOk result (λ longer. longer.items ≡ path.now ++ next ∷ []) }
{
    let mut longer = path.to_vec(alloc)?;
    longer.push(next)?;
    Ok(longer)
}

// Returns the chosen one of the best way so far and of a way that begins with the session `next`.
fn better(
    best: Option<Vec<u16>>,
    next: u16,
    way: Option<Vec<u16>>,
) -> Result<Option<Vec<u16>>, AllocError>
    ensures { IfOk result (λ found. option_map (λ list. list.items) found
        ≡ better_of (option_map (λ list. list.items) best) next (option_map (λ list. list.items) way)) }
{
    let Some(mut way) = way else {
        return Ok(best);
    };
    way.insert(0, next)?;
    match best {
        Some(best) if !is_before(&way, &best) => Ok(Some(best)),
        _ => Ok(Some(way)),
    }
}

// Whether a list is chosen before another one, or is equal to it.
fn is_before(one: &[u16], other: &[u16]) -> bool
    ensures { result ≡ is_chosen_before one.now other.now }
{
    one.len() < other.len() || (one.len() == other.len() && is_in_order(one, other))
}

// Whether a list comes before another one in lexicographic order, or is equal to it.
fn is_in_order(one: &[u16], other: &[u16]) -> bool
    ensures { result ≡ in_order one.now other.now }
{
    let [x, xs @ ..] = one else {
        return true;
    };
    let [y, ys @ ..] = other else {
        return false;
    };
    x < y || (x == y && is_in_order(xs, ys))
}
