//! What the sessions' requests weigh.
ghost use Rattle.std.specs.Prelude.{◌≡◌, ℕ, ◌<◌, ◌==◌, length, find, slice_index, IfOk};
ghost use Rattle.mdl_graph.specs.Graphs.{weight_found};

use crate::Member;
use std::alloc::{AllocError, Global};

/// Returns the weight of the first request of each session below `count`, or 0 if it has none.
pub(crate) fn weights_of(
    alloc: Global,
    wishes: &[Member],
    count: usize,
) -> Result<Vec<u8>, AllocError>
    ensures len { IfOk result (λ weights. length weights.items ≡ count) }
    ensures weights { IfOk result (λ weights. (session : ℕ) → session < count
        → slice_index weights.items session ≡ weight_found (find (λ wish. wish.session == session) wishes.now)) }
{
    let mut weights = vec![in alloc; 0; count]?;
    for index in (0..wishes.len()).rev() {
        let wish = wishes[index];
        if let Some(weight) = weights.get_mut(usize::from(wish.session)) {
            *weight = wish.weight;
        }
    }
    Ok(weights)
}
