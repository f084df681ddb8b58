//! Requests that stay once more sessions are settled.
ghost use Rattle.std.specs.Prelude.{◌≡◌, filter, IfOk};
ghost use Rattle.std.specs.FinSet as set;
ghost use Rattle.mdl_graph.specs.WaitsFor.{is_unsettled};

use crate::Member;
use mdl_book::Sessions;
use std::alloc::{AllocError, Global};

/// Returns the requests of the other sessions than these.
pub(crate) fn unsettled_wishes(
    alloc: Global,
    wishes: &[Member],
    settled: &Sessions,
) -> Result<Vec<Member>, AllocError>
    ensures { IfOk result (λ left. left.items ≡ filter (λ wish. is_unsettled (set.contains settled.now) wish.session) wishes.now) }
{
    let mut left = Vec::new(alloc);
    left.extend_from_slice(wishes)?;
    left.retain(|wish| !settled.contains(wish.session));
    Ok(left)
}

/// Returns the pairs of a row and a waiting session, for the other sessions than these.
pub(crate) fn unsettled_waits(
    alloc: Global,
    waits: &[(usize, u16)],
    settled: &Sessions,
) -> Result<Vec<(usize, u16)>, AllocError>
    ensures { IfOk result (λ left. left.items ≡ filter (λ wait. is_unsettled (set.contains settled.now) wait.1) waits.now) }
{
    let mut left = Vec::new(alloc);
    left.extend_from_slice(waits)?;
    left.retain(|wait| !settled.contains(wait.1));
    Ok(left)
}
