//! Sums and products. If one overflows, the picture wouldn't fit into memory either.
ghost use Rattle.std.specs.Prelude.{◌≡◌, ◌+◌, ◌*◌, IfOk};

use std::alloc::AllocError;

/// Returns a sum, or fails if it overflows.
pub(crate) fn sum(left: u64, right: u64) -> Result<u64, AllocError>
    ensures { IfOk result (λ total. total ≡ left + right) }
{
    left.checked_add(right).ok_or(AllocError)
}

/// Returns a product, or fails if it overflows.
pub(crate) fn product(left: u64, right: u64) -> Result<u64, AllocError>
    ensures { IfOk result (λ total. total ≡ left * right) }
{
    left.checked_mul(right).ok_or(AllocError)
}
