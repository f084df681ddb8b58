//! Tests of books, as rows of calls.
mod fast_tickets;
mod filling;
mod granting;
mod numbers;
mod sessions;
mod steps;
mod wishes;

use crate::base::rows::are_told_so;
// Each call of each story gives the wanted answer.
#[test]
fn answers_step_by_step(rt: HostRuntime) {
    are_told_so(&rt, rt.alloc(), granting::LIVES);
    are_told_so(&rt, rt.alloc(), granting::LIVES_OF_WAITERS);
    are_told_so(&rt, rt.alloc(), numbers::LIVES);
    are_told_so(&rt, rt.alloc(), wishes::LIVES);
    are_told_so(&rt, rt.alloc(), fast_tickets::LIVES);
}
