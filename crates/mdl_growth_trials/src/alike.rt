//! Comparison of lists of tickets.
use mdl_space::{Held, SpaceError};
use std::mem::drop;

/// The tickets that a session holds, or the error if memory ran out for the list.
pub(crate) type Tickets = Result<Vec<Held>, SpaceError>;

/// Whether there are two lists, and both have the same tickets.
pub(crate) fn are_alike(here: Tickets, there: Tickets) -> bool {
    let are_so = match (&here, &there) {
        (Ok(here), Ok(there)) => here == there,
        _ => false,
    };
    drop(here);
    drop(there);
    are_so
}
