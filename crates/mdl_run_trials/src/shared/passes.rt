//! How many places and sessions a space may have.
use crate::checks::is_right;
use mdl_key::{MOST_PLACES, MOST_SESSIONS};
use mdl_shared::{Manager, NewError};
use std::alloc::Global;

const LIMITS: &[(u16, u16, Option<NewError>)] = &[
    (0, 0, Some(NewError::BadPlaces)),
    (MOST_PLACES + 1, 1, Some(NewError::BadPlaces)),
    (1, 0, Some(NewError::BadSessions)),
    (MOST_PLACES, MOST_SESSIONS + 1, Some(NewError::BadSessions)),
    (1, 1, None),
    (MOST_PLACES, MOST_SESSIONS, None),
];

// Returns why there can't be a space of these numbers of places and sessions, unless there can.
fn fault(alloc: Global, places: u16, sessions: u16) -> Option<NewError> {
    Manager::new(alloc, places, sessions).err()
}

#[test]
fn spaces_have_their_limits(rt: HostRuntime) {
    for (places, sessions, wanted) in LIMITS {
        let right = fault(rt.alloc(), *places, *sessions) == *wanted;
        is_right(&rt, "places", usize::from(*places), right);
    }
}
