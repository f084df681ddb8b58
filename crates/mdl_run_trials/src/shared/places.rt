//! The most keys that a space has places for: each gets its place, is known there, and is locked.
use crate::shared::acts::{Act, Lock, Memory, Reply, make};
use crate::shared::rows::{Row, Three, open_three};
use mdl_calls::{SpaceError, TicketId};
use mdl_key::Mode;
use mdl_shared::Session;
use std::alloc::Global;
use std::sync::Wait;
use std::test::Fail;

// How many places there are.
const PLACES: u16 = 256;

// Returns the first table whose place isn't its number, or has another key, if there is one.
fn first_elsewhere<R: Wait>(alloc: Global, session: &mut Session<R>) -> Option<u16> {
    for number in 1..=PLACES {
        let lock = Lock::Numbered(number);
        if make(alloc, session, Act::Resolve(lock)) != Reply::Place(number)
            || make(alloc, session, Act::Names(number, lock)) != Reply::Is(true)
        {
            return Some(number);
        }
    }
    None
}

// Returns the first place whose lock the session doesn't get with a ticket that has the place's number, if there is one.
fn first_not_taken<R: Wait>(alloc: Global, session: &mut Session<R>) -> Option<u16> {
    for place in 1..=PLACES {
        let granted = Reply::Granted(TicketId::from(place));
        if make(alloc, session, Act::Try(place, Mode::S)) != granted {
            return Some(place);
        }
    }
    None
}

// Releases the ticket of every second place, from the first one on. Returns how many releases succeeded.
fn released<R: Wait>(alloc: Global, session: &mut Session<R>) -> u16 {
    let mut right = 0u16;
    for step in 0..PLACES / 2 {
        let id = 2 * TicketId::from(step) + 1;
        let gone = make(alloc, session, Act::Release(id)) == Reply::Done;
        right = right.wrapping_add(u16::from(gone));
    }
    right
}

const NO_PLACE: Reply = Reply::Refused(SpaceError::NoPlace);

// One more key gets no place. There is none before the first place and after the last one. Half of the tickets are left.
const OUTSIDE: &[Row] = &[
    (1, Act::Resolve(Lock::Numbered(PLACES + 1)), NO_PLACE),
    (1, Act::Names(0, Lock::Numbered(1)), NO_PLACE),
    (1, Act::Names(PLACES + 1, Lock::Numbered(1)), NO_PLACE),
    (1, Act::Release(1), Reply::Refused(SpaceError::NotHeld)),
    (1, Act::ReleaseAll, Reply::Count(128)),
    (1, Act::ReleaseAll, Reply::Count(0)),
];

// Whether one session gives the tables their places, the other finds them there, and the first gets their locks and releases them.
fn are_right<R: Wait>(alloc: Global, sessions: &mut Three<R>) -> bool {
    first_elsewhere(alloc, sessions.session(1)).is_none()
        && first_elsewhere(alloc, sessions.session(2)).is_none()
        && first_not_taken(alloc, sessions.session(1)).is_none()
        && released(alloc, sessions.session(1)) == PLACES / 2
        && sessions
            .first_wrong(alloc, OUTSIDE, Memory::Ample)
            .is_none()
}

#[test]
fn two_hundred_and_fifty_six_keys_get_places(rt: HostRuntime) -> Result<(), Fail> {
    let mut sessions = open_three(&rt, PLACES)?;
    let right = are_right(rt.alloc(), &mut sessions);
    sessions.close(&rt);
    assert!(rt; right);
    Ok(())
}
