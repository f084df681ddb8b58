//! A second lock space with the contexts of its sessions, as slow and as plain as can be: one list of all tickets, in order of arrival, and one of
//! the sessions with their waits. Each call reads the lists from end to end.
mod contexts;
mod deadlocks;
mod granting;
mod lists;
mod places;
pub(crate) mod spaces;

use crate::contexts::acts::Lock;
use mdl_key::{Duration, Mode};
use mdl_space::{Settled, TicketId};
use std::alloc::Global;

/// A granted or waiting ticket, or a request, which has no number yet. A granted ticket is held, unless its wait isn't ended.
#[derive(Clone, Copy)]
struct Ticket {
    session: u16,
    number: TicketId,
    lock: Lock,
    mode: Mode,
    duration: Duration,
    is_granted: bool,
}

/// A wait that isn't ended, with the number of its ticket.
#[derive(Clone, Copy)]
pub(crate) struct Wait {
    pub(crate) number: u64,
    ticket: TicketId,
    settled: Option<Settled>,
}

// A session: how many numbers of tickets and of waits it has used, and its wait.
#[derive(Clone, Copy)]
struct Seat {
    session: u16,
    tickets: u64,
    waits: u64,
    wait: Option<Wait>,
}

/// How often each of the rarer outcomes came.
#[derive(Clone, Copy)]
pub(crate) struct Seen {
    pub(crate) granted: u64,
    pub(crate) timed_out: u64,
    pub(crate) killed: u64,
    pub(crate) victims: u64,
    pub(crate) cloned: u64,
    pub(crate) reused: u64,
    pub(crate) stale: u64,
    pub(crate) unpinned: u64,
    pub(crate) in_use: u64,
    pub(crate) not_pinned: u64,
    /// Pins that contexts gave up: after a release, a refusal, a try that would have to wait, and a lost wait.
    pub(crate) let_go: u64,
    pub(crate) let_go_refused: u64,
    pub(crate) let_go_untaken: u64,
    pub(crate) let_go_lost: u64,
    /// Acts after which a session pinned more than four places. Its context finds their keys in another way then.
    pub(crate) pinned_many: u64,
    pub(crate) given_anew: u64,
    pub(crate) passed_over: u64,
    pub(crate) no_place: u64,
}

/// Nothing came yet.
pub(crate) const NOTHING_SEEN: Seen = Seen {
    granted: 0,
    timed_out: 0,
    killed: 0,
    victims: 0,
    cloned: 0,
    reused: 0,
    stale: 0,
    unpinned: 0,
    in_use: 0,
    not_pinned: 0,
    let_go: 0,
    let_go_refused: 0,
    let_go_untaken: 0,
    let_go_lost: 0,
    pinned_many: 0,
    given_anew: 0,
    passed_over: 0,
    no_place: 0,
};

/// A space with a number of places. Its sessions make calls by contexts or without.
#[derive(Drop)]
pub(crate) struct Plain {
    alloc: Global,
    places: usize,
    // The locks that have a place, by place.
    locks: Vec<Lock>,
    // The locks whose places sessions pin.
    pinned: Vec<(u16, Lock)>,
    // The locks that got a definition, each time with its version.
    versions: Vec<(Lock, u64)>,
    seats: [Seat; 5],
    tickets: Vec<Ticket>,
    pub(crate) seen: Seen,
}

impl Plain {
    /// Creates a space in which no session has asked for anything. What comes is added to what was seen before.
    pub(crate) fn new(alloc: Global, places: usize, seen: Seen) -> Plain {
        let first = Seat {
            session: 1,
            tickets: 0,
            waits: 0,
            wait: None,
        };
        Plain {
            alloc,
            places,
            locks: Vec::new(alloc),
            pinned: Vec::new(alloc),
            versions: Vec::new(alloc),
            seats: [
                first,
                Seat {
                    session: 2,
                    ..first
                },
                Seat {
                    session: 3,
                    ..first
                },
                Seat {
                    session: 4,
                    ..first
                },
                Seat {
                    session: 5,
                    ..first
                },
            ],
            tickets: Vec::new(alloc),
            seen,
        }
    }
}
