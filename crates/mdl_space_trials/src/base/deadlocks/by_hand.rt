//! Deadlocks of a few locks, and of many locks whose cycles are easy to see.
use crate::base::rows::{Row, are_right};
use mdl_book::{Book, Sessions, Ticket};
use mdl_graph::{Cycle, Member, WaitGraph, victim};
use mdl_key::{Key, Mode};
use mdl_word::Word;
use std::alloc::Global;

const NO_FAST: Word = Word(0);

// The number of sessions in a large graph.
const MOST: u16 = 1024;

// A session at a lock: it holds the lock or waits for it.
#[derive(Clone, Copy)]
enum At {
    Holds(u16, Mode),
    Waits(u16, Mode),
}

// The session where the search begins, the sessions of the cycle that is found, and its victim. The victim is 0 if there is no cycle.
type Found = (u16, &'static [u16], u16);

// Holders and waiters of some tables, one session whose wait is settled, or 0, and what searches find.
struct Case(&'static [&'static [At]], u16, &'static [Found]);

// Pairs of a waiter and the session that it waits for, each at a table of its own, and what a search finds.
struct Tied(&'static [(u16, u16)], Found);

// Session 4 waits for session 3, and no session waits for session 4.
const TWO_CYCLES: &[&[At]] = &[
    &[
        At::Holds(2, Mode::SR),
        At::Holds(3, Mode::SR),
        At::Waits(1, Mode::X),
    ],
    &[At::Holds(1, Mode::SW), At::Waits(3, Mode::X)],
    &[At::Holds(1, Mode::SW), At::Waits(2, Mode::X)],
    &[At::Holds(3, Mode::SW), At::Waits(4, Mode::X)],
];

const THREE_IN_TURN: &[&[At]] = &[
    &[At::Holds(2, Mode::SR), At::Waits(1, Mode::X)],
    &[At::Holds(3, Mode::SR), At::Waits(2, Mode::X)],
    &[At::Holds(1, Mode::SR), At::Waits(3, Mode::X)],
];

// The first session waits for the second, which holds a clashing ticket and has a pending X that goes first. The request for SW weighs less.
const AT_ONE_TABLE: &[&[At]] = &[&[
    At::Holds(1, Mode::SR),
    At::Holds(2, Mode::SNW),
    At::Waits(1, Mode::SW),
    At::Waits(2, Mode::X),
]];

const EQUALS: &[&[At]] = &[
    &[At::Holds(7, Mode::SR), At::Waits(5, Mode::X)],
    &[At::Holds(6, Mode::X), At::Waits(7, Mode::SW)],
    &[At::Holds(5, Mode::X), At::Waits(6, Mode::SR)],
];

// The greatest session number, and the least.
const FAR_APART: &[&[At]] = &[
    &[At::Holds(65_535, Mode::SR), At::Waits(0, Mode::X)],
    &[At::Holds(0, Mode::SR), At::Waits(65_535, Mode::X)],
];

const CASES: &[Case] = &[
    Case(
        TWO_CYCLES,
        0,
        &[
            (1, &[1, 2], 2),
            (2, &[2, 1], 2),
            (3, &[3, 1], 3),
            (4, &[], 0),
            (5, &[], 0),
            (65_535, &[], 0),
        ],
    ),
    Case(THREE_IN_TURN, 0, &[(1, &[1, 2, 3], 3), (3, &[3, 1, 2], 3)]),
    Case(THREE_IN_TURN, 2, &[(1, &[], 0), (2, &[], 0), (3, &[], 0)]),
    Case(AT_ONE_TABLE, 0, &[(1, &[1, 2], 1), (2, &[2, 1], 1)]),
    Case(EQUALS, 0, &[(5, &[5, 7, 6], 7), (6, &[6, 5, 7], 7)]),
    Case(
        FAR_APART,
        0,
        &[(0, &[0, 65_535], 65_535), (65_535, &[65_535, 0], 65_535)],
    ),
];

// Puts a ticket into a book. Whether it succeeded.
fn put(book: &mut Book, at: At) -> bool {
    match at {
        At::Holds(session, mode) => {
            let ticket = Ticket {
                session,
                number: 1,
                mode,
            };
            book.grant(ticket, NO_FAST).is_ok()
        }
        At::Waits(session, mode) => {
            let ticket = Ticket {
                session,
                number: 2,
                mode,
            };
            book.enqueue(ticket).is_ok()
        }
    }
}

fn put_all(book: &mut Book, rows: &[At]) -> bool {
    for row in rows {
        if !put(book, *row) {
            return false;
        }
    }
    true
}

// Adds a table with these holders and waiters. Whether there was memory for it.
fn add_table(graph: &mut WaitGraph, alloc: Global, rows: &[At]) -> bool {
    let Ok(key) = Key::table(alloc, "test", "t") else {
        return false;
    };
    let mut book = Book::new(alloc, key);
    let is_added = put_all(&mut book, rows) && graph.add(&book).is_ok();
    drop(book);
    is_added
}

fn add_tables(graph: &mut WaitGraph, alloc: Global, tables: &[&[At]]) -> bool {
    for rows in tables {
        if !add_table(graph, alloc, rows) {
            return false;
        }
    }
    true
}

// Returns the set of this session, if it is a valid one.
fn set_of(session: u16) -> Sessions {
    let mut sessions = Sessions::new();
    if 0 < session && session <= MOST {
        sessions.insert(session);
    }
    sessions
}

/// Creates an empty graph in which the wait of this session is settled, if it is a valid one.
pub(super) fn empty_graph(alloc: Global, settled: u16) -> WaitGraph {
    WaitGraph::new(alloc, set_of(settled))
}

// Whether the cycle that is found has these sessions and this victim.
fn is_cycle_of(found: &Option<Cycle>, sessions: &[u16], falls: u16) -> bool {
    match found {
        Some(cycle) => are_of(cycle.members(), sessions) && victim(cycle) == falls,
        None => sessions.is_empty() && falls == 0,
    }
}

/// Whether the members are exactly these sessions, in order.
pub(super) fn are_of(members: &[Member], sessions: &[u16]) -> bool {
    for (member, session) in members.iter().zip(sessions) {
        if member.session != *session {
            return false;
        }
    }
    members.len() == sessions.len()
}

// Whether a search finds this.
fn finds(graph: &WaitGraph, (from, sessions, falls): Found) -> bool {
    match graph.find_cycle(from) {
        Ok(found) => is_cycle_of(&found, sessions, falls),
        Err(_) => false,
    }
}

// Whether the searches find all of these.
fn finds_all(graph: &WaitGraph, rows: &[Found]) -> bool {
    for row in rows {
        if !finds(graph, *row) {
            return false;
        }
    }
    true
}

// Whether all searches of a case find what it says.
fn goes_so(alloc: Global, case: &Case) -> bool {
    let mut graph = empty_graph(alloc, case.1);
    let is_so = add_tables(&mut graph, alloc, case.0) && finds_all(&graph, case.2);
    drop(graph);
    is_so
}

// Whether a search finds this once the waits of these sessions are settled, too.
fn finds_later(graph: &WaitGraph, settled: &Sessions, (from, sessions, falls): Found) -> bool {
    match graph.find_unsettled_cycle(from, settled) {
        Ok(found) => is_cycle_of(&found, sessions, falls),
        Err(_) => false,
    }
}

fn finds_all_later(graph: &WaitGraph, settled: &Sessions, rows: &[Found]) -> bool {
    for row in rows {
        if !finds_later(graph, settled, *row) {
            return false;
        }
    }
    true
}

// Whether all searches of a case find the same in a graph that was built with nobody settled.
fn goes_so_later(alloc: Global, case: &Case) -> bool {
    let mut graph = empty_graph(alloc, 0);
    let is_so = add_tables(&mut graph, alloc, case.0)
        && finds_all_later(&graph, &set_of(case.1), case.2);
    drop(graph);
    is_so
}

impl Row for Case {
    fn goes_so(&self, alloc: Global) -> bool {
        goes_so(alloc, self) && goes_so_later(alloc, self)
    }
}

#[test]
fn finds_deadlocks_of_a_few(rt: HostRuntime) {
    are_right(&rt, rt.alloc(), CASES);
}

#[test]
fn lists_the_requests(rt: HostRuntime) {
    let mut graph = empty_graph(rt.alloc(), 0);
    assert!(rt; add_tie(&mut graph, rt.alloc(), 2, 1) && add_tie(&mut graph, rt.alloc(), 1, 3));
    assert!(rt; are_of(graph.wishes(), &[2, 1]));
    drop(graph);
}

const TIED: &[Tied] = &[
    Tied(&[(1, 2), (2, 1)], (1, &[1, 2], 2)),
    Tied(&[(1, 2), (2, 3), (3, 1)], (3, &[3, 1, 2], 3)),
    // The first of two cycles of equal length, and the shorter of two.
    Tied(&[(1, 3), (3, 1), (1, 2), (2, 1)], (1, &[1, 2], 2)),
    Tied(&[(1, 2), (2, 3), (3, 1), (1, 4), (4, 1)], (1, &[1, 4], 4)),
    Tied(
        &[(5, 3), (3, 2), (2, 5), (5, 1), (1, 4), (4, 5)],
        (5, &[5, 1, 4], 5),
    ),
    Tied(
        &[(1, 2), (2, 3), (3, 4), (4, 5), (5, 6), (6, 1)],
        (4, &[4, 5, 6, 1, 2, 3], 6),
    ),
    // The greatest numbers.
    Tied(
        &[(1024, 1023), (1023, 65), (65, 1024)],
        (1024, &[1024, 1023, 65], 1024),
    ),
    // A deadlock of other sessions, and none at all.
    Tied(&[(1, 2), (2, 3), (3, 2)], (1, &[], 0)),
    Tied(&[(1, 2), (2, 3)], (1, &[], 0)),
];

/// Adds a table at which one session waits for another.
pub(super) fn add_tie(graph: &mut WaitGraph, alloc: Global, waiter: u16, other: u16) -> bool {
    let rows = [At::Holds(other, Mode::X), At::Waits(waiter, Mode::X)];
    add_table(graph, alloc, &rows)
}

fn add_ties(graph: &mut WaitGraph, alloc: Global, ties: &[(u16, u16)]) -> bool {
    for (waiter, other) in ties {
        if !add_tie(graph, alloc, *waiter, *other) {
            return false;
        }
    }
    true
}

// Whether a search finds this in the graph of some pairs.
impl Row for Tied {
    fn goes_so(&self, alloc: Global) -> bool {
        let mut graph = empty_graph(alloc, 0);
        let is_found = add_ties(&mut graph, alloc, self.0) && finds(&graph, self.1);
        drop(graph);
        is_found
    }
}

#[test]
fn finds_the_shortest_and_of_those_the_first(rt: HostRuntime) {
    are_right(&rt, rt.alloc(), TIED);
}

// Adds tables at which each session waits for the next, and the last for the first.
fn add_ring(graph: &mut WaitGraph, alloc: Global) -> bool {
    for session in 1..=MOST {
        if !add_tie(graph, alloc, session, session % MOST + 1) {
            return false;
        }
    }
    true
}

// Whether each member is the next session after the one before, from `from` on, and `from` comes after the last.
fn are_in_turn(members: &[Member], from: u16) -> bool {
    let mut next = from;
    for member in members {
        if member.session != next {
            return false;
        }
        next = next % MOST + 1;
    }
    members.len() == usize::from(MOST)
}

// Whether a search from a session finds the ring.
fn finds_ring(graph: &WaitGraph, from: u16) -> bool {
    match graph.find_cycle(from) {
        Ok(Some(cycle)) => are_in_turn(cycle.members(), from) && victim(&cycle) == MOST,
        _ => false,
    }
}

#[test]
fn goes_round_a_ring(rt: HostRuntime) {
    let mut graph = empty_graph(rt.alloc(), 0);
    assert!(rt; add_ring(&mut graph, rt.alloc()));
    assert!(rt; finds_ring(&graph, 1) && finds_ring(&graph, 65) && finds_ring(&graph, MOST));
    drop(graph);
}

// Adds rows for all sessions, each of which holds the lock and waits for it.
fn crowd(rows: &mut Vec<At>) -> bool {
    for session in 1..=MOST {
        if rows.push(At::Holds(session, Mode::SR)).is_err()
            || rows.push(At::Waits(session, Mode::X)).is_err()
        {
            return false;
        }
    }
    true
}

// Adds three tables at which all sessions wait for all others. Whether there was memory for it.
fn add_crowds(graph: &mut WaitGraph, alloc: Global) -> bool {
    let mut rows = Vec::new(alloc);
    crowd(&mut rows) && add_tables(graph, alloc, &[&rows, &rows, &rows])
}

const IN_A_CROWD: &[Found] = &[
    (1, &[1, 2], 2),
    (2, &[2, 1], 2),
    (64, &[64, 1], 64),
    (1024, &[1024, 1], 1024),
    (1025, &[], 0),
];

#[test]
fn finds_a_way_through_a_crowd(rt: HostRuntime) {
    let mut graph = empty_graph(rt.alloc(), 0);
    assert!(rt; add_crowds(&mut graph, rt.alloc()));
    assert!(rt; finds_all(&graph, IN_A_CROWD));
    drop(graph);
}
