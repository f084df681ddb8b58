//! Small jams, with the ways out of them worked out by hand.
use crate::rows::is_right;
use mdl_key::Mode;
use mdl_view::{
    Act, AtLock, Lock, LockKind, LockMode, Ticket, Way, at_once, by_now, in_turn, joint_waits,
    stuck_waits, upgrades, ways,
};
use std::alloc::{AllocError, Global};
use std::process::Abort;

// A session with a mode.
type Of = (usize, Mode);

// A lock: its kind, its holders, and its waiters in order.
type Row = (LockKind, &'static [Of], &'static [Of]);

// Some locks, and what is found of them. What is granted stays if its session's statement is killed.
struct Case {
    name: &'static str,
    locks: &'static [Row],
    // The ways out, the best first, each with how many waits are granted at once, and how many end in turn.
    ways: &'static [(Act, usize, usize)],
    // The sessions that go on only if several others end.
    joint: &'static [usize],
    // The sessions that are in a deadlock or behind one.
    stuck: &'static [usize],
    // An act, the sessions that are granted at once after it, and those that end in turn.
    act: Act,
    granted: &'static [usize],
    ending: &'static [usize],
}

const OBJECT: LockKind = LockKind::Object;

const SCOPE: LockKind = LockKind::Scoped;

const QUEUES: &[Case] = &[
    Case {
        name: "nobody waits",
        locks: &[(OBJECT, &[(1, Mode::SR), (2, Mode::SW)], &[])],
        ways: &[],
        joint: &[],
        stuck: &[],
        act: Act::Kill(1),
        granted: &[],
        ending: &[],
    },
    // The reader with high priority could be granted by itself, so its row isn't explained.
    Case {
        name: "a change behind two readers, and two readers behind the change",
        locks: &[(
            OBJECT,
            &[(4, Mode::SR), (2, Mode::SR)],
            &[(3, Mode::X), (1, Mode::SR), (5, Mode::SH)],
        )],
        ways: &[(Act::KillQuery(3), 1, 1)],
        joint: &[3],
        stuck: &[],
        act: Act::KillQuery(3),
        granted: &[1],
        ending: &[1],
    },
    // Two changes are granted at once. Readers go on when the changes have ended. One of them goes on if the second change is given up.
    Case {
        name: "one transaction holds two tables",
        locks: &[
            (
                OBJECT,
                &[(1, Mode::SR)],
                &[(2, Mode::X), (3, Mode::SR), (4, Mode::SR)],
            ),
            (OBJECT, &[(1, Mode::SR)], &[(5, Mode::X), (6, Mode::SR)]),
        ],
        ways: &[
            (Act::Kill(1), 2, 5),
            (Act::KillQuery(2), 2, 2),
            (Act::KillQuery(5), 1, 1),
        ],
        joint: &[],
        stuck: &[],
        act: Act::Kill(1),
        granted: &[2, 5],
        ending: &[2, 3, 4, 5, 6],
    },
    // A session's own ticket doesn't block its requests.
    Case {
        name: "the global read lock behind a write, and a write behind that",
        locks: &[
            (
                SCOPE,
                &[(1, Mode::IX), (9, Mode::IX)],
                &[(9, Mode::S), (1024, Mode::IX)],
            ),
            (SCOPE, &[(1, Mode::IX)], &[]),
        ],
        ways: &[(Act::Kill(1), 1, 2), (Act::KillQuery(9), 1, 1)],
        joint: &[],
        stuck: &[],
        act: Act::Kill(1),
        granted: &[9],
        ending: &[9, 1024],
    },
];

const CIRCLES: &[Case] = &[
    // To give up a request doesn't help: what the session holds blocks the other one.
    Case {
        name: "each of two readers wants to change the table of the other",
        locks: &[
            (OBJECT, &[(1, Mode::SR)], &[(2, Mode::X)]),
            (OBJECT, &[(2, Mode::SR)], &[(1, Mode::X)]),
        ],
        ways: &[(Act::Kill(1), 1, 1), (Act::Kill(2), 1, 1)],
        joint: &[],
        stuck: &[2, 1],
        act: Act::Kill(1),
        granted: &[2],
        ending: &[2],
    },
    Case {
        name: "three sessions in a circle, and one behind them",
        locks: &[
            (OBJECT, &[(3, Mode::SR)], &[(4, Mode::X)]),
            (OBJECT, &[(7, Mode::X)], &[(3, Mode::SR)]),
            (OBJECT, &[(4, Mode::SR)], &[(7, Mode::X), (9, Mode::SR)]),
        ],
        ways: &[
            (Act::Kill(7), 2, 3),
            (Act::Kill(3), 1, 3),
            (Act::Kill(4), 1, 3),
            (Act::KillQuery(7), 1, 1),
        ],
        joint: &[],
        stuck: &[4, 3, 7, 9],
        act: Act::Kill(4),
        granted: &[7],
        ending: &[3, 7, 9],
    },
];

const NOT_ENOUGH: &[Case] = &[
    Case {
        name: "a change behind two readers, one of whom waits for a third table",
        locks: &[
            (OBJECT, &[(1, Mode::SR), (2, Mode::SR)], &[(5, Mode::X)]),
            (OBJECT, &[(3, Mode::X)], &[(2, Mode::SR)]),
        ],
        ways: &[(Act::Kill(3), 1, 1)],
        joint: &[5],
        stuck: &[],
        act: Act::Kill(3),
        granted: &[2],
        ending: &[2],
    },
    // If the reader ends, the change goes on, and then the others. If the change's statement ends, the others do. To end its session isn't better.
    Case {
        name: "an idle reader, a change that waits for it, and two readers behind the change",
        locks: &[(
            OBJECT,
            &[(1, Mode::SR)],
            &[(2, Mode::X), (3, Mode::SR), (4, Mode::SR)],
        )],
        ways: &[(Act::Kill(1), 1, 3), (Act::KillQuery(2), 2, 2)],
        joint: &[],
        stuck: &[],
        act: Act::Kill(1),
        granted: &[2],
        ending: &[2, 3, 4],
    },
    Case {
        name: "a change behind two holders, of whom either is not enough",
        locks: &[(OBJECT, &[(1, Mode::SR), (2, Mode::SW)], &[(3, Mode::X)])],
        ways: &[],
        joint: &[3],
        stuck: &[],
        act: Act::Kill(1),
        granted: &[],
        ending: &[],
    },
];

const OTHERS: &[Case] = &[
    // To end session 2 lets both others go on at once, and to end session 1 lets session 3 go on only after session 2. To end the statement of
    // session 2 lets session 3 go on, but session 1 still waits for what session 2 holds.
    Case {
        name: "each of two sessions holds what the other one waits for, and a third one waits behind them",
        locks: &[
            (OBJECT, &[(1, Mode::SW)], &[(2, Mode::X), (3, Mode::SR)]),
            (OBJECT, &[(2, Mode::SW)], &[(1, Mode::X)]),
        ],
        ways: &[
            (Act::Kill(2), 2, 2),
            (Act::Kill(1), 1, 2),
            (Act::KillQuery(2), 1, 1),
        ],
        joint: &[],
        stuck: &[2, 3, 1],
        act: Act::Kill(2),
        granted: &[3, 1],
        ending: &[3, 1],
    },
    // Nobody who holds the table has a row.
    Case {
        name: "a change that nobody is seen to block, and a reader behind it",
        locks: &[(OBJECT, &[], &[(3, Mode::X), (4, Mode::SR)])],
        ways: &[(Act::KillQuery(3), 1, 1)],
        joint: &[],
        stuck: &[],
        act: Act::Kill(3),
        granted: &[4],
        ending: &[4],
    },
];

// A ticket of a session.
fn ticket(session: usize, mode: Mode, of_statement: bool) -> Ticket {
    Ticket {
        number: 1,
        session,
        mode: LockMode::Mdl(mode),
        of_statement,
    }
}

// Adds tickets to a lock: of those that hold it, and of those that wait for it. Whether there was memory for them.
fn fill(lock: &mut Lock, (_, holders, waiters): Row) -> bool {
    for (session, mode) in holders {
        if lock.add_granted(ticket(*session, *mode, false)).is_err() {
            return false;
        }
    }
    add_waiters(lock, waiters)
}

fn add_waiters(lock: &mut Lock, waiters: &[Of]) -> bool {
    for (session, mode) in waiters {
        if lock.add_waiting(ticket(*session, *mode, true)).is_err() {
            return false;
        }
    }
    true
}

// Adds the lock of a row. Whether there was memory for it.
fn add_lock(alloc: Global, locks: &mut Vec<Lock>, row: Row) -> bool {
    let mut lock = Lock::new(alloc, row.0);
    let is_filled = fill(&mut lock, row);
    locks.push(lock).is_ok() && is_filled
}

fn add_locks(alloc: Global, locks: &mut Vec<Lock>, rows: &[Row]) -> bool {
    for row in rows {
        if !add_lock(alloc, locks, *row) {
            return false;
        }
    }
    true
}

// Whether these are tickets of exactly these sessions, in order.
fn are_of(found: &[AtLock], wanted: &[usize]) -> bool {
    for (at, session) in found.iter().zip(wanted) {
        if at.ticket.session != *session {
            return false;
        }
    }
    found.len() == wanted.len()
}

// Whether these are the wanted ways out, in order.
fn are_ways(found: &[Way], wanted: &[(Act, usize, usize)]) -> bool {
    for (way, told) in found.iter().zip(wanted) {
        if way.act != told.0 || way.at_once != told.1 || way.in_turn != told.2 {
            return false;
        }
    }
    found.len() == wanted.len()
}

// Whether the right waits are found to go on only if several others end, besides these ways out.
fn are_joint_found(alloc: Global, case: &Case, locks: &[Lock], found: &[Way]) -> bool {
    match joint_waits(alloc, locks, found) {
        Ok(joint) => are_of(&joint, case.joint),
        Err(_) => false,
    }
}

// Whether the right ways out are found.
fn are_ways_found(alloc: Global, case: &Case, locks: &[Lock]) -> bool {
    match ways(alloc, locks) {
        Ok(found) => { are_ways(&found, case.ways) && are_joint_found(alloc, case, locks, &found) }
        Err(_) => false,
    }
}

// Whether these waits are found.
fn is_found(found: Result<Vec<AtLock>, AllocError>, wanted: &[usize]) -> bool {
    match found {
        Ok(found) => are_of(&found, wanted),
        Err(_) => false,
    }
}

// Whether everything that a case says is found of its locks.
fn holds(alloc: Global, case: &Case) -> bool {
    let mut locks = Vec::new(alloc);
    let right = add_locks(alloc, &mut locks, case.locks)
        && is_found(stuck_waits(alloc, &locks), case.stuck)
        && are_ways_found(alloc, case, &locks)
        && is_found(at_once(alloc, &locks, case.act), case.granted)
        && is_found(in_turn(alloc, &locks, case.act), case.ending);
    drop(locks);
    right
}

fn all_hold(rt: &impl Abort, alloc: Global, cases: &[Case]) {
    for case in cases {
        is_right(rt, case.name, holds(alloc, case));
    }
}

#[test]
fn ways_out_by_hand(rt: HostRuntime) {
    all_hold(&rt, rt.alloc(), QUEUES);
    all_hold(&rt, rt.alloc(), CIRCLES);
    all_hold(&rt, rt.alloc(), NOT_ENOUGH);
    all_hold(&rt, rt.alloc(), OTHERS);
}

// Adds a table that session 1 holds in a mode, by its statement or not, and a request of session 2 that waits for it.
fn add_held(
    alloc: Global,
    locks: &mut Vec<Lock>,
    (held, asked): (Mode, Mode),
    of_statement: bool,
) -> bool {
    let mut lock = Lock::new(alloc, OBJECT);
    let is_filled = lock.add_granted(ticket(1, held, of_statement)).is_ok()
        && lock.add_waiting(ticket(2, asked, true)).is_ok();
    locks.push(lock).is_ok() && is_filled
}

// Whether this act is the only way out, and lets this number of waits go on.
fn is_only_way(alloc: Global, locks: &[Lock], act: Act, waits: usize) -> bool {
    match ways(alloc, locks) {
        Ok(found) => are_ways(&found, &[(act, waits, waits)]),
        Err(_) => false,
    }
}

// Whether this act is the only way out at such a table.
fn is_only_way_at(alloc: Global, modes: (Mode, Mode), of_statement: bool, act: Act) -> bool {
    let mut locks = Vec::new(alloc);
    let right = add_held(alloc, &mut locks, modes, of_statement)
        && is_only_way(alloc, &locks, act, 1);
    drop(locks);
    right
}

// The mode in which a table is held, and the mode that another session requests.
const HELD: &[(Mode, Mode)] = &[(Mode::SNW, Mode::SW), (Mode::X, Mode::SR)];

// What a statement holds goes with it, and what its transaction holds doesn't.
#[test]
fn tickets_of_a_statement_go_with_it(rt: HostRuntime) {
    for modes in HELD {
        let of_statement = is_only_way_at(rt.alloc(), *modes, true, Act::KillQuery(1));
        let of_session = is_only_way_at(rt.alloc(), *modes, false, Act::Kill(1));
        is_right(&rt, modes.0.as_str(), of_statement && of_session);
    }
}

// Adds a table that a session holds in SU by its row, and requests that wait for it.
fn add_changed(alloc: Global, locks: &mut Vec<Lock>, waiters: &[Of]) -> bool {
    let mut lock = Lock::new(alloc, OBJECT);
    let is_filled = lock.add_granted(ticket(1, Mode::SU, true)).is_ok()
        && add_waiters(&mut lock, waiters);
    locks.push(lock).is_ok() && is_filled
}

// Whether the session is taken to hold this mode by now.
fn is_upgraded(alloc: Global, shown: &[Lock], now: Mode) -> bool {
    match upgrades(alloc, shown) {
        Ok(taken) => matches!(taken.as_slice(), [upgrade] if upgrade.now == LockMode::Mdl(now)),
        Err(_) => false,
    }
}

// Whether the end of its statement lets this number of waits go on, and is the only way out.
fn is_way_by_now(alloc: Global, shown: &[Lock], waits: usize) -> bool {
    match by_now(alloc, shown) {
        Ok(held) => is_only_way(alloc, &held, Act::KillQuery(1), waits),
        Err(_) => false,
    }
}

// Whether both are so for these requests.
fn is_taken_for(alloc: Global, waiters: &[Of], now: Mode) -> bool {
    let mut shown = Vec::new(alloc);
    let right = add_changed(alloc, &mut shown, waiters)
        && is_upgraded(alloc, &shown, now)
        && is_way_by_now(alloc, &shown, waiters.len());
    drop(shown);
    right
}

// Requests that wait, and the mode that the session is taken to hold.
const UPGRADED: &[(&[Of], Mode)] = &[
    (&[(2, Mode::SW), (3, Mode::SW)], Mode::SNW),
    (&[(2, Mode::SW), (3, Mode::SR)], Mode::X),
];

#[test]
fn a_change_that_has_been_upgraded(rt: HostRuntime) {
    for (waiters, now) in UPGRADED {
        is_right(&rt, now.as_str(), is_taken_for(rt.alloc(), waiters, *now));
    }
}
