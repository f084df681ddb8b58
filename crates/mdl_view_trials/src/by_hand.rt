//! Small tables of locks, with everything that is found of them worked out by hand.
use crate::rows::is_right;
use mdl_key::Mode;
use mdl_view::{
    Act, AtLock, BackupMode, Blocking, Lock, LockKind, LockMode, Reason, Ticket, at_once,
    blocked_waits, blockers, blockings, held_by, unexplained_waits,
};
use std::alloc::{AllocError, Global};
use std::process::Abort;

// A session with a mode. What a session holds in these tables isn't of its statement.
type Of = (usize, LockMode);

// A lock: its holders, its waiters in order, and those whose wait is settled.
#[derive(Clone, Copy)]
struct Row {
    kind: LockKind,
    granted: &'static [Of],
    waiting: &'static [Of],
    settled: &'static [Of],
}

// Some locks, and what is found of them.
struct Case {
    name: &'static str,
    locks: &'static [Row],
    // Each waiter, a session that blocks it, and the reason.
    in_the_way: &'static [(usize, usize, Reason)],
    // The sessions whose waits nothing explains.
    unexplained: &'static [usize],
    // An act, and the sessions that get a lock at once.
    act: Act,
    gets: &'static [usize],
    // How many tickets the session of the act holds.
    holds: usize,
}

const IX: LockMode = LockMode::Mdl(Mode::IX);

const S: LockMode = LockMode::Mdl(Mode::S);

const SH: LockMode = LockMode::Mdl(Mode::SH);

const SR: LockMode = LockMode::Mdl(Mode::SR);

const SW: LockMode = LockMode::Mdl(Mode::SW);

const SU: LockMode = LockMode::Mdl(Mode::SU);

const X: LockMode = LockMode::Mdl(Mode::X);

const FTWRL2: LockMode = LockMode::Backup(BackupMode::Ftwrl2);

const TRANS_DML: LockMode = LockMode::Backup(BackupMode::TransDml);

const DDL: LockMode = LockMode::Backup(BackupMode::Ddl);

const COMMIT: LockMode = LockMode::Backup(BackupMode::Commit);

const READERS_AND_CHANGES: &[Case] = &[
    Case {
        name: "nobody waits",
        locks: &[Row {
            kind: LockKind::Object,
            granted: &[(1, SR), (2, SW)],
            waiting: &[],
            settled: &[],
        }],
        in_the_way: &[],
        unexplained: &[],
        act: Act::Kill(1),
        gets: &[],
        holds: 1,
    },
    // The reader with high priority could be granted by itself: nothing explains that it waits.
    Case {
        name: "a change behind two readers, and two readers behind the change",
        locks: &[Row {
            kind: LockKind::Object,
            granted: &[(4, SR), (2, SR)],
            waiting: &[(3, X), (1, SR), (5, SH)],
            settled: &[],
        }],
        in_the_way: &[
            (3, 4, Reason::Holds),
            (3, 2, Reason::Holds),
            (1, 3, Reason::WaitsBefore),
        ],
        unexplained: &[5],
        act: Act::KillQuery(3),
        gets: &[1],
        holds: 0,
    },
    // One of two readers ends: the other one still blocks the change.
    Case {
        name: "one of two holders ends",
        locks: &[Row {
            kind: LockKind::Object,
            granted: &[(1, SR), (2, SR)],
            waiting: &[(3, X), (4, SR)],
            settled: &[],
        }],
        in_the_way: &[
            (3, 1, Reason::Holds),
            (3, 2, Reason::Holds),
            (4, 3, Reason::WaitsBefore),
        ],
        unexplained: &[],
        act: Act::Kill(1),
        gets: &[],
        holds: 1,
    },
    // The change is about to go. It blocks nobody, but the reader behind it still waits.
    Case {
        name: "a change that is settled",
        locks: &[Row {
            kind: LockKind::Object,
            granted: &[(4, SR)],
            waiting: &[(1, SR)],
            settled: &[(3, X)],
        }],
        in_the_way: &[],
        unexplained: &[],
        act: Act::Kill(4),
        gets: &[],
        holds: 1,
    },
];

const HOLDERS: &[Case] = &[
    // What a session holds stays if its statement is killed, and its own ticket doesn't block its requests.
    Case {
        name: "the statement of a holder",
        locks: &[Row {
            kind: LockKind::Object,
            granted: &[(1, SR), (1, SU)],
            waiting: &[(1, X), (2, X), (3, SH)],
            settled: &[],
        }],
        in_the_way: &[(2, 1, Reason::Holds), (2, 1, Reason::Holds)],
        unexplained: &[1, 3],
        act: Act::KillQuery(1),
        gets: &[],
        holds: 2,
    },
    // Each change is blocked by the holder alone. The first is granted, and then the second clashes with it, and the reader, too.
    Case {
        name: "two changes behind a holder",
        locks: &[Row {
            kind: LockKind::Object,
            granted: &[(9, X)],
            waiting: &[(1, X), (2, X), (3, SH)],
            settled: &[],
        }],
        in_the_way: &[
            (1, 9, Reason::Holds),
            (2, 9, Reason::Holds),
            (3, 9, Reason::Holds),
        ],
        unexplained: &[],
        act: Act::Kill(9),
        gets: &[1],
        holds: 1,
    },
    // No row shows who holds the lock.
    Case {
        name: "a holder without a row",
        locks: &[Row {
            kind: LockKind::Object,
            granted: &[],
            waiting: &[(1, SU), (2, SR)],
            settled: &[],
        }],
        in_the_way: &[],
        unexplained: &[1, 2],
        act: Act::Kill(1),
        gets: &[],
        holds: 0,
    },
];

const GLOBAL_LOCKS: &[Case] = &[
    Case {
        name: "the global read lock behind a write, and a write behind that",
        locks: &[
            Row {
                kind: LockKind::Scoped,
                granted: &[(1, IX), (9, IX)],
                waiting: &[(9, S), (70_000, IX)],
                settled: &[],
            },
            Row {
                kind: LockKind::Scoped,
                granted: &[(1, IX)],
                waiting: &[],
                settled: &[],
            },
        ],
        in_the_way: &[(9, 1, Reason::Holds), (70_000, 9, Reason::WaitsBefore)],
        unexplained: &[],
        act: Act::Kill(1),
        gets: &[9],
        holds: 2,
    },
    // FLUSH TABLES WITH READ LOCK on MariaDB: whoever changes something waits. Those who wait don't block one another.
    Case {
        name: "a backup",
        locks: &[Row {
            kind: LockKind::Backup,
            granted: &[(8, FTWRL2)],
            waiting: &[(1, TRANS_DML), (2, DDL), (3, COMMIT)],
            settled: &[],
        }],
        in_the_way: &[
            (1, 8, Reason::Holds),
            (2, 8, Reason::Holds),
            (3, 8, Reason::Holds),
        ],
        unexplained: &[],
        act: Act::Kill(8),
        gets: &[1, 2, 3],
        holds: 1,
    },
    // FLUSH TABLES WITH READ LOCK waits for a change, and later changes behind it.
    Case {
        name: "a backup that waits",
        locks: &[Row {
            kind: LockKind::Backup,
            granted: &[(1, TRANS_DML), (2, COMMIT)],
            waiting: &[(8, FTWRL2), (3, TRANS_DML)],
            settled: &[],
        }],
        in_the_way: &[
            (8, 1, Reason::Holds),
            (8, 2, Reason::Holds),
            (3, 8, Reason::WaitsBefore),
        ],
        unexplained: &[],
        act: Act::KillQuery(8),
        gets: &[3],
        holds: 0,
    },
];

// Returns a ticket of a session.
fn ticket_of(of: &Of, number: u64, of_statement: bool) -> Ticket {
    Ticket {
        number,
        session: of.0,
        mode: of.1,
        of_statement,
    }
}

// Adds the tickets of a row to a lock. Whether there was memory for them.
fn fill(lock: &mut Lock, row: &Row) -> bool {
    for of in row.granted {
        if lock.add_granted(ticket_of(of, 1, false)).is_err() {
            return false;
        }
    }
    for of in row.waiting {
        if lock.add_waiting(ticket_of(of, 2, true)).is_err() {
            return false;
        }
    }
    for of in row.settled {
        if lock.add_settled(ticket_of(of, 3, true)).is_err() {
            return false;
        }
    }
    true
}

// Adds the lock of a row. Whether there was memory for it.
fn add_lock(alloc: Global, locks: &mut Vec<Lock>, row: &Row) -> bool {
    let mut lock = Lock::new(alloc, row.kind);
    let is_filled = fill(&mut lock, row);
    locks.push(lock).is_ok() && is_filled
}

fn add_locks(alloc: Global, locks: &mut Vec<Lock>, rows: &[Row]) -> bool {
    for row in rows {
        if !add_lock(alloc, locks, row) {
            return false;
        }
    }
    true
}

// Whether these are the wanted pairs of a waiter and a session that blocks it, with their reasons.
fn are_pairs(found: &[Blocking], wanted: &[(usize, usize, Reason)]) -> bool {
    for (pair, known) in found.iter().zip(wanted) {
        if (pair.waiter.session, pair.other.session) != (known.0, known.1)
            || pair.reason != known.2
        {
            return false;
        }
    }
    found.len() == wanted.len()
}

// Whether these are tickets of the wanted sessions.
fn are_of(found: &[AtLock], wanted: &[usize]) -> bool {
    for (got, session) in found.iter().zip(wanted) {
        if got.ticket.session != *session {
            return false;
        }
    }
    found.len() == wanted.len()
}

// Whether each of these waits is one of a pair, and each pair is of one of them.
fn are_blocked(found: &[AtLock], pairs: &[(usize, usize, Reason)]) -> bool {
    found.iter().all(|wait| pairs.iter().any(|pair| pair.0 == wait.ticket.session))
        && pairs.iter().all(|pair| found.iter().any(|wait| wait.ticket.session == pair.0))
}

// Whether who blocks whom is found as a case says.
fn are_blockings_found(alloc: Global, case: &Case, locks: &[Lock]) -> bool {
    match blockings(alloc, locks) {
        Ok(pairs) => are_pairs(&pairs, case.in_the_way),
        Err(_) => false,
    }
}

// Whether the waits are found that somebody blocks.
fn are_blocked_found(alloc: Global, case: &Case, locks: &[Lock]) -> bool {
    match blocked_waits(alloc, locks) {
        Ok(blocked) => are_blocked(&blocked, case.in_the_way),
        Err(_) => false,
    }
}

// Whether the waits are found that nothing explains.
fn are_unexplained_found(alloc: Global, case: &Case, locks: &[Lock]) -> bool {
    match unexplained_waits(alloc, locks) {
        Ok(unexplained) => are_of(&unexplained, case.unexplained),
        Err(_) => false,
    }
}

// Whether it is found who gets a lock at once after the act.
fn are_granted_found(alloc: Global, case: &Case, locks: &[Lock]) -> bool {
    match at_once(alloc, locks, case.act) {
        Ok(got) => are_of(&got, case.gets),
        Err(_) => false,
    }
}

// Whether it is found how many tickets the session of the act holds.
fn are_held_found(alloc: Global, case: &Case, locks: &[Lock]) -> bool {
    match held_by(alloc, locks, case.act.target()) {
        Ok(held) => held.len() == case.holds,
        Err(_) => false,
    }
}

// Whether everything that a case says is found of its locks.
fn holds(alloc: Global, case: &Case) -> bool {
    let mut locks = Vec::new(alloc);
    let right = add_locks(alloc, &mut locks, case.locks)
        && are_blockings_found(alloc, case, &locks)
        && are_blocked_found(alloc, case, &locks)
        && are_unexplained_found(alloc, case, &locks)
        && are_granted_found(alloc, case, &locks)
        && are_held_found(alloc, case, &locks);
    drop(locks);
    right
}

fn all_hold(rt: &impl Abort, alloc: Global, cases: &[Case]) {
    for case in cases {
        is_right(rt, case.name, holds(alloc, case));
    }
}

#[test]
fn tables_by_hand(rt: HostRuntime) {
    all_hold(&rt, rt.alloc(), READERS_AND_CHANGES);
    all_hold(&rt, rt.alloc(), HOLDERS);
    all_hold(&rt, rt.alloc(), GLOBAL_LOCKS);
}

// Session 7 holds the lock in two modes, and session 6 waits for it before session 1.
const TWICE: &Row = &Row {
    kind: LockKind::Object,
    granted: &[(7, SU), (5, SR), (7, X)],
    waiting: &[(6, X), (1, SR)],
    settled: &[],
};

// Whether exactly these sessions block a request of session 1 to read.
fn are_blockers(alloc: Global, lock: &Lock, wanted: &[usize]) -> bool {
    match blockers(alloc, lock, ticket_of(&(1, SR), 2, true)) {
        Ok(found) => found.as_slice() == wanted,
        Err(_) => false,
    }
}

// The same for the lock of a row.
fn are_blockers_at(alloc: Global, row: &Row, wanted: &[usize]) -> bool {
    let mut lock = Lock::new(alloc, row.kind);
    let right = fill(&mut lock, row) && are_blockers(alloc, &lock, wanted);
    drop(lock);
    right
}

// A session that blocks a request twice is named once, and one that holds the lock before one that waits for it.
#[test]
fn each_blocker_once(rt: HostRuntime) {
    assert!(rt; are_blockers_at(rt.alloc(), TWICE, &[7, 6]));
}

// Adds tickets of 10,000 sessions that hold a lock, and of 10,000 that wait for it. Whether there was memory for them.
fn fill_with_many(lock: &mut Lock) -> bool {
    for session in 1..10_001 {
        if lock
            .add_granted(ticket_of(&(session, SR), 1, false))
            .is_err()
            || lock
                .add_waiting(ticket_of(&(session + 10_000, X), 2, true))
                .is_err()
        {
            return false;
        }
    }
    true
}

// Adds such a lock.
fn add_large(alloc: Global, locks: &mut Vec<Lock>) -> bool {
    let mut lock = Lock::new(alloc, LockKind::Object);
    let is_filled = fill_with_many(&mut lock);
    locks.push(lock).is_ok() && is_filled
}

// Whether so many waits are found.
fn are_so_many(found: Result<Vec<AtLock>, AllocError>, wanted: usize) -> bool {
    match found {
        Ok(found) => found.len() == wanted,
        Err(_) => false,
    }
}

// Whether all waits at such a lock are found to be blocked, none without an explanation, and none that goes on if one holder ends.
fn are_many_blocked(alloc: Global) -> bool {
    let mut locks = Vec::new(alloc);
    let right = add_large(alloc, &mut locks)
        && are_so_many(blocked_waits(alloc, &locks), 10_000)
        && are_so_many(unexplained_waits(alloc, &locks), 0)
        && are_so_many(at_once(alloc, &locks, Act::Kill(1)), 0);
    drop(locks);
    right
}

// 20,000 tickets at one lock: half hold it, and the others wait.
#[test]
fn many_tickets_at_one_lock(rt: HostRuntime) {
    assert!(rt; are_many_blocked(rt.alloc()));
}
