//! Sessions execute their own lines, wait for what the other session has locked until their patience ends, and leave nothing at their end.
use crate::checks::is_right;
use crate::outcomes::Outcome;
use crate::room::{Answers, answers_so, holds, new_space};
use mdl_work::OpenGate;
use std::alloc::Global;
use std::mem::drop;

const DONE: Outcome = Outcome::Done;

const YES: Outcome = Outcome::Says(true);

// A script, the answers of session 1, and then those of session 2.
type Talk = (&'static [u8], Answers<'static>, Answers<'static>);

const TALKS: &[Talk] = &[
    // Each session answers its own lines.
    (
        b"1 CREATE SCHEMA shop\n2 SELECT shop.orders\n# what is sold\n\
        1 CREATE TABLE shop.orders id\n1 CREATE TABLE shop.parts id\n\
        2 SELECT shop.orders shop.parts\n1 SELECT shop.buyers\n",
        &[(1, DONE), (4, DONE), (5, DONE), (7, Outcome::Fails(1146))],
        &[(2, Outcome::Reads(1)), (6, Outcome::Reads(1))],
    ),
    // At its end the first session has released its locks and ended its transaction.
    (
        b"1 CREATE SCHEMA shop\n1 CREATE TABLE shop.orders id\n1 BEGIN\n1 INSERT shop.orders\n\
        2 DROP TABLE shop.orders\n2 CREATE TABLE shop.orders id\n2 LOCK TABLES shop.orders WRITE\n",
        &[(1, DONE), (2, DONE), (3, DONE), (4, DONE)],
        &[(5, DONE), (6, DONE), (7, DONE)],
    ),
    // It has also released its user-level locks, which COMMIT does not.
    (
        b"1 GET_LOCK job\n1 GET_LOCK job\n1 BEGIN\n1 COMMIT\n1 RELEASE_LOCK job\n\
        2 RELEASE_LOCK job\n2 GET_LOCK job\n2 RELEASE_LOCK job\n",
        &[(1, YES), (2, YES), (3, DONE), (4, DONE), (5, YES)],
        &[(6, Outcome::Null), (7, YES), (8, YES)],
    ),
    // A session without lines answers nothing.
    (b"2 COMMIT\n", &[], &[(1, DONE)]),
];

// Whether the sessions give these answers, first session 1 and then session 2.
fn go_so(alloc: Global, (text, one, two): Talk) -> bool {
    let Ok(mut space) = new_space(alloc) else {
        return false;
    };
    let go_so = answers_so(alloc, &mut space, 1, text, 0, &OpenGate, one)
        && answers_so(alloc, &mut space, 2, text, 0, &OpenGate, two);
    drop(space);
    go_so
}

#[test]
fn sessions_work_off_their_lines(rt: HostRuntime) {
    for (place, talk) in TALKS.iter().enumerate() {
        is_right(&rt, "script", place, go_so(rt.alloc(), *talk));
    }
}

const TABLES: &[u8] = b"1 CREATE SCHEMA shop\n1 CREATE TABLE shop.orders id\n";

const TIMED_OUT: Outcome = Outcome::Fails(1205);

// The statement by which session 2 locks something, the lines of session 1, its patience, and its answers.
type Wait = (&'static [u8], &'static [u8], u32, Answers<'static>);

const WRITTEN: &[u8] = b"2 LOCK TABLES shop.orders WRITE\n";

const LINES: &[u8] =
    b"1 SELECT shop.orders\n1 BEGIN\n1 INSERT shop.orders\n1 ROLLBACK\n1 DROP SCHEMA shop\n1 COMMIT\n";

// The lock is never released, so each wait times out, and its session goes on.
const ANSWERS: Answers<'static> = &[
    (1, TIMED_OUT),
    (2, DONE),
    (3, TIMED_OUT),
    (4, DONE),
    (5, TIMED_OUT),
    (6, DONE),
];

const WAITS: &[Wait] = &[
    (WRITTEN, LINES, 0, ANSWERS),
    (WRITTEN, LINES, 3, ANSWERS),
    // A user-level lock that isn't granted in time is an answer, and the transaction goes on.
    (
        b"2 GET_LOCK job\n",
        b"1 BEGIN\n1 SAVEPOINT p\n1 GET_LOCK job\n1 RELEASE_LOCK job\n1 ROLLBACK TO p\n",
        3,
        &[
            (1, DONE),
            (2, DONE),
            (3, Outcome::Says(false)),
            (4, Outcome::Says(false)),
            (5, DONE),
        ],
    ),
];

// Whether session 1 gives these answers after session 2 has locked something.
fn waits_so(alloc: Global, (lock, text, patience, want): Wait) -> bool {
    let Ok(mut space) = new_space(alloc) else {
        return false;
    };
    let made = &[(1, DONE), (2, DONE)];
    let waits_so = answers_so(alloc, &mut space, 1, TABLES, 0, &OpenGate, made)
        && holds(alloc, &mut space, lock)
        && answers_so(alloc, &mut space, 1, text, patience, &OpenGate, want);
    drop(space);
    waits_so
}

#[test]
fn waits_end_with_patience(rt: HostRuntime) {
    for (place, wait) in WAITS.iter().enumerate() {
        is_right(&rt, "wait", place, waits_so(rt.alloc(), *wait));
    }
}
