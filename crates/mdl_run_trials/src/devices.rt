//! Readers and writers that fail after each possible number of bytes, and slow ones that are interrupted there.
use crate::checks::is_right;
use crate::fakes::{Habit, SOUND, Slip};
use crate::matrices::MATRICES;
use crate::runs::Words::{Lock, Matrix, OnThreads, Replay};
use crate::runs::{Words, goes_so};
use std::alloc::Global;
use std::io::ErrorKind;
use std::sync::Wait;
use std::thread::Threads;

// What is run, its script, and the answers.
type Talk = (Words, &'static str, &'static str);

// Two readers and two waiters; a deadlock, a change of definitions, and a wait that never ends; one session on its thread.
const TALKS: &[Talk] = &[
    (
        Lock,
        "1 SR\n2 SW\n3 X\n4 S\n1 RELEASE\n2 RELEASE\n3 RELEASE\n",
        "1 GRANTED SR\n2 GRANTED SW\n3 WAITS X\n4 WAITS S\n1 RELEASED SR\n2 RELEASED SW\n\
        3 GRANTED X\n3 RELEASED X\n4 GRANTED S\n",
    ),
    (
        Replay,
        "1 CREATE TABLE a x\n1 CREATE TABLE t x y\n1 BEGIN\n1 SELECT t\n2 DROP TABLE t a\n\
        1 SELECT a\n3 BEGIN\n3 SELECT u\n1 CREATE TABLE u z\n",
        "1 1 OK\n2 1 OK\n3 1 OK\n4 1 OK test.t@1(x,y)\n5 2 WAIT TABLE test.t X\n\
        6 1 WAIT TABLE test.a SR\n6 1 ERR 1213\n5 2 OK\n7 3 OK\n8 3 ERR 1146\n\
        9 1 WAIT TABLE test.u X\nEND 1 WAIT\n",
    ),
    (
        OnThreads,
        "1 CREATE TABLE t x\n1 SELECT t\n",
        "1 1 OK\n2 1 OK test.t@1(x)\nFINAL SCHEMA test@1\nFINAL TABLE test.t@1(x)\n",
    ),
    (Matrix, "", MATRICES),
];

// A device that moves at most 7 bytes at a call, and slips once after `bytes` bytes.
fn slipping(bytes: usize, slip: Slip) -> Habit {
    Habit::steps_of(7).slips_after(bytes, slip)
}

// Whether a run whose read fails in this way after `bytes` bytes reports this line and writes nothing.
fn is_told<T: Threads + Wait + Sync>(
    rt: &T,
    alloc: Global,
    talk: Talk,
    bytes: usize,
    (kind, line): (ErrorKind, &str),
) -> bool {
    let input = slipping(bytes, Slip::Fails(kind));
    goes_so(rt, alloc, (talk.0, talk.1, input, SOUND, 3, "", line))
}

// Failures of a read, and the line that reports each.
const FAILURES: &[(ErrorKind, &str)] = &[
    (ErrorKind::ConnectionReset, "fault: device\n"),
    (ErrorKind::OutOfMemory, "fault: memory\n"),
];

#[test]
fn a_read_that_fails_is_told(rt: HostRuntime) {
    for talk in TALKS {
        if talk.1.is_empty() {
            continue;
        }
        for bytes in 0..=talk.1.len() {
            for failure in FAILURES {
                let is_so = is_told(&rt, rt.alloc(), *talk, bytes, *failure);
                is_right(&rt, talk.1, bytes, is_so);
            }
        }
    }
}

// Whether a run whose writer slips in this way after `bytes` bytes has written exactly the first `bytes` bytes of the answers.
fn is_cut_off<T: Threads + Wait + Sync>(
    rt: &T,
    alloc: Global,
    talk: Talk,
    bytes: usize,
    slip: Slip,
) -> bool {
    let (words, script, answers) = talk;
    let output = slipping(bytes, slip);
    let Some(left) = answers.get(..bytes) else {
        return false;
    };
    goes_so(
        rt,
        alloc,
        (words, script, SOUND, output, 3, left, "fault: device\n"),
    )
}

#[test]
fn a_write_that_fails_leaves_a_beginning(rt: HostRuntime) {
    let broken = Slip::Fails(ErrorKind::BrokenPipe);
    for talk in TALKS {
        for bytes in 0..talk.2.len() {
            let is_so = is_cut_off(&rt, rt.alloc(), *talk, bytes, broken)
                && is_cut_off(&rt, rt.alloc(), *talk, bytes, Slip::MovesNothing);
            is_right(&rt, talk.2, bytes, is_so);
        }
    }
}

// Whether everything is read and written if both devices move at most `step` bytes at a call and are interrupted once after `bytes` bytes.
fn is_served<T: Threads + Wait + Sync>(
    rt: &T,
    alloc: Global,
    talk: Talk,
    bytes: usize,
    step: usize,
) -> bool {
    let (words, script, answers) = talk;
    let slow = Habit::steps_of(step).slips_after(bytes, Slip::Fails(ErrorKind::Interrupted));
    goes_so(rt, alloc, (words, script, slow, slow, 0, answers, ""))
}

#[test]
fn slow_and_interrupted_devices_serve(rt: HostRuntime) {
    for talk in TALKS {
        for bytes in 0..=talk.1.len() {
            let is_so = is_served(&rt, rt.alloc(), *talk, bytes, 1)
                && is_served(&rt, rt.alloc(), *talk, bytes, usize::MAX);
            is_right(&rt, talk.1, bytes, is_so);
        }
    }
}
