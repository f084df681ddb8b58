//! The statuses of a program, and what it writes on which stream.
use crate::checks::is_right;
use crate::fakes::{GONE, SOUND};
use crate::matrices::MATRICES;
use crate::runs::Words::{Explain, Lock, Matrix, OnThreads, Refused, Replay, Scoped};
use crate::runs::{Row, goes_so};
use mdl_program::lack_words;
use std::alloc::Global;
use std::io;
use std::io::ErrorKind;
use std::mem::drop;

const STATEMENTS: &str = "1 BEGIN\n2 COMMIT\n";

const BAD_WORD: &str = "line 2: BadWord\n";

const ROLLBACK: &str =
    "line 1, session 1:\n  an open transaction ends, and its locks are released\n";

// A run that refuses its script or its words writes no answers. Input is only read if the words ask for a script.
const ROWS: &[Row<'static>] = &[
    (
        Lock,
        "1 SR\n2 X\n",
        SOUND,
        SOUND,
        0,
        "1 GRANTED SR\n2 WAITS X\n",
        "",
    ),
    (Lock, "1 SR\n2 x\n", SOUND, GONE, 1, "", BAD_WORD),
    (Lock, "x", SOUND, GONE, 1, "", "line 1: BadSession\n"),
    (
        Scoped,
        "1 IX\n2 S\n",
        SOUND,
        SOUND,
        0,
        "1 GRANTED IX\n2 WAITS S\n",
        "",
    ),
    (Scoped, "1 SR\n", SOUND, GONE, 1, "", "line 1: BadWord\n"),
    (Matrix, "1 SR\n", GONE, SOUND, 0, MATRICES, ""),
    (Replay, STATEMENTS, SOUND, SOUND, 0, "1 1 OK\n2 2 OK\n", ""),
    (Replay, "", SOUND, SOUND, 0, "", ""),
    (Replay, "1 BEGIN\n1 SR\n", SOUND, GONE, 1, "", BAD_WORD),
    (Explain, "1 ROLLBACK\n", SOUND, SOUND, 0, ROLLBACK, ""),
    (Explain, "1 BEGIN\n1 SR\n", SOUND, GONE, 1, "", BAD_WORD),
    (
        OnThreads,
        STATEMENTS,
        SOUND,
        SOUND,
        0,
        "1 1 OK\n2 2 OK\nFINAL SCHEMA test@1\n",
        "",
    ),
    (OnThreads, "1 BEGIN\n1 SR\n", SOUND, GONE, 1, "", BAD_WORD),
    (
        Refused,
        "1 SR\n",
        GONE,
        GONE,
        2,
        "",
        "requires a subcommand\n",
    ),
];

#[test]
fn statuses_and_lines_of_a_run(rt: HostRuntime) {
    for (place, row) in ROWS.iter().enumerate() {
        is_right(&rt, "row", place, goes_so(&rt, rt.alloc(), *row));
    }
}

// Whether missing words of this kind end with this status and report this line.
fn is_lack(alloc: Global, kind: ErrorKind, status: u8, line: &str) -> bool {
    let mut told = Vec::new(alloc);
    let is_so = lack_words(&io::Error::from(kind), &mut told) == status
        && told.as_slice() == line.as_bytes();
    drop(told);
    is_so
}

#[test]
fn missing_words_are_told(rt: HostRuntime) {
    assert!(rt; is_lack(rt.alloc(), ErrorKind::OutOfMemory, 3, "fault: memory\n"));
    assert!(rt;
        is_lack(
            rt.alloc(),
            ErrorKind::InvalidData,
            2,
            "error: invalid data\n"
        )
    );
}
