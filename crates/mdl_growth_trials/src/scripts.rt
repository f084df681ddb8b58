//! Scripts that drive a lock, and scripts that are replayed. If memory runs out, that is the error, and nothing is written.
use mdl_key::Kind;
use mdl_lines::Fault;
use mdl_lock::lock_run;
use mdl_script::replay;
use std::alloc::Global;

// A script, and its answers.
#[derive(Clone, Copy)]
enum Play {
    OfLock(&'static [u8], &'static [u8]),
    OfStatements(&'static [u8], &'static [u8]),
}

// How a run ends.
#[derive(Clone, Copy)]
enum End {
    // All answers are written.
    Whole,
    // Memory is refused, and nothing is written.
    Starved,
    Wrong,
}

const LOCK: Play = Play::OfLock(
    b"1 X\n2 SR\n3 SW\n1 RELEASE\n",
    b"1 GRANTED X\n2 WAITS SR\n3 WAITS SW\n1 RELEASED X\n2 GRANTED SR\n3 GRANTED SW\n",
);

// Waits that are granted and one that is a victim, a savepoint, changes of definitions, and a wait that is left at the end.
const STATEMENTS: Play = Play::OfStatements(
    b"1 CREATE TABLE a x\n1 CREATE TABLE t x y\n1 BEGIN\n1 SAVEPOINT p\n1 SELECT t\n2 DROP TABLE t a\n3 INSERT t\n\
    1 SELECT a\n3 CREATE TABLE t z\n1 BEGIN\n1 SELECT t\n4 DROP TABLE t\n",
    b"1 1 OK\n2 1 OK\n3 1 OK\n4 1 OK\n5 1 OK test.t@1(x,y)\n6 2 WAIT TABLE test.t X\n7 3 WAIT TABLE test.t SW\n\
    8 1 WAIT TABLE test.a SR\n8 1 ERR 1213\n6 2 OK\n7 3 ERR 1146\n9 3 OK\n10 1 OK\n11 1 OK test.t@3(z)\n\
    12 4 WAIT TABLE test.t X\nEND 4 WAIT\n",
);

// Room for the longest answers, and more than a byte besides.
const ROOM: usize = 1_000;

/// Returns the first script that goes wrong.
pub(crate) fn first_wrong(alloc: Global) -> Option<&'static str> {
    if !goes_well(alloc, LOCK) {
        return Some("a lock's script");
    }
    if !goes_well(alloc, STATEMENTS) {
        return Some("a replayed script");
    }
    None
}

// Whether a script has its answers. Runs it a second time if memory runs out.
fn goes_well(alloc: Global, play: Play) -> bool {
    match end_of_run(alloc, play) {
        End::Whole => true,
        End::Starved => matches!(end_of_run(alloc, play), End::Whole),
        End::Wrong => false,
    }
}

fn end_of_run(alloc: Global, play: Play) -> End {
    let mut room = [0u8; ROOM];
    let mut writer = room.as_mut_slice();
    match play {
        Play::OfLock(mut script, answers) => {
            let end = lock_run(alloc, Kind::Object, &mut script, &mut writer);
            end_of(end, &room, answers)
        }
        Play::OfStatements(mut script, answers) => {
            let end = replay(alloc, &mut script, &mut writer);
            end_of(end, &room, answers)
        }
    }
}

// Returns how a run ended that wrote into this room, which was all zeros.
fn end_of(end: Result<(), Fault>, room: &[u8], answers: &[u8]) -> End {
    match end {
        Ok(()) if begins_so(room, answers) => End::Whole,
        Err(Fault::Memory) if begins_so(room, b"") => End::Starved,
        _ => End::Wrong,
    }
}

// Whether exactly this is written.
fn begins_so(room: &[u8], written: &[u8]) -> bool {
    room.get(..written.len()) == Some(written) && room.get(written.len()) == Some(&0)
}
