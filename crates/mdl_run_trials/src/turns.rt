//! A gate that lets the lines of two sessions through in the order of the script.
use crate::flags::Flag;
use crate::playing::must_be_played_so;
use mdl_script::Gate;
use std::process::Abort;
use std::sync::Wait;
use std::test::Fail;
use std::thread::Threads;

// Holds line 4 until line 3 is answered, and line 5 until line 4 is.
#[derive(Drop)]
struct InOrder {
    third: Flag,
    fourth: Flag,
    missed: Flag,
}

impl InOrder {
    fn new() -> InOrder {
        InOrder {
            third: Flag::lowered(),
            fourth: Flag::lowered(),
            missed: Flag::lowered(),
        }
    }

    fn hold(&self, until: &Flag) {
        if !until.comes_up() {
            self.missed.raise();
        }
    }
}

impl Gate for InOrder {
    fn before(&self, _session: u16, line: u64) {
        match line {
            4 => self.hold(&self.third),
            5 => self.hold(&self.fourth),
            _ => {}
        }
    }

    fn after(&self, _session: u16, line: u64) {
        match line {
            3 => self.third.raise(),
            4 => self.fourth.raise(),
            _ => {}
        }
    }
}

const SCRIPT: &str = "1 CREATE TABLE t x / 1 BEGIN / 1 SELECT t / 2 DROP TABLE t / 1 COMMIT";

const TEXT: &str =
    "1 1 OK / 2 1 OK / 3 1 OK test.t@1(x) / 5 1 OK / 4 2 ERR 1205 / FINAL SCHEMA test@1 / \
    FINAL TABLE test.t@1(x)";

// Fails unless a script whose lines are let through in order has this text. No session has patience.
fn is_played_so<R: Threads + Wait + Sync + Abort + AllocGlobal>(
    rt: &R,
    script: &str,
    text: &str,
) -> Result<(), Fail> {
    let gate = InOrder::new();
    let played = must_be_played_so(rt, rt.alloc(), script, text, &gate);
    let is_missed = gate.missed.is_raised();
    drop(gate);
    played?;
    assert!(rt; !is_missed, "a line was held too long");
    Ok(())
}

// A session without patience doesn't wait for the transaction that has read the table.
#[test]
fn a_drop_without_patience_times_out(rt: HostRuntime) -> Result<(), Fail> {
    is_played_so(&rt, SCRIPT, TEXT)
}

// Nor does it wait for the session that has a user-level lock. That is no error: the reply is 0.
#[test]
fn a_user_lock_is_not_had_without_patience(rt: HostRuntime) -> Result<(), Fail> {
    is_played_so(
        &rt,
        "1 BEGIN / 1 GET_LOCK a / 1 COMMIT / 2 GET_LOCK a / 1 RELEASE_LOCK a",
        "1 1 OK / 2 1 OK 1 / 3 1 OK / 5 1 OK 1 / 4 2 OK 0 / FINAL SCHEMA test@1",
    )
}
