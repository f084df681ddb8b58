//! A gate is called before and after each statement of a session.
use crate::outcomes::Outcome;
use crate::room::{Answers, answers_so, new_space};
use mdl_work::Gate;
use std::alloc::Global;
use std::cell::Cell;
use std::mem::drop;

// A gate that notes each call as a decimal digit: before a statement its line plus the session's number, after it a 0.
#[derive(Drop)]
struct Notes {
    digits: Cell<u64>,
}

impl Notes {
    fn note(&self, digit: u64) {
        self.digits
            .set(self.digits.get().wrapping_mul(10).wrapping_add(digit));
    }
}

impl Gate for Notes {
    fn before(&self, session: u16, line: u64) {
        self.note(line.wrapping_add(u64::from(session)));
    }

    fn after(&self, _session: u16, _line: u64) {
        self.note(0);
    }
}

// Returns what a gate has noted once session 1 has executed its lines, if the answers are the wanted ones.
fn noted(alloc: Global, text: &[u8], want: Answers<'_>) -> Option<u64> {
    let mut space = new_space(alloc).ok()?;
    let notes = Notes {
        digits: Cell::new(0),
    };
    let answers_so = answers_so(alloc, &mut space, 1, text, 0, &notes, want);
    drop(space);
    if answers_so {
        Some(notes.digits.get())
    } else {
        None
    }
}

// Session 1 has lines 1 and 3, so the digits before its statements are 2 and 4.
#[test]
fn a_gate_is_told_of_each_statement(rt: HostRuntime) {
    let text = b"1 BEGIN\n2 BEGIN\n1 COMMIT\n";
    let want = [(1, Outcome::Done), (3, Outcome::Done)];
    assert!(rt; noted(rt.alloc(), text, &want) == Some(2040));
}
