//! Two sessions that read at the same time: neither goes on before both are there.
use crate::flags::Flag;
use crate::playing::must_be_played_so;
use mdl_script::Gate;
use std::test::Fail;

// A point at which sessions 1 and 2 wait for each other.
#[derive(Drop)]
struct Meeting {
    one: Flag,
    two: Flag,
}

impl Meeting {
    fn new() -> Meeting {
        Meeting {
            one: Flag::lowered(),
            two: Flag::lowered(),
        }
    }

    // The session arrives. Whether the other session arrives in time.
    fn is_met_by(&self, session: u16) -> bool {
        let (own, other) = match session {
            1 => (&self.one, &self.two),
            _ => (&self.two, &self.one),
        };
        own.raise();
        other.comes_up()
    }
}

// A gate at which the sessions meet before they read, and again afterwards.
#[derive(Drop)]
struct ReadTogether {
    before: Meeting,
    after: Meeting,
    missed: Flag,
}

impl ReadTogether {
    fn new() -> ReadTogether {
        ReadTogether {
            before: Meeting::new(),
            after: Meeting::new(),
            missed: Flag::lowered(),
        }
    }

    fn meet(&self, meeting: &Meeting, session: u16) {
        if !meeting.is_met_by(session) {
            self.missed.raise();
        }
    }
}

// The lines that read a table.
const READS: [u64; 2] = [2, 5];

impl Gate for ReadTogether {
    fn before(&self, session: u16, line: u64) {
        if READS.contains(&line) {
            self.meet(&self.before, session);
        }
    }

    fn after(&self, session: u16, line: u64) {
        if READS.contains(&line) {
            self.meet(&self.after, session);
        }
    }
}

const SCRIPT: &str = "1 BEGIN / 1 SELECT t / 1 COMMIT / 2 BEGIN / 2 SELECT t / 2 COMMIT";

const TEXT: &str =
    "1 1 OK / 2 1 ERR 1146 / 3 1 OK / 4 2 OK / 5 2 ERR 1146 / 6 2 OK / FINAL SCHEMA test@1";

// If the sessions were played in turn, they would not meet.
#[test]
fn sessions_read_at_the_same_time(rt: HostRuntime) -> Result<(), Fail> {
    let gate = ReadTogether::new();
    let played = must_be_played_so(&rt, rt.alloc(), SCRIPT, TEXT, &gate);
    let is_missed = gate.missed.is_raised();
    drop(gate);
    played?;
    assert!(rt; !is_missed, "the sessions did not meet");
    Ok(())
}
