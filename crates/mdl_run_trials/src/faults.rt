//! Faults with their lines and exit statuses, and the fault that a run ends with if a device fails.
use crate::checks::is_right;
use crate::fakes::{Habit, SOUND, Slip, Source, Target};
use mdl_key::Kind;
use mdl_lines::{Fault, LineError, report};
use mdl_lock::lock_run;
use mdl_script::replay;
use std::alloc::Global;
use std::io::ErrorKind;

const FAULTS: &[(Fault, &str, u8)] = &[
    (
        Fault::Refused(7, LineError::BadWord),
        "line 7: BadWord\n",
        1,
    ),
    (Fault::Memory, "fault: memory\n", 3),
    (Fault::Read, "fault: device\n", 3),
    (Fault::Write, "fault: device\n", 3),
];

// Whether a fault gives this status and, on a writer that slips after `bytes` bytes, exactly the first `bytes` bytes of its line.
fn is_told(alloc: Global, (fault, line, status): (Fault, &str, u8), bytes: usize) -> bool {
    let slip = Slip::Fails(ErrorKind::BrokenPipe);
    let mut errors = Target::new(alloc, Habit::steps_of(3).slips_after(bytes, slip));
    report(&fault, &mut errors) == status
        && errors.taken.len() == bytes
        && line.as_bytes().starts_with(&errors.taken)
}

// The status is the same when the line can't be written to its end. Each line is also written whole.
#[test]
fn faults_are_told(rt: HostRuntime) {
    for row in FAULTS {
        for bytes in 0..=row.1.len() {
            is_right(&rt, row.1, bytes, is_told(rt.alloc(), *row, bytes));
        }
    }
}

// The outcome of a replay over devices of these habits.
fn end_of_replay(alloc: Global, input: Habit, output: Habit) -> Result<(), Fault> {
    let mut source = Source::new(b"1 BEGIN\n1 COMMIT\n", input);
    let mut target = Target::new(alloc, output);
    replay(alloc, &mut source, &mut target)
}

// The outcome of a script of one lock over devices of these habits.
fn end_of_lock(alloc: Global, input: Habit, output: Habit) -> Result<(), Fault> {
    let mut source = Source::new(b"1 SR\n1 RELEASE\n", input);
    let mut target = Target::new(alloc, output);
    lock_run(alloc, Kind::Object, &mut source, &mut target)
}

// Whether both end with this fault.
fn end_with(alloc: Global, input: Habit, output: Habit, fault: Fault) -> bool {
    end_of_replay(alloc, input, output) == Err(fault)
        && end_of_lock(alloc, input, output) == Err(fault)
}

// The line of a fault doesn't say which device failed. The fault itself does.
#[test]
fn a_device_that_fails_is_named(rt: HostRuntime) {
    let broken = SOUND.slips_after(5, Slip::Fails(ErrorKind::BrokenPipe));
    let full = SOUND.slips_after(5, Slip::Fails(ErrorKind::OutOfMemory));
    assert!(rt; end_with(rt.alloc(), broken, SOUND, Fault::Read));
    assert!(rt; end_with(rt.alloc(), full, SOUND, Fault::Memory));
    assert!(rt; end_with(rt.alloc(), SOUND, broken, Fault::Write));
}
