//! `mdl_stmt`: the statements of a session.
use mdl_space::CoreSpace;
use mdl_stmt::{Progress, Reply, Runner};
use mdl_syntax::{Line, parse};
use std::alloc::Global;
use std::test::Fail;

/// Whether the last of some statements reads tables. All are of session 1, which is alone in its space.
fn reads_at_last<'s>(alloc: Global, lines: &'s [Line]) -> bool {
    let Ok(mut space) = CoreSpace::new(alloc, 256, 64) else {
        return false;
    };
    let Ok(mut runner) = Runner::new(alloc, 1, 64) else {
        return false;
    };
    let mut reads = false;
    for line in lines {
        if runner.is_waiting() {
            break;
        }
        let progress = runner.start(&mut space, &line.statement);
        reads = matches!(&progress, Ok(Progress::Done(Reply::Columns(_))));
    }
    runner.leave(&mut space);
    reads
}

#[test]
fn a_session_runs_its_statements(rt: HostRuntime) -> Result<(), Fail> {
    let alloc = rt.alloc();
    let text = b"1 CREATE SCHEMA shop\n1 CREATE TABLE shop.orders id\n1 SELECT shop.orders\n";
    let script = parse(alloc, text)?;
    assert!(rt; reads_at_last(alloc, script.lines()));
    Ok(())
}
