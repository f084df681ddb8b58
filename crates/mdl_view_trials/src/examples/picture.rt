//! `mdl_picture`: a wait, and who is in its way.
use mdl_picture::{Event, Fate, Moment, picture};
use std::test::Fail;

#[test]
fn a_change_waits_for_a_session(rt: HostRuntime) -> Result<(), Fail> {
    let alloc = rt.alloc();
    // Session 2 waits for session 1 at line 2 of a script.
    let event = Event {
        line: 2,
        session: 2,
        statement: Vec::from_slice(alloc, b"ALTER TABLE t")?,
        answer: Vec::from_slice(alloc, b"WAIT TABLE test.t X")?,
        fate: Fate::Waits,
        in_the_way: Vec::from_slice(alloc, &[1])?,
        held: Vec::new(alloc),
    };
    let mut events = Vec::new(alloc);
    events.push(event)?;
    let mut moments = Vec::new(alloc);
    moments.push(Moment {
        line: 2,
        session: 2,
        events,
    })?;
    let text = picture(alloc, &moments)?;
    let arrow = b"<g><title>session 2 waits for session 1 at line 2</title>\n";
    assert!(rt;
        text.windows(arrow.len())
            .any(|bytes| bytes == arrow.as_slice())
    );
    Ok(())
}
