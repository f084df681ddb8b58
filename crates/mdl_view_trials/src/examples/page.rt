//! `mdl_page`: a page of one line.
use mdl_page::{LineFacts, page};
use std::test::Fail;

#[test]
fn a_line_has_its_facts(rt: HostRuntime) -> Result<(), Fail> {
    let alloc = rt.alloc();
    let mut lines = Vec::new(alloc);
    lines.push(LineFacts {
        line: 3,
        locks: Vec::from_slice(alloc, b"{\"locks\":[]}")?,
        waits: Vec::from_slice(alloc, b"{\"waits\":[]}")?,
        why: Vec::from_slice(alloc, b"{\"waits\":0}")?,
    })?;
    let text = page(alloc, b"<svg></svg>", b"# A script", &lines)?;
    let data =
        b"[{\"line\":3,\"locks\":{\"locks\":[]},\"waits\":{\"waits\":[]},\"why\":{\"waits\":0}}]";
    assert!(rt; text.starts_with(b"<!DOCTYPE html>"));
    assert!(rt;
        text.windows(data.len())
            .any(|bytes| bytes == data.as_slice())
    );
    Ok(())
}
