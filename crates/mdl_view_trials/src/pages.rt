//! Pages: names that no script can have, since they aren't made of letters, digits and `_`, and comments stay texts, and lines are in order.
use crate::rows::has_all;
use mdl_page::{LineFacts, page};
use mdl_view_program::draw_page;
use std::alloc::{AllocError, Global};

// A lock's name that would end the data's element, and the page's text and data of two lines with it.
const HOSTILE: &[u8] = b"{\"lock\":\"</script><script>alert(1)</script>\"}";

const DATA: &[&str] = &[
    "<pre id='source'>\n# &lt;/pre> &amp; &lt;b>\n</pre>",
    "\n[{\"line\":3,\"locks\":{\"lock\":\"\\u003c/script>\\u003cscript>alert(1)\\u003c/script>\"},\"waits\":1,\"why\":{}},\n{\"line\":18446744073709551615,\"locks\":",
    ",\"waits\":1,\"why\":{}}]\n</script>",
];

// What a script's page has: its frame, its picture, and its data.
const PARTS: &[&str] = &[
    "<!DOCTYPE html>\n<html lang='en'>\n",
    "<svg xmlns=",
    "<script type='application/json' id='data'>\n[{\"line\":1,\"locks\":{\"version\":1,\"locks\":[",
    ",\n{\"line\":2,\"locks\":",
    "\"ways\":[{\"act\":\"KILL\",\"session\":1,",
    "</body>\n</html>\n",
];

// The facts of a line with that name.
fn hostile_facts(alloc: Global, line: u64) -> Result<LineFacts, AllocError> {
    Ok(LineFacts {
        line,
        locks: Vec::from_slice(alloc, HOSTILE)?,
        waits: Vec::from_slice(alloc, b"1")?,
        why: Vec::from_slice(alloc, b"{}")?,
    })
}

// The page of two lines with that name.
fn hostile_page(alloc: Global) -> Result<Vec<u8>, AllocError> {
    let mut lines = Vec::new(alloc);
    for line in [3, u64::MAX] {
        lines.push(hostile_facts(alloc, line)?)?;
    }
    page(alloc, b"<svg></svg>\n", b"# </pre> & <b>\n", &lines)
}

// Whether its data is as it should be.
fn is_kept(alloc: Global) -> bool {
    match hostile_page(alloc) {
        Ok(text) => has_all(&text, DATA),
        Err(AllocError) => false,
    }
}

// Whether the page of a script has its parts.
fn is_page(alloc: Global) -> bool {
    let mut script = b"1 GET_LOCK a\n2 GET_LOCK a\n".as_slice();
    let mut output = Vec::new(alloc);
    let end = draw_page(alloc, u64::MAX, &mut script, &mut output);
    end.is_ok() && has_all(&output, PARTS)
}

#[test]
fn hostile_names_stay_in_the_data(rt: HostRuntime) {
    assert!(rt; is_kept(rt.alloc()));
}

#[test]
fn a_page_has_its_parts(rt: HostRuntime) {
    assert!(rt; is_page(rt.alloc()));
}
