//! A picture of a statement that no script can have, since it isn't made of names: it has characters of markup, and bytes that can't be printed.
use crate::moments::{EventRow, MomentRow, add_moments};
use crate::rows::has_all;
use mdl_picture::{Fate, Moment, picture};
use std::alloc::Global;

// What the picture shows of the statement and of its answer.
const PARTS: &[&str] = &[
    "<g><title>line 5, session 3: a&lt;b &amp; &quot;c&quot;&gt;d??: ERR 1213, victim</title>",
    ">a&lt;b &amp; &quot;c&quot;&gt;d??</text>",
];

// The statement ends.
const FAILS: EventRow = EventRow {
    line: 5,
    session: 3,
    statement: b"a<b & \"c\">d\xff\n",
    answer: b"ERR 1213, victim",
    fate: Fate::Fails,
    in_the_way: &[],
    held: &[],
};

const MOMENTS: &[MomentRow] = &[(5, 3, &[FAILS])];

// Whether the picture of some moments has these parts.
fn is_picture(alloc: Global, moments: &[Moment], parts: &[&str]) -> bool {
    match picture(alloc, moments) {
        Ok(drawn) => has_all(&drawn, parts),
        Err(_) => false,
    }
}

// Whether the picture of the statement shows its words and its answer.
fn is_shown(alloc: Global) -> bool {
    let mut moments = Vec::new(alloc);
    let right = add_moments(alloc, &mut moments, MOMENTS) && is_picture(alloc, &moments, PARTS);
    drop(moments);
    right
}

#[test]
fn nothing_in_a_statement_is_markup(rt: HostRuntime) {
    assert!(rt; is_shown(rt.alloc()));
}
