//! A picture of what is held: a reader, a change that waits for it, and its end. The places are worked out by hand.
use crate::moments::{EventRow, HeldRow, MomentRow, add_moments};
use crate::rows::has_all;
use mdl_picture::{Fate, Moment, picture};
use std::alloc::Global;

// The reader holds SR twice, and a lock on the whole server.
const READER: &[HeldRow] = &[
    (1, "SR", "TABLE test.t"),
    (1, "IX", "GLOBAL"),
    (1, "SR", "TABLE test.t"),
];

// Both sessions hold the table.
const BOTH: &[HeldRow] = &[
    (1, "SR", "TABLE test.t"),
    (2, "IX", "GLOBAL"),
    (2, "SU", "TABLE test.t"),
];

// The reader has ended.
const CHANGE: &[HeldRow] = &[(2, "SU", "TABLE test.t")];

// The bars: from the left side of a box to that of another, each below the boxes of its row.
const BARS: &[&str] = &[
    "<g><title>session 1 holds SR of TABLE test.t from line 1 to line 3</title>\n\
     <rect class=\"held\" x=\"88\" y=\"94\" width=\"155\" height=\"12\"></rect>\n\
     <text class=\"mode\" x=\"91\" y=\"104\">SR TABLE test.t</text>\n</g>\n",
    "<g><title>session 2 holds SU of TABLE test.t from line 2 to line 3</title>\n\
     <rect class=\"held\" x=\"124\" y=\"190\" width=\"127\" height=\"12\"></rect>\n\
     <text class=\"mode\" x=\"127\" y=\"200\">SU TABLE test.t</text>\n</g>\n",
];

// The arrows: up to the foot of the reader's row, and down to that of a session that has no box.
const ARROWS: &[&str] = &[
    "<g><title>session 2 waits for session 1 at line 2</title>\n\
     <line class=\"arrow\" x1=\"132\" y1=\"124\" x2=\"132\" y2=\"108\"></line>\n</g>\n",
    "<g><title>session 2 waits for session 3 at line 2</title>\n\
     <line class=\"arrow\" x1=\"138\" y1=\"188\" x2=\"138\" y2=\"220\"></line>\n</g>\n",
];

const READS: EventRow = EventRow {
    line: 1,
    session: 1,
    statement: b"SELECT t",
    answer: b"OK",
    fate: Fate::Ends,
    in_the_way: &[],
    held: READER,
};

const WAITS: EventRow = EventRow {
    line: 2,
    session: 2,
    statement: b"ALTER TABLE t",
    answer: b"WAIT",
    fate: Fate::Waits,
    in_the_way: &[1, 3],
    held: BOTH,
};

const ENDS: EventRow = EventRow {
    line: 3,
    session: 1,
    statement: b"COMMIT",
    answer: b"OK",
    fate: Fate::Ends,
    in_the_way: &[],
    held: CHANGE,
};

const GOES_ON: EventRow = EventRow {
    line: 2,
    session: 2,
    statement: b"",
    answer: b"OK",
    fate: Fate::Ends,
    in_the_way: &[],
    held: &[],
};

const MOMENTS: &[MomentRow] = &[(1, 1, &[READS]), (2, 2, &[WAITS]), (3, 1, &[ENDS, GOES_ON])];

// Whether a picture has two bars, besides the sign in the legend, and shows no intention lock.
fn has_two_bars(drawn: &[u8]) -> bool {
    match std::str::from_utf8(drawn) {
        Ok(text) => text.matches("class=\"held\"").count() == 3 && !text.contains("holds IX"),
        Err(_) => false,
    }
}

// Whether the picture of some moments has these parts and two bars.
fn is_picture(alloc: Global, moments: &[Moment], parts: &[&str]) -> bool {
    match picture(alloc, moments) {
        Ok(drawn) => has_all(&drawn, parts) && has_two_bars(&drawn),
        Err(_) => false,
    }
}

// The same for the picture of all moments above.
fn has_parts(alloc: Global, parts: &[&str]) -> bool {
    let mut moments = Vec::new(alloc);
    let right = add_moments(alloc, &mut moments, MOMENTS) && is_picture(alloc, &moments, parts);
    drop(moments);
    right
}

#[test]
fn what_is_held_has_bars(rt: HostRuntime) {
    assert!(rt; has_parts(rt.alloc(), BARS));
}

#[test]
fn arrows_are_set_apart(rt: HostRuntime) {
    assert!(rt; has_parts(rt.alloc(), ARROWS));
}
