//! Statements over a lock space that has run out of something, or in which another session has a lock: what each statement answers then, and what its
//! session holds.
//!
//! Everything here is for tests. A `room` has a session whose statements are tried, and a second one that fills locks; `rows` plays statements one
//! after another. `versions` are tables and schemas that have had their last version (9003), `places` are spaces without a place for one more key
//! (9004), and `full` are locks with as many tickets as a lock can have (9005). A session's numbers would run out only after 2^60 - 1 of them, which
//! no test reaches. `waits` are statements that are dropped while they wait.
mod full;
mod places;
mod room;
mod rows;
mod versions;
mod waits;

use crate::used_up::rows::{Story, first_wrong};
use std::alloc::Global;
use std::process::Abort;

// Fails unless all rows of a story go as they say.
fn must_go_so(rt: &impl Abort, alloc: Global, story: Story) {
    let wrong = first_wrong(alloc, story);
    assert!(rt; wrong.is_none(), "{}: row {}", story.0, wrong.unwrap_or(0));
}

// The same for all stories.
fn must_all_go_so(rt: &impl Abort, alloc: Global, stories: &[Story]) {
    for story in stories {
        must_go_so(rt, alloc, *story);
    }
}

#[test]
fn versions_are_used_up(rt: HostRuntime) {
    must_all_go_so(&rt, rt.alloc(), versions::STORIES);
}

#[test]
fn places_are_used_up(rt: HostRuntime) {
    must_all_go_so(&rt, rt.alloc(), places::STORIES);
}

#[test]
fn tickets_are_used_up(rt: HostRuntime) {
    must_all_go_so(&rt, rt.alloc(), full::STORIES);
}

#[test]
fn statements_go_on_after_their_waits(rt: HostRuntime) {
    must_all_go_so(&rt, rt.alloc(), waits::STORIES);
}
