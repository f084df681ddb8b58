//! `mdl_growth_trials` runs short lives of the crates below, and prints which of them went wrong first.
//!
//! Each life is a sequence of public calls. If a call runs out of memory, the life checks that nothing has changed, and makes the call again. So
//! it passes even if any one of its allocations is refused. The number on the command line selects that one: the program makes this number of
//! allocations before the lives. So the allocation that is refused by its number in the whole run comes by as much earlier in the lives.
//! After the lives the program makes more allocations, until one is refused. It prints where the refused one was, and so how many the lives make.
#![tactic(auto)]

mod acts;
mod alike;
mod context_acts;
mod contexts;
mod core_pair;
mod outcomes;
mod passes;
mod places;
mod scenes;
mod scripts;
mod server_rows;
mod session_pair;
mod sessions;
mod statements;

use std::alloc::Global;
use std::process::ExitCode;
use std::sync::Wait;

// How many allocations the program makes at most after the lives.
const MOST_AFTER: usize = 20_000;

fn main(rt: HostRuntime) -> ExitCode {
    let before = spend(rt.alloc(), lead_of(&rt));
    match first_wrong(&rt, rt.alloc()) {
        None => {
            let _ = println!(rt; "all went well");
            show_refused(&rt, before, spend(rt.alloc(), MOST_AFTER));
            ExitCode::SUCCESS
        }
        Some(life) => {
            let _ = println!(rt; "{life} went wrong");
            ExitCode::FAILURE
        }
    }
}

// Prints whether the refused allocation was before the lives or after them, and which one there.
fn show_refused(rt: &HostRuntime, before: Option<usize>, after: Option<usize>) {
    let _ = match (before, after) {
        (Some(at), _) => println!(rt; "refused before the lives: {at}"),
        (None, Some(at)) => println!(rt; "refused after the lives: {at}"),
        (None, None) => println!(rt; "not refused before or after the lives"),
    };
}

// Returns the number on the command line, or 0 if there is none.
fn lead_of(rt: &HostRuntime) -> usize {
    let Ok(words) = std::env::args(rt) else {
        return 0;
    };
    let mut lead = 0;
    for word in words.skip(1) {
        lead = word.parse::<usize>().unwrap_or(0);
    }
    lead
}

// Makes up to `count` allocations, until one is refused. Returns which one that is, counted from 1.
fn spend(alloc: Global, count: usize) -> Option<usize> {
    for made in 0..count {
        let mut bytes = Vec::new(alloc);
        if bytes.push(0u8).is_err() {
            return Some(made.saturating_add(1));
        }
    }
    None
}

// Returns the first life that goes wrong.
fn first_wrong<R: Wait>(rt: &R, alloc: Global) -> Option<&'static str> {
    if !sessions::calls_are_answered(rt, alloc) {
        return Some("three sessions");
    }
    if !contexts::calls_are_answered(rt, alloc) {
        return Some("two contexts");
    }
    if !contexts::pins_are_right(rt, alloc) {
        return Some("three requests");
    }
    if !places::places_are_given_anew(alloc) {
        return Some("places that are given anew");
    }
    if !server_rows::rows_are_read(alloc) {
        return Some("the rows of a server");
    }
    match scripts::first_wrong(alloc) {
        Some(script) => Some(script),
        None => scenes::first_wrong(rt, alloc),
    }
}
