//! Compares the search with the plain program, on random waits.
ghost use Rattle.std.specs.Prelude.{◌<◌};

use super::by_hand::{add_tie, are_of, empty_graph};
use super::plain::plain_cycle;
use crate::base::rows::is_right;
use mdl_graph::{Cycle, WaitGraph};
use std::alloc::{AllocError, Global};

const SESSIONS: &[u16] = &[1, 2, 3, 4, 5, 6];

// Pseudo-random numbers, the same in each run.
#[derive(Clone, Copy)]
struct Chance(u64);

impl Chance {
    // Draws a number below this one.
    fn draw(&mut self, below: u16) -> u16
        requires { 0 < below }
        ensures { result < below }
    {
        self.0 = self
            .0
            .wrapping_mul(6_364_136_223_846_793_005)
            .wrapping_add(1_442_695_040_888_963_407);
        ((self.0 >> 33) % u64::from(below)) as u16
    }
}

// Makes a random session wait for another, in the graph and in a list. Whether there was memory for it.
fn add_drawn(
    graph: &mut WaitGraph,
    alloc: Global,
    ties: &mut Vec<(u16, u16)>,
    chance: &mut Chance,
) -> bool {
    let waiter = chance.draw(6) + 1;
    let other = (waiter + chance.draw(5)) % 6 + 1;
    ties.push((waiter, other)).is_ok() && add_tie(graph, alloc, waiter, other)
}

// Makes `many` random waits.
fn add_many_drawn(
    graph: &mut WaitGraph,
    alloc: Global,
    ties: &mut Vec<(u16, u16)>,
    chance: &mut Chance,
    many: u16,
) -> bool {
    for _ in 0..many {
        if !add_drawn(graph, alloc, ties, chance) {
            return false;
        }
    }
    true
}

// Returns the length of the cycle that both found, 0 if both found none, or None if they differ.
fn length_of_both(found: &Option<Cycle>, plain: &Option<Vec<u16>>) -> Option<usize> {
    match (found, plain) {
        (Some(cycle), Some(sessions)) => {
            if are_of(cycle.members(), sessions) {
                Some(sessions.len())
            } else {
                None
            }
        }
        (None, None) => Some(0),
        _ => None,
    }
}

// The same for searches from one session.
fn length_found(
    alloc: Global,
    graph: &WaitGraph,
    ties: &[(u16, u16)],
    from: u16,
) -> Result<Option<usize>, AllocError> {
    let found = graph.find_cycle(from)?;
    let plain = plain_cycle(alloc, ties, SESSIONS, from)?;
    Ok(length_of_both(&found, &plain))
}

// Counts the lengths of the cycles that both find, from each session. Whether they find the same.
fn count_lengths(
    alloc: Global,
    graph: &WaitGraph,
    ties: &[(u16, u16)],
    lengths: &mut [u32; 7],
) -> bool {
    for from in SESSIONS {
        match length_found(alloc, graph, ties, *from) {
            Ok(Some(length)) if length <= 6 => {
                lengths[length] = lengths[length].saturating_add(1);
            }
            _ => return false,
        }
    }
    true
}

// The same for a graph of `many` random waits.
fn count_drawn(alloc: Global, chance: &mut Chance, many: u16, lengths: &mut [u32; 7]) -> bool {
    let mut graph = empty_graph(alloc, 0);
    let mut ties = Vec::new(alloc);
    let is_so = add_many_drawn(&mut graph, alloc, &mut ties, chance, many)
        && count_lengths(alloc, &graph, &ties, lengths);
    drop(graph);
    drop(ties);
    is_so
}

#[test]
fn finds_what_every_path_finds(rt: HostRuntime) {
    let mut chance = Chance(20_261_122);
    let mut lengths = [0_u32; 7];
    for round in 0..300_u16 {
        let right = count_drawn(rt.alloc(), &mut chance, 5 + round % 6, &mut lengths);
        is_right(&rt, usize::from(round), right);
    }
    let [none, _, two, three, four, _, _] = lengths;
    assert!(rt;
        none > 100 && two > 100 && three > 50 && four > 5,
        "{lengths:?}"
    );
}
