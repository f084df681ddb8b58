//! Tests of the base crates (`base`), and of the lock space and of contexts over it: worked examples, each of which shows one thing, and random calls.
//!
//! Everything here is for tests. Most are rows of calls with the answers that they have to give (`acts`), which a space with its sessions plays one
//! after another (`room`): the ordinary `life` of locks, `refusals`, `pins`, places given `anew`, `deadlocks`, `definitions`, held tickets in other
//! `modes`, and lack of `memory`.
//! What takes more than rows is in `trials`: the `tables` of a schema, the `books` of all places, a lock that is `full`, and `limits`. `contexts` has
//! such rows of contexts, which a `hall` plays: a space with the contexts of its sessions. `by_chance` compares contexts
//! and a space with a plain program.
//! `examples` are those of thirteen crates.
#![tactic(auto)]

#[cfg(test)]
mod acts;
#[cfg(test)]
mod anew;
#[cfg(test)]
mod base;
#[cfg(test)]
mod books;
#[cfg(test)]
mod by_chance;
#[cfg(test)]
mod contexts;
#[cfg(test)]
mod deadlocks;
#[cfg(test)]
mod definitions;
#[cfg(test)]
mod examples;
#[cfg(test)]
mod full;
#[cfg(test)]
mod hall;
#[cfg(test)]
mod life;
#[cfg(test)]
mod limits;
#[cfg(test)]
mod memory;
#[cfg(test)]
mod modes;
#[cfg(test)]
mod pins;
#[cfg(test)]
mod refusals;
#[cfg(test)]
mod room;
#[cfg(test)]
mod tables;
#[cfg(test)]
mod trials;
#[cfg(test)]
mod wishes;
