//! Tests of the shared table, and of scripts: what a program answers and prints, over readers and writers of every habit; sessions that execute their own
//! lines; and scripts that are played with a thread for each session.
//!
//! Everything here is for tests. `shared` has those of the lock table that threads share.
//!
//! `fakes` has readers and writers that move a few bytes at a call and slip at most once: they fail, move nothing, or are interrupted. `runs` runs a
//! command line over them; `devices` lets them slip after each possible number of bytes, and `statuses` has rows of what a program answers and on which
//! stream. `faults` has the lines of faults, `matrices` the printed matrices of all modes, and `plays` a script that is played line by line.
//!
//! A `room` has a lock space of two sessions on one thread. In `works` the sessions execute their lines one after the other, or one waits for what
//! the other has locked until its patience ends; `gates` are called at each statement.
//!
//! On threads, `rows` are scripts of one session with their texts; two sessions have a gate that brings them together (`meetings`) or lets their
//! lines through in order (`turns`), by `flags`. In `versions` all sessions read tables that one of them changes, in `blocked` a session outside the
//! script keeps a table locked throughout, and in `again` the sessions of one script play a second one.
//!
//! In `used_up` statements run out of versions, places or tickets. `outcomes` are the results of statements. `examples` are those of eleven crates.
//! Other scripts, long ones, and random scripts are played by the program itself: `commands/check.py` and `fuzz/fuzz.py`.
#![tactic(auto)]

#[cfg(test)]
mod again;
#[cfg(test)]
mod blocked;
#[cfg(test)]
mod checks;
#[cfg(test)]
mod devices;
#[cfg(test)]
mod examples;
#[cfg(test)]
mod fakes;
#[cfg(test)]
mod faults;
#[cfg(test)]
mod flags;
#[cfg(test)]
mod gates;
#[cfg(test)]
mod matrices;
#[cfg(test)]
mod meetings;
#[cfg(test)]
mod outcomes;
#[cfg(test)]
mod playing;
#[cfg(test)]
mod plays;
#[cfg(test)]
mod room;
#[cfg(test)]
mod rows;
#[cfg(test)]
mod runs;
#[cfg(test)]
mod shared;
#[cfg(test)]
mod statuses;
#[cfg(test)]
mod turns;
#[cfg(test)]
mod used_up;
#[cfg(test)]
mod versions;
#[cfg(test)]
mod works;
