//! Tests of the shared lock table's steps: tables are made, sessions enrol, and two threads take a latch. `rows` have what `visitors` do at a
//! place, and what its `words` are.
mod fast_tickets;
mod rows;
mod threads;
mod visitors;
mod visits;
mod words;
