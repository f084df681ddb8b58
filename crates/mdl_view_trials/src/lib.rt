//! Tests of what the tools show of a table of locks.
//!
//! Everything here is for tests. `examples` has those that `mdl_view`, `mdl_view_text`, `mdl_view_program`, `mdl_lock_rows`, `mdl_picture`,
//! `mdl_page` and `mdl_timeline` show, `by_hand` small tables, with everything that is found of them worked out by hand, `jams` small jams, with the
//! ways out of them, `turns` waits that begin while sessions go on, `held` a picture of what is held, and `markup` one of a statement that no script
//! can have (`moments` makes what is drawn from rows), `pages` pages of such names and of a script, `parsed` a picture of lines that were parsed.
//! `commands/check_view.py` tests the proved program: what it prints of rows and scripts, how many there may be, and which are refused.
#![tactic(auto)]

#[cfg(test)]
mod answers;
#[cfg(test)]
mod by_hand;
#[cfg(test)]
mod client_json;
#[cfg(test)]
mod examples;
#[cfg(test)]
mod held;
#[cfg(test)]
mod jams;
#[cfg(test)]
mod markup;
#[cfg(test)]
mod moments;
#[cfg(test)]
mod pages;
#[cfg(test)]
mod parsed;
#[cfg(test)]
mod rows;
#[cfg(test)]
mod turns;
