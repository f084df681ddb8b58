//! A session of a space that threads share is a lock space: the data that it keeps for itself (`SessionData` of `mdl_calls`), the relation of a call to the
//! session before and after it (`specs/SessionJoins`), and the laws of lock spaces that follow. A few of them are contracts here. `proofs` has each law of the
//! trait as a lemma.
//!
//! There is no code here: each law is the contract of a function that does nothing.
#![tactic(auto)]

mod happenings;
mod keys;
mod reads;
mod sessions;
mod waits;

pub use happenings::{
    keys_are_found, locks_are_had, memory_runs_out, pins_are_given_up, standings_are_changed,
    standings_are_read, waits_are_begun, waits_are_lost,
};
pub use keys::{keys_have_one_place, known_keys_stay, resolved_keys_are_known};
pub use reads::{changes_are_of_what_was_read, what_is_read_may_stand, what_is_read_stands};
pub use sessions::{
    calls_keep_sessions_sound, numbers_rise, others_change_nothing, sessions_begin_sound,
};
pub use waits::{settled_waits_are_told_so, settled_waits_stay};
