//! The system of locks, the model that a reader has to agree with: who holds what, who waits for what and what is defined
//! (`specs/Systems`), what can happen in it (`specs/Events`), its deadlocks (`specs/Deadlocks`), and the laws of these.
//!
//! It has no places, no limits, and nothing of how locks are stored. A crate that stores them proves that each of its changes
//! is an event here.
//!
//! # Example
//!
//! ```
//! use mdl_key::Mode;
//! use mdl_system::{covers, may_downgrade, may_upgrade};
//!
//! // Who alters a table prepares the change in SU, makes it in X, and goes back.
//! assert!(rt; may_upgrade(Mode::SU, Mode::X) && may_downgrade(Mode::X, Mode::SU));
//! // Who only reads it can't come to change it so.
//! assert!(rt; !may_upgrade(Mode::SR, Mode::X));
//! // X serves for each wish for SR, and SR for none for X.
//! assert!(rt; covers(Mode::X, Mode::SR) && !covers(Mode::SR, Mode::X));
//! ```
#![tactic(auto)]

mod laws;
mod strength;

pub use laws::{
    changes_by_lists, covers_by_kind, definitions_change_exclusively, definitions_stand_still,
    events_change_held, events_concern_one_key, events_happen_where_permitted,
    events_make_deadlocks_by_waiting, grantable_by_lists, granting_comes_to_an_end,
    granting_there_is_enough, lawful_by_lists, more_blocks_more, nobody_forgotten_unless_freed,
    only_going_frees, others_hold_the_same, plausible_events_happen,
    runs_make_deadlocks_by_waiting, searches_end_debts, steps_keep_lawful,
    steps_keep_well_numbered, waits_leave_held,
};
pub use strength::{covers, may_downgrade, may_upgrade};
