//! The lock space of one thread as data: books by place and seats by session (`specs/Cores`), what a call changes in them
//! (`specs/Changes`), and what each call answers and does (`specs/CoreCalls`).
//!
//! Its laws say that this space follows the system of locks, the model for readers: each call is an event of it, and then grants
//! of waiters. The program that keeps such a space is `CoreSpace` of `mdl_space`.
//!
//! # Example
//!
//! ```
//! ghost use Rattle.std.specs.Prelude.{◌≡◌, IfOk};
//! ghost use Rattle.mdl_core.specs.Words.{SpeaksFor, empty_core};
//!
//! use mdl_core::NewError;
//! use mdl_space::CoreSpace;
//! use std::alloc::Global;
//!
//! /// A space of one session, which nobody has asked for anything. The session's calls may be made.
//! fn lone_space(alloc: Global, places: u16) -> Result<CoreSpace, NewError>
//!     ensures made { IfOk result (λ space. space ≡ empty_core places 1) }
//!     ensures speaks { IfOk result (λ space. SpeaksFor space 1) }
//! {
//!     CoreSpace::new(alloc, places, 1)
//! }
//!
//! // There are 1 to 256 places in a space.
//! // One more is refused.
//! let refused = lone_space(rt.alloc(), 257);
//! assert!(rt; matches!(refused, Err(NewError::BadPlaces)));
//! ```
#![tactic(auto)]

mod core_laws;
mod pending;
mod run_laws;
mod session_laws;

pub use core_laws::{
    answers_are_determined, calls_are_events, calls_keep_sound, calls_lead_by_events,
    grants_what_is_grantable, only_new_waits_make_deadlocks, places_in_use_keep_their_keys,
    places_pins_and_numbers_follow, searches_find_deadlocks, searches_leave_no_deadlock,
    searches_suffice, searching_ends_deadlocks, upgrades_what_is_grantable,
    waiting_leaves_no_deadlock,
};
pub use mdl_calls::NewError;
pub use pending::Pending;
pub use run_laws::{frugal_runs, outcomes_are_runs, sure_runs};
pub use session_laws::{
    changes_tell_the_version, kills_just_that_wait, reads_tell_what_stands,
    refuses_changes_in_order, refuses_clones_in_order, refuses_for_cause, refuses_merges_in_order,
    refuses_new_modes_in_order, refuses_unpins_in_order, refuses_wishes_in_order,
    sessions_have_what_the_system_says,
};
