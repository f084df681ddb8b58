//! The lock space: which session holds which metadata lock, which session waits for which, and the definitions of the locks'
//! keys. Sessions are numbered.
//!
//! Code that uses the locks calls the trait [`LockSpace`]. A session resolves a key to its place ([`LockSpace::resolve`]), which pins
//! the place: while a session pins it, the place keeps the key. It requests a lock at a pinned place ([`LockSpace::try_now`],
//! [`LockSpace::begin_wait`]), and ends its wait ([`LockSpace::end_wait`]). It changes the mode of a ticket ([`LockSpace::upgrade_now`],
//! [`LockSpace::downgrade`], [`LockSpace::merge`]), reads and changes the key's definition under its tickets
//! ([`LockSpace::read_definition`], [`LockSpace::read_kept`], [`LockSpace::change_definition`]), and releases them
//! ([`LockSpace::release`]). Once it has no ticket and no wait at the place, it can give up the pin ([`LockSpace::unpin`]). It also gets
//! the key of a place ([`LockSpace::key_of`]) and the tables of a schema ([`LockSpace::tables_of`]). In contracts a call is a relation
//! of the space before it and the space after it, and what a session has is its held tickets, its wait and its pins.
//!
//! A space has a fixed number of places. Once each has a key, a new key gets a place that isn't in use: the least one that no session
//! pins and whose key never had a definition. Its old key then has no place.
//!
//! [`CoreSpace`] is the space of one thread. Each of its calls is an event of the system of locks that is the model for readers.
//! The system stays lawful, and no waiter is forgotten in it. The laws are in `mdl_system` and `mdl_core`, and re-exported here.
//!
//! # Example
//!
//! ```
//! use mdl_key::{Key, Mode};
//! use mdl_space::{Attempt, Begun, CoreSpace, Ended, LockSpace, SpaceError};
//!
//! let orders = Key::table(rt.alloc(), "test", "orders")?;
//! let mut space = CoreSpace::new(rt.alloc(), 256, 64)?; // places and sessions
//! assert!(rt; space.resolve(1, &orders) == Ok(1)); // the place of the table
//! assert!(rt; space.resolve(2, &orders) == Ok(1)); // each session that locks it pins its place
//! // Session 1 reads the table, and session 2 waits to change it.
//! assert!(rt; space.try_now(1, 1, Mode::SR) == Ok(Attempt::Granted(1)));
//! assert!(rt; space.begin_wait(2, 1, Mode::X) == Ok(Begun::Waiting(1)));
//! // The reader goes, and the change has its turn.
//! assert!(rt; space.release(1, 1).is_ok());
//! assert!(rt; space.end_wait(2) == Ok(Ended::Granted(1)));
//! // The reader needs the place no longer. The other session does, as long as it has its ticket.
//! assert!(rt; space.unpin(1, 1).is_ok());
//! assert!(rt; space.unpin(2, 1) == Err(SpaceError::InUse));
//! ```
//!
//! Three keys in a space of two places:
//!
//! ```
//! use mdl_key::{Key, Mode};
//! use mdl_space::{Attempt, CoreSpace, LockSpace, SpaceError};
//!
//! let first = Key::user_lock(rt.alloc(), "first")?;
//! let second = Key::user_lock(rt.alloc(), "second")?;
//! let third = Key::user_lock(rt.alloc(), "third")?;
//! let mut space = CoreSpace::new(rt.alloc(), 2, 1)?;
//! assert!(rt; space.resolve(1, &first) == Ok(1));
//! assert!(rt; space.resolve(1, &second) == Ok(2));
//! // The session pins both places.
//! assert!(rt; space.resolve(1, &third) == Err(SpaceError::NoPlace));
//! // Once it needs the first no longer, the third key gets that place.
//! assert!(rt; space.unpin(1, 1).is_ok());
//! assert!(rt; space.resolve(1, &third) == Ok(1));
//! assert!(rt; space.try_now(1, 1, Mode::X) == Ok(Attempt::Granted(1)));
//! assert!(rt; space.resolve(1, &first) == Err(SpaceError::NoPlace));
//! ```
#![tactic(auto)]

mod core_space;
mod granting;
mod seat;

pub use core_space::CoreSpace;
pub use mdl_calls::{
    Attempt, Begun, Ended, Held, LockSpace, NewError, Place, Poll, Search, Settled, SpaceError,
    TicketId, TimedOut, Upgrade,
};
pub use mdl_core::{
    answers_are_determined, calls_are_events, calls_keep_sound, calls_lead_by_events,
    changes_tell_the_version, grants_what_is_grantable, kills_just_that_wait,
    only_new_waits_make_deadlocks, places_in_use_keep_their_keys, places_pins_and_numbers_follow,
    reads_tell_what_stands, refuses_changes_in_order, refuses_clones_in_order, refuses_for_cause,
    refuses_merges_in_order, refuses_new_modes_in_order, refuses_unpins_in_order,
    refuses_wishes_in_order, searches_find_deadlocks, searches_leave_no_deadlock, searches_suffice,
    searching_ends_deadlocks, sessions_have_what_the_system_says, upgrades_what_is_grantable,
    waiting_leaves_no_deadlock,
};
pub use mdl_system::{
    changes_by_lists, covers_by_kind, definitions_change_exclusively, definitions_stand_still,
    events_change_held, events_concern_one_key, events_happen_where_permitted, grantable_by_lists,
    granting_comes_to_an_end, granting_there_is_enough, lawful_by_lists, more_blocks_more,
    nobody_forgotten_unless_freed, only_going_frees, others_hold_the_same, plausible_events_happen,
    steps_keep_lawful, steps_keep_well_numbered, waits_leave_held,
};
