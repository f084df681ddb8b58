//! Keys and modes of metadata locks: what can be locked, in which modes, and which modes conflict.
//!
//! A [`Key`] names a lock. Its [`Namespace`] says whether it is locked as a scope or as an object ([`Kind`]). A request
//! asks for a [`Mode`]. [`conflicts_granted`] and [`conflicts_waiting`] are the two matrices of metadata locking in
//! MySQL 5.7: which held modes a request clashes with, and which pending ones it waits behind. [`at_least`] compares modes
//! by strength, [`is_obtrusive`] says which of them a lock's word can't count, and [`weight`] what a request weighs when the
//! victim of a deadlock is chosen.
//!
//! # Example
//!
//! ```
//! use mdl_key::{Key, Kind, Mode, conflicts_granted, conflicts_waiting};
//!
//! let kind = Key::table(rt.alloc(), "test", "orders")?.kind();
//! assert!(rt; kind == Kind::Object);
//! // A reader stands in the way of a change, and who reads later waits behind that.
//! assert!(rt;
//!     conflicts_granted(kind, Mode::X, Mode::SR) && conflicts_waiting(kind, Mode::SR, Mode::X)
//! );
//! // High priority waits behind nothing.
//! assert!(rt; !conflicts_waiting(kind, Mode::SH, Mode::X));
//! ```
#![tactic(auto)]

mod key;
mod key_error;
mod known_key;
mod laws;
mod limits;
mod matrix;
mod mode;
mod namespace;
mod strength;

pub use key::{Key, check_name, check_utf8_name};
pub use key_error::{KeyError, Utf8NameError};
pub use known_key::KnownKey;
pub use laws::{clashing_is_symmetric, strength_is_a_preorder, waits_only_where_it_clashes};
pub use limits::{LONGEST_NAME, LONGEST_UTF8_NAME, MOST_PLACES, MOST_SESSIONS};
pub use matrix::{conflicts_granted, conflicts_waiting, granted_row, waiting_row};
pub use mode::{Duration, Mode, ModeError};
pub use namespace::{Kind, Namespace};
pub use strength::{at_least, is_obtrusive, obtrusive_row, weight};
