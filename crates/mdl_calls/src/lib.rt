//! The trait [`LockSpace`], and the definitions that its contracts cite: its calls and their answers (`specs/Interface`), what
//! each call promises (a file for each in `specs/calls`), the laws of spaces (`specs/SpaceLaws`), how waits are settled
//! (`specs/Waits`), and programs of calls (`specs/Runs`).
//!
//! They apply to every space: `CoreSpace` of `mdl_space` is one, and a `Session` of `mdl_shared` another.
//!
//! # Example
//!
//! ```
//! use mdl_calls::SpaceError;
//! use mdl_defs::{ChangeError, DefError};
//!
//! // A table that exists can't be created, and the call
//! // that was to create it is refused for that.
//! let cause = SpaceError::from(ChangeError::Def(DefError::Exists));
//! assert!(rt; cause == SpaceError::Def(DefError::Exists));
//! ```
#![tactic(auto)]

mod answers;
mod lock_space;
mod new_error;
mod pins;
mod space_error;

pub use answers::{
    Attempt, Begun, Ended, Held, Place, Poll, Search, Settled, TicketId, TimedOut, Upgrade,
};
pub use lock_space::LockSpace;
pub use new_error::NewError;
pub use pins::Pins;
pub use space_error::SpaceError;
