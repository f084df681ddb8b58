//! What each statement does, over any lock space, and laws of it.
//!
//! # Example
//!
//! ```
//! use mdl_rows::{ErrorNumber, Reply};
//!
//! let reply = Reply::Error(ErrorNumber::NoSuchTable);
//! assert!(rt; matches!(&reply, Reply::Error(error) if error.number() == 1146));
//! ```
#![tactic(auto)]

mod ending;
mod error_number;
mod memory_laws;
mod pins;
mod reply;
mod state;

pub use ending::Ending;
pub use error_number::ErrorNumber;
pub use memory_laws::{
    sessions_keep_their_number, statements_call_for_their_session, statements_end_tidy,
    statements_keep_the_space_sound, statements_tell_of_want, sure_statements,
};
pub use pins::{leavers_pin_nothing, statements_leave_no_pin};
pub use reply::{Reply, TableShown, TablesShown};
pub use state::{Locked, ReadLock, Savepoint};
