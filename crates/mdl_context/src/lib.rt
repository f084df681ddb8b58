//! What a session keeps of its metadata locks: its tickets by how long they last.
//!
//! # Example
//!
//! ```
//! use mdl_context::{Acquire, Context, Request};
//! use mdl_key::{Duration, Key, Mode};
//! use mdl_space::CoreSpace;
//!
//! let orders = Key::table(rt.alloc(), "test", "orders")?;
//! let mut space = CoreSpace::new(rt.alloc(), 256, 64)?; // places and sessions
//! let mut context = Context::new(rt.alloc(), 1); // of session 1
//! let savepoint = context.savepoint();
//! let request = Request {
//!     key: &orders,
//!     mode: Mode::SR,
//!     duration: Duration::Transaction,
//! };
//! let acquired = context.acquire(&mut space, request);
//! assert!(rt; acquired == Ok(Acquire::Acquired(1)) && context.kept().len() == 1);
//! // What was gained since the savepoint is given up.
//! let given_up = context.rollback_to(&mut space, savepoint);
//! assert!(rt; given_up.is_ok() && context.kept().is_empty());
//! ```
#![tactic(auto)]

mod asking;
mod by_place;
mod context;
mod context_error;
mod going;
mod holdings;
mod kept;
mod known;
mod laws;
mod memory_laws;
mod merging;
mod numbers;
mod releasing;
mod request;
mod searches;
mod spare;
mod tidying;
mod wish_laws;
mod wishes;

pub use asking::AskResult;
pub use context::Context;
pub use context_error::ContextError;
pub use kept::{Kept, Wanted};
pub use laws::{
    calls_stay_tidy, ending_leaves_explicit, explicit_tickets_end_alone, going_back_keeps_fronts,
    going_back_to_now_keeps_all, names_are_given_up, releases_leave_tidy, statements_end_alone,
};
pub use memory_laws::{
    contexts_call_for_their_session, endings_take_no_memory, sure_endings, sure_upgrades,
    sure_waits, sure_wishes, upgrades_tell_of_want, waits_tell_of_want, wishes_tell_of_want,
};
pub use request::{Acquire, Mark, Request, Resume, Tried};
pub use wish_laws::{
    explicit_wishes_gain, tickets_are_used_again, upgrades_are_met, waits_are_met, wishes_are_met,
};
