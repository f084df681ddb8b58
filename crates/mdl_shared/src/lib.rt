//! The lock space that threads share: a table of locks, and sessions, each of which makes its calls on its own thread.
//!
//! A [`Manager`] has the table, and is made together with a [`Pass`] for each session. The owner of a pass may open its session
//! ([`Session::open`]) on any thread, and gets the pass back by closing the session ([`Session::close`]).
//!
//! After MySQL 5.7, `MDL_map` and `MDL_context` of `sql/mdl.cc`; passes are this project's own.
//!
//! # Example
//!
//! ```
//! use mdl_calls::Attempt;
//! use mdl_key::{Key, Mode};
//! use mdl_shared::{Manager, Session};
//! use std::process::Abort;
//!
//! /// Closes a session that has given up all tickets and owes nothing, and answers the number of its pass.
//! fn close<R: Drop>(rt: &impl Abort, session: Session<R>) -> u16 {
//!     match session.close() {
//!         Ok(pass) => {
//!             let number = pass.number();
//!             drop(pass);
//!             number
//!         }
//!         Err(_open) => panic!(rt; "it has no ticket"),
//!     }
//! }
//!
//! let table = Key::table(rt.alloc(), "test", "orders")?;
//! let (manager, mut passes) = Manager::new(rt.alloc(), 256, 2)?; // places and sessions
//! // Each could be opened on a thread of its own.
//! let mut second = Session::open(&rt, &manager, passes.remove(1));
//! let mut first = Session::open(&rt, &manager, passes.remove(0));
//! // The key has a place, the same to both.
//! assert!(rt; first.resolve(&table) == Ok(1) && second.resolve(&table) == Ok(1));
//! // Who looks at the table keeps the other one from having it for itself.
//! let (looked, wanted) = (first.try_now(1, Mode::S), second.try_now(1, Mode::X));
//! assert!(rt; looked == Ok(Attempt::Granted(1)) && wanted == Ok(Attempt::WouldWait));
//! // Who has given up all tickets can be closed, and its pass is there again.
//! let given_up = first.release(1);
//! let numbers = (close(&rt, first), close(&rt, second));
//! assert!(rt; given_up.is_ok() && numbers == (1, 2));
//! ```
#![tactic(auto)]

mod audit;
mod begin_wait;
mod cached;
mod change_definition;
mod clone_ticket;
mod close;
mod downgrade;
mod end_wait;
mod fast_first;
mod fast_path;
mod held;
mod holdings;
mod key_of;
mod kill;
mod lock_space;
mod manager;
mod materialise;
mod member;
mod merge;
mod owes;
mod pass;
mod poll_wait;
mod read_definition;
mod read_kept;
mod release;
mod release_fast;
mod reschedule;
mod reserve_tickets;
mod resolve;
mod search;
mod session;
mod settle_timeout;
mod tables_of;
mod tickets;
mod try_fast;
mod try_now;
mod unpin;
mod upgrade_now;
mod version;
mod wait_of;
mod wait_words;
mod wishes;

pub use cached::{Cached, read_cached};
pub use close::CloseError;
pub use manager::Manager;
pub use mdl_calls::NewError;
pub use mdl_visits::{
    Audited, blocked_wishes_werent_grantable, granted_waits_were_grantable,
    granted_wishes_were_grantable, waits_left_werent_grantable,
};
pub use pass::Pass;
pub use release_fast::Released;
pub use session::Session;
pub use try_fast::Fast;
