//! Who blocks whom at a table of locks, and what an operator can do about it.
//!
//! [`blockings`] lists each waiting ticket with the tickets that block it, [`unexplained_waits`] finds the waits that no ticket explains, and
//! [`at_once`] foretells who is granted if a session or its statement is ended.
//!
//! # Example
//!
//! ```
//! use mdl_key::Mode;
//! use mdl_view::{Act, Lock, LockKind, LockMode, Ticket, at_once, blockings};
//!
//! let alloc = rt.alloc();
//! let reader = Ticket {
//!     number: 1,
//!     session: 1,
//!     mode: LockMode::Mdl(Mode::SR),
//!     of_statement: false,
//! };
//! let change = Ticket {
//!     session: 2,
//!     mode: LockMode::Mdl(Mode::X),
//!     of_statement: true,
//!     ..reader
//! };
//! let later = Ticket {
//!     session: 3,
//!     of_statement: true,
//!     ..reader
//! };
//! let mut lock = Lock::new(alloc, LockKind::Object);
//! lock.add_granted(reader)?;
//! lock.add_waiting(change)?;
//! lock.add_waiting(later)?;
//! let mut locks = Vec::new(alloc);
//! locks.push(lock)?;
//! // The reader blocks the change, and the change blocks the later reader.
//! assert_eq!(rt; blockings(alloc, &locks)?.len(), 2);
//! // If the statement of the change is ended, the later reader is granted at once.
//! let granted = at_once(alloc, &locks, Act::KillQuery(2))?;
//! assert_eq!(rt; granted[0].ticket, later);
//! ```
#![tactic(auto)]

mod act;
mod against;
mod at_lock;
mod backup_matrix;
mod blocker;
mod blocking;
mod few_sessions;
mod going_on;
mod granting;
mod held;
mod joint;
mod laws;
mod lock;
mod lock_mode;
mod sample;
mod session_set;
mod stuck;
mod ticket;
mod upgrade;
mod waits;
mod way;
mod way_laws;
mod ways_out;

pub use act::Act;
pub use at_lock::AtLock;
pub use blocker::blockers;
pub use blocking::{Blocking, Reason, blockings};
pub use going_on::in_turn;
pub use granting::at_once;
pub use held::held_by;
pub use joint::joint_waits;
pub use laws::{
    blockings_are_waits, granted_are_freed, nobody_is_forgotten, waiting_behind_is_clashing,
};
pub use lock::{Lock, locks_of};
pub use lock_mode::{BackupMode, LockKind, LockMode, lock_clashes, lock_waits_behind};
pub use stuck::stuck_waits;
pub use ticket::Ticket;
pub use upgrade::{Upgrade, by_now, upgrades};
pub use waits::{blocked_waits, unexplained_waits};
pub use way::Way;
pub use way_laws::{ends_are_determined, granted_go_on, nobody_ends_blocked};
pub use ways_out::ways;
