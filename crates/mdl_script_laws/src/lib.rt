//! Laws of whole scripts: what a reader may rely on after any line of any script. Each is proved as the contract of a function that
//! does nothing.
//!
//! # Example
//!
//! ```
//! ghost use Rattle.std.specs.Prelude.{◌≡◌, ℕ, List, take, Ok};
//! ghost use Rattle.mdl_core.specs.CoreSystems.{system_of};
//! ghost use Rattle.mdl_script.specs.Worlds.{script_played};
//! ghost use Rattle.mdl_syntax.specs.declared.script.Line.{Line};
//! ghost use Rattle.mdl_syntax.specs.Scripts.{parsed};
//! ghost use Rattle.mdl_system.specs.Deadlocks.{HasNoDeadlock};
//!
//! use mdl_script::{Fault, replay};
//! use mdl_script_laws::no_deadlock_stands;
//! use std::alloc::Global;
//!
//! /// What is answered to a script. No deadlock stands after any number of its lines.
//! fn answers_to(alloc: Global, script: &[u8]) -> Result<Vec<u8>, Fault>
//!     ensures { (lines : List Line) → parsed script.now ≡ Ok lines
//!         → (n : ℕ) → HasNoDeadlock (system_of (script_played (take n lines)).world.core) }
//! {
//!     no_deadlock_stands(); // a law is called for its clause, and does nothing
//!     let mut reader = script;
//!     let mut answers = Vec::new(alloc);
//!     replay(alloc, &mut reader, &mut answers)?;
//!     Ok(answers)
//! }
//!
//! // As session 1 asks for the first table, the drop waits for it at the second.
//! let script =
//!     "1 CREATE TABLE a x\n1 CREATE TABLE b x\n1 BEGIN\n1 SELECT b\n2 DROP TABLE a b\n1 SELECT a\n";
//! let answers = answers_to(rt.alloc(), script.as_bytes())?;
//! assert!(rt; answers.ends_with(b"6 1 ERR 1213\n5 2 OK\n"));
//! ```
#![tactic(auto)]

mod changes;
mod deadlocks;
mod orders;
mod refusals;
mod shown;
mod turns;

pub use changes::{
    failures_change_nothing, statements_check_before_they_change, waiters_have_one_left,
};
pub use deadlocks::no_deadlock_stands;
pub use orders::keys_stand_in_order;
pub use refusals::{
    early_errors_change_nothing, idle_sessions_are_tidy, refused_lines_change_nothing,
    sessions_stay_tidy,
};
pub use shown::{transactions_keep_what_they_saw, transactions_see_one_definition};
pub use turns::{
    more_turns_do_nothing, nobody_is_left_settled, statements_ask_for_few_locks,
    statements_tell_of_few_waits, statements_wait_in_the_space, turns_suffice,
};
