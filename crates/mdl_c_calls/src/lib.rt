//! What the library for C does: a [`CoreSpace`](mdl_space::CoreSpace) behind a handle in memory of the C program. The crate `mdl_c` exports each of these
//! functions under its name.
//!
//! Each function returns a code (`specs/Codes` of `mdl_c_parts`). Its contract names a call of the lock space (`specs/Exports`): the function does to the
//! manager behind the handle what that call does, and returns the code of the call's answer.
//!
//! The C program keeps a session's tickets by their numbers, or a [`Context`](mdl_context::Context) keeps them (`specs/Transactions`).
#![tactic(auto)]

mod codes;
mod context_codes;
mod handle;
mod keys;
mod listings;
mod manager;
mod mark;
mod seat;
mod spaces;
mod ticket_change;
mod tickets;
mod transactions;
mod unserved;
mod waits;

pub use handle::OneSpace;
pub use keys::{
    gaz_one_commit, gaz_one_global, gaz_one_schema, gaz_one_table, gaz_one_unpin, gaz_one_user_lock,
};
pub use listings::{
    gaz_one_held, gaz_one_key_of, gaz_one_locks, gaz_one_places, gaz_one_settled, gaz_one_woken,
};
pub use mark::Mark;
pub use spaces::{gaz_one_close, gaz_one_open_version, gaz_one_version};
pub use tickets::{
    gaz_one_clone, gaz_one_downgrade, gaz_one_merge, gaz_one_release, gaz_one_try, gaz_one_upgrade,
};
pub use transactions::{
    gaz_one_acquire, gaz_one_context_begin, gaz_one_context_downgrade, gaz_one_context_end,
    gaz_one_context_release, gaz_one_context_upgrade, gaz_one_end_statement,
    gaz_one_end_transaction, gaz_one_give_up, gaz_one_holds, gaz_one_make_explicit,
    gaz_one_make_transactional, gaz_one_release_explicit, gaz_one_release_name, gaz_one_resume,
    gaz_one_rollback_to, gaz_one_savepoint, gaz_one_set_duration, gaz_one_try_acquire,
};
pub use waits::{
    gaz_one_begin, gaz_one_end, gaz_one_kill, gaz_one_poll, gaz_one_search, gaz_one_time_out,
    gaz_one_wait_of,
};
