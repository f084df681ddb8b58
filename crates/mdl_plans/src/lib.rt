//! Statements as plans.
//!
//! # Example
//!
//! ```
//! use mdl_plans::{Standing, Step, plan_of};
//! use mdl_syntax::Statement;
//!
//! let mut standing = Standing {
//!     has_locked_tables: false,
//!     has_read_lock: false,
//! };
//! let begin = plan_of(standing, &Statement::Begin);
//! assert!(rt; matches!(begin, [Step::Commit, Step::UnlockTables, Step::Open]));
//! // A session that has the global read lock asks for it once more, and gets no locks.
//! standing.has_read_lock = true;
//! let flush = plan_of(standing, &Statement::FlushTablesWithReadLock);
//! assert!(rt; matches!(flush, [Step::NoLockedTables, Step::Commit]));
//! ```
#![tactic(auto)]

mod laws;
mod plans;
mod step;

pub use laws::{plans_are_statements, plans_go_on, plans_start_alike, sessions_go_on_alike};
pub use plans::{
    ALTER_COPY, ALTER_HELD, ALTER_INPLACE, BEGIN, COMMIT, CREATE_SCHEMA, CREATE_TABLE, DROP_SCHEMA,
    DROP_TABLES, FLUSH, FLUSH_AGAIN, GET_LOCK, KILL_QUERY, LOCK_TABLES, RELEASE_LOCK, RENAME_TABLE,
    ROLLBACK, ROLLBACK_TO, SAVEPOINT, SELECT, SELECT_HELD, Standing, TIMEOUT, UNLOCK_TABLES, WRITE,
    WRITE_HELD, WRITE_LOW, plan_of,
};
pub use step::{Act, Keys, Manner, Step};
