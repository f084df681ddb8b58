//! The rows of a server's metadata locks, read from what its client prints.
//!
//! [`read_lock_rows`] reads the rows of `performance_schema.metadata_locks`, as clients print them, and returns
//! [`LockRows`]: a [`Lock`](mdl_view::Lock) with its tickets for each locked key ([`LockKey`]), the threads that hold locks or wait for them
//! ([`Owner`]), and which rows are [`LeftOut`]. It refuses a text with a [`LockRowsError`].
//!
//! # Example
//!
//! ```
//! use mdl_key::Mode;
//! use mdl_lock_rows::{LockRowsError, RowError, read_lock_rows};
//! use mdl_view::LockMode;
//!
//! let alloc = rt.alloc();
//! let text =
//!     b"OBJECT_TYPE\tOBJECT_SCHEMA\tOBJECT_NAME\tLOCK_TYPE\tLOCK_STATUS\tOWNER_THREAD_ID\tPROCESSLIST_ID
//! TABLE\tshop\torders\tSHARED_READ\tGRANTED\t48213\t8
//! TABLE\tshop\torders\tEXCLUSIVE\tPENDING\t48300\t15
//! ";
//! let found = read_lock_rows(alloc, text)?;
//! for (key, lock) in found.keys.iter().zip(&found.locks) {
//!     assert_eq!(rt; key.name(), b"orders".as_slice());
//!     // Thread 48213 is session 1, and thread 48300 is session 2. Their tickets have the numbers of the lines.
//!     for held in lock.granted() {
//!         assert_eq!(rt;
//!             (held.session, held.number, held.mode),
//!             (1, 2, LockMode::Mdl(Mode::SR))
//!         );
//!     }
//!     for wait in lock.waiting() {
//!         assert_eq!(rt;
//!             (wait.session, wait.number, wait.mode),
//!             (2, 3, LockMode::Mdl(Mode::X))
//!         );
//!     }
//! }
//! // The connection of session 1, which `KILL` takes, is another number than its thread.
//! assert_eq!(rt;
//!     found
//!         .owners
//!         .iter()
//!         .next()
//!         .and_then(|owner| owner.connection()),
//!     Some(8)
//! );
//! // A row of too few fields is refused by the number of its line and of the field.
//! let refused = read_lock_rows(alloc, &text[..text.len() - 4]);
//! assert_eq!(rt;
//!     refused.err(),
//!     Some(LockRowsError::Refused(3, RowError::MissingField(7)))
//! );
//! ```
#![tactic(auto)]

mod changes;
mod column;
mod columns;
mod laws;
mod left_out;
mod lines;
mod lock_key;
mod lock_rows;
mod locks;
mod no_row;
mod numbering;
mod object_type;
mod other_table;
mod owner;
mod read_rows;
mod row;
mod row_class;
mod row_error;
mod server_names;

pub use column::Column;
pub use laws::no_row_is_lost;
pub use lock_key::LockKey;
pub use lock_rows::{LockRows, read_lock_rows};
pub use object_type::ObjectType;
pub use other_table::OtherTable;
pub use owner::Owner;
pub use row_class::{LeftOut, RowClass};
pub use row_error::{LockRowsError, RowError};
pub use server_names::lock_type_name;
