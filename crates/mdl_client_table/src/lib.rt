//! Tables, as a client of a MySQL server prints them.
//!
//! [`read_table`] reads what `mysql` prints with `-B`, `-t` or `-E`, or CSV, or JSON, and returns a [`Table`]: the names of the columns, and the [`Row`]s,
//! each with the number of its line. Lines above the table may be the client's own, as its prompt is: they are passed over. [`Form::begun_by`] says where
//! a table begins, and in which form. Only text in JSON may be refused, with a [`TableError`].
//!
//! # Example
//!
//! ```
//! use mdl_client_table::read_table;
//!
//! let alloc = rt.alloc();
//! let text = b"mysql> SELECT ID, USER FROM information_schema.PROCESSLIST;
//! +------+------+
//! | ID   | USER |
//! +------+------+
//! |    8 | app  |
//! +------+------+
//! 1 row in set (0.00 sec)
//! ";
//! let table = read_table(alloc, text)?;
//! for row in table.rows() {
//!     assert_eq!(rt; row.line(), 5);
//!     assert_eq!(rt; row.field(1), b"app".as_slice());
//! }
//! ```
//!
//! ```
//! use mdl_client_table::Form;
//!
//! assert_eq!(rt; Form::begun_by(b"mysql> SELECT a, b;"), None);
//! assert_eq!(rt; Form::begun_by(b"a,b\tc"), Some(Form::Commas));
//! assert_eq!(rt; Form::begun_by(b"  +---+"), Some(Form::Boxes));
//! ```
#![tactic(auto)]

mod cells;
mod commas;
mod escapes;
mod field;
mod form;
mod json_cell;
mod json_error;
mod json_reading;
mod laws;
mod lines;
mod objects;
mod pieces;
mod remarks;
mod row;
mod table;
mod vertical;

pub use field::Field;
pub use form::Form;
pub use json_error::{JsonError, JsonFault, TableError};
pub use laws::names_come_back;
pub use lines::read_table;
pub use row::Row;
pub use table::Table;
