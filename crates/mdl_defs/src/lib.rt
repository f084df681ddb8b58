//! Definitions of schemas and tables, and how they are changed.
//!
//! A [`Definition`] is a schema, or a table with its [`Columns`] in order. A statement that creates, drops or alters one
//! asks for a [`Change`]. [`apply`] returns the definition after the change, or why the change is refused. A [`VersionedDefinition`]
//! is a key's version, with its definition if there is one. Each change raises the version by one.
//!
//! # Example
//!
//! ```
//! use mdl_defs::{Change, ChangeError, Column, Columns, DefError, Definition, VersionedDefinition};
//! use mdl_key::Namespace;
//!
//! let alloc = rt.alloc();
//! let note = Column::new(alloc, "note")?;
//! let mut columns = Columns::new(alloc);
//! columns.push(Column::new(alloc, "id")?)?;
//! let create = Change::Create(Definition::Table(columns));
//! let add = Change::AddColumn(note);
//! let mut table = VersionedDefinition::new();
//! assert!(rt; table.change(alloc, Namespace::Table, &create) == Ok(1)); // the table's version
//! assert!(rt; table.change(alloc, Namespace::Table, &add) == Ok(2));
//! // The table has the column already, and nothing changes.
//! let refused = table.change(alloc, Namespace::Table, &add);
//! assert!(rt; refused == Err(ChangeError::Def(DefError::DuplicateColumn)) && table.version == 2);
//! ```
#![tactic(auto)]

mod change;
mod change_error;
mod columns;
mod def_cache;
mod def_error;
mod definition;
mod laws;
mod reading;
mod versioned_definition;

pub use change::{Change, apply};
pub use change_error::ChangeError;
pub use columns::{Column, Columns};
pub use def_cache::{CacheError, DefCache, MOST_KEPT};
pub use def_error::DefError;
pub use definition::{Definition, MOST_COLUMNS};
pub use laws::{changes_keep_standing, changes_keep_well_formed};
pub use reading::Reading;
pub use versioned_definition::VersionedDefinition;
