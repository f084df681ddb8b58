//! Tables of a server that aren't its metadata locks.
ghost use Rattle.std.specs.Prelude.{◌≡◌};
ghost use Rattle.std.specs.List.{list_any};
ghost use Rattle.mdl_lock_rows.specs.Columns.{has_name, is_called, other_table};

use mdl_client_table::Field;
use thiserror::Error;

/// A table that may be taken for that of the metadata locks.
#[derive(Clone, Copy, Debug, PartialEq, Eq, Error)]
pub enum OtherTable {
    /// `sys.schema_table_lock_waits`.
    #[error("rows of sys.schema_table_lock_waits, which pair each waiting session with all that hold the table,\nand not just with those that block it")]
    SchemaTableLockWaits,
    /// `information_schema.INNODB_TRX`.
    #[error("rows of INNODB_TRX: it has no metadata locks")]
    InnodbTrx,
    /// `information_schema.METADATA_LOCK_INFO` of MariaDB, alone or with a process list.
    #[error("rows of METADATA_LOCK_INFO:\nit has the locks that are held, and not who waits")]
    MetadataLockInfo,
    /// `SHOW PROCESSLIST`, or a table with its columns.
    #[error("rows of a process list: it has no locks")]
    Processlist,
}

/// Returns the other table that has these columns.
pub(crate) fn other_table(names: &[Field]) -> Option<OtherTable>
    ensures { result ≡ other_table names.now }
{
    if has_name(names, b"waiting_thread_id") {
        Some(OtherTable::SchemaTableLockWaits)
    } else if has_name(names, b"trx_state") {
        Some(OtherTable::InnodbTrx)
    } else if has_name(names, b"LOCK_MODE") && has_name(names, b"TABLE_SCHEMA") {
        Some(OtherTable::MetadataLockInfo)
    } else if has_name(names, b"Id") && has_name(names, b"Command") {
        Some(OtherTable::Processlist)
    } else {
        None
    }
}

/// Whether a column is called so.
pub(crate) fn has_name(names: &[Field], name: &[u8]) -> bool
    ensures { result ≡ has_name names.now name.now }
{
    names
        .iter()
        .any(|other| other.trimmed().eq_ignore_ascii_case(name))
}
