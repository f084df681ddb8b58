//! Statements.
ghost use Rattle.std.specs.Prelude.{◌≡◌};

use crate::{Name, TableLocks, Tables};
use mdl_defs::{Change, Columns};
use mdl_key::Key;
use std::alloc::AllocError;

/// What a line asks a session to do.
#[derive(Drop)]
pub enum Statement {
    /// `BEGIN` or `START TRANSACTION`.
    Begin,
    /// `COMMIT`.
    Commit,
    /// `ROLLBACK`.
    Rollback,
    /// `SAVEPOINT` and its name.
    Savepoint(Name),
    /// `ROLLBACK TO` the savepoint of a name.
    RollbackTo(Name),
    /// `SELECT` of 1 to 8 tables.
    Select(Tables),
    /// `INSERT`, `UPDATE` or `DELETE`, which lock alike.
    Write {
        /// The table written to.
        table: Key,
        /// Whether the write has `LOW_PRIORITY`.
        priority: Priority,
    },
    /// `CREATE TABLE`, with 1 to [`MOST_COLUMNS`](mdl_defs::MOST_COLUMNS) columns, which may be named twice.
    CreateTable {
        /// The new table.
        table: Key,
        /// Its columns, in order.
        columns: Columns,
    },
    /// `CREATE SCHEMA` and its name.
    CreateSchema(Name),
    /// `DROP TABLE` of 1 to 8 tables.
    DropTables(Tables),
    /// `DROP SCHEMA` and its name.
    DropSchema(Name),
    /// `RENAME TABLE` of one table to another name.
    RenameTable {
        /// The table, by its present name.
        from: Key,
        /// Its new name.
        to: Key,
    },
    /// `UNLOCK TABLES`: the locked tables and the global read lock are released.
    UnlockTables,
    /// `FLUSH TABLES WITH READ LOCK`: the session gets the global read lock.
    FlushTablesWithReadLock,
    /// `ALTER TABLE`.
    AlterTable(Alteration),
    /// `LOCK TABLES` of 1 to 8 tables.
    LockTables(TableLocks),
    /// `KILL QUERY` of a session, from 1 to [`MOST_SESSIONS`](mdl_key::MOST_SESSIONS).
    KillQuery(u16),
    /// `TIMEOUT`: the session's own wait times out.
    Timeout,
    /// `GET_LOCK` and the name of a user-level lock.
    GetLock(Name),
    /// `RELEASE_LOCK` and the name of a user-level lock.
    ReleaseLock(Name),
}

impl Clone for Statement {
    ghost is_clone = { λ statement copy. copy ≡ statement };

    fn clone(&self) -> Result<Statement, AllocError> {
        match self {
            Statement::Begin => Ok(Statement::Begin),
            Statement::Commit => Ok(Statement::Commit),
            Statement::Rollback => Ok(Statement::Rollback),
            Statement::Savepoint(name) => Ok(Statement::Savepoint(name.clone()?)),
            Statement::RollbackTo(name) => Ok(Statement::RollbackTo(name.clone()?)),
            Statement::Select(tables) => Ok(Statement::Select(tables.clone()?)),
            Statement::Write { table, priority } => Ok(Statement::Write {
                table: table.clone()?,
                priority: *priority,
            }),
            Statement::CreateTable { table, columns } => Ok(Statement::CreateTable {
                table: table.clone()?,
                columns: columns.clone()?,
            }),
            Statement::CreateSchema(name) => Ok(Statement::CreateSchema(name.clone()?)),
            Statement::DropTables(tables) => Ok(Statement::DropTables(tables.clone()?)),
            Statement::DropSchema(name) => Ok(Statement::DropSchema(name.clone()?)),
            Statement::RenameTable { from, to } => Ok(Statement::RenameTable {
                from: from.clone()?,
                to: to.clone()?,
            }),
            Statement::UnlockTables => Ok(Statement::UnlockTables),
            Statement::FlushTablesWithReadLock => Ok(Statement::FlushTablesWithReadLock),
            Statement::AlterTable(alteration) => Ok(Statement::AlterTable(alteration.clone()?)),
            Statement::LockTables(tables) => Ok(Statement::LockTables(tables.clone()?)),
            Statement::KillQuery(target) => Ok(Statement::KillQuery(*target)),
            Statement::Timeout => Ok(Statement::Timeout),
            Statement::GetLock(name) => Ok(Statement::GetLock(name.clone()?)),
            Statement::ReleaseLock(name) => Ok(Statement::ReleaseLock(name.clone()?)),
        }
    }
}

/// What `ALTER TABLE` asks for.
#[derive(Drop)]
pub struct Alteration {
    /// The table.
    pub table: Key,
    /// The column that it gains or loses.
    pub change: Change,
    /// How the table is altered.
    pub algorithm: Algorithm,
}

impl Clone for Alteration {
    ghost is_clone = { λ alteration copy. copy ≡ alteration };

    fn clone(&self) -> Result<Alteration, AllocError> {
        Ok(Alteration {
            table: self.table.clone()?,
            change: self.change.clone()?,
            algorithm: self.algorithm,
        })
    }
}

/// How a table is altered: MySQL's `ALGORITHM`.
#[derive(Clone, Copy, Debug, PartialEq, Eq)]
pub enum Algorithm {
    /// Its rows are copied to a new table, while it can be read.
    Copy,
    /// It is altered in place, while it can be read and written.
    Inplace,
}

/// What a table is locked for.
#[derive(Clone, Copy, Debug, PartialEq, Eq)]
pub enum LockType {
    /// To be read: `READ`.
    Read,
    /// To be read and written: `WRITE`.
    Write,
}

/// The priority of a write over reads that wait.
#[derive(Clone, Copy, Debug, PartialEq, Eq)]
pub enum Priority {
    /// Without `LOW_PRIORITY`.
    Normal,
    /// With `LOW_PRIORITY`.
    Low,
}
