//! The numbers of errors.
ghost use Rattle.std.specs.Prelude.{◌≡◌};
ghost use Rattle.mdl_rows.specs.ErrorNumbers.{error_number};

/// Why a statement failed: the errors of MySQL 5.7, and from 9001 on those of this project.
#[derive(Clone, Copy, Debug, PartialEq, Eq)]
pub enum ErrorNumber {
    /// 1007: the schema exists.
    SchemaExists,
    /// 1049: the schema doesn't exist.
    UnknownDatabase,
    /// 1050: the table exists.
    TableExists,
    /// 1060: a column is named twice.
    DuplicateColumn,
    /// 1091: the table doesn't have the column to drop.
    CantDropColumn,
    /// 1099: the table is locked, but only for reading.
    TableLockedForRead,
    /// 1100: the session has locked tables, and this one isn't among them.
    TableNotLocked,
    /// 1146: the table doesn't exist.
    NoSuchTable,
    /// 1192: the session has locked tables, and the statement can't run then.
    ActiveLocks,
    /// 1205: a wait for a lock timed out.
    LockWaitTimeout,
    /// 1213: the session was the victim of a deadlock.
    Deadlock,
    /// 1223: the session has the global read lock.
    ConflictingReadLock,
    /// 1305: no savepoint has this name.
    NoSuchSavepoint,
    /// 1317: the wait was killed.
    Interrupted,
    /// 3058: the session was the victim of a deadlock while it waited for a user-level lock.
    UserLockDeadlock,
    /// 9001: the column to drop is the table's last one.
    LastColumn,
    /// 9002: the table has the greatest possible number of columns.
    TooManyColumns,
    /// 9003: the table or the schema has used all versions that it can have.
    VersionLimit,
    /// 9004: the lock space has no place left for the key, since all are in use.
    NoPlace,
    /// 9005: a lock has the greatest possible number of tickets, or a session has used all its numbers.
    Full,
}

impl ErrorNumber {
    /// The error's number.
    pub fn number(self) -> u16
        ensures { result ≡ error_number self }
    {
        match self {
            ErrorNumber::SchemaExists => 1007,
            ErrorNumber::UnknownDatabase => 1049,
            ErrorNumber::TableExists => 1050,
            ErrorNumber::DuplicateColumn => 1060,
            ErrorNumber::CantDropColumn => 1091,
            ErrorNumber::TableLockedForRead => 1099,
            ErrorNumber::TableNotLocked => 1100,
            ErrorNumber::NoSuchTable => 1146,
            ErrorNumber::ActiveLocks => 1192,
            ErrorNumber::LockWaitTimeout => 1205,
            ErrorNumber::Deadlock => 1213,
            ErrorNumber::ConflictingReadLock => 1223,
            ErrorNumber::NoSuchSavepoint => 1305,
            ErrorNumber::Interrupted => 1317,
            ErrorNumber::UserLockDeadlock => 3058,
            ErrorNumber::LastColumn => 9001,
            ErrorNumber::TooManyColumns => 9002,
            ErrorNumber::VersionLimit => 9003,
            ErrorNumber::NoPlace => 9004,
            ErrorNumber::Full => 9005,
        }
    }
}
