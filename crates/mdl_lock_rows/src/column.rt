//! The columns of the server's table of metadata locks, and of the tables that it is joined with.
ghost use Rattle.std.specs.Prelude.{◌≡◌, ◌||◌, Some};
ghost use Rattle.std.specs.Str.{str_eq_ignore_ascii_case};
ghost use Rattle.mdl_lock_rows.specs.Columns.{column_name, other_name};

use std::fmt;

/// A column that is read. The first six are needed.
#[derive(Clone, Copy, Debug, PartialEq, Eq)]
pub enum Column {
    /// What kind of thing is locked.
    ObjectType,
    /// The schema that is locked, or that has the object.
    ObjectSchema,
    /// The object.
    ObjectName,
    /// The mode.
    LockType,
    /// Whether the lock is granted.
    LockStatus,
    /// The thread that holds the lock or waits for it.
    OwnerThreadId,
    /// How long the lock is kept.
    LockDuration,
    /// The thread's connection: what `KILL` takes.
    ProcesslistId,
    /// The session's user.
    User,
    /// The host that the session comes from.
    Host,
    /// What the session does: `Sleep` between statements.
    Command,
    /// For how many seconds it has done so.
    Time,
    /// The session's statement.
    Info,
    /// When the session's transaction began.
    TrxStarted,
}

impl Column {
    /// The column's name.
    pub fn as_str(self) -> &'static str
        ensures { result.now ≡ column_name self }
    {
        match self {
            Column::ObjectType => "OBJECT_TYPE",
            Column::ObjectSchema => "OBJECT_SCHEMA",
            Column::ObjectName => "OBJECT_NAME",
            Column::LockType => "LOCK_TYPE",
            Column::LockStatus => "LOCK_STATUS",
            Column::OwnerThreadId => "OWNER_THREAD_ID",
            Column::LockDuration => "LOCK_DURATION",
            Column::ProcesslistId => "PROCESSLIST_ID",
            Column::User => "USER",
            Column::Host => "HOST",
            Column::Command => "COMMAND",
            Column::Time => "TIME",
            Column::Info => "INFO",
            Column::TrxStarted => "TRX_STARTED",
        }
    }

    // The column's name in the table that it is from.
    fn other_name(self) -> &'static str
        ensures { result.now ≡ other_name self }
    {
        match self {
            Column::User => "PROCESSLIST_USER",
            Column::Host => "PROCESSLIST_HOST",
            Column::Command => "PROCESSLIST_COMMAND",
            Column::Time => "PROCESSLIST_TIME",
            Column::Info => "PROCESSLIST_INFO",
            _ => self.as_str(),
        }
    }

    /// Whether a name of a header, without blanks at its ends, is the column's.
    pub(crate) fn has_name(self, name: &[u8]) -> bool
        ensures { result ≡ (str_eq_ignore_ascii_case name.now (column_name self) || str_eq_ignore_ascii_case name.now (other_name self)) }
    {
        name.eq_ignore_ascii_case(self.as_str().as_bytes())
            || name.eq_ignore_ascii_case(self.other_name().as_bytes())
    }
}

/// The column's name.
impl fmt::Display for Column {
    ghost output = { λ column. Some (column_name column) };

    fn fmt<W: fmt::Write>(&self, f: &mut fmt::Formatter<W>) -> fmt::Result {
        f.write_str(self.as_str())
    }
}
