//! The contents of a row.
ghost use Rattle.std.specs.Prelude.{◌≡◌};
ghost use Rattle.mdl_lock_rows.specs.ServerNames.{status_name, is_granted, is_settled, is_waiting};

use crate::lock_key::LockKey;
use crate::object_type::ObjectType;
use crate::owner::Owner;
use crate::row_class::RowClass;
use mdl_key::Duration;
use mdl_view::LockMode;

/// The status of a lock or of a wait for it.
#[derive(Clone, Copy, Debug, PartialEq, Eq)]
pub enum Status {
    /// The lock is held.
    Granted,
    /// The lock is waited for.
    Pending,
    /// The wait is over: its session was chosen to break a deadlock.
    Victim,
    /// The wait is over: it took too long.
    Timeout,
    /// The wait is over: its statement or its session was killed.
    Killed,
    /// The storage engines are being asked before the lock is acquired: it is waited for, and not held yet.
    PreAcquireNotify,
    /// The storage engines are being informed of the release: the lock is neither held nor waited for any more.
    PostReleaseNotify,
}

impl Status {
    /// Returns the server's name of the status.
    pub(crate) fn as_str(self) -> &'static str
        ensures { result.now ≡ status_name self }
    {
        match self {
            Status::Granted => "GRANTED",
            Status::Pending => "PENDING",
            Status::Victim => "VICTIM",
            Status::Timeout => "TIMEOUT",
            Status::Killed => "KILLED",
            Status::PreAcquireNotify => "PRE_ACQUIRE_NOTIFY",
            Status::PostReleaseNotify => "POST_RELEASE_NOTIFY",
        }
    }

    /// Whether the status is that of a held lock.
    pub(crate) fn is_granted(self) -> bool
        ensures { result ≡ is_granted self }
    {
        matches!(self, Status::Granted)
    }

    /// Whether the status is that of a wait that isn't over.
    pub(crate) fn is_waiting(self) -> bool
        ensures { result ≡ is_waiting self }
    {
        matches!(self, Status::Pending | Status::PreAcquireNotify)
    }

    /// Whether the status is that of a wait that is over without a grant.
    pub(crate) fn is_settled(self) -> bool
        ensures { result ≡ is_settled self }
    {
        matches!(self, Status::Victim | Status::Timeout | Status::Killed)
    }
}

/// What is locked, and the mode in which it is held or requested.
#[derive(Clone, Copy)]
pub(crate) struct Request {
    pub(crate) object_type: ObjectType,
    pub(crate) mode: LockMode,
}

/// A row of the table: a thread holds a lock, or waits for it.
#[derive(Drop)]
pub(crate) struct Row {
    /// The number of its line, counted from 1.
    pub(crate) line: u64,
    /// The locked key.
    pub(crate) key: LockKey,
    /// The mode of the lock.
    pub(crate) mode: LockMode,
    /// How long the lock is kept, if the rows say so.
    pub(crate) duration: Option<Duration>,
    /// The status of the lock.
    pub(crate) status: Status,
    /// The thread that holds the lock or waits for it, and what the row says of it.
    pub(crate) owner: Owner,
}

/// A row that is left out.
#[derive(Drop)]
pub(crate) struct OtherRow {
    /// Its object type and its lock type.
    pub(crate) class: RowClass,
    /// Whether it waits.
    pub(crate) is_waiting: bool,
}

/// What a row of a text says.
#[derive(Drop)]
pub(crate) enum Line {
    /// A row that is kept.
    Kept(Row),
    /// A row that is left out: of another object type or lock type, or of a mode that the object type's locks don't use. Whether it waits.
    LeftOut(RowClass, bool),
}
