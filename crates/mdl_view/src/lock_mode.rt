//! The kinds and modes of locks: those of MySQL 5.7, and those of the lock that MariaDB takes for backups.
ghost use Rattle.std.specs.Prelude.{◌≡◌};
ghost use Rattle.mdl_view.specs.Modes.{backup_mode_name, lock_clashes, lock_kind_of, lock_mode_name, lock_waits_behind};

use crate::backup_matrix::{backup_clashes, backup_waits_behind};
use mdl_key::{Kind, Mode, conflicts_granted, conflicts_waiting};

/// A mode of MariaDB's lock of backups.
///
/// After MariaDB 10.5, the modes `MDL_BACKUP_..` of `sql/mdl.h`, in whose order they are listed.
#[derive(Clone, Copy, Debug, PartialEq, Eq)]
pub enum BackupMode {
    /// A backup begins: no other one may.
    Start,
    /// New changes of tables without transactions are blocked.
    Flush,
    /// Running changes of tables without transactions are waited for.
    WaitFlush,
    /// New changes of definitions are blocked.
    WaitDdl,
    /// Commits are blocked.
    WaitCommit,
    /// `FLUSH TABLES WITH READ LOCK` blocks statements that change something.
    Ftwrl1,
    /// `FLUSH TABLES WITH READ LOCK` blocks commits, too.
    Ftwrl2,
    /// A statement changes tables without transactions.
    Dml,
    /// A statement changes tables with transactions.
    TransDml,
    /// A statement changes tables of the system.
    SysDml,
    /// A statement changes definitions.
    Ddl,
    /// New changes of definitions are blocked for one table.
    BlockDdl,
    /// `ALTER TABLE` copies rows.
    AlterCopy,
    /// A transaction commits.
    Commit,
}

/// The mode of a lock.
#[derive(Clone, Copy, Debug, PartialEq, Eq)]
pub enum LockMode {
    /// A mode of MySQL 5.7.
    Mdl(Mode),
    /// A mode of MariaDB's lock of backups.
    Backup(BackupMode),
}

/// What decides which modes of a lock clash.
#[derive(Clone, Copy, Debug, PartialEq, Eq)]
pub enum LockKind {
    /// A scope that contains other things: it has the matrices of scoped locks.
    Scoped,
    /// A single thing, such as a table: it has the matrices of object locks.
    Object,
    /// MariaDB's lock of backups, which has matrices of its own.
    Backup,
}

impl LockKind {
    /// Returns the kind of the locks of MySQL 5.7 that are of this kind.
    pub fn of_kind(kind: Kind) -> LockKind
        ensures { result ≡ lock_kind_of kind }
    {
        match kind {
            Kind::Scoped => LockKind::Scoped,
            Kind::Object => LockKind::Object,
        }
    }
}

impl BackupMode {
    /// Returns the mode's name, as MariaDB's rows have it.
    pub fn as_str(self) -> &'static str
        ensures { result.now ≡ backup_mode_name self }
    {
        match self {
            BackupMode::Start => "BACKUP_START",
            BackupMode::Flush => "BACKUP_FLUSH",
            BackupMode::WaitFlush => "BACKUP_WAIT_FLUSH",
            BackupMode::WaitDdl => "BACKUP_WAIT_DDL",
            BackupMode::WaitCommit => "BACKUP_WAIT_COMMIT",
            BackupMode::Ftwrl1 => "BACKUP_FTWRL1",
            BackupMode::Ftwrl2 => "BACKUP_FTWRL2",
            BackupMode::Dml => "BACKUP_DML",
            BackupMode::TransDml => "BACKUP_TRANS_DML",
            BackupMode::SysDml => "BACKUP_SYS_DML",
            BackupMode::Ddl => "BACKUP_DDL",
            BackupMode::BlockDdl => "BACKUP_BLOCK_DDL",
            BackupMode::AlterCopy => "BACKUP_ALTER_COPY",
            BackupMode::Commit => "BACKUP_COMMIT",
        }
    }
}

impl LockMode {
    /// Returns the mode's name: as `SR`, or as `BACKUP_DDL`.
    pub fn as_str(self) -> &'static str
        ensures { result.now ≡ lock_mode_name self }
    {
        match self {
            LockMode::Mdl(mode) => mode.as_str(),
            LockMode::Backup(mode) => mode.as_str(),
        }
    }
}

/// Whether a request for `ask` may not be granted while another session holds `held`, at a lock of this kind.
pub fn lock_clashes(kind: LockKind, ask: LockMode, held: LockMode) -> bool
    ensures { result ≡ lock_clashes kind ask held }
{
    match (kind, ask, held) {
        (LockKind::Scoped, LockMode::Mdl(ask), LockMode::Mdl(held)) => conflicts_granted(
            Kind::Scoped,
            ask,
            held,
        ),
        (LockKind::Object, LockMode::Mdl(ask), LockMode::Mdl(held)) => conflicts_granted(
            Kind::Object,
            ask,
            held,
        ),
        (LockKind::Backup, LockMode::Backup(ask), LockMode::Backup(held)) => backup_clashes(
            ask, held,
        ),
        _ => false,
    }
}

/// Whether a request for `ask` waits while another session's request for `pending` waits, at a lock of this kind.
pub fn lock_waits_behind(kind: LockKind, ask: LockMode, pending: LockMode) -> bool
    ensures { result ≡ lock_waits_behind kind ask pending }
{
    match (kind, ask, pending) {
        (LockKind::Scoped, LockMode::Mdl(ask), LockMode::Mdl(pending)) => conflicts_waiting(
            Kind::Scoped,
            ask,
            pending,
        ),
        (LockKind::Object, LockMode::Mdl(ask), LockMode::Mdl(pending)) => conflicts_waiting(
            Kind::Object,
            ask,
            pending,
        ),
        (LockKind::Backup, LockMode::Backup(ask), LockMode::Backup(pending)) => backup_waits_behind(
            ask, pending,
        ),
        _ => false,
    }
}
