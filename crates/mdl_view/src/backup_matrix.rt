//! The matrices of the lock that MariaDB takes for backups.
//!
//! After MariaDB 10.5, `MDL_backup_lock::m_granted_incompatible` and `m_waiting_incompatible` of `sql/mdl.cc`.
ghost use Rattle.std.specs.Prelude.{◌≡◌};
ghost use Rattle.std.specs.List.{list_any};
ghost use Rattle.mdl_view.specs.Modes.{backup_granted_conflicts, backup_waiting_conflicts, same_backup_mode};

use crate::lock_mode::BackupMode;
use crate::lock_mode::BackupMode::{
    AlterCopy, BlockDdl, Commit, Ddl, Dml, Flush, Ftwrl1, Ftwrl2, Start, SysDml, TransDml,
    WaitCommit, WaitDdl, WaitFlush,
};

/// Whether two modes of the lock of backups clash.
pub(crate) fn backup_clashes(ask: BackupMode, held: BackupMode) -> bool
    ensures { result ≡ list_any (same_backup_mode held) (backup_granted_conflicts ask) }
{
    match ask {
        Start => matches!(
            held,
            Start | Flush | WaitFlush | WaitDdl | WaitCommit | BlockDdl
        ),
        Flush => matches!(held, Start),
        WaitFlush => matches!(held, Start | Dml),
        WaitDdl => matches!(held, Start | Dml | Ddl),
        WaitCommit => matches!(held, Start | Dml | SysDml | Ddl | Commit),
        Ftwrl1 => matches!(held, Dml | TransDml | SysDml | Ddl | AlterCopy),
        Ftwrl2 => matches!(held, Dml | TransDml | SysDml | Ddl | AlterCopy | Commit),
        Dml => matches!(
            held,
            Flush | WaitFlush | WaitDdl | WaitCommit | Ftwrl1 | Ftwrl2
        ),
        TransDml => matches!(held, Ftwrl1 | Ftwrl2),
        SysDml => matches!(held, WaitCommit | Ftwrl1 | Ftwrl2),
        Ddl => matches!(held, WaitDdl | WaitCommit | Ftwrl1 | Ftwrl2 | BlockDdl),
        BlockDdl => matches!(
            held,
            Start | Flush | WaitFlush | WaitDdl | WaitCommit | Ddl | BlockDdl
        ),
        AlterCopy => matches!(held, Ftwrl1 | Ftwrl2),
        Commit => matches!(held, WaitCommit | Ftwrl2),
    }
}

/// Whether a request for the first mode of the lock of backups waits behind one for the second.
pub(crate) fn backup_waits_behind(ask: BackupMode, pending: BackupMode) -> bool
    ensures { result ≡ list_any (same_backup_mode pending) (backup_waiting_conflicts ask) }
{
    match ask {
        Start => matches!(pending, Flush | WaitFlush | WaitDdl | WaitCommit | BlockDdl),
        Flush | WaitFlush | WaitDdl | WaitCommit | Ftwrl1 | Ftwrl2 => false,
        Dml => matches!(
            pending,
            Flush | WaitFlush | WaitDdl | WaitCommit | Ftwrl1 | Ftwrl2
        ),
        TransDml => matches!(pending, Ftwrl1 | Ftwrl2),
        SysDml => matches!(pending, WaitCommit | Ftwrl1 | Ftwrl2),
        Ddl => matches!(pending, WaitDdl | WaitCommit | Ftwrl1 | Ftwrl2 | BlockDdl),
        BlockDdl => matches!(pending, Start),
        AlterCopy => matches!(pending, Ftwrl1 | Ftwrl2),
        Commit => matches!(pending, WaitCommit | Ftwrl2),
    }
}
