//! The names that the server has for object types, modes, durations and statuses.
ghost use Rattle.std.specs.Prelude.{◌≡◌, option_and_then};
ghost use Rattle.std.specs.Bool.{then_some};
ghost use Rattle.mdl_key.specs.Words.{is_mode_of};
ghost use Rattle.mdl_view.specs.declared.lock_mode.LockMode.TheVariants.{Mdl};
ghost use Rattle.mdl_lock_rows.specs.ServerNames.{backup_mode_of, lock_mode_of, lock_type_name, duration_name, object_type_of, mode_named, mode_of, without_prefix, request_of, duration_named, duration_of, status_named, status_of};

use crate::object_type::ObjectType;
use crate::row::{Request, Status};
use crate::row_error::RowError;
use mdl_key::{Duration, Kind, Mode};
use mdl_view::{BackupMode, LockKind, LockMode};

const OBJECT_TYPES: [ObjectType; 14] = [
    ObjectType::Global,
    ObjectType::Schema,
    ObjectType::Table,
    ObjectType::Commit,
    ObjectType::UserLevelLock,
    ObjectType::Function,
    ObjectType::Procedure,
    ObjectType::Trigger,
    ObjectType::Event,
    ObjectType::Tablespace,
    ObjectType::LockingService,
    ObjectType::PackageBody,
    ObjectType::Backup,
    ObjectType::BackupLock,
];

const BACKUP_MODES: [BackupMode; 14] = [
    BackupMode::Start,
    BackupMode::Flush,
    BackupMode::WaitFlush,
    BackupMode::WaitDdl,
    BackupMode::WaitCommit,
    BackupMode::Ftwrl1,
    BackupMode::Ftwrl2,
    BackupMode::Dml,
    BackupMode::TransDml,
    BackupMode::SysDml,
    BackupMode::Ddl,
    BackupMode::BlockDdl,
    BackupMode::AlterCopy,
    BackupMode::Commit,
];

const DURATIONS: [Duration; 3] = [
    Duration::Statement,
    Duration::Transaction,
    Duration::Explicit,
];

const STATUSES: [Status; 7] = [
    Status::Granted,
    Status::Pending,
    Status::Victim,
    Status::Timeout,
    Status::Killed,
    Status::PreAcquireNotify,
    Status::PostReleaseNotify,
];

/// Returns the object type and the mode of a row, unless either isn't known, or the object type's locks don't use the mode.
pub(crate) fn request_of(object_type: &[u8], lock_type: &[u8]) -> Option<Request>
    ensures { result ≡ request_of object_type.now lock_type.now }
{
    let object_type = object_type_of(object_type)?;
    let mode = lock_mode_of(object_type.kind(), lock_type)?;
    Some(Request { object_type, mode })
}

// The object type of this OBJECT_TYPE.
fn object_type_of(name: &[u8]) -> Option<ObjectType>
    ensures { result ≡ object_type_of name.now }
{
    OBJECT_TYPES
        .iter()
        .copied()
        .find(|object_type| object_type.as_str().as_bytes() == name)
}

// The mode of this LOCK_TYPE at a lock of this kind.
fn lock_mode_of(kind: LockKind, name: &[u8]) -> Option<LockMode>
    ensures { result ≡ lock_mode_of kind name.now }
{
    match kind {
        LockKind::Scoped => mode_at(Kind::Scoped, name),
        LockKind::Object => mode_at(Kind::Object, name),
        LockKind::Backup => Some(LockMode::Backup(backup_mode_of(name)?)),
    }
}

// The mode of MySQL 5.7 of this LOCK_TYPE, if locks of this kind use it.
fn mode_at(kind: Kind, name: &[u8]) -> Option<LockMode>
    ensures { result ≡ option_and_then (λ mode. then_some (is_mode_of kind mode) (Mdl mode)) (mode_of name.now) }
{
    let mode = mode_of(name)?;
    kind.has_mode(mode).then_some(LockMode::Mdl(mode))
}

// The mode of MySQL 5.7 of this LOCK_TYPE.
fn mode_of(name: &[u8]) -> Option<Mode>
    ensures { result ≡ mode_of name.now }
{
    if name.is_empty() {
        return Some(Mode::SRO);
    }
    mode_named(without_prefix(name))
}

// The mode of this name.
fn mode_named(name: &[u8]) -> Option<Mode>
    ensures { result ≡ mode_named name.now }
{
    Mode::ALL
        .iter()
        .copied()
        .find(|mode| lock_type_name(*mode).as_bytes() == name)
}

// The mode of the lock of backups of this LOCK_TYPE.
fn backup_mode_of(name: &[u8]) -> Option<BackupMode>
    ensures { result ≡ backup_mode_of name.now }
{
    let name = without_prefix(name);
    BACKUP_MODES
        .iter()
        .copied()
        .find(|mode| mode.as_str().as_bytes() == name)
}

// A name without a leading `MDL_`.
fn without_prefix(name: &[u8]) -> &[u8]
    ensures { result.now ≡ without_prefix name.now }
{
    match name.strip_prefix(b"MDL_".as_slice()) {
        Some(rest) => rest,
        None => name,
    }
}

/// Returns the duration of this LOCK_DURATION.
pub(crate) fn duration_of(name: &[u8]) -> Result<Duration, RowError>
    ensures { result ≡ duration_of name.now }
{
    duration_named(name).ok_or(RowError::UnknownDuration)
}

// The duration of this name, if there is one.
fn duration_named(name: &[u8]) -> Option<Duration>
    ensures { result ≡ duration_named name.now }
{
    DURATIONS
        .iter()
        .copied()
        .find(|duration| duration_name(*duration).as_bytes() == name)
}

/// Returns the status of this LOCK_STATUS.
pub(crate) fn status_of(name: &[u8]) -> Result<Status, RowError>
    ensures { result ≡ status_of name.now }
{
    status_named(name).ok_or(RowError::UnknownStatus)
}

// The status of this name, if there is one.
fn status_named(name: &[u8]) -> Option<Status>
    ensures { result ≡ status_named name.now }
{
    STATUSES
        .iter()
        .copied()
        .find(|status| status.as_str().as_bytes() == name)
}

/// Returns the server's LOCK_TYPE of a mode.
pub fn lock_type_name(mode: Mode) -> &'static str
    ensures { result.now ≡ lock_type_name mode }
{
    match mode {
        Mode::IX => "INTENTION_EXCLUSIVE",
        Mode::S => "SHARED",
        Mode::SH => "SHARED_HIGH_PRIO",
        Mode::SR => "SHARED_READ",
        Mode::SW => "SHARED_WRITE",
        Mode::SWLP => "SHARED_WRITE_LOW_PRIO",
        Mode::SU => "SHARED_UPGRADABLE",
        Mode::SRO => "SHARED_READ_ONLY",
        Mode::SNW => "SHARED_NO_WRITE",
        Mode::SNRW => "SHARED_NO_READ_WRITE",
        Mode::X => "EXCLUSIVE",
    }
}

// The server's LOCK_DURATION of a duration.
fn duration_name(duration: Duration) -> &'static str
    ensures { result.now ≡ duration_name duration }
{
    match duration {
        Duration::Statement => "STATEMENT",
        Duration::Transaction => "TRANSACTION",
        Duration::Explicit => "EXPLICIT",
    }
}
