//! What kinds of things are locked.
ghost use Rattle.std.specs.Prelude.{◌≡◌, Some};
ghost use Rattle.mdl_lock_rows.specs.Keys.{kind_of_type};
ghost use Rattle.mdl_lock_rows.specs.ServerNames.{object_type_name};

use mdl_view::LockKind;
use std::fmt;

/// What kind of thing is locked: the OBJECT_TYPE of a row.
///
/// After MySQL 5.7, `enum_mdl_namespace` of `sql/mdl.h`. `PackageBody` and `Backup` are MariaDB's, and `BackupLock` is of MySQL 8.0.
#[derive(Clone, Copy, Debug, PartialEq, Eq)]
pub enum ObjectType {
    /// All of the server.
    Global,
    /// A schema.
    Schema,
    /// A table or a view.
    Table,
    /// All commits.
    Commit,
    /// A lock of `GET_LOCK`.
    UserLevelLock,
    /// A stored function.
    Function,
    /// A stored procedure.
    Procedure,
    /// A trigger.
    Trigger,
    /// An event.
    Event,
    /// A tablespace.
    Tablespace,
    /// A lock of the locking service.
    LockingService,
    /// The body of a stored package.
    PackageBody,
    /// MariaDB's lock of backups, which all statements take that change something.
    Backup,
    /// The lock of `LOCK INSTANCE FOR BACKUP`, which statements take that change a definition.
    BackupLock,
}

impl ObjectType {
    /// Returns the server's name of the object type.
    pub fn as_str(self) -> &'static str
        ensures { result.now ≡ object_type_name self }
    {
        match self {
            ObjectType::Global => "GLOBAL",
            ObjectType::Schema => "SCHEMA",
            ObjectType::Table => "TABLE",
            ObjectType::Commit => "COMMIT",
            ObjectType::UserLevelLock => "USER LEVEL LOCK",
            ObjectType::Function => "FUNCTION",
            ObjectType::Procedure => "PROCEDURE",
            ObjectType::Trigger => "TRIGGER",
            ObjectType::Event => "EVENT",
            ObjectType::Tablespace => "TABLESPACE",
            ObjectType::LockingService => "LOCKING SERVICE",
            ObjectType::PackageBody => "PACKAGE BODY",
            ObjectType::Backup => "BACKUP",
            ObjectType::BackupLock => "BACKUP LOCK",
        }
    }

    /// Returns the kind of the locks of the object type.
    pub fn kind(self) -> LockKind
        ensures { result ≡ kind_of_type self }
    {
        match self {
            ObjectType::Global
            | ObjectType::Schema
            | ObjectType::Commit
            | ObjectType::Tablespace
            | ObjectType::BackupLock => LockKind::Scoped,
            ObjectType::Backup => LockKind::Backup,
            _ => LockKind::Object,
        }
    }
}

/// The server's name of the object type.
impl fmt::Display for ObjectType {
    ghost output = { λ object_type. Some (object_type_name object_type) };

    fn fmt<W: fmt::Write>(&self, f: &mut fmt::Formatter<W>) -> fmt::Result {
        f.write_str(self.as_str())
    }
}
