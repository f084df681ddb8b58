//! The plan of each statement.
ghost use Rattle.std.specs.Prelude.{◌≡◌, false};
ghost use Rattle.mdl_rows.specs.Statements.{write_mode};
ghost use Rattle.mdl_plans.specs.Plans.{altering, plan_of, writing};

use crate::{Act, Keys, Manner, Step};
use mdl_key::Mode;
use mdl_syntax::{Algorithm, Priority, Statement};

/// BEGIN: an open transaction is committed, and locked tables are released.
pub const BEGIN: [Step; 3] = [Step::Commit, Step::UnlockTables, Step::Open];

/// COMMIT.
pub const COMMIT: [Step; 1] = [Step::Commit];

/// ROLLBACK.
pub const ROLLBACK: [Step; 1] = [Step::Rollback];

/// SAVEPOINT.
pub const SAVEPOINT: [Step; 1] = [Step::Save];

/// ROLLBACK TO.
pub const ROLLBACK_TO: [Step; 1] = [Step::GoBack];

/// SELECT: SR of each table, which is checked before the next is locked.
pub const SELECT: [Step; 1] = [Step::ReadEach];

/// SELECT of a session with locked tables: it takes no locks.
pub const SELECT_HELD: [Step; 1] = [Step::ReadHeld];

/// INSERT, UPDATE, DELETE: GLOBAL in IX, and SW of the table.
pub const WRITE: [Step; 5] = [
    Step::NoReadLock,
    Step::LockGlobal,
    Step::LockTable(Mode::SW),
    Step::Each(Act::Exist),
    Step::Wrote,
];

/// The same with LOW_PRIORITY: SWLP of the table.
pub const WRITE_LOW: [Step; 5] = [
    Step::NoReadLock,
    Step::LockGlobal,
    Step::LockTable(Mode::SWLP),
    Step::Each(Act::Exist),
    Step::Wrote,
];

/// INSERT, UPDATE, DELETE of a session with locked tables.
pub const WRITE_HELD: [Step; 2] = [Step::HeldForWrite, Step::Wrote];

/// CREATE TABLE: GLOBAL and the schema in IX, and X of the table.
pub const CREATE_TABLE: [Step; 11] = [
    Step::NoReadLock,
    Step::NoLockedTables,
    Step::Commit,
    Step::LockGlobal,
    Step::Name(Keys::SchemaOf),
    Step::LockNamed(Manner::Change),
    Step::KeepScopes,
    Step::LockTable(Mode::X),
    Step::SchemaExists,
    Step::NewTable,
    Step::CreateTable,
];

/// CREATE SCHEMA: GLOBAL in IX, and X of the schema.
pub const CREATE_SCHEMA: [Step; 9] = [
    Step::NoReadLock,
    Step::NoLockedTables,
    Step::Commit,
    Step::LockGlobal,
    Step::Name(Keys::OwnSchema),
    Step::LockNamed(Manner::Whole),
    Step::KeepScopes,
    Step::NewSchema,
    Step::CreateSchema,
];

/// DROP TABLE: GLOBAL and the schemas in IX, and X of each table. All are locked and checked before the first is dropped.
pub const DROP_TABLES: [Step; 10] = [
    Step::NoReadLock,
    Step::NoLockedTables,
    Step::Commit,
    Step::Name(Keys::Scopes),
    Step::LockNamed(Manner::Change),
    Step::Name(Keys::Tables),
    Step::LockNamed(Manner::Change),
    Step::Each(Act::Exist),
    Step::Each(Act::MayChange),
    Step::Each(Act::Drop),
];

/// DROP SCHEMA: GLOBAL in IX, X of the schema, and X of each table that is in it by then.
pub const DROP_SCHEMA: [Step; 14] = [
    Step::NoReadLock,
    Step::NoLockedTables,
    Step::Commit,
    Step::LockGlobal,
    Step::Name(Keys::OwnSchema),
    Step::LockNamed(Manner::Whole),
    Step::KeepScopes,
    Step::SchemaExists,
    Step::Name(Keys::TablesOfSchema),
    Step::LockNamed(Manner::Change),
    Step::Each(Act::MayChange),
    Step::SchemaMayChange,
    Step::Each(Act::Drop),
    Step::DropSchema,
];

/// RENAME TABLE: GLOBAL and the schemas of both names in IX, and X of both names.
pub const RENAME_TABLE: [Step; 13] = [
    Step::NoReadLock,
    Step::NoLockedTables,
    Step::Commit,
    Step::Name(Keys::BothScopes),
    Step::LockNamed(Manner::Change),
    Step::KeepScopes,
    Step::Name(Keys::BothNames),
    Step::LockNamed(Manner::Change),
    Step::NewNameIsFree,
    Step::TakeDefinition,
    Step::SchemaExists,
    Step::NamesMayChange,
    Step::Move,
];

/// UNLOCK TABLES: an open transaction stays open.
pub const UNLOCK_TABLES: [Step; 2] = [Step::UnlockTables, Step::UnlockReads];

/// FLUSH TABLES WITH READ LOCK: GLOBAL in S, and then COMMIT in S.
pub const FLUSH: [Step; 4] = [
    Step::NoLockedTables,
    Step::Commit,
    Step::LockWrites,
    Step::LockCommits,
];

/// FLUSH TABLES WITH READ LOCK of a session that has the global read lock: it takes no locks.
pub const FLUSH_AGAIN: [Step; 2] = [Step::NoLockedTables, Step::Commit];

/// ALTER TABLE .. COPY: the table can be read, not written, while it is copied. GLOBAL and the schema in IX, SU of the table, then SNW and X in its place.
pub const ALTER_COPY: [Step; 10] = [
    Step::NoReadLock,
    Step::Commit,
    Step::LockGlobal,
    Step::Name(Keys::SchemaOf),
    Step::LockNamed(Manner::Change),
    Step::LockTable(Mode::SU),
    Step::CanAlter,
    Step::Raise(Mode::SNW),
    Step::Raise(Mode::X),
    Step::Alter,
];

/// ALTER TABLE .. INPLACE: the table can be read and written, except while its alteration is prepared, and at the end. GLOBAL and the schema
/// in IX, SU of the table, then X, SU and X in its place.
pub const ALTER_INPLACE: [Step; 11] = [
    Step::NoReadLock,
    Step::Commit,
    Step::LockGlobal,
    Step::Name(Keys::SchemaOf),
    Step::LockNamed(Manner::Change),
    Step::LockTable(Mode::SU),
    Step::CanAlter,
    Step::Raise(Mode::X),
    Step::Lower(Mode::SU),
    Step::Raise(Mode::X),
    Step::Alter,
];

/// ALTER TABLE of a session with locked tables, by either algorithm: SNRW of the table beside the lock that the session has, then X and
/// SNRW in its place.
pub const ALTER_HELD: [Step; 11] = [
    Step::NoReadLock,
    Step::HeldForWrite,
    Step::Commit,
    Step::LockGlobal,
    Step::Name(Keys::SchemaOf),
    Step::LockNamed(Manner::Change),
    Step::LockTable(Mode::SNRW),
    Step::CanAlter,
    Step::Raise(Mode::X),
    Step::Alter,
    Step::Lower(Mode::SNRW),
];

/// LOCK TABLES: GLOBAL and the schemas of the tables to write in IX, then SNRW of each table to write and SRO of each to read. All are
/// locked before the first is checked. Tables that were locked before are released.
pub const LOCK_TABLES: [Step; 10] = [
    Step::NoReadLockIfWrites,
    Step::Commit,
    Step::UnlockTables,
    Step::Name(Keys::WrittenScopes),
    Step::LockNamed(Manner::Change),
    Step::KeepScopes,
    Step::Name(Keys::Tables),
    Step::LockNamed(Manner::Asked),
    Step::Each(Act::Exist),
    Step::KeepLocked,
];

/// KILL QUERY.
pub const KILL_QUERY: [Step; 1] = [Step::Kill];

/// TIMEOUT: the session's own wait has timed out before, so nothing is left to do.
pub const TIMEOUT: [Step; 0] = [];

/// GET_LOCK: X of the user-level lock.
pub const GET_LOCK: [Step; 2] = [Step::Name(Keys::UserLock), Step::LockUser];

/// RELEASE_LOCK.
pub const RELEASE_LOCK: [Step; 2] = [Step::Name(Keys::UserLock), Step::GiveBack];

/// What a session has when a statement begins.
#[derive(Clone, Copy)]
pub struct Standing {
    /// Whether it has locked tables.
    pub has_locked_tables: bool,
    /// Whether it has the global read lock.
    pub has_read_lock: bool,
}

/// Returns the plan of a statement, by what its session has when it begins.
pub fn plan_of(standing: Standing, statement: &Statement) -> &'static [Step]
    ensures { result.now ≡ plan_of standing.has_locked_tables standing.has_read_lock statement.now }
{
    match statement {
        Statement::Begin => &BEGIN,
        Statement::Commit => &COMMIT,
        Statement::Rollback => &ROLLBACK,
        Statement::Savepoint(_) => &SAVEPOINT,
        Statement::RollbackTo(_) => &ROLLBACK_TO,
        Statement::Select(_) if standing.has_locked_tables => &SELECT_HELD,
        Statement::Select(_) => &SELECT,
        Statement::Write { .. } if standing.has_locked_tables => &WRITE_HELD,
        Statement::Write { priority, .. } => write_plan(*priority),
        Statement::CreateTable { .. } => &CREATE_TABLE,
        Statement::CreateSchema(_) => &CREATE_SCHEMA,
        Statement::DropTables(_) => &DROP_TABLES,
        Statement::DropSchema(_) => &DROP_SCHEMA,
        Statement::RenameTable { .. } => &RENAME_TABLE,
        Statement::UnlockTables => &UNLOCK_TABLES,
        Statement::FlushTablesWithReadLock if standing.has_read_lock => &FLUSH_AGAIN,
        Statement::FlushTablesWithReadLock => &FLUSH,
        Statement::AlterTable(_) if standing.has_locked_tables => &ALTER_HELD,
        Statement::AlterTable(alteration) => alter_plan(alteration.algorithm),
        Statement::LockTables(_) => &LOCK_TABLES,
        Statement::KillQuery(_) => &KILL_QUERY,
        Statement::Timeout => &TIMEOUT,
        Statement::GetLock(_) => &GET_LOCK,
        Statement::ReleaseLock(_) => &RELEASE_LOCK,
    }
}

// The plan of a write of a session without locked tables.
fn write_plan(priority: Priority) -> &'static [Step]
    ensures { result.now ≡ writing (write_mode priority) }
{
    match priority {
        Priority::Normal => &WRITE,
        Priority::Low => &WRITE_LOW,
    }
}

// The plan of ALTER TABLE of a session without locked tables.
fn alter_plan(algorithm: Algorithm) -> &'static [Step]
    ensures { result.now ≡ altering false algorithm }
{
    match algorithm {
        Algorithm::Copy => &ALTER_COPY,
        Algorithm::Inplace => &ALTER_INPLACE,
    }
}
