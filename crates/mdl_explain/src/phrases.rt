//! What each step of a plan says.
ghost use Rattle.std.specs.Prelude.{◌≡◌};
ghost use Rattle.mdl_explain.specs.Phrases.{change_mode, keys_text, mode_text, named_mode, schema_text, step_text};

use mdl_plans::{Act, Keys, Manner, Step};

/// The words of a step, after steps that named these keys last. A step that only prepares others has none. A lock's mode stands before them.
pub(crate) fn step_text(named: Keys, step: Step) -> &'static str
    ensures { result.now ≡ step_text named step }
{
    match step {
        Step::NoReadLock => "error 1223 if the session has the global read lock",
        Step::NoReadLockIfWrites => {
            "error 1223 if a table is for WRITE and the session has the global read lock"
        }
        Step::NoLockedTables => "error 1192 if the session has locked tables",
        Step::HeldForWrite => {
            "error 1100 if the table isn't among the locked ones, 1099 if it is locked for reading"
        }
        Step::Commit => {
            "an open transaction is committed, under IX of COMMIT if it wrote, and its locks are released"
        }
        Step::Rollback => "an open transaction ends, and its locks are released",
        Step::Open => "a transaction is opened",
        Step::Save => "the savepoint is set, if a transaction is open",
        Step::GoBack => {
            "error 1305 if there is no such savepoint; otherwise what was locked since is released"
        }
        Step::Wrote => "without an open transaction, the write is committed under IX of COMMIT",
        Step::LockGlobal => "IX of GLOBAL, for the statement",
        Step::LockTable(_) => " of the table, for the transaction",
        Step::Name(_) => "",
        Step::LockNamed(_) => keys_text(named),
        Step::KeepScopes => "",
        Step::Raise(_) => " in place of the table's lock, which is kept during a wait",
        Step::Lower(_) => " in place of the table's lock, at once",
        Step::LockWrites => "S of GLOBAL, until the session releases it",
        Step::LockCommits => {
            "S of COMMIT, until the session releases it; if it isn't got, GLOBAL is released"
        }
        Step::LockUser => "X of the user-level lock, until the session releases it; the reply is 1",
        Step::SchemaExists => schema_text(named),
        Step::SchemaMayChange => "error 9003 if the schema has no version left",
        Step::NewSchema => "error 1007 if the schema exists, 9003 if it has no version left",
        Step::NewTable => {
            "error 1050 if the table exists, 1060 if a column is named twice, 9003 if it has no version left"
        }
        Step::Each(Act::Exist) => "error 1146 if a table is missing",
        Step::Each(Act::MayChange) => "error 9003 if a table has no version left",
        Step::Each(Act::Drop) => "each table is dropped",
        Step::CanAlter => {
            "error 1146 if the table is missing, 1060 if it has the column to add, 1091 if it lacks the one to drop, 9001 if that is its last, 9002 if it has 64, 9003 if it has no version left"
        }
        Step::NewNameIsFree => "error 1050 if the new name exists",
        Step::TakeDefinition => "error 1146 if the table is missing",
        Step::NamesMayChange => "error 9003 if one of both names has no version left",
        Step::CreateSchema => "the schema is created",
        Step::DropSchema => "the schema is dropped",
        Step::CreateTable => "the table is created",
        Step::Alter => "the column is added or dropped",
        Step::Move => "the table gets its new name",
        Step::ReadEach => {
            "SR of each table as it is named, for the transaction; error 1146 if it is missing, before the next"
        }
        Step::ReadHeld => {
            "for each table as it is named: error 1100 if it isn't among the locked ones, 1146 if it is missing"
        }
        Step::KeepLocked => {
            "all of these are kept until UNLOCK TABLES, BEGIN or another LOCK TABLES"
        }
        Step::UnlockTables => {
            "the locked tables are released, with GLOBAL and the schemas around them"
        }
        Step::UnlockReads => "the global read lock is released",
        Step::Kill => "a wait of that session ends with error 1317",
        Step::GiveBack => {
            "the user-level lock is released, and the reply is 1; otherwise 0 if another session holds it, and NULL if none does"
        }
    }
}

// The check of a schema: that of a new name, or the only one.
fn schema_text(named: Keys) -> &'static str
    ensures { result.now ≡ schema_text named }
{
    match named {
        Keys::BothNames => "error 1049 if the schema of the new name is missing",
        _ => "error 1049 if the schema is missing",
    }
}

// The words of keys that are locked one after the other.
fn keys_text(named: Keys) -> &'static str
    ensures { result.now ≡ keys_text named }
{
    match named {
        Keys::Scopes => {
            " of GLOBAL for the statement, then of the tables' schemas, in order, for the transaction"
        }
        Keys::SchemaOf => " of the table's schema, for the transaction",
        Keys::OwnSchema => " of the schema, for the transaction",
        Keys::BothScopes => {
            " of GLOBAL for the statement, then of the schemas of both names, in order, for the transaction"
        }
        Keys::WrittenScopes => {
            " of GLOBAL, then of the schemas of tables for WRITE, in order; none if all are for READ"
        }
        Keys::Tables => " of each table, in order, for the transaction",
        Keys::BothNames => " of both names, in order, for the transaction",
        Keys::TablesOfSchema => {
            " of each table that the schema has by then, in order, for the transaction"
        }
        Keys::UserLock => " of the user-level lock, for the transaction",
    }
}

/// The mode of the lock of a step, after steps that named these keys last. A step that says its mode in its words has none here.
pub(crate) fn mode_text(named: Keys, step: Step) -> &'static str
    ensures { result.now ≡ mode_text named step }
{
    match step {
        Step::LockTable(mode) | Step::Raise(mode) | Step::Lower(mode) => mode.as_str(),
        Step::LockNamed(how) => named_mode(named, how),
        _ => "",
    }
}

// The mode in which keys are locked.
fn named_mode(named: Keys, how: Manner) -> &'static str
    ensures { result.now ≡ named_mode named how }
{
    match how {
        Manner::Change => change_mode(named),
        Manner::Whole => "X",
        Manner::Asked => "SNRW (WRITE) or SRO (READ)",
    }
}

// The mode in which keys are locked to change definitions.
fn change_mode(named: Keys) -> &'static str
    ensures { result.now ≡ change_mode named }
{
    match named {
        Keys::Scopes
        | Keys::SchemaOf
        | Keys::OwnSchema
        | Keys::BothScopes
        | Keys::WrittenScopes
        | Keys::UserLock => "IX",
        Keys::Tables | Keys::BothNames | Keys::TablesOfSchema => "X",
    }
}
