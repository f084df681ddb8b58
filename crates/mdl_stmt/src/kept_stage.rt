//! The stages of waiting statements, with copies of what they need of the statement, so that it can be dropped.
ghost use Rattle.std.specs.Prelude.{◌≡◌, IfOk};
ghost use Rattle.mdl_stmt.specs.KeptStages.{rest_of_kept, rest_of_kept_creating, rest_of_kept_creating_schema, rest_of_kept_dropping, rest_of_kept_dropping_schema, rest_of_kept_writing};
ghost use Rattle.mdl_stmt.specs.Stages.{rest_of, rest_of_creating, rest_of_creating_schema, rest_of_dropping, rest_of_dropping_schema, rest_of_writing};

use crate::TablesShown;
use crate::lock_list::LockList;
use crate::stage::{
    Altering, Creating, CreatingSchema, Dropping, DroppingSchema, Flushing, LockingTables,
    Renaming, Stage, Writing,
};
use mdl_context::Mark;
use mdl_defs::Columns;
use mdl_key::Key;
use mdl_space::TicketId;
use mdl_syntax::{Alteration, Name, Priority, Statement, TableLocks, Tables};
use std::alloc::{AllocError, Global};

/// What is left of a waiting statement, and its session's mark when the statement began.
#[derive(Drop)]
pub struct KeptWork {
    pub(crate) stage: KeptStage,
    pub(crate) mark: Mark,
}

/// The lock that a statement waits for, as in [`Stage`].
#[derive(Drop)]
pub enum KeptStage {
    Commit(Statement),
    Select(Vec<Key>, usize, TablesShown),
    Write(KeptWriting),
    Create(KeptCreating),
    CreateSchema(KeptCreatingSchema),
    Drop(KeptDropping),
    DropSchema(KeptDroppingSchema),
    Rename { from: Key, to: Key, at: Renaming },
    Flush(Flushing),
    Alter(Alteration, Altering),
    Lock(TableLocks, LockingTables),
    GetLock,
}

/// The lock that a write waits for, as in [`Writing`].
#[derive(Drop)]
pub enum KeptWriting {
    Global(Key, Priority),
    Table,
    Commit,
}

/// The lock that CREATE TABLE waits for, as in [`Creating`].
#[derive(Drop)]
pub enum KeptCreating {
    Global(Key, Columns),
    Schema(Key, Columns),
    Table(Columns, TicketId),
}

/// The lock that CREATE SCHEMA waits for, as in [`CreatingSchema`].
#[derive(Drop)]
pub enum KeptCreatingSchema {
    Global(Name),
    Schema,
}

/// The lock that DROP TABLE waits for, as in [`Dropping`].
#[derive(Drop)]
pub enum KeptDropping {
    Scopes(Tables, LockList),
    Tables(LockList),
}

/// The lock that DROP SCHEMA waits for, as in [`DroppingSchema`].
#[derive(Drop)]
pub enum KeptDroppingSchema {
    Global(Name),
    Schema(Name),
    Tables(TicketId, LockList),
}

impl KeptStage {
    /// Copies a stage, with all that it borrows.
    pub(crate) fn keep(alloc: Global, stage: Stage<'_>) -> Result<KeptStage, AllocError>
        ensures { IfOk result (λ kept. rest_of_kept kept ≡ rest_of stage.entry) }
    {
        match stage {
            Stage::Commit(statement) => Ok(KeptStage::Commit(statement.clone()?)),
            Stage::Select(tables, at, shown) => {
                Ok(KeptStage::Select(tables.to_vec(alloc)?, at, shown))
            }
            Stage::Write(at) => Ok(KeptStage::Write(KeptWriting::keep(at)?)),
            Stage::Create(at) => Ok(KeptStage::Create(KeptCreating::keep(at)?)),
            Stage::CreateSchema(at) => Ok(KeptStage::CreateSchema(KeptCreatingSchema::keep(at)?)),
            Stage::Drop(at) => Ok(KeptStage::Drop(KeptDropping::keep(at)?)),
            Stage::DropSchema(at) => Ok(KeptStage::DropSchema(KeptDroppingSchema::keep(at)?)),
            Stage::Rename { from, to, at } => Ok(KeptStage::Rename {
                from: from.clone()?,
                to: to.clone()?,
                at,
            }),
            Stage::Flush(at) => Ok(KeptStage::Flush(at)),
            Stage::Alter(alteration, at) => Ok(KeptStage::Alter(alteration.clone()?, at)),
            Stage::Lock(tables, at) => Ok(KeptStage::Lock(tables.clone()?, at)),
            Stage::GetLock => Ok(KeptStage::GetLock),
        }
    }
}

impl KeptWriting {
    fn keep(at: Writing<'_>) -> Result<KeptWriting, AllocError>
        ensures { IfOk result (λ kept. rest_of_kept_writing kept ≡ rest_of_writing at.entry) }
    {
        match at {
            Writing::Global(table, priority) => {
                Ok(KeptWriting::Global(table.clone()?, priority))
            }
            Writing::Table => Ok(KeptWriting::Table),
            Writing::Commit => Ok(KeptWriting::Commit),
        }
    }

    /// The stage, borrowing from this copy.
    pub(crate) fn lend(&self) -> Writing<'_>
        ensures { rest_of_writing result ≡ rest_of_kept_writing self.now }
    {
        match self {
            KeptWriting::Global(table, priority) => Writing::Global(table, *priority),
            KeptWriting::Table => Writing::Table,
            KeptWriting::Commit => Writing::Commit,
        }
    }
}

impl KeptCreating {
    fn keep(at: Creating<'_>) -> Result<KeptCreating, AllocError>
        ensures { IfOk result (λ kept. rest_of_kept_creating kept ≡ rest_of_creating at.entry) }
    {
        match at {
            Creating::Global(table, columns) => {
                Ok(KeptCreating::Global(table.clone()?, columns.clone()?))
            }
            Creating::Schema(table, columns) => {
                Ok(KeptCreating::Schema(table.clone()?, columns.clone()?))
            }
            Creating::Table(columns, schema) => Ok(KeptCreating::Table(columns.clone()?, schema)),
        }
    }

    /// The stage, borrowing from this copy.
    pub(crate) fn lend(&self) -> Creating<'_>
        ensures { rest_of_creating result ≡ rest_of_kept_creating self.now }
    {
        match self {
            KeptCreating::Global(table, columns) => Creating::Global(table, columns),
            KeptCreating::Schema(table, columns) => Creating::Schema(table, columns),
            KeptCreating::Table(columns, schema) => Creating::Table(columns, *schema),
        }
    }
}

impl KeptCreatingSchema {
    fn keep(at: CreatingSchema<'_>) -> Result<KeptCreatingSchema, AllocError>
        ensures { IfOk result (λ kept. rest_of_kept_creating_schema kept ≡ rest_of_creating_schema at.entry) }
    {
        match at {
            CreatingSchema::Global(name) => Ok(KeptCreatingSchema::Global(name.clone()?)),
            CreatingSchema::Schema => Ok(KeptCreatingSchema::Schema),
        }
    }

    /// The stage, borrowing from this copy.
    pub(crate) fn lend(&self) -> CreatingSchema<'_>
        ensures { rest_of_creating_schema result ≡ rest_of_kept_creating_schema self.now }
    {
        match self {
            KeptCreatingSchema::Global(name) => CreatingSchema::Global(name),
            KeptCreatingSchema::Schema => CreatingSchema::Schema,
        }
    }
}

impl KeptDropping {
    fn keep(at: Dropping<'_>) -> Result<KeptDropping, AllocError>
        ensures { IfOk result (λ kept. rest_of_kept_dropping kept ≡ rest_of_dropping at.entry) }
    {
        match at {
            Dropping::Scopes(tables, locks) => Ok(KeptDropping::Scopes(tables.clone()?, locks)),
            Dropping::Tables(locks) => Ok(KeptDropping::Tables(locks)),
        }
    }
}

impl KeptDroppingSchema {
    fn keep(at: DroppingSchema<'_>) -> Result<KeptDroppingSchema, AllocError>
        ensures { IfOk result (λ kept. rest_of_kept_dropping_schema kept ≡ rest_of_dropping_schema at.entry) }
    {
        match at {
            DroppingSchema::Global(name) => Ok(KeptDroppingSchema::Global(name.clone()?)),
            DroppingSchema::Schema(name) => Ok(KeptDroppingSchema::Schema(name.clone()?)),
            DroppingSchema::Tables(schema, locks) => Ok(KeptDroppingSchema::Tables(schema, locks)),
        }
    }
}
