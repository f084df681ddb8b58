//! The lock that a statement waits for, with all that is needed once it is granted.
use crate::TablesShown;
use crate::lock_list::LockList;
use mdl_defs::Columns;
use mdl_key::Key;
use mdl_space::TicketId;
use mdl_syntax::{Alteration, Name, Priority, Statement, TableLocks, Tables};

/// The lock that a statement waits for.
#[derive(Drop)]
pub enum Stage<'s> {
    /// The COMMIT lock, and then what is left of the statement.
    Commit(&'s Statement),
    /// SELECT: the lock of the table at this index of these tables. The tables before it are shown already.
    Select(&'s [Key], usize, TablesShown),
    /// INSERT, UPDATE or DELETE.
    Write(Writing<'s>),
    /// CREATE TABLE.
    Create(Creating<'s>),
    /// CREATE SCHEMA.
    CreateSchema(CreatingSchema<'s>),
    /// DROP TABLE.
    Drop(Dropping<'s>),
    /// DROP SCHEMA.
    DropSchema(DroppingSchema<'s>),
    /// RENAME TABLE of `from` to `to`.
    Rename {
        from: &'s Key,
        to: &'s Key,
        at: Renaming,
    },
    /// FLUSH TABLES WITH READ LOCK.
    Flush(Flushing),
    /// ALTER TABLE.
    Alter(&'s Alteration, Altering),
    /// LOCK TABLES.
    Lock(&'s TableLocks, LockingTables),
    /// GET_LOCK.
    GetLock,
}

/// The lock that a write waits for.
#[derive(Clone, Copy)]
pub enum Writing<'s> {
    /// The GLOBAL lock.
    Global(&'s Key, Priority),
    /// The lock of the table.
    Table,
    /// The COMMIT lock, for a write that is a transaction of its own.
    Commit,
}

/// The lock that CREATE TABLE waits for.
#[derive(Clone, Copy)]
pub enum Creating<'s> {
    /// The GLOBAL lock.
    Global(&'s Key, &'s Columns),
    /// The lock of the table's schema.
    Schema(&'s Key, &'s Columns),
    /// The table's own lock. The schema's is held, by this ticket.
    Table(&'s Columns, TicketId),
}

/// The lock that CREATE SCHEMA waits for.
#[derive(Clone, Copy)]
pub enum CreatingSchema<'s> {
    /// The GLOBAL lock.
    Global(&'s Name),
    /// The schema's own lock.
    Schema,
}

/// The lock that DROP TABLE waits for.
#[derive(Drop)]
pub enum Dropping<'s> {
    /// The GLOBAL lock or the lock of a schema.
    Scopes(&'s Tables, LockList),
    /// The lock of a table.
    Tables(LockList),
}

/// The lock that DROP SCHEMA waits for.
#[derive(Drop)]
pub enum DroppingSchema<'s> {
    /// The GLOBAL lock.
    Global(&'s Name),
    /// The schema's own lock.
    Schema(&'s Name),
    /// The lock of a table of the schema. The schema's own lock is held, by this ticket.
    Tables(TicketId, LockList),
}

/// The lock that RENAME TABLE waits for.
#[derive(Drop)]
pub enum Renaming {
    /// The GLOBAL lock or the lock of a schema.
    Scopes(LockList),
    /// The lock of one of the names. The lock of the new name's schema is held, by this ticket.
    Names(TicketId, LockList),
}

/// The lock that FLUSH TABLES WITH READ LOCK waits for.
#[derive(Clone, Copy)]
pub enum Flushing {
    /// The GLOBAL lock.
    Global,
    /// The COMMIT lock. The GLOBAL lock is held.
    Commit,
}

/// The lock that ALTER TABLE waits for.
#[derive(Clone, Copy)]
pub enum Altering {
    /// The GLOBAL lock.
    Global,
    /// The lock of the table's schema.
    Schema,
    /// The table's own lock.
    Table,
    /// The table's lock upgraded to SNW, which blocks writes, so that the table can be copied.
    Copy,
    /// The table's lock upgraded to X, which blocks all other sessions, before the table is altered in place.
    InPlace,
    /// The table's lock upgraded to X, for the change.
    Change,
    /// A clone of the table's lock, if the session has locked the table.
    Locked,
    /// The clone upgraded to X, for the change.
    ChangeLocked,
}

/// The lock that LOCK TABLES waits for.
#[derive(Drop)]
pub enum LockingTables {
    /// The GLOBAL lock or the lock of a schema, for tables that are locked for writing.
    Scopes(LockList),
    /// The lock of a table. The locks of the scopes are held, by these tickets.
    Tables(Vec<TicketId>, LockList),
}
