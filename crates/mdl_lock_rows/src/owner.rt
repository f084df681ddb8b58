//! The threads that hold locks or wait for them.
ghost use Rattle.std.specs.Prelude.{◌≡◌, IfOk};
ghost use Rattle.mdl_lock_rows.specs.Lines.{owner_of};
ghost use Rattle.mdl_lock_rows.specs.Owners.{bare, is_described};
ghost use Rattle.mdl_lock_rows.specs.Tables.{may_be_idle};

use crate::columns::{Columns, field_in};
use crate::lines::Facts;
use mdl_client_table::Row;
use std::alloc::{AllocError, Global};
use std::marker::Model;

/// A thread that holds locks or waits for them, and what the rows say of its session. The texts are those of the rows, and are empty where a row
/// has NULL or no such column.
#[derive(Drop)]
pub struct Owner {
    thread: u64,
    connection: Option<u64>,
    user: Vec<u8>,
    host: Vec<u8>,
    command: Vec<u8>,
    time: Vec<u8>,
    info: Vec<u8>,
    transaction_started: Vec<u8>,
}

impl Model for Owner {
    ghost use Rattle.mdl_lock_rows.specs.Owners.{OwnerView};

    ghost Value = { OwnerView };

    ghost view = { λ owner. record {
      thread = owner.thread;
      connection = owner.connection;
      user = owner.user.items;
      host = owner.host.items;
      command = owner.command.items;
      time = owner.time.items;
      info = owner.info.items;
      transaction_started = owner.transaction_started.items;
    } };
}

impl Owner {
    /// Returns a thread of which nothing more is known.
    pub(crate) fn bare(alloc: Global, thread: u64) -> Owner
        ensures { result ≡ bare thread }
    {
        Owner {
            thread,
            connection: None,
            user: Vec::new(alloc),
            host: Vec::new(alloc),
            command: Vec::new(alloc),
            time: Vec::new(alloc),
            info: Vec::new(alloc),
            transaction_started: Vec::new(alloc),
        }
    }

    /// Returns what a row says of its thread.
    pub(crate) fn read(
        alloc: Global,
        columns: &Columns,
        row: &Row,
        facts: &Facts,
    ) -> Result<Owner, AllocError>
        ensures { IfOk result (λ owner. owner ≡ owner_of columns.now row.now facts.now) }
    {
        Ok(Owner {
            thread: facts.thread,
            connection: facts.connection,
            user: Vec::from_slice(alloc, field_in(row, columns.user))?,
            host: Vec::from_slice(alloc, field_in(row, columns.host))?,
            command: Vec::from_slice(alloc, field_in(row, columns.command))?,
            time: Vec::from_slice(alloc, field_in(row, columns.time))?,
            info: Vec::from_slice(alloc, field_in(row, columns.info))?,
            transaction_started: Vec::from_slice(alloc, field_in(row, columns.trx_started))?,
        })
    }

    /// Whether anything is known of the thread's session.
    pub(crate) fn is_described(&self) -> bool
        ensures { result ≡ is_described self.now }
    {
        self.connection.is_some()
            || !self.user.is_empty()
            || !self.host.is_empty()
            || !self.command.is_empty()
            || !self.time.is_empty()
            || !self.info.is_empty()
            || !self.transaction_started.is_empty()
    }

    /// Whether the session may be between two statements: its rows say so, or they don't say what it does.
    pub fn may_be_idle(&self) -> bool
        ensures { result ≡ may_be_idle self.now }
    {
        self.command().is_empty() || self.command() == b"Sleep".as_slice()
    }

    /// Returns the number of the thread: the OWNER_THREAD_ID of its rows.
    pub fn thread(&self) -> u64
        ensures { result ≡ self.now.thread }
    {
        self.thread
    }

    /// Returns the number of the thread's connection, which `KILL` takes: its PROCESSLIST_ID.
    pub fn connection(&self) -> Option<u64>
        ensures { result ≡ self.now.connection }
    {
        self.connection
    }

    /// Returns the session's user.
    pub fn user(&self) -> &[u8]
        ensures { result.now ≡ self.now.user }
    {
        self.user.as_slice()
    }

    /// Returns the host that the session comes from.
    pub fn host(&self) -> &[u8]
        ensures { result.now ≡ self.now.host }
    {
        self.host.as_slice()
    }

    /// Returns what the session does.
    pub fn command(&self) -> &[u8]
        ensures { result.now ≡ self.now.command }
    {
        self.command.as_slice()
    }

    /// Returns for how many seconds it has done so.
    pub fn time(&self) -> &[u8]
        ensures { result.now ≡ self.now.time }
    {
        self.time.as_slice()
    }

    /// Returns the session's statement.
    pub fn info(&self) -> &[u8]
        ensures { result.now ≡ self.now.info }
    {
        self.info.as_slice()
    }

    /// Returns when the session's transaction began.
    pub fn transaction_started(&self) -> &[u8]
        ensures { result.now ≡ self.now.transaction_started }
    {
        self.transaction_started.as_slice()
    }
}

impl Clone for Owner {
    ghost is_clone = { λ owner copy. copy ≡ owner };

    fn clone(&self) -> Result<Owner, AllocError> {
        Ok(Owner {
            thread: self.thread,
            connection: self.connection,
            user: self.user.clone()?,
            host: self.host.clone()?,
            command: self.command.clone()?,
            time: self.time.clone()?,
            info: self.info.clone()?,
            transaction_started: self.transaction_started.clone()?,
        })
    }
}
