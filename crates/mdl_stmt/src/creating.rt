//! CREATE TABLE.
ghost use Rattle.std.specs.Prelude.{◌≡◌, None, IfOk};
ghost use Rattle.mdl_key.specs.Keys.{utf8_name_fault};
ghost use Rattle.mdl_key.specs.Refusals.{Refuses};
ghost use Rattle.mdl_stmt.specs.Attendance.{GoesOn, IsReady};
ghost use Rattle.mdl_stmt.specs.Gets.{IsPlayed, IsStep, IdleUnlessPlayed};
ghost use Rattle.mdl_stmt.specs.Stages.{rest_of_creating};
ghost use Rattle.mdl_rows.specs.Statements.{create_after_commit, lock_schema_and_create, lock_and_create, create_under, check_schema, check_new, make_table, schema_of};
ghost use Rattle.mdl_stmt.specs.declared.got.Played.TheVariants as played;

use crate::got::{LockResult, Played};
use crate::player::Player;
use crate::reading::failing;
use crate::stage::{Creating, Stage};
use crate::{ErrorNumber, Reply};
use mdl_context::Request;
use mdl_defs::{Change, Columns, Definition};
use mdl_key::{Duration, Key, Mode, Utf8NameError};
use mdl_rows::Ending;
use mdl_space::{LockSpace, TicketId};
use std::alloc::Global;

// The greatest version of a key.
pub(crate) const MOST_VERSIONS: u64 = 1_000_000;

impl<S: LockSpace> Player<S> {
    /// Creates a table, once no transaction is open.
    pub(crate) fn create<'s>(
        &mut self,
        space: &mut S,
        table: &'s Key,
        columns: &'s Columns,
    ) -> Played<'s>
        requires ready { IsReady S.LockSpace space.old self.old }
        ensures run { IsPlayed S.LockSpace (create_after_commit table.now columns.now) space.old self.old result space.new self.new }
        ensures goes_on { GoesOn S.LockSpace space.old self.old space.new self.new }
        ensures idle { IdleUnlessPlayed result self.new }
    {
        let writes = Key::global(self.alloc);
        let request = Request {
            key: &writes,
            mode: Mode::IX,
            duration: Duration::Statement,
        };
        match self.get(space, request) {
            LockResult::Had(_) => self.lock_schema_and_create(space, table, columns),
            LockResult::Waits(key) => Played::Waits(
                key,
                Mode::IX,
                Stage::Create(Creating::Global(table, columns)),
            ),
            LockResult::Ends(ending) => Played::Ends(ending),
        }
    }

    /// Locks a table's schema, under the GLOBAL lock, and creates the table.
    pub(crate) fn lock_schema_and_create<'s>(
        &mut self,
        space: &mut S,
        table: &'s Key,
        columns: &'s Columns,
    ) -> Played<'s>
        requires ready { IsReady S.LockSpace space.old self.old }
        ensures run { IsPlayed S.LockSpace (lock_schema_and_create table.now columns.now) space.old self.old result space.new self.new }
        ensures goes_on { GoesOn S.LockSpace space.old self.old space.new self.new }
        ensures idle { IdleUnlessPlayed result self.new }
    {
        let Ok(schema) = schema_of(self.alloc, table) else {
            return Played::Ends(Ending::Starves);
        };
        let request = Request {
            key: &schema,
            mode: Mode::IX,
            duration: Duration::Transaction,
        };
        match self.get(space, request) {
            LockResult::Had(over) => self.lock_and_create(space, table, columns, over),
            LockResult::Waits(key) => Played::Waits(
                key,
                Mode::IX,
                Stage::Create(Creating::Schema(table, columns)),
            ),
            LockResult::Ends(ending) => Played::Ends(ending),
        }
    }

    /// Locks a table under its schema's lock, and creates it.
    pub(crate) fn lock_and_create<'s>(
        &mut self,
        space: &mut S,
        table: &'s Key,
        columns: &'s Columns,
        schema: TicketId,
    ) -> Played<'s>
        requires ready { IsReady S.LockSpace space.old self.old }
        ensures run { IsPlayed S.LockSpace (lock_and_create table.now columns.now schema) space.old self.old result space.new self.new }
        ensures goes_on { GoesOn S.LockSpace space.old self.old space.new self.new }
        ensures idle { IdleUnlessPlayed result self.new }
    {
        let request = Request {
            key: table,
            mode: Mode::X,
            duration: Duration::Transaction,
        };
        match self.get(space, request) {
            LockResult::Had(ticket) => self.create_under(space, columns, schema, ticket),
            LockResult::Waits(key) => Played::Waits(
                key,
                Mode::X,
                Stage::Create(Creating::Table(columns, schema)),
            ),
            LockResult::Ends(ending) => Played::Ends(ending),
        }
    }

    /// Creates a table under its lock and its schema's.
    pub(crate) fn create_under<'s>(
        &mut self,
        space: &mut S,
        columns: &Columns,
        schema: TicketId,
        ticket: TicketId,
    ) -> Played<'s>
        requires ready { IsReady S.LockSpace space.old self.old }
        ensures run { IsPlayed S.LockSpace (create_under columns.now schema ticket) space.old self.old result space.new self.new }
        ensures goes_on { GoesOn S.LockSpace space.old self.old space.new self.new }
        ensures idle { IdleUnlessPlayed result self.new }
    {
        if let Err(ending) = self.check_schema(space, schema) {
            return Played::Ends(ending);
        }
        if let Err(ending) = self.check_new(space, columns, ticket) {
            return Played::Ends(ending);
        }
        match self.make_table(space, columns, ticket) {
            Ok(()) => Played::Ends(Ending::Answers(Reply::Ok)),
            Err(ending) => Played::Ends(ending),
        }
    }

    /// Checks that a schema exists.
    pub(crate) fn check_schema(&mut self, space: &mut S, schema: TicketId) -> Result<(), Ending>
        requires ready { IsReady S.LockSpace space.old self.old }
        ensures run { IsStep S.LockSpace (check_schema schema) space.old self.old result space.new self.new }
        ensures goes_on { GoesOn S.LockSpace space.old self.old space.new self.new }
        ensures idle { self.new.context.wait ≡ None }
    {
        match self.read(space, schema) {
            Ok(over) => {
                if over.definition.is_none() {
                    return Err(failing(ErrorNumber::UnknownDatabase));
                }
                Ok(())
            }
            Err(ending) => Err(ending),
        }
    }

    /// Checks that a table can be created.
    fn check_new(
        &mut self,
        space: &mut S,
        columns: &Columns,
        ticket: TicketId,
    ) -> Result<(), Ending>
        requires ready { IsReady S.LockSpace space.old self.old }
        ensures run { IsStep S.LockSpace (check_new columns.now ticket) space.old self.old result space.new self.new }
        ensures goes_on { GoesOn S.LockSpace space.old self.old space.new self.new }
        ensures idle { self.new.context.wait ≡ None }
    {
        let standing = match self.read(space, ticket) {
            Ok(standing) => standing,
            Err(ending) => return Err(ending),
        };
        if standing.definition.is_some() {
            return Err(failing(ErrorNumber::TableExists));
        }
        if columns.names_twice() {
            return Err(failing(ErrorNumber::DuplicateColumn));
        }
        if standing.version >= MOST_VERSIONS {
            return Err(failing(ErrorNumber::VersionLimit));
        }
        Ok(())
    }

    /// Defines a table.
    fn make_table(
        &mut self,
        space: &mut S,
        columns: &Columns,
        ticket: TicketId,
    ) -> Result<(), Ending>
        requires ready { IsReady S.LockSpace space.old self.old }
        ensures run { IsStep S.LockSpace (make_table columns.now ticket) space.old self.old result space.new self.new }
        ensures goes_on { GoesOn S.LockSpace space.old self.old space.new self.new }
        ensures idle { self.new.context.wait ≡ None }
    {
        match columns.clone() {
            Ok(columns) => {
                let change = Change::Create(Definition::Table(columns));
                self.redefine(space, ticket, &change)
            }
            Err(_) => Err(Ending::Starves),
        }
    }

    /// Continues once the awaited lock is held.
    pub(crate) fn go_on_creating<'s>(
        &mut self,
        space: &mut S,
        at: Creating<'s>,
        ticket: TicketId,
    ) -> Played<'s>
        requires ready { IsReady S.LockSpace space.old self.old }
        ensures run { IsPlayed S.LockSpace (rest_of_creating at.entry ticket) space.old self.old result space.new self.new }
        ensures goes_on { GoesOn S.LockSpace space.old self.old space.new self.new }
        ensures idle { IdleUnlessPlayed result self.new }
    {
        match at {
            Creating::Global(table, columns) => self.lock_schema_and_create(space, table, columns),
            Creating::Schema(table, columns) => self.lock_and_create(space, table, columns, ticket),
            Creating::Table(columns, schema) => self.create_under(space, columns, schema, ticket),
        }
    }
}

/// The key of a table's schema. Fails only if memory runs out: a table's schema has a name.
pub(crate) fn schema_of(alloc: Global, table: &Key) -> Result<Key, Utf8NameError>
    ensures made { IfOk result (λ key. key ≡ schema_of table.now) }
    ensures refused { Refuses (utf8_name_fault table.now.schema) Utf8NameError.OutOfMemory result }
{
    Key::schema_utf8(alloc, table.schema_name())
}
