//! DROP SCHEMA.
ghost use Rattle.std.specs.Prelude.{◌≡◌, None, []};
ghost use Rattle.mdl_stmt.specs.Attendance.{GoesOn, IsReady};
ghost use Rattle.mdl_stmt.specs.Gets.{IsPlayed, IsStep, IdleUnlessPlayed, items_told};
ghost use Rattle.mdl_stmt.specs.Stages.{lock_rest, rest_of_dropping_schema};
ghost use Rattle.mdl_rows.specs.Statements.{drop_schema_after_commit, lock_and_drop_schema, drop_schema_under, drop_with, keys_of_places, tables_in};

use crate::Reply;
use crate::got::{Listed, LockResult, Played};
use crate::lock_list::LockList;
use crate::player::Player;
use crate::stage::{DroppingSchema, Stage};
use mdl_context::Request;
use mdl_defs::Change;
use mdl_key::{Duration, Key, Mode};
use mdl_rows::Ending;
use mdl_space::{LockSpace, Place, TicketId};
use mdl_syntax::Name;

impl<S: LockSpace> Player<S> {
    /// Drops a schema, once no transaction is open.
    pub(crate) fn drop_schema<'s>(&mut self, space: &mut S, name: &'s Name) -> Played<'s>
        requires ready { IsReady S.LockSpace space.old self.old }
        ensures run { IsPlayed S.LockSpace (drop_schema_after_commit name.now) space.old self.old result space.new self.new }
        ensures goes_on { GoesOn S.LockSpace space.old self.old space.new self.new }
        ensures idle { IdleUnlessPlayed result self.new }
    {
        let writes = Key::global(self.alloc);
        let request = Request {
            key: &writes,
            mode: Mode::IX,
            duration: Duration::Statement,
        };
        match self.get(space, request) {
            LockResult::Had(_) => self.lock_and_drop_schema(space, name),
            LockResult::Waits(key) => Played::Waits(
                key,
                Mode::IX,
                Stage::DropSchema(DroppingSchema::Global(name)),
            ),
            LockResult::Ends(ending) => Played::Ends(ending),
        }
    }

    /// Locks a schema under the GLOBAL lock, and drops it.
    pub(crate) fn lock_and_drop_schema<'s>(&mut self, space: &mut S, name: &'s Name) -> Played<'s>
        requires ready { IsReady S.LockSpace space.old self.old }
        ensures run { IsPlayed S.LockSpace (lock_and_drop_schema name.now) space.old self.old result space.new self.new }
        ensures goes_on { GoesOn S.LockSpace space.old self.old space.new self.new }
        ensures idle { IdleUnlessPlayed result self.new }
    {
        let Ok(schema) = Key::schema(self.alloc, name.as_str()) else {
            return Played::Ends(Ending::Starves);
        };
        let request = Request {
            key: &schema,
            mode: Mode::X,
            duration: Duration::Transaction,
        };
        match self.get(space, request) {
            LockResult::Had(ticket) => self.drop_schema_under(space, name, ticket),
            LockResult::Waits(key) => Played::Waits(
                key,
                Mode::X,
                Stage::DropSchema(DroppingSchema::Schema(name)),
            ),
            LockResult::Ends(ending) => Played::Ends(ending),
        }
    }

    /// Locks the tables of a schema under the schema's lock, and drops both.
    pub(crate) fn drop_schema_under<'s>(
        &mut self,
        space: &mut S,
        name: &'s Name,
        schema: TicketId,
    ) -> Played<'s>
        requires ready { IsReady S.LockSpace space.old self.old }
        ensures run { IsPlayed S.LockSpace (drop_schema_under name.now schema) space.old self.old result space.new self.new }
        ensures goes_on { GoesOn S.LockSpace space.old self.old space.new self.new }
        ensures idle { IdleUnlessPlayed result self.new }
    {
        if let Err(ending) = self.check_schema(space, schema) {
            return Played::Ends(ending);
        }
        let tables = match self.tables_in(space, name) {
            Ok(tables) => tables,
            Err(ending) => return Played::Ends(ending),
        };
        match LockList::new(self.alloc, tables) {
            Ok(locks) => self.lock_within(space, schema, locks),
            Err(_) => Played::Ends(Ending::Starves),
        }
    }

    /// The tables of a schema that have a definition, in key order.
    fn tables_in(&mut self, space: &mut S, name: &Name) -> Result<Vec<Key>, Ending>
        requires ready { IsReady S.LockSpace space.old self.old }
        ensures run { IsStep S.LockSpace (tables_in name.now) space.old self.old (items_told result) space.new self.new }
        ensures goes_on { GoesOn S.LockSpace space.old self.old space.new self.new }
        ensures idle { self.new.context.wait ≡ None }
    {
        match self.tables_of(space, name.as_str()) {
            Ok(places) => self.keys_of(space, &places),
            Err(ending) => Err(ending),
        }
    }

    /// The keys of places, in their order.
    fn keys_of(&mut self, space: &mut S, places: &[Place]) -> Result<Vec<Key>, Ending>
        requires ready { IsReady S.LockSpace space.old self.old }
        ensures run { IsStep S.LockSpace (keys_of_places [] places.now) space.old self.old (items_told result) space.new self.new }
        ensures goes_on { GoesOn S.LockSpace space.old self.old space.new self.new }
        ensures idle { self.new.context.wait ≡ None }
    {
        let mut keys = Vec::new(self.alloc);
        for place in places {
            let key = match self.key_of(space, *place) {
                Ok(key) => key,
                Err(ending) => return Err(ending),
            };
            if keys.push(key).is_err() {
                return Err(Ending::Starves);
            }
        }
        Ok(keys)
    }

    /// Gets the remaining locks of a schema's tables, and drops the tables and the schema.
    pub(crate) fn lock_within<'s>(
        &mut self,
        space: &mut S,
        schema: TicketId,
        locks: LockList,
    ) -> Played<'s>
        requires ready { IsReady S.LockSpace space.old self.old }
        ensures run { IsPlayed S.LockSpace (lock_rest locks (drop_with schema)) space.old self.old result space.new self.new }
        ensures goes_on { GoesOn S.LockSpace space.old self.old space.new self.new }
        ensures idle { IdleUnlessPlayed result self.new }
    {
        match self.lock_all(space, locks) {
            Listed::Had(locks) => self.drop_with(space, schema, locks.tickets()),
            Listed::Waits(key, mode, locks) => {
                Played::Waits(
                    key,
                    mode,
                    Stage::DropSchema(DroppingSchema::Tables(schema, locks)),
                )
            }
            Listed::Ends(ending) => Played::Ends(ending),
        }
    }

    /// Drops a schema's tables and then the schema, under all their locks.
    fn drop_with<'s>(&mut self, space: &mut S, schema: TicketId, tables: &[TicketId]) -> Played<'s>
        requires ready { IsReady S.LockSpace space.old self.old }
        ensures run { IsPlayed S.LockSpace (drop_with schema tables.now) space.old self.old result space.new self.new }
        ensures goes_on { GoesOn S.LockSpace space.old self.old space.new self.new }
        ensures idle { IdleUnlessPlayed result self.new }
    {
        if let Err(ending) = self.all_can_change(space, tables) {
            return Played::Ends(ending);
        }
        if let Err(ending) = self.can_change(space, schema) {
            return Played::Ends(ending);
        }
        if let Err(ending) = self.drop_all(space, tables) {
            return Played::Ends(ending);
        }
        match self.redefine(space, schema, &Change::Drop) {
            Ok(()) => Played::Ends(Ending::Answers(Reply::Ok)),
            Err(ending) => Played::Ends(ending),
        }
    }

    /// Continues once the awaited lock is held.
    pub(crate) fn go_on_dropping_schema<'s>(
        &mut self,
        space: &mut S,
        at: DroppingSchema<'s>,
        ticket: TicketId,
    ) -> Played<'s>
        requires ready { IsReady S.LockSpace space.old self.old }
        ensures run { IsPlayed S.LockSpace (rest_of_dropping_schema at.entry ticket) space.old self.old result space.new self.new }
        ensures goes_on { GoesOn S.LockSpace space.old self.old space.new self.new }
        ensures idle { IdleUnlessPlayed result self.new }
    {
        match at {
            DroppingSchema::Global(name) => self.lock_and_drop_schema(space, name),
            DroppingSchema::Schema(name) => self.drop_schema_under(space, name, ticket),
            DroppingSchema::Tables(schema, locks) => self.lock_within(
                space,
                schema,
                locks.with(ticket),
            ),
        }
    }
}
