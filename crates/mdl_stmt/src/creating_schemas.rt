//! CREATE SCHEMA.
ghost use Rattle.std.specs.Prelude.{◌≡◌, None};
ghost use Rattle.mdl_stmt.specs.Attendance.{GoesOn, IsReady};
ghost use Rattle.mdl_stmt.specs.Gets.{IsPlayed, IsStep, IdleUnlessPlayed};
ghost use Rattle.mdl_stmt.specs.Stages.{rest_of_creating_schema};
ghost use Rattle.mdl_rows.specs.Statements.{create_schema_after_commit, lock_and_create_schema, create_schema_under, check_new_schema};

use crate::creating::MOST_VERSIONS;
use crate::got::{LockResult, Played};
use crate::player::Player;
use crate::reading::failing;
use crate::stage::{CreatingSchema, Stage};
use crate::{ErrorNumber, Reply};
use mdl_context::Request;
use mdl_defs::{Change, Definition};
use mdl_key::{Duration, Key, Mode};
use mdl_rows::Ending;
use mdl_space::{LockSpace, TicketId};
use mdl_syntax::Name;

impl<S: LockSpace> Player<S> {
    /// Creates a schema, once no transaction is open.
    pub(crate) fn create_schema<'s>(&mut self, space: &mut S, name: &'s Name) -> Played<'s>
        requires ready { IsReady S.LockSpace space.old self.old }
        ensures run { IsPlayed S.LockSpace (create_schema_after_commit name.now) space.old self.old result space.new self.new }
        ensures goes_on { GoesOn S.LockSpace space.old self.old space.new self.new }
        ensures idle { IdleUnlessPlayed result self.new }
    {
        let writes = Key::global(self.alloc);
        let request = Request {
            key: &writes,
            mode: Mode::IX,
            duration: Duration::Statement,
        };
        match self.get(space, request) {
            LockResult::Had(_) => self.lock_and_create_schema(space, name),
            LockResult::Waits(key) => Played::Waits(
                key,
                Mode::IX,
                Stage::CreateSchema(CreatingSchema::Global(name)),
            ),
            LockResult::Ends(ending) => Played::Ends(ending),
        }
    }

    /// Locks a schema under the GLOBAL lock, and creates it.
    pub(crate) fn lock_and_create_schema<'s>(&mut self, space: &mut S, name: &'s Name) -> Played<'s>
        requires ready { IsReady S.LockSpace space.old self.old }
        ensures run { IsPlayed S.LockSpace (lock_and_create_schema name.now) space.old self.old result space.new self.new }
        ensures goes_on { GoesOn S.LockSpace space.old self.old space.new self.new }
        ensures idle { IdleUnlessPlayed result self.new }
    {
        let Ok(schema) = Key::schema(self.alloc, name.as_str()) else {
            return Played::Ends(Ending::Starves);
        };
        let request = Request {
            key: &schema,
            mode: Mode::X,
            duration: Duration::Transaction,
        };
        match self.get(space, request) {
            LockResult::Had(ticket) => self.create_schema_under(space, ticket),
            LockResult::Waits(key) => Played::Waits(
                key,
                Mode::X,
                Stage::CreateSchema(CreatingSchema::Schema),
            ),
            LockResult::Ends(ending) => Played::Ends(ending),
        }
    }

    /// Creates a schema under its lock.
    pub(crate) fn create_schema_under<'s>(&mut self, space: &mut S, ticket: TicketId) -> Played<'s>
        requires ready { IsReady S.LockSpace space.old self.old }
        ensures run { IsPlayed S.LockSpace (create_schema_under ticket) space.old self.old result space.new self.new }
        ensures goes_on { GoesOn S.LockSpace space.old self.old space.new self.new }
        ensures idle { IdleUnlessPlayed result self.new }
    {
        if let Err(ending) = self.check_new_schema(space, ticket) {
            return Played::Ends(ending);
        }
        match self.redefine(space, ticket, &Change::Create(Definition::Schema)) {
            Ok(()) => Played::Ends(Ending::Answers(Reply::Ok)),
            Err(ending) => Played::Ends(ending),
        }
    }

    /// Checks that a schema can be created.
    fn check_new_schema(&mut self, space: &mut S, ticket: TicketId) -> Result<(), Ending>
        requires ready { IsReady S.LockSpace space.old self.old }
        ensures run { IsStep S.LockSpace (check_new_schema ticket) space.old self.old result space.new self.new }
        ensures goes_on { GoesOn S.LockSpace space.old self.old space.new self.new }
        ensures idle { self.new.context.wait ≡ None }
    {
        let standing = match self.read(space, ticket) {
            Ok(standing) => standing,
            Err(ending) => return Err(ending),
        };
        if standing.definition.is_some() {
            return Err(failing(ErrorNumber::SchemaExists));
        }
        if standing.version >= MOST_VERSIONS {
            return Err(failing(ErrorNumber::VersionLimit));
        }
        Ok(())
    }

    /// Continues once the awaited lock is held.
    pub(crate) fn go_on_creating_schema<'s>(
        &mut self,
        space: &mut S,
        at: CreatingSchema<'s>,
        ticket: TicketId,
    ) -> Played<'s>
        requires ready { IsReady S.LockSpace space.old self.old }
        ensures run { IsPlayed S.LockSpace (rest_of_creating_schema at.entry ticket) space.old self.old result space.new self.new }
        ensures goes_on { GoesOn S.LockSpace space.old self.old space.new self.new }
        ensures idle { IdleUnlessPlayed result self.new }
    {
        match at {
            CreatingSchema::Global(name) => self.lock_and_create_schema(space, name),
            CreatingSchema::Schema => self.create_schema_under(space, ticket),
        }
    }
}
