//! RENAME TABLE.
ghost use Rattle.std.specs.Prelude.{◌≡◌, [], ◌∷◌, Some, None, IfOk, MatchResult};
ghost use Rattle.mdl_stmt.specs.Attendance.{GoesOn, IsReady};
ghost use Rattle.mdl_stmt.specs.Gets.{IsPlayed, IsStep, IdleUnlessPlayed};
ghost use Rattle.mdl_rows.specs.declared.ending.Ending.TheVariants.{Answers};
ghost use Rattle.mdl_rows.specs.declared.error_number.ErrorNumber.TheVariants.{NoSuchTable};
ghost use Rattle.mdl_rows.specs.declared.reply.Reply.TheVariants.{Error};
ghost use Rattle.mdl_rows.specs.KeyOrder.{locked_ticket};
ghost use Rattle.mdl_stmt.specs.Stages.{rename_names, rename_scopes, rest_of_renaming};
ghost use Rattle.mdl_rows.specs.Statements.{rename_after_commit, lock_and_rename, rename_under, move_definition, check_absent, definition_under, schema_of};

use crate::creating::schema_of;
use crate::got::{Listed, Played};
use crate::key_lists::{in_key_order, scopes_of};
use crate::lock_list::LockList;
use crate::player::Player;
use crate::reading::failing;
use crate::stage::{Renaming, Stage};
use crate::{ErrorNumber, Reply};
use mdl_defs::{Change, Definition};
use mdl_key::Key;
use mdl_rows::Ending;
use mdl_space::{LockSpace, TicketId};
use std::alloc::AllocError;

impl<S: LockSpace> Player<S> {
    /// Renames a table, once no transaction is open.
    pub(crate) fn rename<'s>(&mut self, space: &mut S, from: &'s Key, to: &'s Key) -> Played<'s>
        requires ready { IsReady S.LockSpace space.old self.old }
        ensures run { IsPlayed S.LockSpace (rename_after_commit from.now to.now) space.old self.old result space.new self.new }
        ensures goes_on { GoesOn S.LockSpace space.old self.old space.new self.new }
        ensures idle { IdleUnlessPlayed result self.new }
    {
        let Ok(names) = both(from, to) else {
            return Played::Ends(Ending::Starves);
        };
        match scopes_of(self.alloc, &names) {
            Ok(locks) => self.lock_rename_scopes(space, from, to, locks),
            Err(_) => Played::Ends(Ending::Starves),
        }
    }

    /// Gets the remaining locks of GLOBAL and the schemas of both names, and renames the table.
    pub(crate) fn lock_rename_scopes<'s>(
        &mut self,
        space: &mut S,
        from: &'s Key,
        to: &'s Key,
        locks: LockList,
    ) -> Played<'s>
        requires ready { IsReady S.LockSpace space.old self.old }
        ensures run { IsPlayed S.LockSpace (rename_scopes from.now to.now locks locks.keys) space.old self.old result space.new self.new }
        ensures goes_on { GoesOn S.LockSpace space.old self.old space.new self.new }
        ensures idle { IdleUnlessPlayed result self.new }
    {
        match self.lock_all(space, locks) {
            Listed::Had(scopes) => self.lock_and_rename(space, from, to, &scopes),
            Listed::Waits(key, mode, locks) => {
                let at = Renaming::Scopes(locks);
                Played::Waits(key, mode, Stage::Rename { from, to, at })
            }
            Listed::Ends(ending) => Played::Ends(ending),
        }
    }

    /// Locks both names of a table under the locks of their schemas, and renames it.
    fn lock_and_rename<'s>(
        &mut self,
        space: &mut S,
        from: &'s Key,
        to: &'s Key,
        scopes: &LockList,
    ) -> Played<'s>
        requires ready { IsReady S.LockSpace space.old self.old }
        ensures run { IsPlayed S.LockSpace (lock_and_rename from.now to.now (locked_ticket (schema_of to.now) scopes.now.keys scopes.now.tickets)) space.old self.old result space.new self.new }
        ensures goes_on { GoesOn S.LockSpace space.old self.old space.new self.new }
        ensures idle { IdleUnlessPlayed result self.new }
    {
        let Ok(schema) = schema_of(self.alloc, to) else {
            return Played::Ends(Ending::Starves);
        };
        let schema = scopes.ticket_of(&schema);
        let Ok(names) = both(from, to) else {
            return Played::Ends(Ending::Starves);
        };
        match in_key_order(self.alloc, &names) {
            Ok(locks) => self.lock_names(space, from, to, schema, locks),
            Err(_) => Played::Ends(Ending::Starves),
        }
    }

    /// Gets the remaining locks of both names, and renames the table.
    pub(crate) fn lock_names<'s>(
        &mut self,
        space: &mut S,
        from: &'s Key,
        to: &'s Key,
        schema: TicketId,
        locks: LockList,
    ) -> Played<'s>
        requires ready { IsReady S.LockSpace space.old self.old }
        ensures run { IsPlayed S.LockSpace (rename_names from.now to.now schema locks locks.keys) space.old self.old result space.new self.new }
        ensures goes_on { GoesOn S.LockSpace space.old self.old space.new self.new }
        ensures idle { IdleUnlessPlayed result self.new }
    {
        match self.lock_all(space, locks) {
            Listed::Had(names) => {
                self.rename_under(space, schema, names.ticket_of(from), names.ticket_of(to))
            }
            Listed::Waits(key, mode, locks) => {
                let at = Renaming::Names(schema, locks);
                Played::Waits(key, mode, Stage::Rename { from, to, at })
            }
            Listed::Ends(ending) => Played::Ends(ending),
        }
    }

    /// Renames a table under the locks of both names and of the new one's schema.
    fn rename_under<'s>(
        &mut self,
        space: &mut S,
        schema: TicketId,
        from: TicketId,
        to: TicketId,
    ) -> Played<'s>
        requires ready { IsReady S.LockSpace space.old self.old }
        ensures run { IsPlayed S.LockSpace (rename_under schema from to) space.old self.old result space.new self.new }
        ensures goes_on { GoesOn S.LockSpace space.old self.old space.new self.new }
        ensures idle { IdleUnlessPlayed result self.new }
    {
        if let Err(ending) = self.is_free(space, to) {
            return Played::Ends(ending);
        }
        let definition = match self.definition_under(space, from) {
            Ok(definition) => definition,
            Err(ending) => return Played::Ends(ending),
        };
        if let Err(ending) = self.check_schema(space, schema) {
            return Played::Ends(ending);
        }
        self.move_definition(space, definition, from, to)
    }

    /// Checks that there is no table of a name.
    fn is_free(&mut self, space: &mut S, ticket: TicketId) -> Result<(), Ending>
        requires ready { IsReady S.LockSpace space.old self.old }
        ensures run { IsStep S.LockSpace (check_absent ticket) space.old self.old result space.new self.new }
        ensures goes_on { GoesOn S.LockSpace space.old self.old space.new self.new }
        ensures idle { self.new.context.wait ≡ None }
    {
        match self.read(space, ticket) {
            Ok(standing) => {
                if standing.definition.is_some() {
                    return Err(failing(ErrorNumber::TableExists));
                }
                Ok(())
            }
            Err(ending) => Err(ending),
        }
    }

    /// The definition of a table. Fails if there is no such table.
    fn definition_under(&mut self, space: &mut S, ticket: TicketId) -> Result<Definition, Ending>
        requires ready { IsReady S.LockSpace space.old self.old }
        ensures run { IsStep S.LockSpace (definition_under ticket) space.old self.old result space.new self.new }
        ensures goes_on { GoesOn S.LockSpace space.old self.old space.new self.new }
        ensures idle { self.new.context.wait ≡ None }
    {
        match self.read(space, ticket) {
            Ok(standing) => found(standing.definition),
            Err(ending) => Err(ending),
        }
    }

    /// Moves a definition to another name. Only the first of the two changes takes memory.
    fn move_definition<'s>(
        &mut self,
        space: &mut S,
        definition: Definition,
        from: TicketId,
        to: TicketId,
    ) -> Played<'s>
        requires ready { IsReady S.LockSpace space.old self.old }
        ensures run { IsPlayed S.LockSpace (move_definition definition from to) space.old self.old result space.new self.new }
        ensures goes_on { GoesOn S.LockSpace space.old self.old space.new self.new }
        ensures idle { IdleUnlessPlayed result self.new }
    {
        if let Err(ending) = self.all_can_change(space, &[to, from]) {
            return Played::Ends(ending);
        }
        if let Err(ending) = self.redefine(space, to, &Change::Put(definition)) {
            return Played::Ends(ending);
        }
        match self.redefine(space, from, &Change::Drop) {
            Ok(()) => Played::Ends(Ending::Answers(Reply::Ok)),
            Err(ending) => Played::Ends(ending),
        }
    }

    /// Continues once the awaited lock is held.
    pub(crate) fn go_on_renaming<'s>(
        &mut self,
        space: &mut S,
        from: &'s Key,
        to: &'s Key,
        at: Renaming,
        ticket: TicketId,
    ) -> Played<'s>
        requires ready { IsReady S.LockSpace space.old self.old }
        ensures run { IsPlayed S.LockSpace (rest_of_renaming from.now to.now at ticket) space.old self.old result space.new self.new }
        ensures goes_on { GoesOn S.LockSpace space.old self.old space.new self.new }
        ensures idle { IdleUnlessPlayed result self.new }
    {
        match at {
            Renaming::Scopes(locks) => self.lock_rename_scopes(space, from, to, locks.with(ticket)),
            Renaming::Names(schema, locks) => {
                self.lock_names(space, from, to, schema, locks.with(ticket))
            }
        }
    }
}

/// The definition, or an error if there is none.
fn found(definition: Option<Definition>) -> Result<Definition, Ending>
    ensures { MatchResult result (λ it. definition ≡ Some it) (λ ending. (definition ≡ None) × (ending ≡ Answers (Error NoSuchTable))) }
{
    match definition {
        Some(definition) => Ok(definition),
        None => Err(failing(ErrorNumber::NoSuchTable)),
    }
}

/// Copies both names of a table.
fn both(from: &Key, to: &Key) -> Result<[Key; 2], AllocError>
    ensures { IfOk result (λ names. names ≡ from.now ∷ to.now ∷ []) }
{
    Ok([from.clone()?, to.clone()?])
}
