//! Which tables of a schema have a definition.
ghost use Rattle.mdl_calls.specs.CallSpec.{Transition};
ghost use Rattle.mdl_calls.specs.calls.TablesOf as call;
ghost use Rattle.mdl_calls.specs.Words.{tables_told};
ghost use Rattle.mdl_shared.specs.SessionViews.{data_of};
ghost use Rattle.mdl_shared.specs.StepSpec.{TakesSteps};
ghost use Rattle.mdl_shared.specs.calls.TablesOf as steps;

use crate::Session;
use mdl_calls::{Place, SpaceError};
use mdl_visits::{find_tables, tables_defined};
use std::sync::Wait;

impl<R: Wait> Session<R> {
    /// Returns the places of a schema's tables that have a definition, in the order of their keys. The session knows the keys of all the
    /// schema's tables from then on. It looks in the directory once, and then at each table's place.
    pub fn tables_of(&mut self, schema: &str) -> Result<Vec<Place>, SpaceError>
        ensures joined { Transition (call.tables_of self.old.me.0.number schema.now) (tables_told result) (data_of self.old) (data_of self.new) }
        ensures shown { TakesSteps (steps.tables_of schema.now) (tables_told result) self.old self.new }
    {
        let member = &mut self.member;
        let alloc = member.alloc;
        let Ok((tables, mut places)) = find_tables(
            &self.rt,
            &mut member.seat,
            alloc,
            &mut member.known,
            schema,
        ) else {
            return Err(SpaceError::OutOfMemory);
        };
        tables_defined(&self.rt, &mut member.seat, &tables, &mut places);
        member.known.learn(tables);
        Ok(places)
    }
}
