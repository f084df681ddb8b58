//! Reading and changing the definitions of keys.
ghost use Rattle.std.specs.Prelude.{◌≡◌, true, IfOk, IsOkUnless};
ghost use Rattle.mdl_core.specs.Words.{SpeaksFor, Makes, has_key, standing_at, read_definition_outcome, change_definition_outcome, redefining_fault, redefined_unless};
ghost use Rattle.mdl_calls.specs.Words.{change_takes_memory, read, redefined};

use crate::core_space::CoreSpace;
use crate::{Place, SpaceError, TicketId};
use mdl_defs::{Change, VersionedDefinition};
use mdl_key::Mode;

impl CoreSpace {
    /// Returns the version and the definition of the key at a held ticket's place.
    pub(crate) fn read_definition(
        &self,
        who: u16,
        id: TicketId,
    ) -> Result<VersionedDefinition, SpaceError>
        requires { SpeaksFor self.now who }
        ensures { Makes true (read_definition_outcome who id) self.now (read result) self.now }
    {
        let Some(ticket) = self.seats[usize::from(who) - 1].ticket(id) else {
            return Err(SpaceError::NotHeld);
        };
        self.read_at(ticket.place)
    }

    /// Changes the definition of the key at the place of a ticket that is held in mode X, and returns the new version.
    pub(crate) fn change_definition(
        &mut self,
        who: u16,
        id: TicketId,
        change: &Change,
    ) -> Result<u64, SpaceError>
        requires { SpeaksFor self.old who }
        ensures { Makes (change_takes_memory change.now) (change_definition_outcome who id change.now) self.old (redefined result) self.new }
    {
        let Some(ticket) = self.seats[usize::from(who) - 1].ticket(id) else {
            return Err(SpaceError::NotHeld);
        };
        if ticket.mode != Mode::X {
            return Err(SpaceError::NotExclusive);
        }
        self.redefine_at(ticket.place, change)
    }

    /// Returns the version and the definition of the key of a place.
    fn read_at(&self, place: Place) -> Result<VersionedDefinition, SpaceError>
        requires { has_key place self.now ≡ true }
        ensures read { IfOk result (λ standing. standing ≡ standing_at place self.now) }
        ensures memory { IsOkUnless result SpaceError.OutOfMemory }
    {
        match self.books[usize::from(place) - 1].read() {
            Ok(standing) => Ok(standing),
            Err(_) => Err(SpaceError::OutOfMemory),
        }
    }

    /// Changes the definition of the key of a place, and returns the new version.
    fn redefine_at(&mut self, place: Place, change: &Change) -> Result<u64, SpaceError>
        requires { has_key place self.old ≡ true }
        ensures { Makes (change_takes_memory change.now) (redefined_unless (redefining_fault place change.now self.old) place change.now)
            self.old (redefined result) self.new }
    {
        let book = &mut self.books[usize::from(place) - 1];
        let version = book.redefine(change)?;
        Ok(version)
    }
}
