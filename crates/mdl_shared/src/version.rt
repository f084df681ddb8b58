//! Reads the version of a place without its latch.
ghost use Rattle.std.specs.Prelude.{◌≡◌, true};
ghost use Rattle.mdl_key.specs.KeyLookups.{is_known};
ghost use Rattle.mdl_shared.specs.SessionViews.{data_of};
ghost use Rattle.mdl_shared.specs.ReadSteps.{ReadsVersion};

use crate::Session;
use mdl_calls::Place;

impl<R> Session<R> {
    /// Returns the version of a place: how often its key's definition was changed. One step reads it, without the latch. The session must
    /// have resolved a key to the place. It takes no memory.
    ///
    /// The definition of this version counts as read: no later read of the session finds an older one. If the session has no ticket at the
    /// place, the definition may be changed right after.
    pub fn version(&mut self, place: Place) -> u64
        requires known { is_known place (data_of self.old).known ≡ true }
        ensures read { ReadsVersion place result self.old self.new }
    {
        let place = place as usize;
        let member = &mut self.member;
        let version = member.seat.read_version(place);
        member.tickets.note_all(place, version);
        version
    }
}
