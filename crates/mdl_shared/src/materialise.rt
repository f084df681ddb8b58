//! A session's fast tickets become slow ones.
//!
//! After MySQL 5.7, sql/mdl.cc: `MDL_context::materialize_fast_path_locks`.
ghost use Rattle.std.specs.Prelude.{◌≡◌, [], IfErr, OnErr, OnOk};
ghost use Rattle.mdl_shared.specs.DeedsDone.{DoesQuietly};
ghost use Rattle.mdl_shared.specs.FastDeeds.{AreSameOrSlow, AreSlowBefore};
ghost use Rattle.mdl_shared.specs.SessionViews.{data_of};
ghost use Rattle.mdl_shared.specs.WishSteps.{AllMadeSlow, LacksRoomForFast, SlowsAll, StopsSlowing};
ghost use Rattle.mdl_shared.specs.TicketLists.{KeepsRoom};

use crate::Session;
use mdl_calls::SpaceError;
use std::sync::Wait;

impl<R: Wait> Session<R> {
    /// Makes the session's fast tickets slow, place by place: they are entered in the books. The session has the same tickets as before. If
    /// there is no room for those of a place, they stay fast, as do those at places with greater numbers.
    ///
    /// A session that waits has no fast ticket.
    pub fn materialise(&mut self) -> Result<(), SpaceError>
        ensures same { data_of self.new ≡ data_of self.old }
        ensures quiet { DoesQuietly 0 [] self.old self.new }
        ensures slow { OnOk result ((self.new.me.0.fast ≡ []) × AllMadeSlow self.old self.new) }
        ensures turn { OnOk result (SlowsAll self.old.me self.new.me) }
        ensures stops { OnErr result (StopsSlowing self.old.me self.new.me) }
        ensures refused { IfErr result (λ why. LacksRoomForFast why self.old self.new) }
        ensures partly { OnErr result (AreSameOrSlow self.old self.new) }
        ensures order { OnErr result (AreSlowBefore self.old self.new) }
        ensures room { KeepsRoom 0 self.old.room self.new.room }
    {
        if self.member.asks.is_some() {
            return Ok(());
        }
        self.member.materialise(&self.rt)
    }
}
