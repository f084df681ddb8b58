//! A session's statements, not borrowed while they wait.
ghost use Rattle.std.specs.Prelude.{◌≡◌, None, IfOk, IsSome, is_some, []};
ghost use Rattle.mdl_calls.specs.Words.{HasNothing, Runs};
ghost use Rattle.mdl_context.specs.Contexts.{Attends, LeavesOthers};
ghost use Rattle.mdl_context.specs.Tidying.{PinsJustNeeded};
ghost use Rattle.mdl_stmt.specs.Attendance.{AttendsWith, IsCapacity, LeavesNoPin, LetsAllGo, cached};
ghost use Rattle.mdl_stmt.specs.Gets.{ran};
ghost use Rattle.mdl_rows.specs.Keepings.{going_on_kept, starting_kept};
ghost use Rattle.mdl_stmt.specs.KeptStages.{session_kept};
ghost use Rattle.mdl_rows.specs.Leavings.{leaving};
ghost use Rattle.mdl_rows.specs.States.{at_first};

use crate::kept_stage::KeptWork;
use crate::leaving::give_all_up;
use crate::player::Player;
use crate::{OutOfMemory, Progress};
use mdl_space::LockSpace;
use mdl_syntax::Statement;
use std::alloc::Global;
use std::marker::Model;
use std::mem::{drop, replace};

/// Runs a session's statements, one after the other. Each is borrowed only while it starts, so a server can drop it as soon as
/// [`OwnedRunner::start`] returns. What a wait needs of its statement is copied when the wait begins.
///
/// Apart from that copy it is a [`Runner`](crate::Runner).
#[derive(Drop)]
pub struct OwnedRunner<S: LockSpace> {
    player: Player<S>,
    work: Option<KeptWork>,
}

impl<S: LockSpace> Model for OwnedRunner<S> {
    ghost use Rattle.std.specs.Prelude.{◌≡◌, None};
    ghost use Rattle.mdl_stmt.specs.KeptStages.{OwnedView};

    ghost Value = { OwnedView };

    ghost view = { λ runner. record { context = runner.player.context; state = runner.player.state; work = runner.work; cache = runner.player.cache } };

    ghost invariant = { λ runner. runner.work ≡ None → runner.player.context.wait ≡ None };
}

impl<S: LockSpace> OwnedRunner<S> {
    /// Creates a session that has done nothing. Its cache keeps at most `cache` definitions that its statements read: 1 to
    /// [`MOST_KEPT`](mdl_defs::MOST_KEPT). Takes memory for the empty cache.
    pub fn new(alloc: Global, who: u16, cache: u16) -> Result<OwnedRunner<S>, OutOfMemory>
        requires capacity { IsCapacity cache }
        ensures made { IfOk result (λ runner. runner ≡ record { context = record { who = who; kept = []; known = []; wait = None }; state = at_first; work = None; cache = record { kept = []; capacity = cache } }) }
    {
        let player = Player::new(alloc, who, cache)?;
        Ok(OwnedRunner { player, work: None })
    }

    /// Whether a statement of the session waits.
    pub fn is_waiting(&self) -> bool
        ensures { result ≡ is_some self.now.work }
    {
        self.work.is_some()
    }

    /// Starts a statement. No statement of the session may be waiting.
    ///
    /// If the statement begins to wait and memory runs out for the copy, its wait is given up, and the statement ends with
    /// [`OutOfMemory`].
    pub fn start(&mut self, space: &mut S, statement: &Statement) -> Result<Progress, OutOfMemory>
        requires attends { AttendsWith S.LockSpace space.old self.old.context self.old.cache }
        requires idle { self.old.work ≡ None }
        ensures run { Runs S.joins space.old (starting_kept statement.now (session_kept self.old)) (ran result (session_kept self.new)) space.new }
        ensures reads { Runs (cached S.LockSpace) (space.old, self.old.cache) (starting_kept statement.now (session_kept self.old)) (ran result (session_kept self.new)) (space.new, self.new.cache) }
        ensures attends { AttendsWith S.LockSpace space.new self.new.context self.new.cache }
        ensures just { PinsJustNeeded S.LockSpace space.old self.old.context → PinsJustNeeded S.LockSpace space.new self.new.context }
        ensures others { LeavesOthers S.LockSpace self.old.context.who space.old space.new }
        ensures who { self.new.context.who ≡ self.old.context.who }
        ensures capacity { self.new.cache.capacity ≡ self.old.cache.capacity }
    {
        let turn = self.player.start_kept(space, statement);
        drop(replace(&mut self.work, turn.work));
        turn.progress
    }

    /// Continues the waiting statement. A statement must be waiting.
    ///
    /// If the statement begins to wait again, what it needs is copied again.
    pub fn go_on(&mut self, space: &mut S) -> Result<Progress, OutOfMemory>
        requires attends { AttendsWith S.LockSpace space.old self.old.context self.old.cache }
        requires waits { IsSome self.old.work }
        ensures run { Runs S.joins space.old (going_on_kept (session_kept self.old)) (ran result (session_kept self.new)) space.new }
        ensures reads { Runs (cached S.LockSpace) (space.old, self.old.cache) (going_on_kept (session_kept self.old)) (ran result (session_kept self.new)) (space.new, self.new.cache) }
        ensures attends { AttendsWith S.LockSpace space.new self.new.context self.new.cache }
        ensures just { PinsJustNeeded S.LockSpace space.old self.old.context → PinsJustNeeded S.LockSpace space.new self.new.context }
        ensures others { LeavesOthers S.LockSpace self.old.context.who space.old space.new }
        ensures who { self.new.context.who ≡ self.old.context.who }
        ensures capacity { self.new.cache.capacity ≡ self.old.cache.capacity }
    {
        let work = self.work.take().unwrap();
        let turn = self.player.go_on_kept(space, work);
        drop(replace(&mut self.work, turn.work));
        turn.progress
    }

    /// Ends the session: abandons a waiting statement, releases all that the session holds, and gives up its pins. Takes no memory,
    /// unless a wait for an upgrade is granted already. Everything is released in any case.
    pub fn leave(self, space: &mut S)
        requires attends { Attends S.LockSpace space.old self.context }
        ensures run { Runs S.joins space.old (leaving (session_kept self)) tt space.new }
        ensures nothing { HasNothing (S.own space.new self.context.who) }
        ensures let_go { LetsAllGo S.LockSpace space.old self.context space.new }
        ensures pins { LeavesNoPin S.LockSpace space.old self.context space.new }
        ensures speaks { S.speaks_for space.new self.context.who }
        ensures others { LeavesOthers S.LockSpace self.context.who space.old space.new }
    {
        let OwnedRunner { mut player, work } = self;
        drop(work);
        give_all_up(&mut player.context, space);
        drop(player);
    }
}
