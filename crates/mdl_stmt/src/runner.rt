//! A session's statements, one after the other.
ghost use Rattle.std.specs.Prelude.{◌≡◌, None, IfOk, IsSome, IfSome, is_some, []};
ghost use Rattle.mdl_calls.specs.Words.{HasNothing, Runs};
ghost use Rattle.mdl_context.specs.Contexts.{Attends, LeavesOthers};
ghost use Rattle.mdl_context.specs.Tidying.{PinsJustNeeded};
ghost use Rattle.mdl_stmt.specs.Attendance.{AttendsWith, GoesOn, IsCapacity, IsReady, LeavesNoPin, LetsAllGo, cached};
ghost use Rattle.mdl_rows.specs.Endings.{closing};
ghost use Rattle.mdl_stmt.specs.Gets.{ran};
ghost use Rattle.mdl_rows.specs.Leavings.{leaving};
ghost use Rattle.mdl_rows.specs.Playing.{play, starting, going_on};
ghost use Rattle.mdl_stmt.specs.Players.{player_in};
ghost use Rattle.mdl_stmt.specs.Stages.{session_of, rest_of};
ghost use Rattle.mdl_rows.specs.States.{at_first};

use crate::got::Played;
use crate::leaving::give_all_up;
use crate::player::{Player, ending_of_error, ending_of_loss};
use crate::stage::Stage;
use crate::{OutOfMemory, Progress};
use mdl_context::{Mark, Resume};
use mdl_rows::Ending;
use mdl_space::{LockSpace, TicketId};
use mdl_syntax::Statement;
use std::alloc::Global;
use std::marker::Model;
use std::mem::drop;

/// What is left of a waiting statement, and its session's mark when the statement began.
#[derive(Drop)]
pub struct Work<'s> {
    stage: Stage<'s>,
    mark: Mark,
}

/// Runs a session's statements, one after the other.
#[derive(Drop)]
pub struct Runner<'s, S: LockSpace> {
    player: Player<S>,
    work: Option<Work<'s>>,
}

impl<'s, S: LockSpace> Model for Runner<'s, S> {
    ghost use Rattle.std.specs.Prelude.{◌≡◌, None};
    ghost use Rattle.mdl_stmt.specs.Players.{RunnerView};

    ghost Value = { RunnerView };

    ghost view = { λ runner. record { context = runner.player.context; state = runner.player.state; work = runner.work; cache = runner.player.cache } };

    ghost invariant = { λ runner. runner.work ≡ None → runner.player.context.wait ≡ None };
}

impl<'s, S: LockSpace> Runner<'s, S> {
    /// Creates a session that has done nothing. Its cache keeps at most `cache` definitions that its statements read: 1
    /// to [`MOST_KEPT`](mdl_defs::MOST_KEPT). Takes memory for the empty cache.
    pub fn new(alloc: Global, who: u16, cache: u16) -> Result<Runner<'s, S>, OutOfMemory>
        requires capacity { IsCapacity cache }
        ensures made { IfOk result (λ runner. runner ≡ record { context = record { who = who; kept = []; known = []; wait = None }; state = at_first; work = None; cache = record { kept = []; capacity = cache } }) }
    {
        let player = Player::new(alloc, who, cache)?;
        Ok(Runner { player, work: None })
    }

    /// Whether a statement of the session waits.
    pub fn is_waiting(&self) -> bool
        ensures { result ≡ is_some self.now.work }
    {
        self.work.is_some()
    }

    /// Starts a statement. No statement of the session may be waiting.
    pub fn start(
        &mut self,
        space: &mut S,
        statement: &'s Statement,
    ) -> Result<Progress, OutOfMemory>
        requires attends { AttendsWith S.LockSpace space.old self.old.context self.old.cache }
        requires idle { self.old.work ≡ None }
        ensures run { Runs S.joins space.old (starting statement.now (session_of self.old)) (ran result (session_of self.new)) space.new }
        ensures reads { Runs (cached S.LockSpace) (space.old, self.old.cache) (starting statement.now (session_of self.old)) (ran result (session_of self.new)) (space.new, self.new.cache) }
        ensures attends { AttendsWith S.LockSpace space.new self.new.context self.new.cache }
        ensures just { PinsJustNeeded S.LockSpace space.old self.old.context → PinsJustNeeded S.LockSpace space.new self.new.context }
        ensures others { LeavesOthers S.LockSpace self.old.context.who space.old space.new }
        ensures who { self.new.context.who ≡ self.old.context.who }
        ensures capacity { self.new.cache.capacity ≡ self.old.cache.capacity }
    {
        let mark = self.player.context.savepoint();
        match self.player.perform(space, statement) {
            Played::Ends(ending) => self.player.close(space, ending, mark),
            Played::Waits(key, mode, stage) => {
                self.work = Some(Work { stage, mark });
                Ok(Progress::Waiting(key, mode))
            }
        }
    }

    /// Continues the waiting statement. A statement must be waiting.
    pub fn go_on(&mut self, space: &mut S) -> Result<Progress, OutOfMemory>
        requires attends { AttendsWith S.LockSpace space.old self.old.context self.old.cache }
        requires waits { IsSome self.old.work }
        ensures run { Runs S.joins space.old (going_on (session_of self.old)) (ran result (session_of self.new)) space.new }
        ensures reads { Runs (cached S.LockSpace) (space.old, self.old.cache) (going_on (session_of self.old)) (ran result (session_of self.new)) (space.new, self.new.cache) }
        ensures attends { AttendsWith S.LockSpace space.new self.new.context self.new.cache }
        ensures just { PinsJustNeeded S.LockSpace space.old self.old.context → PinsJustNeeded S.LockSpace space.new self.new.context }
        ensures others { LeavesOthers S.LockSpace self.old.context.who space.old space.new }
        ensures who { self.new.context.who ≡ self.old.context.who }
        ensures capacity { self.new.cache.capacity ≡ self.old.cache.capacity }
    {
        let user = self.player.context.waits_for_user_lock();
        match self.player.context.resume(space) {
            Ok(Resume::Waiting) => Ok(Progress::Pending),
            Ok(Resume::Acquired(ticket)) => self.go_on_with(space, ticket),
            Ok(Resume::Lost(how)) => self.end_with(space, ending_of_loss(user, how)),
            Err(error) => self.end_with(space, ending_of_error(error)),
        }
    }

    /// Ends the session: abandons a waiting statement, releases all that the session holds, and gives up its pins. Takes
    /// no memory, unless a wait for an upgrade is granted already. Everything is released in any case.
    ///
    /// After MySQL 5.7, `THD::cleanup` of `sql/sql_class.cc`.
    pub fn leave(self, space: &mut S)
        requires attends { Attends S.LockSpace space.old self.context }
        ensures run { Runs S.joins space.old (leaving (session_of self.entry)) tt space.new }
        ensures nothing { HasNothing (S.own space.new self.entry.context.who) }
        ensures let_go { LetsAllGo S.LockSpace space.old self.entry.context space.new }
        ensures pins { LeavesNoPin S.LockSpace space.old self.entry.context space.new }
        ensures speaks { S.speaks_for space.new self.entry.context.who }
        ensures others { LeavesOthers S.LockSpace self.entry.context.who space.old space.new }
    {
        let Runner { mut player, work } = self;
        drop(work);
        give_all_up(&mut player.context, space);
        drop(player);
    }

    // Ends the waiting statement.
    fn end_with(&mut self, space: &mut S, ending: Ending) -> Result<Progress, OutOfMemory>
        requires ready { IsReady S.LockSpace space.old (player_in self.old) }
        requires waited { IsSome self.old.work }
        ensures run { IfSome self.old.work (λ work. Runs (cached S.LockSpace) (space.old, self.old.cache) (closing ending work.mark (session_of self.old)) (ran result (session_of self.new)) (space.new, self.new.cache)) }
        ensures goes_on { GoesOn S.LockSpace space.old (player_in self.old) space.new (player_in self.new) }
    {
        let work = self.work.take().unwrap();
        self.player.close(space, ending, work.mark)
    }

    // Continues a statement whose wait was granted.
    fn go_on_with(&mut self, space: &mut S, ticket: TicketId) -> Result<Progress, OutOfMemory>
        requires ready { IsReady S.LockSpace space.old (player_in self.old) }
        requires waited { IsSome self.old.work }
        ensures run { IfSome self.old.work (λ work. Runs (cached S.LockSpace) (space.old, self.old.cache) (play (rest_of work.stage ticket) work.mark (session_of (record self.old { work = None }))) (ran result (session_of self.new)) (space.new, self.new.cache)) }
        ensures goes_on { GoesOn S.LockSpace space.old (player_in self.old) space.new (player_in self.new) }
    {
        let Work { stage, mark } = self.work.take().unwrap();
        match self.player.proceed(space, stage, ticket) {
            Played::Ends(ending) => self.player.close(space, ending, mark),
            Played::Waits(key, mode, stage) => {
                self.work = Some(Work { stage, mark });
                Ok(Progress::Waiting(key, mode))
            }
        }
    }
}
