//! FLUSH TABLES WITH READ LOCK.
ghost use Rattle.std.specs.Prelude.{◌≡◌, None};
ghost use Rattle.mdl_stmt.specs.Attendance.{GoesOn, IsReady};
ghost use Rattle.mdl_rows.specs.Endings.{state_after};
ghost use Rattle.mdl_stmt.specs.Gets.{IsPlayed, IsWithoutHalf, IdleUnlessPlayed};
ghost use Rattle.mdl_rows.specs.States.{half_lock};
ghost use Rattle.mdl_stmt.specs.Stages.{rest_of_flushing};
ghost use Rattle.mdl_rows.specs.Statements.{after_commit, flush_after_commit, flush_first, get_read_lock, lock_commits, read_lock_under};
ghost use Rattle.mdl_stmt.specs.declared.got.Played.TheVariants as played;

use crate::got::{LockResult, Played};
use crate::player::Player;
use crate::reading::failing;
use crate::stage::{Flushing, Stage};
use crate::{ErrorNumber, Reply};
use mdl_context::Request;
use mdl_key::{Duration, Key, Mode};
use mdl_rows::Ending;
use mdl_space::{LockSpace, TicketId};
use mdl_syntax::Statement;

impl<S: LockSpace> Player<S> {
    /// Performs FLUSH TABLES WITH READ LOCK: it is refused if the session has locked tables, and commits an open transaction
    /// first.
    pub(crate) fn flush<'s>(&mut self, space: &mut S, statement: &'s Statement) -> Played<'s>
        requires ready { IsReady S.LockSpace space.old self.old }
        ensures run { IsPlayed S.LockSpace (flush_first (after_commit statement.now)) space.old self.old result space.new self.new }
        ensures goes_on { GoesOn S.LockSpace space.old self.old space.new self.new }
        ensures idle { IdleUnlessPlayed result self.new }
    {
        if self.explicit.has_locked() {
            return Played::Ends(failing(ErrorNumber::ActiveLocks));
        }
        self.commit_first(space, statement)
    }

    /// Gets the global read lock, once no transaction is open, unless the session has it.
    pub(crate) fn flush_after_commit<'s>(&mut self, space: &mut S) -> Played<'s>
        requires ready { IsReady S.LockSpace space.old self.old }
        ensures run { IsPlayed S.LockSpace flush_after_commit space.old self.old result space.new self.new }
        ensures goes_on { GoesOn S.LockSpace space.old self.old space.new self.new }
        ensures idle { IdleUnlessPlayed result self.new }
    {
        if self.explicit.has_read_lock() {
            return Played::Ends(Ending::Answers(Reply::Ok));
        }
        self.get_read_lock(space)
    }

    /// Gets the GLOBAL lock in mode S, and then the COMMIT lock.
    fn get_read_lock<'s>(&mut self, space: &mut S) -> Played<'s>
        requires ready { IsReady S.LockSpace space.old self.old }
        ensures run { IsPlayed S.LockSpace get_read_lock space.old self.old result space.new self.new }
        ensures goes_on { GoesOn S.LockSpace space.old self.old space.new self.new }
        ensures idle { IdleUnlessPlayed result self.new }
    {
        let writes = Key::global(self.alloc);
        let request = Request {
            key: &writes,
            mode: Mode::S,
            duration: Duration::Explicit,
        };
        match self.get(space, request) {
            LockResult::Had(global) => self.lock_commits(space, global),
            LockResult::Waits(key) => Played::Waits(key, Mode::S, Stage::Flush(Flushing::Global)),
            LockResult::Ends(ending) => Played::Ends(ending),
        }
    }

    /// Gets the COMMIT lock in mode S too, under the GLOBAL lock.
    pub(crate) fn lock_commits<'s>(&mut self, space: &mut S, global: TicketId) -> Played<'s>
        requires ready { IsReady S.LockSpace space.old self.old }
        ensures run { IsPlayed S.LockSpace (lock_commits global) space.old self.old result space.new self.new }
        ensures goes_on { GoesOn S.LockSpace space.old self.old space.new self.new }
        ensures idle { IdleUnlessPlayed result self.new }
    {
        self.explicit.lock_writes(global);
        let commits = Key::commit(self.alloc);
        let request = Request {
            key: &commits,
            mode: Mode::S,
            duration: Duration::Explicit,
        };
        match self.get(space, request) {
            LockResult::Had(commit) => Played::Ends(self.read_lock_under(space, commit)),
            LockResult::Waits(key) => Played::Waits(key, Mode::S, Stage::Flush(Flushing::Commit)),
            LockResult::Ends(ending) => Played::Ends(ending),
        }
    }

    /// Notes that the session has the global read lock, with this ticket of the COMMIT lock.
    pub(crate) fn read_lock_under(&mut self, space: &mut S, commit: TicketId) -> Ending
        requires ready { IsReady S.LockSpace space.old self.old }
        ensures run { IsPlayed S.LockSpace (read_lock_under commit) space.old self.old (played.Ends result) space.new self.new }
        ensures goes_on { GoesOn S.LockSpace space.old self.old space.new self.new }
        ensures idle { self.new.context.wait ≡ None }
    {
        self.explicit.lock_commits(commit);
        Ending::Answers(Reply::Ok)
    }

    /// Releases the GLOBAL lock if it is half of a global read lock, because the statement ends before it got the COMMIT lock.
    pub(crate) fn drop_half(&mut self, space: &mut S, ending: &Ending)
        requires ready { IsReady S.LockSpace space.old self.old }
        ensures run { IsWithoutHalf S.LockSpace ending.now space.old self.old space.new self.new }
        ensures goes_on { GoesOn S.LockSpace space.old self.old space.new self.new }
        ensures idle { self.new.context.wait ≡ None }
    {
        match self.half_lock(ending) {
            Some(global) => {
                let _released = self.context.release(space, global);
                self.explicit.clear_read_lock();
            }
            None => {}
        }
    }

    /// The ticket of such a half read lock, if there is one. There is none while a transaction stays open.
    fn half_lock(&self, ending: &Ending) -> Option<TicketId>
        ensures { result ≡ half_lock (state_after ending.now self.now.state) }
    {
        match ending {
            Ending::Falls => self.explicit.lone_ticket(),
            _ if self.is_open => None,
            _ => self.explicit.lone_ticket(),
        }
    }

    /// Continues once the awaited lock is held.
    pub(crate) fn go_on_flushing<'s>(
        &mut self,
        space: &mut S,
        at: Flushing,
        ticket: TicketId,
    ) -> Played<'s>
        requires ready { IsReady S.LockSpace space.old self.old }
        ensures run { IsPlayed S.LockSpace (rest_of_flushing at ticket) space.old self.old result space.new self.new }
        ensures goes_on { GoesOn S.LockSpace space.old self.old space.new self.new }
        ensures idle { IdleUnlessPlayed result self.new }
    {
        match at {
            Flushing::Global => self.lock_commits(space, ticket),
            Flushing::Commit => Played::Ends(self.read_lock_under(space, ticket)),
        }
    }
}
