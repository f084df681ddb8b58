//! GET_LOCK and RELEASE_LOCK.
ghost use Rattle.std.specs.Prelude.{◌≡◌, None};
ghost use Rattle.mdl_stmt.specs.Attendance.{GoesOn, IsReady};
ghost use Rattle.mdl_stmt.specs.Gets.{IsPlayed, IdleUnlessPlayed};
ghost use Rattle.mdl_stmt.specs.declared.got.Played.TheVariants as played;
ghost use Rattle.mdl_rows.specs.Statements.{get_lock, give_back, release_lock};

use crate::Reply;
use crate::got::{LockResult, Played};
use crate::player::Player;
use crate::stage::Stage;
use mdl_context::Request;
use mdl_key::{Duration, Key, Mode};
use mdl_rows::Ending;
use mdl_space::LockSpace;
use mdl_syntax::Name;

impl<S: LockSpace> Player<S> {
    /// Locks a name for the session, until the session releases it.
    pub(crate) fn get_lock<'s>(&mut self, space: &mut S, name: &Name) -> Played<'s>
        requires ready { IsReady S.LockSpace space.old self.old }
        ensures run { IsPlayed S.LockSpace (get_lock name.now) space.old self.old result space.new self.new }
        ensures goes_on { GoesOn S.LockSpace space.old self.old space.new self.new }
        ensures idle { IdleUnlessPlayed result self.new }
    {
        let Ok(lock) = Key::user_lock(self.alloc, name.as_str()) else {
            return Played::Ends(Ending::Starves);
        };
        let request = Request {
            key: &lock,
            mode: Mode::X,
            duration: Duration::Explicit,
        };
        match self.get(space, request) {
            LockResult::Had(_) => Played::Ends(Ending::Answers(Reply::Number(true))),
            LockResult::Waits(key) => Played::Waits(key, Mode::X, Stage::GetLock),
            LockResult::Ends(ending) => Played::Ends(ending),
        }
    }

    /// Releases the session's last ticket of a name. If it has none, finds out whether another session holds the name.
    pub(crate) fn release_lock(&mut self, space: &mut S, name: &Name) -> Ending
        requires ready { IsReady S.LockSpace space.old self.old }
        ensures run { IsPlayed S.LockSpace (release_lock name.now) space.old self.old (played.Ends result) space.new self.new }
        ensures goes_on { GoesOn S.LockSpace space.old self.old space.new self.new }
        ensures idle { self.new.context.wait ≡ None }
    {
        let Ok(lock) = Key::user_lock(self.alloc, name.as_str()) else {
            return Ending::Starves;
        };
        match self.context.last_ticket(&lock) {
            Some(last) => {
                self.release(space, last);
                Ending::Answers(Reply::Number(true))
            }
            None => self.look_for_holder(space, &lock),
        }
    }

    /// Finds out whether another session holds a lock that this one doesn't hold. If none does, this session gets the lock, and
    /// releases it at once.
    fn look_for_holder(&mut self, space: &mut S, lock: &Key) -> Ending
        requires ready { IsReady S.LockSpace space.old self.old }
        ensures run { IsPlayed S.LockSpace (give_back lock.now None) space.old self.old (played.Ends result) space.new self.new }
        ensures goes_on { GoesOn S.LockSpace space.old self.old space.new self.new }
        ensures idle { self.new.context.wait ≡ None }
    {
        let request = Request {
            key: lock,
            mode: Mode::X,
            duration: Duration::Explicit,
        };
        match self.try_to_get(space, request) {
            Ok(Some(ticket)) => {
                self.release(space, ticket);
                Ending::Answers(Reply::Null)
            }
            Ok(None) => Ending::Answers(Reply::Number(false)),
            Err(ending) => ending,
        }
    }
}
