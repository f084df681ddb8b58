//! Requests for the locks of a list, one after the other.
ghost use Rattle.std.specs.Prelude.{◌≡◌};
ghost use Rattle.mdl_stmt.specs.Attendance.{GoesOn, IsReady};
ghost use Rattle.mdl_stmt.specs.Gets.{IsListedResult, IsListedBy, IdleUnlessListed, KeepsKeys};
ghost use Rattle.mdl_stmt.specs.Stages.{wish_by};
ghost use Rattle.mdl_rows.specs.Statements.{ddl_lock};

use crate::got::{Listed, LockResult};
use crate::key_lists::may_write;
use crate::lock_list::{LockList, Locking};
use crate::player::Player;
use mdl_context::Request;
use mdl_key::{Duration, Key, Mode, Namespace};
use mdl_space::LockSpace;

impl<S: LockSpace> Player<S> {
    /// Gets the remaining locks of a list, for a change of definitions.
    pub(crate) fn lock_all(&mut self, space: &mut S, locks: LockList) -> Listed
        requires ready { IsReady S.LockSpace space.old self.old }
        ensures run { IsListedResult S.LockSpace locks space.old self.old result space.new self.new }
        ensures goes_on { GoesOn S.LockSpace space.old self.old space.new self.new }
        ensures idle { IdleUnlessListed result self.new }
        ensures keys { KeepsKeys locks result }
    {
        self.lock_each(space, Locking::Ddl, locks)
    }

    /// Gets the remaining locks of a list.
    pub(crate) fn lock_each(
        &mut self,
        space: &mut S,
        locking: Locking<'_>,
        locks: LockList,
    ) -> Listed
        requires ready { IsReady S.LockSpace space.old self.old }
        ensures run { IsListedBy S.LockSpace (wish_by locking.entry) locks space.old self.old result space.new self.new }
        ensures goes_on { GoesOn S.LockSpace space.old self.old space.new self.new }
        ensures idle { IdleUnlessListed result self.new }
        ensures keys { KeepsKeys locks result }
    {
        let mut locks = locks;
        while let Some(key) = locks.next() {
            let mode = mode_of(locking, key);
            let request = Request {
                key,
                mode,
                duration: duration_of(locking, key),
            };
            match self.get(space, request) {
                LockResult::Had(ticket) => locks = locks.with(ticket),
                LockResult::Waits(key) => return Listed::Waits(key, mode, locks),
                LockResult::Ends(ending) => return Listed::Ends(ending),
            }
        }
        Listed::Had(locks)
    }
}

/// The mode in which a key is locked.
fn mode_of(locking: Locking<'_>, key: &Key) -> Mode
    ensures { result ≡ (wish_by locking.entry key.now).mode }
{
    match locking {
        Locking::Ddl => ddl_mode(key),
        Locking::Tables(tables) if may_write(tables.as_slice(), key) => Mode::SNRW,
        Locking::Tables(_) => Mode::SRO,
    }
}

/// The duration for which a key is locked.
fn duration_of(locking: Locking<'_>, key: &Key) -> Duration
    ensures { result ≡ (wish_by locking.entry key.now).duration }
{
    match locking {
        Locking::Ddl => ddl_duration(key),
        Locking::Tables(_) => Duration::Transaction,
    }
}

/// The mode in which DDL locks a key.
fn ddl_mode(key: &Key) -> Mode
    ensures { result ≡ (ddl_lock key.now).mode }
{
    match key.namespace() {
        Namespace::Table => Mode::X,
        _ => Mode::IX,
    }
}

/// The duration for which DDL locks a key.
fn ddl_duration(key: &Key) -> Duration
    ensures { result ≡ (ddl_lock key.now).duration }
{
    match key.namespace() {
        Namespace::Global => Duration::Statement,
        _ => Duration::Transaction,
    }
}
