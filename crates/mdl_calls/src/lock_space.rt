//! The trait of lock spaces.
ghost use Rattle.std.specs.Prelude.{◌≡◌, ℕ};
ghost use Rattle.mdl_key.specs.Words.{KeyName};
ghost use Rattle.mdl_defs.specs.Caches.{CacheView};
ghost use Rattle.mdl_defs.specs.declared.versioned_definition.VersionedDefinition.{VersionedDefinition};
ghost use Rattle.mdl_calls.specs.declared.answers.Settled.{Settled};
ghost use Rattle.mdl_calls.specs.SpaceLaws.{SpaceLaws};
ghost use Rattle.mdl_calls.specs.Words.{AreMet, Call, Resolve, Try_now, Begin_wait, Search as Search_by, Poll_wait, Settle_timeout, End_wait, Wait_of, Kill, Release, Clone_ticket, Upgrade_now, Merge, Downgrade, List_held, Read_definition, Read_kept, Change_definition, Tables_of, Key_of, Unpin, Answer, Has_wait, Has_killed, placed, attempted, begun, searched, polled, timed_out, ended, done, cloned, upgrade_tried, listed, SessionLocks, Numbers, keyed, read, redefined, tables_told};

use crate::{
    Attempt, Begun, Ended, Held, Place, Poll, Search, SpaceError, TicketId, TimedOut, Upgrade,
};
use mdl_defs::{Change, DefCache, VersionedDefinition};
use mdl_key::{Key, Mode};

/// A lock space: keys at their places, and the tickets, waits and pins of numbered sessions.
///
/// A session holds tickets, pins places, and has at most one wait. A call is made for one session, and the space has to speak for that
/// session (`speaks_for`). Only [`LockSpace::wait_of`] and [`LockSpace::kill`] may name any session. What a call does to its own
/// session is the same in every space. No call changes what another session holds. A space in which other sessions act at the
/// same time promises less about the rest than a space of one thread.
///
/// The laws (`specs/SpaceLaws`) hold in every space. What a method's text says beyond them holds for `CoreSpace` of `mdl_space`, by
/// the laws of `mdl_core`: which place a new key takes, which victim a search chooses, that a clone overtakes waiters, that a
/// session's other tickets don't block its upgrade, that exactly the tables with a definition are returned, and that a session
/// has no number left only once it has used the last one.
///
/// After MySQL 5.7, `MDL_context` of `sql/mdl.h`.
pub trait LockSpace {
    // The sessions that the space speaks for: their calls may be made on it.
    ghost speaks_for: { Self → ℕ → Type 0 };

    // A session's held tickets, its wait and its pins.
    ghost own: { Self → ℕ → SessionLocks };

    // A session knows that this place has this key.
    ghost knows: { Self → ℕ → ℕ → KeyName → Type 0 };

    // A session's wait is settled in this way.
    ghost is_settled: { Self → ℕ → Settled → Type 0 };

    // The last numbers that were given to a session's tickets and waits.
    ghost numbers: { Self → ℕ → Numbers };

    // A place's version and definition: a session read them, or its own change made them, and they can't have changed since.
    ghost has_read: { Self → ℕ → ℕ → VersionedDefinition → Type 0 };

    // A session has met this version and definition at a place, now or before: it read them, or its own change made them.
    ghost has_met: { Self → ℕ → ℕ → VersionedDefinition → Type 0 };

    // A session has seen that a place's version is at least this one.
    ghost has_seen: { Self → ℕ → ℕ → ℕ → Type 0 };

    // A session still owes this place a reschedule: to grant the waiters that can be granted.
    ghost owes: { Self → ℕ → ℕ → Type 0 };

    // A call with this answer takes the first space to the second.
    ghost joins: { Self → Call → Answer → Self → Type 0 };

    // A session's read under a ticket, with this answer, takes the first cache to the second, and the first space to the second.
    ghost uses_cache: { Self → ℕ → ℕ → Answer → CacheView → CacheView → Self → Type 0 };

    /// Returns the place of a key, and pins it for the session: the place keeps this key at least until
    /// [`LockSpace::unpin`].
    ///
    /// A new key takes the next free place. If every place has a key, the space of one thread gives it the least place that no
    /// session pins and whose version is 0. Fails with [`SpaceError::NoPlace`] if there is none.
    fn resolve(&mut self, who: u16, key: &Key) -> Result<Place, SpaceError>
        requires { speaks_for self.old who }
        ensures { joins self.old (Resolve who key.now) (placed result) self.new };

    /// Gives up the session's pin of a place. It takes no memory.
    ///
    /// Fails with [`SpaceError::NoPlace`] if the session doesn't pin the place, and with [`SpaceError::InUse`] if it has a
    /// ticket or a wait there, or still has to reschedule the waiters there, after a release that left this for later. However
    /// often it resolved the key, one call ends the pin.
    fn unpin(&mut self, who: u16, place: Place) -> Result<(), SpaceError>
        requires { speaks_for self.old who }
        ensures { joins self.old (Unpin who place) (done result) self.new };

    /// Requests a lock at a pinned place, without waiting. Fails with [`SpaceError::NoPlace`] if the session doesn't pin the
    /// place, which [`LockSpace::resolve`] does.
    fn try_now(&mut self, who: u16, place: Place, mode: Mode) -> Result<Attempt, SpaceError>
        requires { speaks_for self.old who }
        ensures { joins self.old (Try_now who place mode) (attempted result) self.new };

    /// Requests a lock at a pinned place, and begins to wait for it if it can't be granted now.
    fn begin_wait(&mut self, who: u16, place: Place, mode: Mode) -> Result<Begun, SpaceError>
        requires { speaks_for self.old who }
        ensures { joins self.old (Begin_wait who place mode) (begun result) self.new };

    /// Searches for a deadlock that the session is part of: sessions whose waits are unsettled, each waiting for the next, and
    /// the last for the first. If there are any, the shortest is chosen, and its victim's wait is settled. The victim is the
    /// member whose request weighs least, or of several such members the one with the greatest number. Other deadlocks may
    /// remain, for further searches. The victim's ticket stays among the waiting ones until the victim itself ends its wait.
    ///
    /// After MySQL 5.7, a turn of `MDL_context::find_deadlock` of `sql/mdl.cc`.
    fn search(&mut self, who: u16) -> Result<Search, SpaceError>
        requires { speaks_for self.old who }
        ensures { joins self.old (Search_by who) (searched result) self.new };

    /// Returns the state of the session's wait. It takes no memory.
    fn poll_wait(&mut self, who: u16) -> Result<Poll, SpaceError>
        requires { speaks_for self.old who }
        ensures { joins self.old (Poll_wait who) (polled result) self.new };

    /// Settles the session's wait as a timeout, unless it is settled already. It takes no memory.
    ///
    /// It wakes no session: in the space of one thread the ticket stays among the waiting ones, and those behind it go on
    /// waiting, until [`LockSpace::end_wait`]. If the wait was granted before, it stays granted, and `end_wait` returns
    /// the ticket.
    fn settle_timeout(&mut self, who: u16) -> Result<TimedOut, SpaceError>
        requires { speaks_for self.old who }
        ensures { joins self.old (Settle_timeout who) (timed_out result) self.new };

    /// Ends the session's settled wait. If the wait was granted, the session now holds the ticket. It takes no memory.
    ///
    /// The ticket of a lost wait is removed only now. The space of one thread then grants those waiters of the place that
    /// can be granted. Fails with [`SpaceError::Unsettled`] if the wait isn't settled, and the wait then goes on.
    fn end_wait(&mut self, who: u16) -> Result<Ended, SpaceError>
        requires { speaks_for self.old who }
        ensures { joins self.old (End_wait who) (ended result) self.new };

    /// Returns the number of any session's wait, if it has one. It takes no memory.
    fn wait_of(&mut self, target: u16) -> Option<u64>
        ensures { joins self.old (Wait_of target) (Has_wait result) self.new };

    /// Settles any session's wait of this number as killed, unless it is settled already. Returns whether this call settled
    /// it. It takes no memory.
    ///
    /// It wakes no session, and the killed one learns of it by [`LockSpace::poll_wait`]. In the space of one thread its
    /// ticket stays among the waiting ones until the killed session itself calls [`LockSpace::end_wait`].
    fn kill(&mut self, target: u16, number: u64) -> bool
        ensures { joins self.old (Kill target number) (Has_killed result) self.new };

    /// Releases a held ticket. It takes no memory.
    fn release(&mut self, who: u16, id: TicketId) -> Result<(), SpaceError>
        requires { speaks_for self.old who }
        ensures { joins self.old (Release who id) (done result) self.new };

    /// Grants a second ticket at the place of a held one, which has to be at least as strong as the new ticket's mode.
    /// Returns the new ticket's number. It overtakes waiters.
    fn clone_ticket(&mut self, who: u16, id: TicketId, mode: Mode) -> Result<TicketId, SpaceError>
        requires { speaks_for self.old who }
        ensures { joins self.old (Clone_ticket who id mode) (cloned result) self.new };

    /// Requests a stronger mode of a held ticket, without waiting: from SU to SNW, SNRW or X, from SNW to SNRW or X, or
    /// from SNRW to X. If the held mode covers the requested one already, nothing changes. The session's other tickets
    /// don't block the upgrade.
    ///
    /// After MySQL 5.7, `MDL_context::upgrade_shared_lock` of `sql/mdl.cc`, which waits.
    fn upgrade_now(&mut self, who: u16, id: TicketId, mode: Mode) -> Result<Upgrade, SpaceError>
        requires { speaks_for self.old who }
        ensures { joins self.old (Upgrade_now who id mode) (upgrade_tried result) self.new };

    /// Gives the held ticket `old` the mode of the held ticket `new`, and releases `new`. Both have to be at one place, and
    /// `new` at least as strong as `old`, which keeps its number.
    ///
    /// After MySQL 5.7, the end of `MDL_context::upgrade_shared_lock` of `sql/mdl.cc`.
    fn merge(&mut self, who: u16, old: TicketId, new: TicketId) -> Result<(), SpaceError>
        requires { speaks_for self.old who }
        ensures { joins self.old (Merge who old new) (done result) self.new };

    /// Gives a held ticket a weaker mode: X becomes SU, SNW or SNRW, and SNW becomes SU. It takes no memory.
    ///
    /// After MySQL 5.7, `MDL_ticket::downgrade_lock` of `sql/mdl.cc`.
    fn downgrade(&mut self, who: u16, id: TicketId, mode: Mode) -> Result<(), SpaceError>
        requires { speaks_for self.old who }
        ensures { joins self.old (Downgrade who id mode) (done result) self.new };

    /// Returns the version of the key at a held ticket's place, and its definition if there is one.
    fn read_definition(&mut self, who: u16, id: TicketId) -> Result<VersionedDefinition, SpaceError>
        requires { speaks_for self.old who }
        ensures { joins self.old (Read_definition who id) (read result) self.new };

    /// Like [`LockSpace::read_definition`], with a cache of what the session read before. Each definition in the cache has to be
    /// one that the session met in this space.
    ///
    /// A space in which other sessions act reads only the version if the cache has the definition, and otherwise puts what it
    /// reads into the cache. The space of one thread leaves the cache unchanged. It is no error if the cache runs out of memory.
    fn read_kept(
        &mut self,
        who: u16,
        id: TicketId,
        cache: &mut DefCache,
    ) -> Result<VersionedDefinition, SpaceError>
        requires speaks { speaks_for self.old who }
        requires met { AreMet (has_met self.old who) cache.old.kept }
        ensures joined { joins self.old (Read_kept who id) (read result) self.new }
        ensures used { uses_cache self.old who id (read result) cache.old cache.new self.new }
        ensures met { AreMet (has_met self.new who) cache.new.kept }
        ensures capacity { cache.new.capacity ≡ cache.old.capacity };

    /// Changes the definition of the key at the place of a ticket that is held in mode X, and returns the key's new
    /// version, which is one greater. `Drop` takes no memory.
    fn change_definition(
        &mut self,
        who: u16,
        id: TicketId,
        change: &Change,
    ) -> Result<u64, SpaceError>
        requires { speaks_for self.old who }
        ensures { joins self.old (Change_definition who id change.now) (redefined result) self.new };

    /// Returns the key of a place.
    fn key_of(&mut self, who: u16, place: Place) -> Result<Key, SpaceError>
        requires { speaks_for self.old who }
        ensures { joins self.old (Key_of who place) (keyed result) self.new };

    /// Returns the places of a schema's tables that have a definition, in the order of their keys.
    fn tables_of(&mut self, who: u16, schema: &str) -> Result<Vec<Place>, SpaceError>
        requires { speaks_for self.old who }
        ensures { joins self.old (Tables_of who schema.now) (tables_told result) self.new };

    /// Returns the tickets that the session holds, in the order in which it got them.
    fn held(&self, who: u16) -> Result<Vec<Held>, SpaceError>
        requires { speaks_for self.now who }
        ensures { joins self.now (List_held who) (listed result) self.now };

    // What holds of the ghost members in every space.
    ghost laws: { SpaceLaws speaks_for own knows is_settled numbers has_read has_met has_seen owes joins };
}
