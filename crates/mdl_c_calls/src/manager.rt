//! A lock space for C. C may pass any number as a session, so each call first checks whether there is such a session, and whether a context keeps its
//! tickets.
ghost use Rattle.std.specs.Prelude.{◌≡◌, ◌≤◌, ◌<◌, ◌+◌, Some, None, length, replicate, MatchOption, MatchResult, IfOk};
ghost use Rattle.mdl_key.specs.Words.{Refuses};
ghost use Rattle.mdl_calls.specs.Words.{Begin_wait, Clone_ticket, Downgrade, End_wait, Has_killed, Has_wait, Kill, Merge, Poll_wait, Release, Resolve, Search as Search_by, Settle_timeout, Try_now, Unpin, Upgrade_now, Wait_of, attempted, begun, cloned, done, ended, new_fault, placed, polled, searched, timed_out, upgrade_tried};
ghost use Rattle.mdl_c_calls.specs.Managers.{direct_fault, has_member, new_manager, seat_of, Asks, IsOutside, JoinsServed, JoinsFor};
ghost use Rattle.mdl_c_calls.specs.declared.seat.Seat.TheVariants.{Direct};

use crate::seat::Seat;
use crate::unserved::Unserved;
use mdl_key::{Key, Mode};
use mdl_space::{
    Attempt, Begun, CoreSpace, Ended, LockSpace, NewError, Place, Poll, Search, SpaceError,
    TicketId, TimedOut, Upgrade,
};
use std::alloc::{AllocError, Global};
use std::marker::Model;

mod contexts;
mod lists;
mod woken;

/// The space of one thread, the number of its sessions, and who keeps the tickets of each. A call of a session that isn't one of them returns `None`,
/// or an `Unserved`.
#[derive(Drop)]
pub struct ServedSpace {
    space: CoreSpace,
    sessions: u16,
    seats: Vec<Seat>,
}

impl Model for ServedSpace {
    ghost use Rattle.mdl_c_calls.specs.Managers.{Managed, ServesAll};

    ghost Value = { Managed };

    ghost view = { λ m. record { space = m.space; seats = m.seats.items } };

    ghost invariant = { λ m. ServesAll m.space m.sessions m.seats.items };
}

impl ServedSpace {
    pub fn new(alloc: Global, places: u16, sessions: u16) -> Result<ServedSpace, NewError>
        ensures made { IfOk result (λ m. m ≡ new_manager places sessions) }
        ensures refused { Refuses (new_fault places sessions) NewError.OutOfMemory result }
    {
        let space = CoreSpace::new(alloc, places, sessions)?;
        match new_seats(alloc, sessions) {
            Ok(seats) => Ok(ServedSpace {
                space,
                sessions,
                seats,
            }),
            Err(AllocError) => Err(NewError::OutOfMemory),
        }
    }

    fn has(&self, who: u16) -> bool
        ensures { result ≡ has_member who self.now }
    {
        who > 0 && who <= self.sessions
    }

    // The index of a session's seat.
    fn index_of(&self, who: u16) -> Result<usize, Unserved>
        ensures { MatchResult result (λ index. (who ≡ 1 + index) × (index < length self.now.seats)) (λ why. (seat_of who self.now ≡ None) × (why ≡ Unserved.NoSession)) }
    {
        if !self.has(who) {
            return Err(Unserved::NoSession);
        }
        Ok(usize::from(who) - 1)
    }

    // Checks that there is such a session, and that no context keeps its tickets.
    fn check_direct(&self, who: u16) -> Result<(), Unserved>
        ensures { MatchResult result (λ _. direct_fault (seat_of who self.now) ≡ None) (λ why. direct_fault (seat_of who self.now) ≡ Some why) }
    {
        let index = self.index_of(who)?;
        match &self.seats[index] {
            Seat::Direct => Ok(()),
            Seat::Kept(_) => Err(Unserved::HasContext),
        }
    }

    pub fn resolve(&mut self, who: u16, key: &Key) -> Option<Result<Place, SpaceError>>
        ensures { MatchOption result (IsOutside who self.old self.new) (λ r. JoinsFor who (Resolve who key.now) (placed r) self.old self.new) }
    {
        if !self.has(who) {
            return None;
        }
        Some(self.space.resolve(who, key))
    }

    pub fn unpin(&mut self, who: u16, place: Place) -> Result<Result<(), SpaceError>, Unserved>
        ensures { Asks (direct_fault (seat_of who self.old)) (λ r. JoinsServed (Unpin who place) (done r) self.old self.new) result self.old self.new }
    {
        self.check_direct(who)?;
        Ok(self.space.unpin(who, place))
    }

    pub fn try_now(
        &mut self,
        who: u16,
        place: Place,
        mode: Mode,
    ) -> Result<Result<Attempt, SpaceError>, Unserved>
        ensures { Asks (direct_fault (seat_of who self.old)) (λ r. JoinsServed (Try_now who place mode) (attempted r) self.old self.new) result self.old self.new }
    {
        self.check_direct(who)?;
        Ok(self.space.try_now(who, place, mode))
    }

    pub fn begin_wait(
        &mut self,
        who: u16,
        place: Place,
        mode: Mode,
    ) -> Result<Result<Begun, SpaceError>, Unserved>
        ensures { Asks (direct_fault (seat_of who self.old)) (λ r. JoinsServed (Begin_wait who place mode) (begun r) self.old self.new) result self.old self.new }
    {
        self.check_direct(who)?;
        Ok(self.space.begin_wait(who, place, mode))
    }

    pub fn seek(&mut self, who: u16) -> Result<Result<Search, SpaceError>, Unserved>
        ensures { Asks (direct_fault (seat_of who self.old)) (λ r. JoinsServed (Search_by who) (searched r) self.old self.new) result self.old self.new }
    {
        self.check_direct(who)?;
        Ok(self.space.search(who))
    }

    pub fn poll_wait(&mut self, who: u16) -> Option<Result<Poll, SpaceError>>
        ensures { MatchOption result (IsOutside who self.old self.new) (λ r. JoinsFor who (Poll_wait who) (polled r) self.old self.new) }
    {
        if !self.has(who) {
            return None;
        }
        Some(self.space.poll_wait(who))
    }

    pub fn settle_timeout(&mut self, who: u16) -> Option<Result<TimedOut, SpaceError>>
        ensures { MatchOption result (IsOutside who self.old self.new) (λ r. JoinsFor who (Settle_timeout who) (timed_out r) self.old self.new) }
    {
        if !self.has(who) {
            return None;
        }
        Some(self.space.settle_timeout(who))
    }

    /// Returns the number of a session's wait, if it has one.
    pub fn wait_of(&mut self, who: u16) -> Option<Option<u64>>
        ensures { MatchOption result (IsOutside who self.old self.new) (λ number. JoinsFor who (Wait_of who) (Has_wait number) self.old self.new) }
    {
        if !self.has(who) {
            return None;
        }
        Some(self.space.wait_of(who))
    }

    pub fn end_wait(&mut self, who: u16) -> Result<Result<Ended, SpaceError>, Unserved>
        ensures { Asks (direct_fault (seat_of who self.old)) (λ r. JoinsServed (End_wait who) (ended r) self.old self.new) result self.old self.new }
    {
        self.check_direct(who)?;
        Ok(self.space.end_wait(who))
    }

    /// Settles a session's wait of this number as killed, unless it is settled already or there is none. Returns whether it did.
    pub fn kill(&mut self, target: u16, number: u64) -> bool
        ensures { JoinsServed (Kill target number) (Has_killed result) self.old self.new }
    {
        self.space.kill(target, number)
    }

    pub fn release(
        &mut self,
        who: u16,
        ticket: TicketId,
    ) -> Result<Result<(), SpaceError>, Unserved>
        ensures { Asks (direct_fault (seat_of who self.old)) (λ r. JoinsServed (Release who ticket) (done r) self.old self.new) result self.old self.new }
    {
        self.check_direct(who)?;
        Ok(self.space.release(who, ticket))
    }

    pub fn clone_ticket(
        &mut self,
        who: u16,
        ticket: TicketId,
        mode: Mode,
    ) -> Result<Result<TicketId, SpaceError>, Unserved>
        ensures { Asks (direct_fault (seat_of who self.old)) (λ r. JoinsServed (Clone_ticket who ticket mode) (cloned r) self.old self.new) result self.old self.new }
    {
        self.check_direct(who)?;
        Ok(self.space.clone_ticket(who, ticket, mode))
    }

    pub fn upgrade_now(
        &mut self,
        who: u16,
        ticket: TicketId,
        mode: Mode,
    ) -> Result<Result<Upgrade, SpaceError>, Unserved>
        ensures { Asks (direct_fault (seat_of who self.old)) (λ r. JoinsServed (Upgrade_now who ticket mode) (upgrade_tried r) self.old self.new) result self.old self.new }
    {
        self.check_direct(who)?;
        Ok(self.space.upgrade_now(who, ticket, mode))
    }

    pub fn downgrade(
        &mut self,
        who: u16,
        ticket: TicketId,
        mode: Mode,
    ) -> Result<Result<(), SpaceError>, Unserved>
        ensures { Asks (direct_fault (seat_of who self.old)) (λ r. JoinsServed (Downgrade who ticket mode) (done r) self.old self.new) result self.old self.new }
    {
        self.check_direct(who)?;
        Ok(self.space.downgrade(who, ticket, mode))
    }

    pub fn merge(
        &mut self,
        who: u16,
        kept: TicketId,
        gone: TicketId,
    ) -> Result<Result<(), SpaceError>, Unserved>
        ensures { Asks (direct_fault (seat_of who self.old)) (λ r. JoinsServed (Merge who kept gone) (done r) self.old self.new) result self.old self.new }
    {
        self.check_direct(who)?;
        Ok(self.space.merge(who, kept, gone))
    }
}

// The seats of this number of sessions, none of which has a context.
fn new_seats(alloc: Global, sessions: u16) -> Result<Vec<Seat>, AllocError>
    ensures { IfOk result (λ seats. seats.items ≡ replicate sessions Direct) }
{
    let mut seats = Vec::new(alloc);
    for _session in 0..sessions {
        seats.push(Seat::Direct)?;
    }
    Ok(seats)
}
