//! The lock space of the plain program, as its sessions call it without contexts.
use super::{Plain, Ticket};
use crate::acts::Act;
use crate::contexts::acts::Lock;
use crate::room::Of;
use crate::wishes::Wish;
use mdl_context::Resume;
use mdl_key::{Duration, Mode};
use mdl_space::{Attempt, Begun, Ended, Poll, Search, Settled, SpaceError, TicketId, TimedOut};

/// A call of a session. It names a lock where a space wants its place.
#[derive(Clone, Copy)]
pub(crate) enum Call {
    Resolve(Lock),
    Unpin(Lock),
    TryNow(Lock, Mode),
    BeginWait(Lock, Mode),
    Search,
    Poll,
    TimeOut,
    EndWait,
    Kill(u16, u64),
    Release(TicketId),
    // Puts a table in the place of any definition that there is.
    Redefine(TicketId),
}

impl Plain {
    /// Makes a call of a session, and returns it with the answer that a space has to give.
    pub(crate) fn answered(&mut self, who: u16, call: Call) -> Act {
        match call {
            Call::Resolve(lock) => Act::Resolve(of(lock), self.find_place(who, lock)),
            Call::Unpin(lock) => Act::Unpin(self.place_of(lock), self.unpin(who, lock)),
            Call::TryNow(lock, mode) => {
                Act::TryNow(self.place_of(lock), mode, self.try_now(who, lock, mode))
            }
            Call::BeginWait(lock, mode) => Act::BeginWait(
                self.place_of(lock),
                mode,
                self.begin_wait(who, lock, mode),
            ),
            Call::Search => Act::Search(Ok(self.search(who))),
            Call::Poll => Act::Poll(self.poll(who)),
            Call::TimeOut => Act::TimeOut(self.time_out(who)),
            Call::EndWait => Act::EndWait(self.end_wait(who)),
            Call::Kill(target, number) => Act::Kill(target, number, self.kill(target, number)),
            Call::Release(id) => Act::Release(id, self.release(who, id)),
            Call::Redefine(id) => Act::Redefine(id, Wish::PutTable, self.redefine(who, id)),
        }
    }

    // Requests a lock without a wait.
    fn try_now(&mut self, who: u16, lock: Lock, mode: Mode) -> Result<Attempt, SpaceError> {
        let wish = self.wished(who, lock, mode)?;
        if self.is_grantable(&wish) {
            return Ok(Attempt::Granted(self.numbered(wish, true)?));
        }
        Ok(Attempt::WouldWait)
    }

    // Requests a lock, and begins to wait for it if it can't be granted.
    fn begin_wait(&mut self, who: u16, lock: Lock, mode: Mode) -> Result<Begun, SpaceError> {
        let wish = self.wished(who, lock, mode)?;
        if self.is_grantable(&wish) {
            return Ok(Begun::Granted(self.numbered(wish, true)?));
        }
        let ticket = self.numbered(wish, false)?;
        Ok(Begun::Waiting(self.add_wait(who, ticket)))
    }

    // Returns a request, unless it is refused.
    fn wished(&mut self, who: u16, lock: Lock, mode: Mode) -> Result<Ticket, SpaceError> {
        if !self.pins(who, lock) {
            self.seen.not_pinned = self.seen.not_pinned.wrapping_add(1);
            return Err(SpaceError::NoPlace);
        }
        if self.wait(who).is_some() {
            return Err(SpaceError::AlreadyWaiting);
        }
        if !lock.kind().has_mode(mode) {
            return Err(SpaceError::BadMode);
        }
        Ok(Ticket {
            session: who,
            number: 0,
            lock,
            mode,
            duration: Duration::Explicit,
            is_granted: false,
        })
    }

    // Adds a new ticket of this request, and returns its number.
    fn numbered(&mut self, wish: Ticket, is_granted: bool) -> Result<TicketId, SpaceError> {
        match self.add(wish, is_granted) {
            Ok(number) => Ok(number),
            Err(_) => Err(SpaceError::OutOfMemory),
        }
    }

    // Ends one deadlock, if the session is in one.
    fn search(&mut self, who: u16) -> Search {
        match self.end_deadlock(who) {
            Some(victim) => Search::Victim(victim),
            None => Search::NoCycle,
        }
    }

    // Returns the state of the session's wait.
    fn poll(&self, who: u16) -> Result<Poll, SpaceError> {
        match self.wait(who) {
            None => Err(SpaceError::NoWait),
            Some(wait) => match wait.settled {
                Some(how) => Ok(Poll::Settled(how)),
                None => Ok(Poll::Pending),
            },
        }
    }

    // Settles the session's wait as a timeout, unless it is settled.
    fn time_out(&mut self, who: u16) -> Result<TimedOut, SpaceError> {
        match self.poll(who)? {
            Poll::Settled(how) => Ok(TimedOut::Already(how)),
            Poll::Pending => {
                self.settle(who, Settled::Timeout);
                Ok(TimedOut::ByThisCall)
            }
        }
    }

    // Ends the session's wait, if it is settled.
    fn end_wait(&mut self, who: u16) -> Result<Ended, SpaceError> {
        match self.resume(who) {
            Ok(Resume::Waiting) => Err(SpaceError::Unsettled),
            Ok(Resume::Acquired(id)) => Ok(Ended::Granted(id)),
            Ok(Resume::Lost(Settled::Victim)) => Ok(Ended::Victim),
            Ok(Resume::Lost(Settled::Killed)) => Ok(Ended::Killed),
            Ok(Resume::Lost(_)) => Ok(Ended::Timeout),
            Err(_) => Err(SpaceError::NoWait),
        }
    }

    // Releases a ticket, also while the session waits.
    fn release(&mut self, who: u16, id: TicketId) -> Result<(), SpaceError> {
        match self.ticket(who, id) {
            Some(ticket) if self.is_held(&ticket, who) => {
                self.let_go(who, id);
                Ok(())
            }
            _ => Err(SpaceError::NotHeld),
        }
    }

    // Puts a table at a ticket's place. It then keeps its lock.
    fn redefine(&mut self, who: u16, id: TicketId) -> Result<u64, SpaceError> {
        let ticket = match self.ticket(who, id) {
            Some(ticket) if self.is_held(&ticket, who) => ticket,
            _ => return Err(SpaceError::NotHeld),
        };
        if ticket.mode != Mode::X {
            return Err(SpaceError::NotExclusive);
        }
        match ticket.lock {
            Lock::A | Lock::B | Lock::Numbered(_) => self.define(ticket.lock),
            Lock::Schema | Lock::Global | Lock::Commit | Lock::User => Err(SpaceError::WrongKind),
        }
    }
}

// Returns what the key of a lock names. There are three numbered tables.
fn of(lock: Lock) -> Of {
    match lock {
        Lock::Numbered(0) => Of::Table("test", "t0"),
        Lock::Numbered(1) => Of::Table("test", "t1"),
        Lock::Numbered(_) => Of::Table("test", "t2"),
        Lock::A => Of::Table("test", "a"),
        Lock::B => Of::Table("test", "b"),
        Lock::Schema => Of::Schema("test"),
        Lock::Global => Of::Global,
        Lock::Commit => Of::Commit,
        Lock::User => Of::User("a"),
    }
}
