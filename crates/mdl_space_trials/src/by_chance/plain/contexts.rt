//! The contexts of the plain program. Each call gives the number of its session.
use super::{Plain, Seen, Ticket};
use crate::contexts::acts::{Act, Lock, Reply, acquired, done, resumed, tried};
use mdl_context::{Acquire, ContextError, Mark, Resume, Tried};
use mdl_key::{Duration, Mode, at_least};
use mdl_space::{Settled, SpaceError, TicketId};

// Which tickets of a session: those of a lock, or those of a duration.
#[derive(Clone, Copy)]
enum Which {
    Of(Lock),
    Lasting(Duration),
}

impl Plain {
    /// Performs an act of a session and returns its reply. After it the session pins just the places of its tickets and of its wait. None if
    /// memory ran out. It supports the acts that are drawn.
    pub(crate) fn make(&mut self, who: u16, act: Act) -> Option<Reply> {
        let reply = self.perform(who, act);
        let let_go = self.tidy(who);
        self.seen.add_let_go(reply, let_go);
        if self.number_of_pins(who) > 4 {
            self.seen.pinned_many = self.seen.pinned_many.wrapping_add(1);
        }
        reply
    }

    // The same, but its session may pin other places after it.
    fn perform(&mut self, who: u16, act: Act) -> Option<Reply> {
        match act {
            Act::Acquire(lock, mode, duration) => acquired(self.acquire(wished(
                who, lock, mode, duration,
            ))),
            Act::TryAcquire(lock, mode, duration) => tried(self.try_acquire(wished(
                who, lock, mode, duration,
            ))),
            Act::Resume => resumed(self.resume(who)),
            Act::GiveUp => resumed(self.give_up(who)),
            Act::Kill(target, number) => Some(Reply::Killed(self.kill(target, number))),
            _ => Some(done(self.lose(who, act))),
        }
    }

    // Releases tickets, or gives them another duration.
    fn lose(&mut self, who: u16, act: Act) -> Result<(), ContextError> {
        match act {
            Act::Release(id) => self.give_back(who, id),
            Act::ReleaseName(lock) => self.give_back_name(who, lock),
            Act::GoBack(statement, transaction) => self.go_back(who, statement, transaction),
            Act::EndStatement => {
                let stands = self.mark_of(who);
                self.go_back(who, 0, stands.transaction)
            }
            Act::EndTransaction => self.go_back(who, 0, 0),
            Act::MakeExplicit => self.make_last(who, Duration::Explicit),
            _ => self.make_last(who, Duration::Transaction),
        }
    }

    // Requests a lock: the answer is a ticket or a wait.
    fn acquire(&mut self, wish: Ticket) -> Result<Acquire, ContextError> {
        if let Some(number) = self.ticket_at_once(wish)? {
            return Ok(Acquire::Acquired(number));
        }
        let ticket = self.add(wish, false)?;
        let number = self.add_wait(wish.session, ticket);
        self.end_deadlocks(wish.session);
        Ok(Acquire::MustWait(number))
    }

    // Requests a lock that is had without a wait, or not at all.
    fn try_acquire(&mut self, wish: Ticket) -> Result<Tried, ContextError> {
        match self.ticket_at_once(wish)? {
            Some(number) => Ok(Tried::Acquired(number)),
            None => Ok(Tried::WouldWait),
        }
    }

    // Returns the ticket that a request gets without a wait: a reused one, a clone or a new one.
    fn ticket_at_once(&mut self, wish: Ticket) -> Result<Option<TicketId>, ContextError> {
        if self.wait(wish.session).is_some() {
            return Err(ContextError::Waiting);
        }
        if let Some(number) = self.first_that_serves(&wish, true) {
            self.seen.reused = self.seen.reused.wrapping_add(1);
            return Ok(Some(number));
        }
        if self.first_that_serves(&wish, false).is_some() {
            self.seen.cloned = self.seen.cloned.wrapping_add(1);
            return Ok(Some(self.add(wish, true)?));
        }
        self.new_ticket(wish)
    }

    // Returns the first held ticket that is strong enough for a request. To be reused it must also have the same duration, and not be explicit.
    fn first_that_serves(&self, wish: &Ticket, again: bool) -> Option<TicketId> {
        let kind = wish.lock.kind();
        for ticket in &self.tickets {
            let lasts_so = ticket.duration == wish.duration
                && ticket.duration != Duration::Explicit;
            if (lasts_so || !again)
                && self.is_held(ticket, wish.session)
                && ticket.lock == wish.lock
                && kind.has_mode(wish.mode)
                && at_least(kind, ticket.mode, wish.mode)
            {
                return Some(ticket.number);
            }
        }
        None
    }

    // Adds a new ticket, if it can be granted now.
    fn new_ticket(&mut self, wish: Ticket) -> Result<Option<TicketId>, ContextError> {
        if let Err(refusal) = self.find_place(wish.session, wish.lock) {
            return Err(ContextError::Space(refusal));
        }
        if !wish.lock.kind().has_mode(wish.mode) {
            return Err(ContextError::Space(SpaceError::BadMode));
        }
        if self.is_grantable(&wish) {
            return Ok(Some(self.add(wish, true)?));
        }
        Ok(None)
    }

    // Releases a ticket.
    fn give_back(&mut self, who: u16, id: TicketId) -> Result<(), ContextError> {
        let is_held = match self.ticket(who, id) {
            Some(ticket) => self.is_held(&ticket, who),
            None => false,
        };
        if !is_held {
            return Err(ContextError::NotHeld);
        }
        if self.wait(who).is_some() {
            return Err(ContextError::Waiting);
        }
        self.let_go(who, id);
        Ok(())
    }

    // Releases all tickets of a lock.
    fn give_back_name(&mut self, who: u16, lock: Lock) -> Result<(), ContextError> {
        if self.wait(who).is_some() {
            return Err(ContextError::Waiting);
        }
        self.give_up_all(who, Which::Of(lock), 0);
        Ok(())
    }

    // Releases the tickets beyond a mark: those of the statement, and then those of the transaction. The end of a statement goes back to a
    // mark without its tickets, and the end of a transaction to a mark of none.
    fn go_back(
        &mut self,
        who: u16,
        statement: usize,
        transaction: usize,
    ) -> Result<(), ContextError> {
        let stands = self.mark_of(who);
        if stands.statement < statement || stands.transaction < transaction {
            self.seen.stale = self.seen.stale.wrapping_add(1);
            return Err(ContextError::StaleSavepoint);
        }
        if self.wait(who).is_some() {
            return Err(ContextError::Waiting);
        }
        self.give_up_all(who, Which::Lasting(Duration::Statement), statement);
        self.give_up_all(who, Which::Lasting(Duration::Transaction), transaction);
        Ok(())
    }

    // Releases these tickets of a session, except the first `most` of them, from the newest to the oldest.
    fn give_up_all(&mut self, who: u16, which: Which, most: usize) {
        for _ticket in 0..self.tickets.len() {
            match self.last_beyond(who, which, most) {
                Some(number) => self.let_go(who, number),
                None => return,
            }
        }
    }

    // Returns the newest ticket to release.
    fn last_beyond(&self, who: u16, which: Which, most: usize) -> Option<TicketId> {
        let mut left = most;
        let mut last = None;
        for ticket in &self.tickets {
            let is_one = match which {
                Which::Of(lock) => ticket.lock == lock,
                Which::Lasting(duration) => ticket.duration == duration,
            };
            if is_one && self.is_held(ticket, who) {
                if left == 0 {
                    last = Some(ticket.number);
                } else {
                    left -= 1;
                }
            }
        }
        last
    }

    // Makes all tickets of a session explicit, or gives its explicit ones, except those of user-level locks, the transaction's duration.
    fn make_last(&mut self, who: u16, duration: Duration) -> Result<(), ContextError> {
        if self.wait(who).is_some() {
            return Err(ContextError::Waiting);
        }
        let is_for_all = duration == Duration::Explicit;
        for ticket in &mut self.tickets {
            let is_explicit = ticket.duration == Duration::Explicit && ticket.lock != Lock::User;
            if ticket.session == who && (is_for_all || is_explicit) {
                ticket.duration = duration;
            }
        }
        Ok(())
    }

    // Returns the state of the session's wait. A settled wait is ended. If it is lost, its ticket is removed.
    pub(super) fn resume(&mut self, who: u16) -> Result<Resume, ContextError> {
        let Some(wait) = self.wait(who) else {
            return Err(ContextError::Space(SpaceError::NoWait));
        };
        let Some(how) = wait.settled else {
            return Ok(Resume::Waiting);
        };
        self.put_wait(who, None);
        match how {
            Settled::Granted => {
                self.seen.granted = self.seen.granted.wrapping_add(1);
                return Ok(Resume::Acquired(wait.ticket));
            }
            Settled::Timeout => self.seen.timed_out = self.seen.timed_out.wrapping_add(1),
            Settled::Killed => self.seen.killed = self.seen.killed.wrapping_add(1),
            Settled::Victim => {}
        }
        self.let_go(who, wait.ticket);
        Ok(Resume::Lost(how))
    }

    // Settles the session's wait as a timeout, unless it is settled, and ends it.
    fn give_up(&mut self, who: u16) -> Result<Resume, ContextError> {
        if self.wish(who).is_some() {
            self.settle(who, Settled::Timeout);
        }
        self.resume(who)
    }

    // Kills the wait with this number. Whether there is one that wasn't settled before.
    pub(super) fn kill(&mut self, target: u16, number: u64) -> bool {
        match self.wait(target) {
            Some(wait) if wait.number == number && wait.settled.is_none() => {
                self.settle(target, Settled::Killed);
                true
            }
            _ => false,
        }
    }

    /// Returns how many tickets a session has of the statement and of the transaction.
    pub(crate) fn mark_of(&self, who: u16) -> Mark {
        let mut mark = Mark {
            statement: 0,
            transaction: 0,
        };
        for ticket in &self.tickets {
            if self.is_held(ticket, who) {
                match ticket.duration {
                    Duration::Statement => mark.statement = mark.statement.wrapping_add(1),
                    Duration::Transaction => mark.transaction = mark.transaction.wrapping_add(1),
                    Duration::Explicit => {}
                }
            }
        }
        mark
    }
}

// Returns a request, which has no number yet.
fn wished(who: u16, lock: Lock, mode: Mode, duration: Duration) -> Ticket {
    Ticket {
        session: who,
        number: 0,
        lock,
        mode,
        duration,
        is_granted: false,
    }
}

impl Seen {
    // Counts the pins that a session gave up after an act with this reply.
    fn add_let_go(&mut self, reply: Option<Reply>, count: u64) {
        match reply {
            Some(Reply::Refused(_)) => self.let_go_refused = self
                .let_go_refused
                .wrapping_add(count),
            Some(Reply::WouldWait) => self.let_go_untaken = self.let_go_untaken.wrapping_add(count),
            Some(Reply::Resumed(_)) => self.let_go_lost = self.let_go_lost.wrapping_add(count),
            _ => self.let_go = self.let_go.wrapping_add(count),
        }
    }
}
