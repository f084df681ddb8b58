//! One lock: who holds it, who waits for it, and whose wait for it is over.
ghost use Rattle.std.specs.Prelude.{◌≡◌, ◌++◌, ◌∷◌, [], filter, map, not, OnOk, OnErr, IfOk};
ghost use Rattle.mdl_view.specs.Acts.{is_taken, lock_after};
ghost use Rattle.mdl_view.specs.Locks.{empty_lock, granted_ticket, lock_of_book, ticket_from, waiting_ticket};
ghost use Rattle.mdl_view.specs.Samples.{IsSampleOf};

use crate::act::Act;
use crate::lock_mode::{LockKind, LockMode};
use crate::sample::sample_of;
use crate::ticket::Ticket;
use mdl_book::Book;
use std::alloc::{AllocError, Global};
use std::marker::Model;

/// A lock's kind, its granted tickets, its waiting ones in order of arrival, and those whose wait is over without a grant and that are about to
/// go. They need not be lawful: tickets that clash may be granted together, since a server's table isn't a snapshot of one moment.
#[derive(Drop)]
pub struct Lock {
    kind: LockKind,
    granted: Vec<Ticket>,
    waiting: Vec<Ticket>,
    settled: Vec<Ticket>,
}

impl Model for Lock {
    ghost use Rattle.mdl_view.specs.Locks.{LockView};

    ghost Value = { LockView };

    ghost view = { λ lock. record {
      kind = lock.kind;
      granted = lock.granted.items;
      waiting = lock.waiting.items;
      settled = lock.settled.items;
    } };
}

impl Lock {
    /// Returns a lock without tickets.
    pub fn new(alloc: Global, kind: LockKind) -> Lock
        ensures { result ≡ empty_lock kind }
    {
        Lock {
            kind,
            granted: Vec::new(alloc),
            waiting: Vec::new(alloc),
            settled: Vec::new(alloc),
        }
    }

    /// Returns the lock of a book: no wait is settled, and what is granted is kept if the session's statement is killed.
    pub fn of_book(alloc: Global, book: &Book) -> Result<Lock, AllocError>
        ensures { IfOk result (λ lock. lock ≡ lock_of_book book.now) }
    {
        Ok(Lock {
            kind: LockKind::of_kind(book.key().namespace().kind()),
            granted: granted_tickets(alloc, book.granted())?,
            waiting: waiting_tickets(alloc, book.waiting())?,
            settled: Vec::new(alloc),
        })
    }

    /// The lock's kind.
    pub fn kind(&self) -> LockKind
        ensures { result ≡ self.now.kind }
    {
        self.kind
    }

    /// The granted tickets, in order.
    pub fn granted(&self) -> &[Ticket]
        ensures { result.now ≡ self.now.granted }
    {
        self.granted.as_slice()
    }

    /// The waiting tickets, in order of arrival.
    pub fn waiting(&self) -> &[Ticket]
        ensures { result.now ≡ self.now.waiting }
    {
        self.waiting.as_slice()
    }

    /// The tickets whose wait is over without a grant, in order.
    pub fn settled(&self) -> &[Ticket]
        ensures { result.now ≡ self.now.settled }
    {
        self.settled.as_slice()
    }

    /// Returns a copy of the lock with other granted tickets.
    pub(crate) fn with_granted(
        &self,
        alloc: Global,
        granted: Vec<Ticket>,
    ) -> Result<Lock, AllocError>
        ensures { IfOk result (λ lock. lock ≡ record self.now { granted = granted.items }) }
    {
        Ok(Lock {
            kind: self.kind,
            granted,
            waiting: copied(alloc, &self.waiting)?,
            settled: copied(alloc, &self.settled)?,
        })
    }

    /// Appends a ticket to the granted ones.
    pub fn add_granted(&mut self, ticket: Ticket) -> Result<(), AllocError>
        ensures added { OnOk result (self.new ≡ record self.old { granted = self.old.granted ++ ticket ∷ [] }) }
        ensures unchanged { OnErr result (self.new ≡ self.old) }
    {
        match self.granted.push(ticket) {
            Ok(()) => Ok(()),
            Err(_) => Err(AllocError),
        }
    }

    /// Appends a ticket to the waiting ones.
    pub fn add_waiting(&mut self, ticket: Ticket) -> Result<(), AllocError>
        ensures added { OnOk result (self.new ≡ record self.old { waiting = self.old.waiting ++ ticket ∷ [] }) }
        ensures unchanged { OnErr result (self.new ≡ self.old) }
    {
        match self.waiting.push(ticket) {
            Ok(()) => Ok(()),
            Err(_) => Err(AllocError),
        }
    }

    /// Appends a ticket to those whose wait is over without a grant.
    pub fn add_settled(&mut self, ticket: Ticket) -> Result<(), AllocError>
        ensures added { OnOk result (self.new ≡ record self.old { settled = self.old.settled ++ ticket ∷ [] }) }
        ensures unchanged { OnErr result (self.new ≡ self.old) }
    {
        match self.settled.push(ticket) {
            Ok(()) => Ok(()),
            Err(_) => Err(AllocError),
        }
    }

    /// Returns the lock as an act leaves it, before anybody is granted.
    pub(crate) fn after(&self, alloc: Global, act: Act) -> Result<Lock, AllocError>
        ensures { IfOk result (λ lock. lock ≡ lock_after act self.now) }
    {
        Ok(Lock {
            kind: self.kind,
            granted: left_by(alloc, &self.granted, act)?,
            waiting: left_by(alloc, &self.waiting, act)?,
            settled: copied(alloc, &self.settled)?,
        })
    }

    /// Returns a lock with a few of these tickets, which says as much about who blocks whom.
    pub(crate) fn sample(&self, alloc: Global) -> Result<Lock, AllocError>
        ensures { IfOk result (λ few. IsSampleOf self.now few) }
    {
        Ok(Lock {
            kind: self.kind,
            granted: sample_of(alloc, &self.granted)?,
            waiting: sample_of(alloc, &self.waiting)?,
            settled: sample_of(alloc, &self.settled)?,
        })
    }
}

/// Returns the locks of books, in their order.
pub fn locks_of(alloc: Global, books: &[Book]) -> Result<Vec<Lock>, AllocError>
    ensures { IfOk result (λ locks. locks.items ≡ map lock_of_book books.now) }
{
    let mut locks = Vec::new(alloc);
    for book in books {
        locks.push(Lock::of_book(alloc, book)?)?;
    }
    Ok(locks)
}

// A copy of tickets.
fn copied(alloc: Global, tickets: &[Ticket]) -> Result<Vec<Ticket>, AllocError>
    ensures { IfOk result (λ copy. copy.items ≡ tickets.now) }
{
    let mut copy = Vec::new(alloc);
    copy.extend_from_slice(tickets)?;
    Ok(copy)
}

// The granted tickets of a book as tickets of a lock.
fn granted_tickets(alloc: Global, tickets: &[mdl_book::Ticket]) -> Result<Vec<Ticket>, AllocError>
    ensures { IfOk result (λ copy. copy.items ≡ map granted_ticket tickets.now) }
{
    let mut copy = Vec::new(alloc);
    for ticket in tickets {
        copy.push(ticket_from(*ticket, false))?;
    }
    Ok(copy)
}

// The waiting tickets of a book as tickets of a lock.
fn waiting_tickets(alloc: Global, tickets: &[mdl_book::Ticket]) -> Result<Vec<Ticket>, AllocError>
    ensures { IfOk result (λ copy. copy.items ≡ map waiting_ticket tickets.now) }
{
    let mut copy = Vec::new(alloc);
    for ticket in tickets {
        copy.push(ticket_from(*ticket, true))?;
    }
    Ok(copy)
}

// A ticket of a book as a ticket of a lock.
fn ticket_from(ticket: mdl_book::Ticket, of_statement: bool) -> Ticket
    ensures { result ≡ ticket_from of_statement ticket }
{
    Ticket {
        number: ticket.number,
        session: usize::from(ticket.session),
        mode: LockMode::Mdl(ticket.mode),
        of_statement,
    }
}

// The tickets that an act leaves.
fn left_by(alloc: Global, tickets: &[Ticket], act: Act) -> Result<Vec<Ticket>, AllocError>
    ensures { IfOk result (λ left. left.items ≡ filter (λ ticket. not (is_taken act ticket)) tickets.now) }
{
    tickets
        .iter()
        .filter(|ticket| !act.takes(**ticket))
        .copied()
        .collect(alloc)
}
