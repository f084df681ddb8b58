//! Searching for deadlocks.
ghost use Rattle.std.specs.Prelude.{◌≡◌, ℕ, ◌&&◌, ◌==◌, IfOk};
ghost use Rattle.std.specs.FinSet as set;
ghost use Rattle.std.specs.List.{list_any};
ghost use Rattle.mdl_core.specs.CoreCalls.{has_settled, victim_at};
ghost use Rattle.mdl_space.specs.Blocking.{blocks_at, blocks_some, some_clashes, some_goes_behind};

use crate::core_space::CoreSpace;
use mdl_book::{Book, Sessions, Ticket};
use mdl_graph::{WaitGraph, victim};
use mdl_key::{Kind, Mode, conflicts_granted, conflicts_waiting};
use std::alloc::AllocError;

impl CoreSpace {
    /// Returns the victim of the deadlock that a session is part of, if it is part of one. If the session blocks nobody, it is in none,
    /// and no graph is built.
    pub(crate) fn victim_of(&self, who: u16) -> Result<Option<u16>, AllocError>
        ensures { IfOk result (λ found. found ≡ victim_at who self.now) }
    {
        if !blocks_some(&self.books, who) {
            return Ok(None);
        }
        let mut graph = WaitGraph::new(self.alloc, self.settled_sessions());
        for book in &self.books {
            graph.add(book)?;
        }
        match graph.find_cycle(who)? {
            Some(cycle) => Ok(Some(victim(&cycle))),
            None => Ok(None),
        }
    }

    /// Returns the sessions whose waits are settled.
    fn settled_sessions(&self) -> Sessions
        ensures { (who : ℕ) → set.contains result who ≡ has_settled self.now who }
    {
        let mut settled = Sessions::new();
        for (index, seat) in self.seats.iter().enumerate() {
            if seat.is_settled() {
                settled.insert(index as u16 + 1);
            }
        }
        settled
    }
}

// Whether a session blocks a waiting ticket at one of these locks.
fn blocks_some(books: &[Book], who: u16) -> bool
    ensures { result ≡ blocks_some books.now who }
{
    books.iter().any(|book| blocks_at(book, who))
}

// Whether a session blocks a waiting ticket at a lock.
fn blocks_at(book: &Book, who: u16) -> bool
    ensures { result ≡ blocks_at book.now who }
{
    let waiting = book.waiting();
    if waiting.is_empty() {
        return false;
    }
    let kind = book.key().kind();
    holds_up(kind, book.granted(), waiting, who) || goes_before(kind, waiting, who)
}

// Whether a session holds one of these granted tickets, and it clashes with a waiting one.
fn holds_up(kind: Kind, granted: &[Ticket], waiting: &[Ticket], who: u16) -> bool
    ensures { result ≡ list_any (λ held. held.session == who && some_clashes kind waiting.now held.mode) granted.now }
{
    granted.iter().any(|held| held.session == who && some_clashes(kind, waiting, held.mode))
}

// Whether a session has one of these waiting tickets, and another one waits behind it.
fn goes_before(kind: Kind, waiting: &[Ticket], who: u16) -> bool
    ensures { result ≡ list_any (λ pending. pending.session == who && some_goes_behind kind waiting.now pending.mode) waiting.now }
{
    waiting.iter().any(|pending| pending.session == who
        && some_goes_behind(kind, waiting, pending.mode))
}

// Whether one of these waiting tickets clashes with a granted one of this mode.
fn some_clashes(kind: Kind, waiting: &[Ticket], held: Mode) -> bool
    ensures { result ≡ some_clashes kind waiting.now held }
{
    waiting
        .iter()
        .any(|wish| conflicts_granted(kind, wish.mode, held))
}

// Whether one of these waiting tickets waits behind another one of this mode.
fn some_goes_behind(kind: Kind, waiting: &[Ticket], pending: Mode) -> bool
    ensures { result ≡ some_goes_behind kind waiting.now pending }
{
    waiting
        .iter()
        .any(|wish| conflicts_waiting(kind, wish.mode, pending))
}
