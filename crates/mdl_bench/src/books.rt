//! The calls of one lock's book, and searches for deadlocks in many books.
use crate::failure::Failure;
use crate::lap::spent_since;
use crate::table::table;
use mdl_book::{Book, Sessions, Ticket};
use mdl_graph::{WaitGraph, victim};
use mdl_key::Mode;
use mdl_word::Word;
use std::alloc::{AllocError, Global};
use std::time::{Clock, Duration, Instant};

// The word of a lock without fast tickets.
const NO_FAST_TICKETS: Word = Word(0);

// The number of sessions that hold the lock with many tickets, and a session that doesn't hold it, and waits.
const HOLDERS: u16 = 1000;

const NEWCOMER: u16 = 1001;

// The requested modes. Readers block only the last two, X and SNRW.
const MODES: [Mode; 8] = [
    Mode::S,
    Mode::SR,
    Mode::SW,
    Mode::SWLP,
    Mode::SNW,
    Mode::SU,
    Mode::X,
    Mode::SNRW,
];

/// What is asked of a book with many tickets.
pub enum Asked {
    /// Whether varying requests of varying sessions can be granted.
    CanGrant,
    /// Which waiter can be granted next, if either every session's wait is unsettled or none is.
    NextGrantable,
}

/// Times `turns` calls of a book with `tickets` tickets granted in SR, and one waiter.
pub fn time_asking<R: Clock>(
    rt: &R,
    alloc: Global,
    asked: &Asked,
    tickets: u16,
    turns: u32,
) -> Result<Duration, Failure> {
    let mut book = Book::new(alloc, table(alloc, 0)?);
    let spent = match gather(&mut book, tickets) {
        Ok(()) => asked.timed(rt, &book, turns),
        Err(why) => Err(why),
    };
    drop(book);
    spent
}

impl Asked {
    fn timed<R: Clock>(&self, rt: &R, book: &Book, turns: u32) -> Result<Duration, Failure> {
        let began = Instant::now(rt)?;
        let right = match self {
            Asked::CanGrant => wish_often(book, turns),
            Asked::NextGrantable => look_often(book, turns),
        };
        spent_since(rt, began, right, turns)
    }
}

// Grants `tickets` tickets, and adds the newcomer as a waiter.
fn gather(book: &mut Book, tickets: u16) -> Result<(), Failure> {
    for number in 0..tickets {
        let ticket = ticket(1 + number % HOLDERS, u64::from(number), Mode::SR);
        book.grant(ticket, NO_FAST_TICKETS)?;
    }
    book.enqueue(ticket(NEWCOMER, 1, Mode::SU))?;
    Ok(())
}

// A ticket of a session.
fn ticket(session: u16, number: u64, mode: Mode) -> Ticket {
    Ticket {
        session,
        number,
        mode,
    }
}

// Asks `turns` times whether a request can be granted. Returns how often the answer was right.
fn wish_often(book: &Book, turns: u32) -> u32 {
    let mut right = 0u32;
    for turn in 0..turns {
        let wish = (turn % 8) as usize;
        let answer = book.can_grant((turn % 1024) as u16 + 1, MODES[wish], NO_FAST_TICKETS);
        right = right.wrapping_add(u32::from(answer == (wish < 6)));
    }
    right
}

// Looks `turns` times for a waiter to grant. Returns how often it found one if the waits are unsettled, and otherwise none.
fn look_often(book: &Book, turns: u32) -> u32 {
    let unsettled = [Sessions::new(), Sessions::all()];
    let mut right = 0u32;
    for turn in 0..turns {
        let which = (turn % 2) as usize;
        let waiter = book.next_grantable(NO_FAST_TICKETS, &unsettled[which]);
        right = right.wrapping_add(u32::from(waiter.is_some() == (which == 1)));
    }
    right
}

/// Times the release of a lock with the grants of its `waiters` waiters one after another, `turns` times, without the clock's own time.
pub fn time_grants<R: Clock>(
    rt: &R,
    alloc: Global,
    waiters: u16,
    turns: u32,
) -> Result<Duration, Failure> {
    let mut spent = Duration::ZERO;
    for _turn in 0..turns {
        let mut book = Book::new(alloc, table(alloc, 0)?);
        let grants = time_book(rt, &mut book, waiters);
        drop(book);
        spent = spent.saturating_add(grants?);
    }
    Ok(spent)
}

// The same once, in a book without tickets.
fn time_book<R: Clock>(rt: &R, book: &mut Book, waiters: u16) -> Result<Duration, Failure> {
    let last = waiters.saturating_add(1);
    contest(book, Mode::X, (1, 1), Mode::SR, (2, last))?;
    let idle = Instant::now(rt)?.elapsed(rt)?;
    let began = Instant::now(rt)?;
    let granted = grant_all(book)?;
    let spent = spent_since(rt, began, u32::from(granted), u32::from(waiters))?;
    Ok(spent.saturating_sub(idle))
}

// Releases the first session's ticket, and grants the next grantable waiter until there is none. Returns how many were granted.
fn grant_all(book: &mut Book) -> Result<u16, Failure> {
    let everyone = Sessions::all();
    book.remove(1, 1)?;
    let mut granted = 0u16;
    for _ in 0..u16::MAX {
        let Some((session, number)) = book.next_grantable(NO_FAST_TICKETS, &everyone) else {
            break;
        };
        book.admit(session, number)?;
        granted = granted.wrapping_add(1);
    }
    Ok(granted)
}

// Grants the lock in a mode to the sessions from one number to another, and adds others as waiters in another mode.
fn contest(
    book: &mut Book,
    had: Mode,
    holders: (u16, u16),
    wished: Mode,
    waiters: (u16, u16),
) -> Result<(), Failure> {
    for session in holders.0..holders.1.saturating_add(1) {
        book.grant(ticket(session, 1, had), NO_FAST_TICKETS)?;
    }
    for session in waiters.0..waiters.1.saturating_add(1) {
        book.enqueue(ticket(session, 2, wished))?;
    }
    Ok(())
}

/// How sessions wait for one another.
pub enum Shape {
    /// Each for the next, and the last for no session.
    Chain,
    /// Each for the next, and the last for the first.
    Ring,
    /// Each for all others.
    Dense,
}

/// Times `turns` searches for a deadlock of the last of `sessions` sessions, for which all others wait, directly or not. If there is one, the
/// victim is the last session, as all requests weigh the same.
pub fn time_searches<R: Clock>(
    rt: &R,
    alloc: Global,
    shape: &Shape,
    sessions: u16,
    turns: u32,
) -> Result<Duration, Failure> {
    let mut books = Vec::new(alloc);
    let spent = match tie(alloc, &mut books, shape, sessions) {
        Ok(()) => time_tied(rt, alloc, shape, &books, sessions, turns),
        Err(why) => Err(why),
    };
    drop(books);
    spent
}

// The same with the books of the shape.
fn time_tied<R: Clock>(
    rt: &R,
    alloc: Global,
    shape: &Shape,
    books: &[Book],
    sessions: u16,
    turns: u32,
) -> Result<Duration, Failure> {
    let wanted = match shape {
        Shape::Chain => 0,
        Shape::Ring | Shape::Dense => sessions,
    };
    let began = Instant::now(rt)?;
    let made = search_often(alloc, books, sessions, wanted, turns);
    spent_since(rt, began, made, turns)
}

// Adds the books of the locks that make a shape.
fn tie(alloc: Global, books: &mut Vec<Book>, shape: &Shape, sessions: u16) -> Result<(), Failure> {
    let from = match shape {
        Shape::Chain => 2,
        Shape::Ring => 1,
        Shape::Dense => sessions,
    };
    for holder in from..sessions.saturating_add(1) {
        let before = match holder {
            1 => sessions,
            _ => holder.saturating_sub(1),
        };
        let (holders, waiters) = match shape {
            Shape::Dense => ((1, sessions), (1, sessions)),
            _ => ((holder, holder), (before, before)),
        };
        shelve(alloc, books, holders, waiters)?;
    }
    Ok(())
}

// Adds a book, of a lock that some sessions hold and others wait for.
fn shelve(
    alloc: Global,
    books: &mut Vec<Book>,
    holders: (u16, u16),
    waiters: (u16, u16),
) -> Result<(), Failure> {
    let pushed = books.push(Book::new(alloc, table(alloc, 0)?));
    let is_there = pushed.is_ok();
    drop(pushed);
    if !is_there {
        return Err(Failure::Memory);
    }
    match books.last_mut() {
        Some(book) => contest(book, Mode::SR, holders, Mode::X, waiters),
        None => Err(Failure::Unexpected),
    }
}

// Makes `turns` searches. Returns how many found the right victim.
fn search_often(alloc: Global, books: &[Book], who: u16, wanted: u16, turns: u32) -> u32 {
    let mut right = 0u32;
    for _turn in 0..turns {
        let mut graph = WaitGraph::new(alloc, Sessions::new());
        let found = search(&mut graph, books, who);
        drop(graph);
        if found == Ok(wanted) {
            right = right.wrapping_add(1);
        }
    }
    right
}

// Builds the graph of all waits, and looks for a deadlock. Returns the victim, or 0 if there is no deadlock.
fn search(graph: &mut WaitGraph, books: &[Book], who: u16) -> Result<u16, AllocError> {
    for book in books {
        graph.add(book)?;
    }
    let found = graph.find_cycle(who)?;
    let fallen = match &found {
        Some(cycle) => victim(cycle),
        None => 0,
    };
    drop(found);
    Ok(fallen)
}
