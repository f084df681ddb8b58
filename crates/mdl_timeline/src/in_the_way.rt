//! The sessions that block one that begins to wait.
ghost use Rattle.std.specs.Prelude.{◌≡◌, ◌&&◌, ◌==◌, IfOk, not};
ghost use Rattle.std.specs.FinSet as set;
ghost use Rattle.mdl_calls.specs.Words.{is_within};
ghost use Rattle.mdl_graph.specs.WaitsFor.{holds_against, waits_ahead, waits_at, waits_for};
ghost use Rattle.mdl_key.specs.Words.{most_sessions};
ghost use Rattle.mdl_view.specs.ViewLaws.{nobody};
ghost use Rattle.mdl_script.specs.Texts.{is_wait_news};
ghost use Rattle.mdl_timeline.specs.Gains.{Gains};
ghost use Rattle.mdl_timeline.specs.Moments.{in_the_way_of, waited_for};

use mdl_book::{Book, Sessions, Ticket};
use mdl_key::{MOST_SESSIONS, conflicts_granted, conflicts_waiting};
use mdl_script::{News, Told};
use std::alloc::{AllocError, Global};

/// Returns the sessions that block the one with this answer at these books, if it begins to wait, in order of their numbers.
pub(crate) fn in_the_way_of(
    alloc: Global,
    books: &[Book],
    told: &Told,
) -> Result<Vec<u16>, AllocError>
    ensures { IfOk result (λ those. those.items ≡ in_the_way_of books.now told.now) }
{
    if is_wait(&told.news) {
        return waited_for(alloc, told.who, books);
    }
    Ok(Vec::new(alloc))
}

// Whether an answer is the beginning of a wait.
fn is_wait(news: &News) -> bool
    ensures { result ≡ is_wait_news news.now }
{
    matches!(news, News::Waits(_, _))
}

// The sessions that a session waits for, in order of their numbers.
fn waited_for(alloc: Global, who: u16, books: &[Book]) -> Result<Vec<u16>, AllocError>
    ensures { IfOk result (λ sessions. sessions.items ≡ waited_for who books.now) }
{
    let those = sessions_before(who, books);
    (1..MOST_SESSIONS + 1)
        .filter(|session| those.contains(*session))
        .collect(alloc)
}

// The set of the sessions that a session waits for.
fn sessions_before(who: u16, books: &[Book]) -> Sessions
    ensures { Gains (waits_for nobody books.now who) set.empty result }
{
    let mut those = Sessions::new();
    for book in books {
        add_those_at(&mut those, who, book);
    }
    those
}

// Adds the sessions that a session waits for at one lock.
fn add_those_at(those: &mut Sessions, who: u16, book: &Book)
    ensures { Gains (waits_at nobody book.now who) those.old those.new }
{
    let waiting = book.waiting();
    for wish in waiting {
        if wish.session == who {
            add_holders(those, book, *wish);
            add_waiters(those, book, *wish);
        }
    }
}

// Adds the other sessions whose granted tickets clash with a request.
fn add_holders(those: &mut Sessions, book: &Book, wish: Ticket)
    ensures { Gains (λ session. not (wish.session == session) && holds_against book.now wish.mode session) those.old those.new }
{
    let kind = book.key().kind();
    let granted = book.granted();
    for held in granted {
        if conflicts_granted(kind, wish.mode, held.mode) {
            add_other(those, wish.session, held.session);
        }
    }
}

// Adds the other sessions behind whose waiting tickets a request waits.
fn add_waiters(those: &mut Sessions, book: &Book, wish: Ticket)
    ensures { Gains (λ session. not (wish.session == session) && waits_ahead nobody book.now wish.mode session) those.old those.new }
{
    let kind = book.key().kind();
    let waiting = book.waiting();
    for pending in waiting {
        if conflicts_waiting(kind, wish.mode, pending.mode) {
            add_other(those, wish.session, pending.session);
        }
    }
}

// Adds the session of a ticket that blocks one of `who`, unless it is `who` itself.
fn add_other(those: &mut Sessions, who: u16, session: u16)
    ensures { Gains (λ other. not (who == other) && session == other) those.old those.new }
{
    if session != who && is_session(session) {
        those.insert(session);
    }
}

// Whether a session can have this number.
fn is_session(who: u16) -> bool
    ensures { result ≡ is_within most_sessions who }
{
    1 <= who && who <= MOST_SESSIONS
}
