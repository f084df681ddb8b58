//! The events of statements.
ghost use Rattle.std.specs.Prelude.{◌≡◌, ◌++◌, IfOk, OnOk, map};
ghost use Rattle.mdl_timeline.specs.Moments.{answer_of, error_note, event_of, fate_of, news_note};

use crate::held::held_in;
use crate::in_the_way::in_the_way_of;
use mdl_book::Book;
use mdl_picture::{Event, Fate};
use mdl_rows::{ErrorNumber, Reply};
use mdl_script::{News, Told, push_news};
use std::alloc::{AllocError, Global};

/// Adds an event for each of these answers, at these books and with these words of the statement.
pub(crate) fn push_events(
    events: &mut Vec<Event>,
    alloc: Global,
    statement: &[u8],
    books: &[Book],
    told: &[Told],
) -> Result<(), AllocError>
    ensures { OnOk result (events.new.items ≡ events.old.items ++ map (event_of statement.now books.now) told.now) }
{
    for one in told {
        events.push(event_of(alloc, statement, books, one)?)?;
    }
    Ok(())
}

// The event of an answer, at these books and with these words of the statement.
fn event_of(
    alloc: Global,
    statement: &[u8],
    books: &[Book],
    told: &Told,
) -> Result<Event, AllocError>
    ensures { IfOk result (λ event. event ≡ event_of statement.now books.now told.now) }
{
    Ok(Event {
        line: told.line,
        session: told.who,
        statement: Vec::from_slice(alloc, statement)?,
        answer: answer_of(alloc, &told.news)?,
        fate: fate_of(&told.news),
        in_the_way: in_the_way_of(alloc, books, told)?,
        held: held_in(alloc, books)?,
    })
}

// The text that is printed of an answer.
fn answer_of(alloc: Global, news: &News) -> Result<Vec<u8>, AllocError>
    ensures { IfOk result (λ answer. answer.items ≡ answer_of news.now) }
{
    let mut out = String::new(alloc);
    push_news(&mut out, news)?;
    out.push_str(note_of(news))?;
    Ok(out.into_bytes())
}

// The text after an answer that is an error.
fn note_of(news: &News) -> &'static str
    ensures { result.now ≡ news_note news.now }
{
    match news {
        News::Ends(Reply::Error(error)) => error_note(*error),
        _ => "",
    }
}

// The text after an error.
fn error_note(error: ErrorNumber) -> &'static str
    ensures { result.now ≡ error_note error }
{
    match error {
        ErrorNumber::Deadlock | ErrorNumber::UserLockDeadlock => ", victim",
        ErrorNumber::LockWaitTimeout => ", timeout",
        ErrorNumber::Interrupted => ", killed",
        _ => "",
    }
}

// The state in which an answer leaves its statement.
fn fate_of(news: &News) -> Fate
    ensures { result ≡ fate_of news.now }
{
    match news {
        News::Waits(_, _) => Fate::Waits,
        News::Busy => Fate::Busy,
        News::Ends(Reply::Error(_)) => Fate::Fails,
        News::Ends(_) => Fate::Ends,
    }
}
