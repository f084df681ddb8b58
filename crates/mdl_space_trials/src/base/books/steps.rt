//! Calls of a book, and their answers.
use crate::base::rows::Story;
use mdl_book::{Book, BookError, Sessions, Ticket};
use mdl_key::{Key, Kind, Mode};
use mdl_word::Word;
use std::alloc::Global;

/// The word of a lock without fast tickets.
pub(crate) const NO_FAST: Word = Word(0);

/// A ticket's session, number and mode.
pub(crate) type Row = (u16, u64, Mode);

/// A call of a book, or a comparison of its content.
#[derive(Clone, Copy)]
pub(crate) enum Step {
    Grant(u16, u64, Mode, Word),
    Enqueue(u16, u64, Mode),
    Admit(u16, u64),
    // By the index of the waiting ticket.
    AdmitAt(usize),
    Cancel(u16, u64),
    Remove(u16, u64),
    SetMode(u16, u64, Mode, Word),
    CanGrant(u16, Mode, Word),
    // Of the waits, those of these sessions are settled.
    Next(Word, &'static [u16]),
    // The same, with the ticket's index.
    NextAt(Word, &'static [u16]),
    Needs,
    BookView(&'static [Row], &'static [Row]),
}

/// The answer of a call.
#[derive(Clone, Copy, PartialEq, Eq)]
pub(crate) enum Answer {
    Done,
    Gives(u16, u64, Mode),
    Refuses(BookError),
    Is(bool),
    Finds(u16, u64),
    FindsAt(usize, u16, u64, Mode),
    FindsNobody,
    // Whether a ticket is obtrusive, and whether there is a ticket at all.
    Needs(bool, bool),
}

pub(crate) const YES: Answer = Answer::Is(true);

pub(crate) const NO: Answer = Answer::Is(false);

pub(crate) const NOT_HERE: Answer = Answer::Refuses(BookError::NotHere);

pub(crate) const CONFLICT: Answer = Answer::Refuses(BookError::WouldConflict);

pub(crate) const FULL: Answer = Answer::Refuses(BookError::Full);

/// The calls of one book with their answers, one after another.
pub(crate) type Steps = &'static [(Step, Answer)];

/// What the calls show, the kind of the book's lock, and the calls.
pub(crate) struct Life(pub(crate) &'static str, pub(crate) Kind, pub(crate) Steps);

impl Story for Life {
    fn name(&self) -> &'static str {
        self.0
    }

    fn first_wrong(&self, alloc: Global) -> Option<usize> {
        let Some(mut book) = new_book(alloc, self.1) else {
            return Some(0);
        };
        let wrong = first_wrong_of(&mut book, self.2);
        drop(book);
        wrong
    }
}

pub(crate) fn ticket(session: u16, number: u64, mode: Mode) -> Ticket {
    Ticket {
        session,
        number,
        mode,
    }
}

// Whether a list has exactly these tickets.
fn are_listed(tickets: &[Ticket], rows: &[Row]) -> bool {
    for (held, row) in tickets.iter().zip(rows) {
        if *held != ticket(row.0, row.1, row.2) {
            return false;
        }
    }
    tickets.len() == rows.len()
}

/// Creates the book of a table or of a schema, without tickets.
pub(crate) fn new_book(alloc: Global, kind: Kind) -> Option<Book> {
    let key = match kind {
        Kind::Object => Key::table(alloc, "test", "t"),
        Kind::Scoped => Key::schema(alloc, "test"),
    };
    match key {
        Ok(key) => Some(Book::new(alloc, key)),
        Err(_) => None,
    }
}

fn done(outcome: Result<(), BookError>) -> Answer {
    match outcome {
        Ok(()) => Answer::Done,
        Err(error) => Answer::Refuses(error),
    }
}

fn given(outcome: Result<Ticket, BookError>) -> Answer {
    match outcome {
        Ok(ticket) => Answer::Gives(ticket.session, ticket.number, ticket.mode),
        Err(error) => Answer::Refuses(error),
    }
}

// Returns all sessions except these, whose waits are settled.
fn unsettled_beside(settled: &[u16]) -> Sessions {
    let mut unsettled = Sessions::all();
    for session in settled {
        unsettled.remove(*session);
    }
    unsettled
}

// Returns the next ticket that can be granted, if the waits of these sessions are settled.
fn next(book: &Book, word: Word, settled: &[u16]) -> Answer {
    match book.next_grantable(word, &unsettled_beside(settled)) {
        Some((session, number)) => Answer::Finds(session, number),
        None => Answer::FindsNobody,
    }
}

// The same, with its index.
fn next_at(book: &Book, word: Word, settled: &[u16]) -> Answer {
    match book.next_grantable_at(word, &unsettled_beside(settled)) {
        Some((index, found)) => Answer::FindsAt(index, found.session, found.number, found.mode),
        None => Answer::FindsNobody,
    }
}

fn needs(book: &Book) -> Answer {
    let needs = book.needs();
    Answer::Needs(needs.obtrusive, needs.slow)
}

/// Makes a call.
pub(crate) fn make(book: &mut Book, step: Step) -> Answer {
    match step {
        Step::Grant(session, number, mode, word) => {
            done(book.grant(ticket(session, number, mode), word))
        }
        Step::Enqueue(session, number, mode) => done(book.enqueue(ticket(session, number, mode))),
        Step::Admit(session, number) => given(book.admit(session, number)),
        Step::AdmitAt(index) => given(book.admit_at(index)),
        Step::Cancel(session, number) => given(book.cancel(session, number)),
        Step::Remove(session, number) => given(book.remove(session, number)),
        Step::SetMode(session, number, mode, word) => {
            done(book.set_mode(session, number, mode, word))
        }
        Step::CanGrant(session, mode, word) => Answer::Is(book.can_grant(session, mode, word)),
        Step::Next(word, settled) => next(book, word, settled),
        Step::NextAt(word, settled) => next_at(book, word, settled),
        Step::Needs => needs(book),
        Step::BookView(granted, waiting) => {
            Answer::Is(are_listed(book.granted(), granted) && are_listed(book.waiting(), waiting))
        }
    }
}

/// Makes calls of a book one after another, and returns the index of the first with a wrong answer.
pub(crate) fn first_wrong_of(book: &mut Book, steps: &[(Step, Answer)]) -> Option<usize> {
    for (place, (step, answer)) in steps.iter().enumerate() {
        if make(book, *step) != *answer {
            return Some(place);
        }
    }
    None
}
