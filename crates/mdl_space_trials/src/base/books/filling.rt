//! Books with very many tickets, and books that run out of memory.
use super::steps::{
    Answer, CONFLICT, FULL, NO_FAST, Step, Steps, first_wrong_of, make, new_book, ticket,
};
use mdl_book::{Book, BookError};
use mdl_key::{Kind, Mode};
use std::alloc::Global;

const FULL_UP: Steps = &[
    (Step::Enqueue(2, 0, Mode::S), FULL),
    (Step::Grant(1, 1, Mode::S, NO_FAST), FULL),
    (Step::Grant(2, 0, Mode::S, NO_FAST), CONFLICT),
    (Step::Admit(2, 65_534), Answer::Gives(2, 65_534, Mode::S)),
    (Step::Grant(1, 1, Mode::SH, NO_FAST), FULL),
    (Step::Cancel(2, 1), Answer::Gives(2, 1, Mode::S)),
    (Step::Enqueue(3, 1, Mode::X), Answer::Done),
    (Step::Enqueue(3, 2, Mode::X), FULL),
];

// Enqueues tickets with the numbers from 1 up to below `most`. Returns the number of the first that is refused, or `most` if none is.
fn enqueued(book: &mut Book, most: u64) -> u64 {
    for number in 1..most {
        if book.enqueue(ticket(2, number, Mode::S)).is_err() {
            return number;
        }
    }
    most
}

// Whether a book is full at `most` tickets, and can still be used.
fn fills_up(book: &mut Book, most: u64) -> bool {
    make(book, Step::Grant(1, 0, Mode::X, NO_FAST)) == Answer::Done
        && enqueued(book, most) == most
        && first_wrong_of(book, FULL_UP).is_none()
        && book.granted().len() == 2
        && book.waiting().len() == 65_533
}

// The same for a new book.
fn new_one_fills_up(alloc: Global, most: u64) -> bool {
    let Some(mut book) = new_book(alloc, Kind::Object) else {
        return false;
    };
    let is_filled = fills_up(&mut book, most);
    drop(book);
    is_filled
}

#[test]
fn is_full_at_65535_tickets(rt: HostRuntime) {
    assert!(rt; new_one_fills_up(rt.alloc(), 65_535));
}

// Whether a call succeeds, on a second try if the first ran out of memory and changed nothing.
fn outlives(book: &mut Book, step: Step) -> bool {
    let (granted, waiting) = (book.granted().len(), book.waiting().len());
    match make(book, step) {
        Answer::Done => true,
        Answer::Refuses(BookError::OutOfMemory) => {
            book.granted().len() == granted
                && book.waiting().len() == waiting
                && make(book, step) == Answer::Done
        }
        _ => false,
    }
}

// Whether all tickets are granted in the end, half of which waited.
fn all_outlive(book: &mut Book) -> bool {
    for number in 1..40 {
        if !outlives(book, Step::Enqueue(1, number, Mode::S))
            || !outlives(book, Step::Grant(2, number, Mode::S, NO_FAST))
        {
            return false;
        }
    }
    for number in 1..40 {
        if book.admit(1, number).is_err() {
            return false;
        }
    }
    book.granted().len() == 78
}

// The same for a new book, on a second try if the first one ran out of memory.
fn all_of_a_new_one_outlive(alloc: Global) -> bool {
    for _try in 0..2 {
        if let Some(mut book) = new_book(alloc, Kind::Object) {
            let all = all_outlive(&mut book);
            drop(book);
            return all;
        }
    }
    false
}

// If memory is refused once in the life of a book, nothing changes except the answer of that call.
#[test]
fn outlives_want_of_memory(rt: HostRuntime) {
    assert!(rt; all_of_a_new_one_outlive(rt.alloc()));
}
