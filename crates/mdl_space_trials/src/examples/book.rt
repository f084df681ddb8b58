//! `mdl_book`: a change that waits for a reader.
use mdl_book::{Book, Sessions, Ticket};
use mdl_key::{Key, Mode};
use mdl_word::Word;
use std::test::Fail;

/// Session 1 reads a table, and session 2 waits to change it. It is next when the reader is gone.
fn change_is_next(book: &mut Book) -> bool {
    let word = Word(0); // no fast tickets
    let reader = Ticket {
        session: 1,
        number: 1,
        mode: Mode::SR,
    };
    let change = Ticket {
        session: 2,
        mode: Mode::X,
        ..reader
    };
    book.grant(reader, word).is_ok()
        && book.enqueue(change).is_ok()
        && book.remove(1, 1).is_ok()
        && matches!(book.next_grantable(word, &Sessions::all()), Some((2, 1)))
}

#[test]
fn a_change_waits_for_a_reader(rt: HostRuntime) -> Result<(), Fail> {
    let orders = Key::table(rt.alloc(), "test", "orders")?;
    let mut book = Book::new(rt.alloc(), orders);
    assert!(rt; change_is_next(&mut book));
    drop(book);
    Ok(())
}
