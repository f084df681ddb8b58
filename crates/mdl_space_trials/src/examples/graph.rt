//! `mdl_graph`: a deadlock of two sessions, and its victim.
use mdl_book::{Book, Sessions, Ticket};
use mdl_graph::{WaitGraph, victim};
use mdl_key::{Key, Mode};
use mdl_word::Word;
use std::alloc::Global;
use std::test::Fail;

fn ticket(session: u16, number: u64, mode: Mode) -> Ticket {
    Ticket {
        session,
        number,
        mode,
    }
}

/// One session reads a table, and another one waits to change it. The graph gets the table's book.
fn add_wait(alloc: Global, graph: &mut WaitGraph, table: Key, reader: u16, waiter: u16) -> bool {
    let mut book = Book::new(alloc, table);
    let is_added = book.grant(ticket(reader, 1, Mode::SR), Word(0)).is_ok()
        && book.enqueue(ticket(waiter, 2, Mode::X)).is_ok()
        && graph.add(&book).is_ok();
    drop(book);
    is_added
}

#[test]
fn two_sessions_wait_for_each_other(rt: HostRuntime) -> Result<(), Fail> {
    let orders = Key::table(rt.alloc(), "shop", "orders")?;
    let customers = Key::table(rt.alloc(), "shop", "customers")?;
    let mut graph = WaitGraph::new(rt.alloc(), Sessions::new()); // nobody's wait is settled
    assert!(rt; add_wait(rt.alloc(), &mut graph, customers, 1, 2));
    assert!(rt; add_wait(rt.alloc(), &mut graph, orders, 2, 1));
    // Their wishes weigh the same, and so the session of the greater number falls.
    assert!(rt; matches!(&graph.find_cycle(1), Ok(Some(cycle)) if victim(cycle) == 2));
    Ok(())
}
