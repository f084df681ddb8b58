//! Deadlocks among sessions that wait for locks, and their victims.
//!
//! A [`WaitGraph`] is built from the books of all locks ([`WaitGraph::add`]). [`WaitGraph::find_cycle`] finds a cycle through a
//! session, if there is one, and [`victim`] says which member of the cycle has to give up its wait.
//!
//! # Example
//!
//! ```
//! use mdl_book::{Book, Sessions, Ticket};
//! use mdl_graph::{WaitGraph, victim};
//! use mdl_key::{Key, Mode};
//! use mdl_word::Word;
//! use std::alloc::Global;
//!
//! fn ticket(session: u16, number: u64, mode: Mode) -> Ticket {
//!     Ticket {
//!         session,
//!         number,
//!         mode,
//!     }
//! }
//!
//! /// One session reads a table, and another one waits to change it. The graph gets the table's book.
//! fn add_wait(alloc: Global, graph: &mut WaitGraph, table: Key, reader: u16, waiter: u16) -> bool {
//!     let mut book = Book::new(alloc, table);
//!     let is_added = book.grant(ticket(reader, 1, Mode::SR), Word(0)).is_ok()
//!         && book.enqueue(ticket(waiter, 2, Mode::X)).is_ok()
//!         && graph.add(&book).is_ok();
//!     drop(book);
//!     is_added
//! }
//!
//! let orders = Key::table(rt.alloc(), "shop", "orders")?;
//! let customers = Key::table(rt.alloc(), "shop", "customers")?;
//! let mut graph = WaitGraph::new(rt.alloc(), Sessions::new()); // nobody's wait is settled
//! assert!(rt; add_wait(rt.alloc(), &mut graph, customers, 1, 2));
//! assert!(rt; add_wait(rt.alloc(), &mut graph, orders, 2, 1));
//! // Their wishes weigh the same, and so the session of the greater number falls.
//! assert!(rt; matches!(&graph.find_cycle(1), Ok(Some(cycle)) if victim(cycle) == 2));
//! ```
#![tactic(auto)]

mod counts;
mod cycle;
mod laws;
mod level_links;
mod levels;
mod lists;
mod rows;
mod settling;
mod stands;
mod wait_graph;
mod waits;
mod walks;
mod weights;

pub use cycle::{Cycle, Member, victim};
pub use laws::{
    cycles_are_rounds, deadlocks_are_chosen_cycles, fewer_settled_keep_cycles, graphs_begin_empty,
    graphs_find_deadlocks, graphs_settle_later, members_of_cycles_wait, members_of_deadlocks_wait,
    shorter_cycles_come_first, victims_weigh_least, waiting_is_being_blocked,
};
pub use wait_graph::WaitGraph;
