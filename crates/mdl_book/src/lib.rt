//! The book of one lock: its granted tickets, and its waiting ones in order of arrival.
//!
//! A [`Book`] says who holds a lock and who waits for it. A request can be granted if no granted ticket of another session
//! clashes with it, and it waits behind no waiting one ([`Book::can_grant`]). Otherwise it is added to the waiting list
//! ([`Book::enqueue`]). [`Book::next_grantable`] returns the first waiting ticket that can be granted. The value of a book
//! in contracts is a [`BookView`].
//!
//! Fast tickets are in no list: only the lock's packed [`Word`](mdl_word::Word) counts them. The caller passes the word, and
//! its tickets are taken for those of other sessions. [`Book::needs`] returns what the word's flags must say.
//!
//! # Example
//!
//! ```
//! use mdl_book::{Book, Sessions, Ticket};
//! use mdl_key::{Key, Mode};
//! use mdl_word::Word;
//!
//! /// Session 1 reads a table, and session 2 waits to change it. It is next when the reader is gone.
//! fn change_is_next(book: &mut Book) -> bool {
//!     let word = Word(0); // no fast tickets
//!     let reader = Ticket {
//!         session: 1,
//!         number: 1,
//!         mode: Mode::SR,
//!     };
//!     let change = Ticket {
//!         session: 2,
//!         mode: Mode::X,
//!         ..reader
//!     };
//!     book.grant(reader, word).is_ok()
//!         && book.enqueue(change).is_ok()
//!         && book.remove(1, 1).is_ok()
//!         && matches!(book.next_grantable(word, &Sessions::all()), Some((2, 1)))
//! }
//!
//! let orders = Key::table(rt.alloc(), "test", "orders")?;
//! let mut book = Book::new(rt.alloc(), orders);
//! assert!(rt; change_is_next(&mut book));
//! drop(book);
//! ```
#![tactic(auto)]

mod book;
mod book_error;
mod book_view;
mod kept_standing;
mod laws;
mod mode_counts;
mod needs;
mod sessions;
mod ticket;
mod ticket_list;
mod ticket_queue;

pub use book::Book;
pub use book_error::BookError;
pub use book_view::BookView;
pub use laws::{
    admitting_forgets_nobody, enqueueing_forgets_nobody, grantable_by_members,
    granting_forgets_nobody, lawful_by_members, nobody_is_next_where_none_is_forgotten,
    settling_forgets_nobody, who_is_next_is_grantable,
};
pub use needs::Needs;
pub use sessions::Sessions;
pub use ticket::Ticket;
