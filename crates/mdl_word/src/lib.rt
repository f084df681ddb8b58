//! The packed word of one lock: how many fast tickets it has, by class, and two flags.
//!
//! A fast ticket has no entry in a lock's lists. It is only counted, together with those in modes that clash with the same
//! requests, so that gaining or releasing it is a single addition to the lock's [`Word`], or a subtraction: see
//! [`Word::increment`]. A request for a mode that may clash with fast tickets reads the counts: see [`Word::blocks`].
//!
//! # Example
//!
//! ```
//! use mdl_key::{Kind, Mode};
//! use mdl_word::Word;
//!
//! // What one more reader adds to a table's word. A change is counted in none.
//! assert!(rt; Word::increment(Kind::Object, Mode::SR) == Some(1 << 20));
//! assert!(rt; Word::increment(Kind::Object, Mode::X).is_none());
//! // Two readers stand in the way of a change, and of no writer.
//! let word = Word(2 << 20);
//! assert!(rt; word.counts() == [0, 2, 0]);
//! assert!(rt; word.blocks(Kind::Object, Mode::X) && !word.blocks(Kind::Object, Mode::SW));
//! ```
#![tactic(auto)]

mod laws;
mod word;

pub use laws::{
    adding_counts_one_more, blocks_where_counted_tickets_clash, classes_clash_as_one,
    counted_modes_dont_clash, counts_fit, flags_are_bits, flags_are_lowered_at_once,
    flags_are_raised_and_lowered, flags_are_raised_at_once, larger_counts_block_more, lawful_words,
    many_are_counted_at_once, subtracting_counts_one_less, words_are_read_one_way,
};
pub use word::Word;
