//! The words and slots of a new table, before any session has a number.
ghost use Rattle.std.specs.Prelude.{◌≡◌, ◌^◌, ◌<◌, ◌≤◌, IfOk};
ghost use Rattle.mdl_steps.specs.Limits.{most_enrolled};
ghost use Rattle.mdl_steps.specs.Openings.{opening_words, opening_slots};

use crate::layout::{enrol_word, word_count};
use crate::{Directory, Slot};
use indexmap::IndexSet;
use mdl_book::Book;
use mdl_key::Key;
use std::alloc::{AllocError, Global};

// Returns the words of a new table: all are 0, except that the first number to be drawn is 1.
pub(crate) fn opening_words(
    alloc: Global,
    slots: usize,
    sessions: usize,
) -> Result<Vec<u64>, AllocError>
    requires slots { slots < 2 ^ 32 }
    requires sessions { sessions ≤ most_enrolled }
    ensures { IfOk result (λ words. words.items ≡ opening_words slots sessions) }
{
    let mut words = vec![in alloc; 0; word_count(slots, sessions)]?;
    words[enrol_word(slots)] = 1;
    Ok(words)
}

// Returns the slots of a new table: an empty directory, and an unused book for each place. A place gets its key later.
pub(crate) fn opening_slots(alloc: Global, places: usize) -> Result<Vec<Slot>, AllocError>
    ensures { IfOk result (λ slots. slots.items ≡ opening_slots places) }
{
    let directory = Directory {
        keys: IndexSet::new(alloc),
    };
    let mut slots = vec![in alloc; Slot::Directory(directory)]?;
    for _place in 0..places {
        slots.push(Slot::Place(Book::new(alloc, Key::global(alloc))))?;
    }
    Ok(slots)
}
