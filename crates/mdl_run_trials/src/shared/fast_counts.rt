//! Which fast tickets the word of a table's lock counts together, written out here once more.
use mdl_calls::{Held, Place};
use mdl_key::Mode;
use mdl_word::Word;

// Returns how many of the tickets are at a place, in these modes.
fn count(held: &[Held], place: Place, modes: &[Mode]) -> u32 {
    let mut count = 0u32;
    for ticket in held {
        let counts = ticket.place == place && modes.contains(&ticket.mode);
        count = count.saturating_add(u32::from(counts));
    }
    count
}

/// Whether the word of a place's lock counts just the tickets at the place, of all sessions. Each of these tickets must be fast.
pub(crate) fn are_counted(word: Word, held: &[Held], place: Place) -> bool {
    let [shared, read, written] = word.counts();
    shared == count(held, place, &[Mode::S, Mode::SH])
        && read == count(held, place, &[Mode::SR])
        && written == count(held, place, &[Mode::SW, Mode::SWLP])
}
