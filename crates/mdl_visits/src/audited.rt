//! What an audit returns of a place.
use mdl_calls::Place;
use mdl_steps::BookCopy;

/// The book of a place, as an audit copied it.
#[derive(Drop)]
pub struct Audited {
    /// The place.
    pub place: Place,
    /// Its book then: the key, the granted and the waiting tickets, and the key's version and definition.
    pub book: BookCopy,
}
