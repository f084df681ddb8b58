//! The value of a book in contracts.
use crate::Ticket;
use mdl_defs::VersionedDefinition;
use mdl_key::Key;

/// The value of a book in contracts: the lock's key, its two lists of tickets, each in order, and the key's version and
/// definition. No code makes one.
#[derive(Drop)]
pub struct BookView {
    /// The lock's key.
    pub key: Key,
    /// The granted tickets, in the order in which they were granted.
    pub granted: [Ticket; 0],
    /// The waiting tickets, in order of arrival.
    pub waiting: [Ticket; 0],
    /// The key's version and definition.
    pub standing: VersionedDefinition,
}
