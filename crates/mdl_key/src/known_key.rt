//! A key with its place.
use crate::Key;

/// A key and its place in a space of locks, as a session has looked it up.
#[derive(Drop)]
pub struct KnownKey {
    /// The key.
    pub key: Key,
    /// Its place.
    pub place: usize,
}
