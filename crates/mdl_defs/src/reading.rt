//! A definition that a session read.
use crate::VersionedDefinition;

/// The version and definition of a key, as a session read them at the key's place.
#[derive(Drop)]
pub struct Reading {
    /// The place of the key.
    pub place: usize,
    /// The key's version, with its definition if there was one.
    pub standing: VersionedDefinition,
}
