//! Modes, the matrices and keys.
mod matrices;
mod modes;
pub(crate) mod names;
mod utf8_names;
