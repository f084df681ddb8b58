//! Why a key can't be made.
use thiserror::Error;

/// Why a key can't be made from the names given.
#[derive(Clone, Copy, Debug, PartialEq, Eq, Error)]
pub enum KeyError {
    /// A name is empty.
    #[error("empty name")]
    EmptyName,
    /// A name has more than [`LONGEST_NAME`](crate::LONGEST_NAME) bytes.
    #[error("name of more than 64 bytes")]
    LongName,
    /// The byte of a name at this index, counted from 0, is none of `a-z 0-9 _`.
    #[error("bad byte at {0} of a name")]
    BadByte(usize),
    /// Memory ran out.
    #[error("out of memory")]
    OutOfMemory,
}

/// Why a key can't be made from names that may be any texts.
#[derive(Clone, Copy, Debug, PartialEq, Eq, Error)]
pub enum Utf8NameError {
    /// A name is empty.
    #[error("empty name")]
    EmptyName,
    /// A name has more than [`LONGEST_UTF8_NAME`](crate::LONGEST_UTF8_NAME) bytes.
    #[error("name of more than 255 bytes")]
    LongName,
    /// Memory ran out.
    #[error("out of memory")]
    OutOfMemory,
}
