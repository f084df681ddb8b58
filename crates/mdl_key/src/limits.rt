//! The limits of a lock space and of names. Contracts cite those of `specs/Limits`.

/// The most sessions that a space can have. They are numbered from 1.
pub const MOST_SESSIONS: u16 = 1024;

/// The most places that a space can have. They are numbered from 1, and each is the place of one key.
pub const MOST_PLACES: u16 = 256;

/// The most bytes that a name can have.
pub const LONGEST_NAME: usize = 64;

/// The most bytes that a name can have for the constructors that take any text.
pub const LONGEST_UTF8_NAME: usize = 255;
