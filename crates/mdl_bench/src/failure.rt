//! The reasons why a measurement fails.
use mdl_book::BookError;
use mdl_calls::{NewError, SpaceError};
use mdl_key::KeyError;
use std::alloc::AllocError;
use std::io;

/// The reasons why a measurement fails.
#[derive(Clone, Copy)]
pub enum Failure {
    /// A key, or a table, that can't be made.
    Unmade,
    /// A call that is refused.
    Refused,
    /// A call that returns a wrong answer.
    Unexpected,
    /// Memory ran out.
    Memory,
    /// The clock or the arguments can't be read, or nothing can be printed.
    Device,
}

impl Failure {
    /// Returns the message that the program prints.
    pub fn text(self) -> &'static str {
        match self {
            Failure::Unmade => "a key or a table can't be made",
            Failure::Refused => "a call is refused",
            Failure::Unexpected => "a call has an answer that it should not have",
            Failure::Memory => "out of memory",
            Failure::Device => "the clock, the arguments or the output fail",
        }
    }
}

impl From<KeyError> for Failure {
    fn from(_error: KeyError) -> Failure {
        Failure::Unmade
    }
}

impl From<NewError> for Failure {
    fn from(_error: NewError) -> Failure {
        Failure::Unmade
    }
}

impl From<BookError> for Failure {
    fn from(_error: BookError) -> Failure {
        Failure::Refused
    }
}

impl From<SpaceError> for Failure {
    fn from(_error: SpaceError) -> Failure {
        Failure::Refused
    }
}

impl From<AllocError> for Failure {
    fn from(_error: AllocError) -> Failure {
        Failure::Memory
    }
}

impl From<io::Error> for Failure {
    fn from(_error: io::Error) -> Failure {
        Failure::Device
    }
}
