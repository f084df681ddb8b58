//! Outcomes of statements.
use mdl_stmt::{OutOfMemory, Progress, Reply};
use std::mem::drop;

/// The outcome of a statement.
#[derive(Clone, Copy, PartialEq, Eq)]
pub(crate) enum Outcome {
    Done,
    /// The version of the last table that the statement read.
    Reads(u64),
    /// A truth value.
    Says(bool),
    /// NULL.
    Null,
    Fails(u16),
    Waits,
    NoMemory,
}

impl Outcome {
    /// The outcome that a reply shows.
    pub(crate) fn of(reply: &Reply) -> Outcome {
        match reply {
            Reply::Ok => Outcome::Done,
            Reply::Error(error) => Outcome::Fails(error.number()),
            Reply::Columns(tables) => match tables.as_slice().last() {
                Some(table) => Outcome::Reads(table.version),
                None => Outcome::Reads(0),
            },
            Reply::Number(yes) => Outcome::Says(*yes),
            Reply::Null => Outcome::Null,
        }
    }

    /// The outcome so far: a finished statement's reply, a wait, or a failure.
    pub(crate) fn at(progress: Result<Progress, OutOfMemory>) -> Outcome {
        let outcome = match &progress {
            Ok(Progress::Done(reply)) => Outcome::of(reply),
            Ok(Progress::Waiting(_, _)) | Ok(Progress::Pending) => Outcome::Waits,
            Err(_) => Outcome::NoMemory,
        };
        drop(progress);
        outcome
    }
}
