//! The requests of the input, and the sessions that they are for.
use mdl::lines::{Fault, first_words, session_of};
use mdl::parse;
use std::alloc::{AllocError, Global};

/// A line that names a session.
#[derive(Drop)]
pub struct Request<'t> {
    /// The line's number, counted from 1.
    pub number: u64,
    /// The session that it names.
    pub session: u16,
    /// The whole line.
    pub line: &'t [u8],
}

/// All lines that name a session, in order. An error is written for each other line, unless it is empty or a comment.
pub fn read_requests<'t>(
    alloc: Global,
    input: &'t [u8],
    errors: &mut String,
) -> Result<Vec<Request<'t>>, AllocError> {
    let mut requests = Vec::new(alloc);
    for (number, line) in (1..u64::MAX).zip(input.split(|byte| *byte == b'\n')) {
        match session_named(line) {
            Some(session) => requests.push(Request {
                number,
                session,
                line,
            })?,
            None => push_error(alloc, errors, number, line)?,
        }
    }
    Ok(requests)
}

/// Whether one of the requests is for this session.
pub fn is_asked(requests: &[Request<'_>], who: u16) -> bool {
    for request in requests {
        if request.session == who {
            return true;
        }
    }
    false
}

// The session that a line names.
fn session_named(line: &[u8]) -> Option<u16> {
    let (word, _second) = first_words(line)?;
    session_of(word)
}

// Writes why a line is no request, unless it asks for nothing.
fn push_error(
    alloc: Global,
    errors: &mut String,
    number: u64,
    line: &[u8],
) -> Result<(), AllocError> {
    match parse(alloc, line) {
        Ok(_nothing) => Ok(()),
        Err(Fault::Refused(_first, error)) => writeln!(errors, "line {number}: {error}"),
        Err(_fault) => Err(AllocError),
    }
}
