//! What can keep a script from being run.
ghost use Rattle.std.specs.Prelude.{◌≡◌, Some};
ghost use Rattle.mdl_lines.specs.Faults.{line_error_name, fault_text, fault_status};

use std::error::Error;
use std::fmt;

/// Why a line of a script is refused.
#[derive(Clone, Copy, Debug, PartialEq, Eq)]
pub enum LineError {
    /// The first word is no session: a number from 1 to [`MOST_SESSIONS`](mdl_key::MOST_SESSIONS) in decimal, without a sign or a leading zero.
    BadSession,
    /// A word is missing, misspelled, or one too many.
    BadWord,
    /// A word isn't a name where a name is required, or names a table for the second time.
    BadName,
    /// The line has more than 4,096 bytes. Its line feed, and a carriage return at its end, don't count.
    LongLine,
    /// A byte of the line is 0x80 or more.
    NotAscii,
}

impl LineError {
    /// Returns the error's name.
    pub fn as_str(self) -> &'static str
        ensures { result.now ≡ line_error_name self }
    {
        match self {
            LineError::BadSession => "BadSession",
            LineError::BadWord => "BadWord",
            LineError::BadName => "BadName",
            LineError::LongLine => "LongLine",
            LineError::NotAscii => "NotAscii",
        }
    }
}

/// The error's name.
impl fmt::Display for LineError {
    ghost output = { λ error. Some (line_error_name error) };

    fn fmt<W: fmt::Write>(&self, f: &mut fmt::Formatter<W>) -> fmt::Result {
        f.write_str(self.as_str())
    }
}

impl Error for LineError {}

/// What prevented a script from being run to its end.
#[derive(Clone, Copy, Debug, PartialEq, Eq)]
pub enum Fault {
    /// The line of this number, counted from 1, is refused.
    Refused(u64, LineError),
    /// Memory ran out.
    Memory,
    /// The script could not be read.
    Read,
    /// The answers could not be written.
    Write,
}

/// `line N: ` and the line's error, `fault: memory` or `fault: device`.
impl fmt::Display for Fault {
    ghost output = { λ fault. Some (fault_text fault) };

    fn fmt<W: fmt::Write>(&self, f: &mut fmt::Formatter<W>) -> fmt::Result {
        match self {
            Fault::Refused(line, error) => write!(f, "line {line}: {error}"),
            Fault::Memory => f.write_str("fault: memory"),
            Fault::Read | Fault::Write => f.write_str("fault: device"),
        }
    }
}

impl Error for Fault {}
