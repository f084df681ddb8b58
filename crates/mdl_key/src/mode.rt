//! Lock modes, and how long a lock is kept.
ghost use Rattle.std.specs.Prelude.{◌≡◌, Some, MatchResult};
ghost use Rattle.std.specs.Fmt.{padded};
ghost use Rattle.mdl_key.specs.Modes.{mode_name, NamesMode};

use std::fmt;
use std::str::FromStr;
use thiserror::Error;

/// The mode of a lock. A scoped lock uses IX, S and X, an object lock all modes but IX.
///
/// After MySQL 5.7, `enum_mdl_type` of `sql/mdl.h`, in whose order they stand. This is not the order of strength: of SU and
/// SRO, for example, neither is as strong as the other.
#[derive(Clone, Copy, Debug, PartialEq, Eq, PartialOrd, Ord, Hash)]
pub enum Mode {
    /// Intention exclusive: something within the scope is to be changed.
    IX,
    /// Shared: the definition is read, and nothing else.
    S,
    /// Shared with high priority: as S, and waits behind no request.
    SH,
    /// Shared read: rows are read.
    SR,
    /// Shared write: rows are written.
    SW,
    /// Shared write with low priority: as SW, and waits behind a pending SRO too.
    SWLP,
    /// Shared upgradable: a change of the definition is prepared while others read and write.
    SU,
    /// Shared read only: rows are read while no session writes.
    SRO,
    /// Shared no write: the definition is being changed while others read.
    SNW,
    /// Shared no read, no write: others may only read the definition.
    SNRW,
    /// Exclusive.
    X,
}

impl Mode {
    /// All modes, in order.
    pub const ALL: [Mode; 11] = [
        Mode::IX,
        Mode::S,
        Mode::SH,
        Mode::SR,
        Mode::SW,
        Mode::SWLP,
        Mode::SU,
        Mode::SRO,
        Mode::SNW,
        Mode::SNRW,
        Mode::X,
    ];

    /// Returns the mode's name, in capitals.
    pub fn as_str(self) -> &'static str
        ensures { result.now ≡ mode_name self }
    {
        match self {
            Mode::IX => "IX",
            Mode::S => "S",
            Mode::SH => "SH",
            Mode::SR => "SR",
            Mode::SW => "SW",
            Mode::SWLP => "SWLP",
            Mode::SU => "SU",
            Mode::SRO => "SRO",
            Mode::SNW => "SNW",
            Mode::SNRW => "SNRW",
            Mode::X => "X",
        }
    }
}

/// The mode's name, in capitals.
impl fmt::Display for Mode {
    ghost output = { λ mode. Some (mode_name mode) };

    fn fmt<W: fmt::Write>(&self, f: &mut fmt::Formatter<W>) -> fmt::Result {
        f.write_str(self.as_str())
    }
}

/// Reads a mode by its name, in capitals.
impl FromStr for Mode {
    type Err = ModeError;

    ghost from_str_gives = { λ text r. NamesMode text r };

    fn from_str(name: &str) -> Result<Mode, ModeError> {
        match name {
            "IX" => Ok(Mode::IX),
            "S" => Ok(Mode::S),
            "SH" => Ok(Mode::SH),
            "SR" => Ok(Mode::SR),
            "SW" => Ok(Mode::SW),
            "SWLP" => Ok(Mode::SWLP),
            "SU" => Ok(Mode::SU),
            "SRO" => Ok(Mode::SRO),
            "SNW" => Ok(Mode::SNW),
            "SNRW" => Ok(Mode::SNRW),
            "X" => Ok(Mode::X),
            _ => Err(ModeError),
        }
    }
}

/// The text isn't the name of a lock mode.
#[derive(Clone, Copy, Debug, PartialEq, Eq, Error)]
#[error("no such lock mode")]
pub struct ModeError;

/// How long a session keeps a lock.
///
/// After MySQL 5.7, `enum_mdl_duration` of `sql/mdl.h`.
#[derive(Clone, Copy, Debug, PartialEq, Eq, PartialOrd, Ord, Hash)]
pub enum Duration {
    /// Until the statement ends.
    Statement,
    /// Until the transaction ends.
    Transaction,
    /// Until it is released.
    Explicit,
}
