//! The codes that C gets, and the numbers by which it names a kind of lock.
ghost use Rattle.std.specs.Prelude.{◌≡◌};
ghost use Rattle.mdl_text.specs.Codes.{kind_at, line_code};

use mdl_key::Kind;
use mdl_lines::LineError;

pub const DONE: u32 = 0;

pub const NO_ROOM: u32 = 1;

pub const NO_KIND: u32 = 21;

pub const NO_MEMORY: u32 = 45;

/// Returns the kind with this number.
pub fn kind_of(number: u8) -> Option<Kind>
    ensures { result ≡ kind_at number }
{
    match number {
        0 => Some(Kind::Object),
        1 => Some(Kind::Scoped),
        _ => None,
    }
}

/// Returns the code that says why a line is refused.
pub fn line_code(why: LineError) -> u32
    ensures { result ≡ line_code why }
{
    match why {
        LineError::BadSession => 16,
        LineError::BadWord => 17,
        LineError::BadName => 18,
        LineError::LongLine => 19,
        LineError::NotAscii => 20,
    }
}
