//! The codes that C gets, and what its numbers name.
ghost use Rattle.std.specs.Prelude.{◌≡◌};
ghost use Rattle.mdl_c_parts.specs.Codes.{cause_code, duration_at, mode_at, name_code, namespace_at, new_code, settled_code};

use mdl_calls::{NewError, Settled, SpaceError};
use mdl_key::{Duration, Mode, Namespace, Utf8NameError};

/// The version of the library, and of its headers: 600 is 0.6.0.
pub const VERSION: u32 = 600;

/// The call is done, or the lock is granted.
pub const DONE: u32 = 0;

/// The lock can't be granted now.
pub const WOULD_WAIT: u32 = 1;

/// The session waits.
pub const WAITING: u32 = 2;

/// The wait is lost: it was chosen to break a deadlock.
pub const VICTIM: u32 = 3;

/// The wait is lost by a timeout.
pub const TIMEOUT: u32 = 4;

/// The wait is lost by a kill.
pub const KILLED: u32 = 5;

/// No unsettled wait has this number.
pub const NOT_KILLED: u32 = 6;

/// There is no manager.
pub const CLOSED: u32 = 16;

/// There is a manager already.
pub const IS_OPEN: u32 = 17;

/// The manager has no such session.
pub const NO_SESSION: u32 = 18;

/// There is no such mode.
pub const NO_MODE: u32 = 21;

/// A name isn't UTF-8.
pub const BAD_BYTE: u32 = 24;

/// There is no such duration.
pub const NO_DURATION: u32 = 28;

/// There is no such namespace.
pub const NO_NAMESPACE: u32 = 29;

/// The program was built with the headers of another version.
pub const OTHER_VERSION: u32 = 30;

/// The session doesn't pin the place, or the place has no key, or all places are in use.
pub const NO_PLACE: u32 = 32;

/// The key doesn't take the mode.
pub const BAD_MODE: u32 = 37;

/// The session has no wait.
pub const NO_WAIT: u32 = 39;

/// Memory ran out.
pub const NO_MEMORY: u32 = 45;

/// Returns the mode of a number, if there is one.
pub fn mode_of(number: u8) -> Option<Mode>
    ensures { result ≡ mode_at number }
{
    match number {
        0 => Some(Mode::IX),
        1 => Some(Mode::S),
        2 => Some(Mode::SH),
        3 => Some(Mode::SR),
        4 => Some(Mode::SW),
        5 => Some(Mode::SWLP),
        6 => Some(Mode::SU),
        7 => Some(Mode::SRO),
        8 => Some(Mode::SNW),
        9 => Some(Mode::SNRW),
        10 => Some(Mode::X),
        _ => None,
    }
}

/// Returns the duration of a number, if there is one.
pub fn duration_of(number: u8) -> Option<Duration>
    ensures { result ≡ duration_at number }
{
    match number {
        0 => Some(Duration::Statement),
        1 => Some(Duration::Transaction),
        2 => Some(Duration::Explicit),
        _ => None,
    }
}

/// Returns the namespace of a number, if there is one.
pub fn namespace_of(number: u8) -> Option<Namespace>
    ensures { result ≡ namespace_at number }
{
    match number {
        0 => Some(Namespace::Global),
        1 => Some(Namespace::Schema),
        2 => Some(Namespace::Table),
        3 => Some(Namespace::Commit),
        4 => Some(Namespace::UserLevelLock),
        _ => None,
    }
}

/// Returns the code that says why a space can't be made.
pub fn new_code(why: NewError) -> u32
    ensures { result ≡ new_code why }
{
    match why {
        NewError::BadPlaces => 19,
        NewError::BadSessions => 20,
        NewError::OutOfMemory => NO_MEMORY,
    }
}

/// Returns the code that says why a key can't be made.
pub fn name_code(why: Utf8NameError) -> u32
    ensures { result ≡ name_code why }
{
    match why {
        Utf8NameError::EmptyName => 22,
        Utf8NameError::LongName => 23,
        Utf8NameError::OutOfMemory => NO_MEMORY,
    }
}

/// Returns the code that says why the space refuses a call.
pub fn cause_code(cause: SpaceError) -> u32
    ensures { result ≡ cause_code cause }
{
    match cause {
        SpaceError::NoPlace => NO_PLACE,
        SpaceError::NotHeld => 33,
        SpaceError::NotUpgradable => 34,
        SpaceError::NotExclusive => 35,
        SpaceError::AlreadyWaiting => 36,
        SpaceError::BadMode => BAD_MODE,
        SpaceError::VersionFull => 38,
        SpaceError::NoWait => NO_WAIT,
        SpaceError::Unsettled => 40,
        SpaceError::CounterFull => 41,
        SpaceError::Full => 42,
        SpaceError::Def(_) => 43,
        SpaceError::WrongKind => 44,
        SpaceError::OutOfMemory => NO_MEMORY,
        SpaceError::InUse => 46,
    }
}

/// Returns the code that says how a wait is settled.
pub fn settled_code(how: Settled) -> u32
    ensures { result ≡ settled_code how }
{
    match how {
        Settled::Granted => DONE,
        Settled::Victim => VICTIM,
        Settled::Timeout => TIMEOUT,
        Settled::Killed => KILLED,
    }
}
