//! The parts of the library for C that touch no lock space: the numbers of codes, modes, durations and namespaces (`specs/Codes`), the codes of a space's
//! answers and what is written with them (`specs/Answers`), keys made of bytes, and keys that stay bytes (`specs/Names`), rows of tickets (`specs/Rows`), texts of codes
//! (`specs/Messages`), and the parts of a box, of which a handle is made.
#![tactic(auto)]

mod answers;
mod clashes;
mod codes;
mod key_names;
mod messages;
mod names;
mod parts;
mod rows;

pub use answers::{
    attempt_code, begun_code, clone_code, done_code, end_code, held_code, kill_code, place_code,
    poll_code, search_code, timeout_code, upgrade_code, wait_code,
};
pub use clashes::clash_code;
pub use codes::{
    BAD_BYTE, BAD_MODE, CLOSED, DONE, IS_OPEN, KILLED, NO_DURATION, NO_MEMORY, NO_MODE,
    NO_NAMESPACE, NO_PLACE, NO_SESSION, NO_WAIT, NOT_KILLED, OTHER_VERSION, TIMEOUT, VERSION,
    VICTIM, WAITING, WOULD_WAIT, cause_code, duration_of, mode_of, name_code, namespace_of,
    new_code, settled_code,
};
pub use key_names::KeyNames;
pub use messages::tell_message;
pub use names::{key_of, schema_of, table_of, user_lock_of};
pub use parts::Parts;
pub use rows::{
    GRANTED, HeldRow, LOST_AS_VICTIM, LOST_BY_KILL, LOST_BY_TIMEOUT, LockRow, PENDING, UNKEPT,
    modes_are_told_as_asked, tell_held, tell_key, tell_text, waiting_status,
};
