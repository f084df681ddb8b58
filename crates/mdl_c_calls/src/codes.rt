//! The codes of calls that are refused if there is no such session, or if a context keeps its tickets. Each call has a function for its code, so that what
//! is proved of an export speaks of one code, and has no case for refusals.
ghost use Rattle.std.specs.Prelude.{◌≡◌, Option};
ghost use Rattle.std.specs.Option.{option_map};
ghost use Rattle.std.specs.Result.{result_ok};
ghost use Rattle.mdl_calls.specs.Words.{Has_wait, attempted, begun, cloned, done, ended, placed, polled, searched, timed_out, upgrade_tried};
ghost use Rattle.mdl_c_parts.specs.Answers.{code_at, code_of, told_at};
ghost use Rattle.mdl_c_calls.specs.ContextCodes.{answered, served_code};

use crate::context_codes::unserved_code;
use crate::unserved::Unserved;
use mdl_c_parts::NO_SESSION;
use mdl_space::{
    Attempt, Begun, Ended, Place, Poll, Search, SpaceError, TicketId, TimedOut, Upgrade,
};

/// Writes the place of a key, if the call succeeded, and returns the code.
pub fn place_code(answer: Option<Result<Place, SpaceError>>, place: &mut u16) -> u32
    ensures code { result ≡ code_at (option_map placed answer) }
    ensures told { place.new ≡ told_at (option_map placed answer) place.old }
{
    match answer {
        Some(answer) => mdl_c_parts::place_code(answer, place),
        None => NO_SESSION,
    }
}

/// Writes the ticket, if it was granted, and returns the code.
pub fn attempt_code(answer: Result<Result<Attempt, SpaceError>, Unserved>, ticket: &mut u64) -> u32
    ensures code { result ≡ served_code code_of (answered attempted answer) }
    ensures told { ticket.new ≡ told_at (result_ok (answered attempted answer)) ticket.old }
{
    match answer {
        Ok(answer) => mdl_c_parts::attempt_code(answer, ticket),
        Err(why) => unserved_code(why),
    }
}

/// Writes the number of the granted ticket or of the wait, if there is one, and returns the code.
pub fn begun_code(answer: Result<Result<Begun, SpaceError>, Unserved>, number: &mut u64) -> u32
    ensures code { result ≡ served_code code_of (answered begun answer) }
    ensures told { number.new ≡ told_at (result_ok (answered begun answer)) number.old }
{
    match answer {
        Ok(answer) => mdl_c_parts::begun_code(answer, number),
        Err(why) => unserved_code(why),
    }
}

/// Writes the session of a deadlock's victim, if there is one, and returns the code.
pub fn search_code(answer: Result<Result<Search, SpaceError>, Unserved>, victim: &mut u16) -> u32
    ensures code { result ≡ served_code code_of (answered searched answer) }
    ensures told { victim.new ≡ told_at (result_ok (answered searched answer)) victim.old }
{
    match answer {
        Ok(answer) => mdl_c_parts::search_code(answer, victim),
        Err(why) => unserved_code(why),
    }
}

/// Returns the code of a wait's state.
pub fn poll_code(answer: Option<Result<Poll, SpaceError>>) -> u32
    ensures { result ≡ code_at (option_map polled answer) }
{
    match answer {
        Some(answer) => mdl_c_parts::poll_code(answer),
        None => NO_SESSION,
    }
}

/// Returns the code that says how a wait is settled, by this call's timeout or before.
pub fn timeout_code(answer: Option<Result<TimedOut, SpaceError>>) -> u32
    ensures { result ≡ code_at (option_map timed_out answer) }
{
    match answer {
        Some(answer) => mdl_c_parts::timeout_code(answer),
        None => NO_SESSION,
    }
}

/// Writes the ticket, if the wait was granted, and returns the code that says how the wait has ended.
pub fn end_code(answer: Result<Result<Ended, SpaceError>, Unserved>, ticket: &mut u64) -> u32
    ensures code { result ≡ served_code code_of (answered ended answer) }
    ensures told { ticket.new ≡ told_at (result_ok (answered ended answer)) ticket.old }
{
    match answer {
        Ok(answer) => mdl_c_parts::end_code(answer, ticket),
        Err(why) => unserved_code(why),
    }
}

/// Writes the number of a session's wait, if it has one, and returns the code.
pub fn wait_code(answer: Option<Option<u64>>, number: &mut u64) -> u32
    ensures code { result ≡ code_at (option_map Has_wait answer) }
    ensures told { number.new ≡ told_at (option_map Has_wait answer) number.old }
{
    match answer {
        Some(answer) => mdl_c_parts::wait_code(answer, number),
        None => NO_SESSION,
    }
}

/// Returns the code of a call that is done or refused.
pub fn done_code(answer: Result<Result<(), SpaceError>, Unserved>) -> u32
    ensures { result ≡ served_code code_of (answered done answer) }
{
    match answer {
        Ok(answer) => mdl_c_parts::done_code(answer),
        Err(why) => unserved_code(why),
    }
}

/// Writes the second ticket, if it was granted, and returns the code.
pub fn clone_code(answer: Result<Result<TicketId, SpaceError>, Unserved>, ticket: &mut u64) -> u32
    ensures code { result ≡ served_code code_of (answered cloned answer) }
    ensures told { ticket.new ≡ told_at (result_ok (answered cloned answer)) ticket.old }
{
    match answer {
        Ok(answer) => mdl_c_parts::clone_code(answer, ticket),
        Err(why) => unserved_code(why),
    }
}

/// Returns the code of an upgrade: done, not possible without waiting, or refused.
pub fn upgrade_code(answer: Result<Result<Upgrade, SpaceError>, Unserved>) -> u32
    ensures { result ≡ served_code code_of (answered upgrade_tried answer) }
{
    match answer {
        Ok(answer) => mdl_c_parts::upgrade_code(answer),
        Err(why) => unserved_code(why),
    }
}
