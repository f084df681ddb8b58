//! The codes of the calls that are refused if a session has a context, and of the calls of contexts.
ghost use Rattle.std.specs.Prelude.{◌≡◌};
ghost use Rattle.std.specs.Result.{result_ok};
ghost use Rattle.mdl_c_calls.specs.ContextCodes.{acquire_code, acquire_told, done_code, fault_code, kept_code, mark_told, resume_code, resume_told, served_code, tried_code, tried_told, unserved_code};

use crate::mark::Mark;
use crate::unserved::Unserved;
use mdl_c_parts::{DONE, NO_MEMORY, NO_SESSION, WAITING, WOULD_WAIT, cause_code, settled_code};
use mdl_context::{Acquire, ContextError, Resume, Tried};

const NOT_KEPT: u32 = 49;

/// Returns the code that says why a `ServedSpace` refuses a session's call.
pub fn unserved_code(why: Unserved) -> u32
    ensures { result ≡ unserved_code why }
{
    match why {
        Unserved::NoSession => NO_SESSION,
        Unserved::HasContext => 25,
        Unserved::NoContext => 26,
        Unserved::InUse => 27,
        Unserved::OutOfMemory => NO_MEMORY,
    }
}

/// Returns the code that says why a context refuses a call.
pub fn fault_code(fault: ContextError) -> u32
    ensures { result ≡ fault_code fault }
{
    match fault {
        ContextError::StaleSavepoint => 48,
        ContextError::NotHeld => NOT_KEPT,
        ContextError::Waiting => 50,
        ContextError::Space(cause) => cause_code(cause),
    }
}

/// Writes the number of the ticket or of the wait, if there is one, and returns the code.
pub fn acquire_code(
    answer: Result<Result<Acquire, ContextError>, Unserved>,
    number: &mut u64,
) -> u32
    ensures code { result ≡ served_code acquire_code answer }
    ensures told { number.new ≡ acquire_told (result_ok answer) number.old }
{
    match answer {
        Ok(Ok(Acquire::Acquired(id))) => {
            *number = id;
            DONE
        }
        Ok(Ok(Acquire::MustWait(wait))) => {
            *number = wait;
            WAITING
        }
        Ok(Err(fault)) => fault_code(fault),
        Err(why) => unserved_code(why),
    }
}

/// Writes the number of the ticket, if there is one, and returns the code.
pub fn tried_code(answer: Result<Result<Tried, ContextError>, Unserved>, ticket: &mut u64) -> u32
    ensures code { result ≡ served_code tried_code answer }
    ensures told { ticket.new ≡ tried_told (result_ok answer) ticket.old }
{
    match answer {
        Ok(Ok(Tried::Acquired(granted))) => {
            *ticket = granted;
            DONE
        }
        Ok(Ok(Tried::WouldWait)) => WOULD_WAIT,
        Ok(Err(fault)) => fault_code(fault),
        Err(why) => unserved_code(why),
    }
}

/// Returns the code that says whether a context keeps a ticket.
pub fn kept_code(answer: Result<bool, Unserved>) -> u32
    ensures { result ≡ served_code kept_code answer }
{
    match answer {
        Ok(true) => DONE,
        Ok(false) => NOT_KEPT,
        Err(why) => unserved_code(why),
    }
}

/// Writes the ticket, if the wait has ended with one, and returns the code of the wait's state.
pub fn resume_code(answer: Result<Result<Resume, ContextError>, Unserved>, ticket: &mut u64) -> u32
    ensures code { result ≡ served_code resume_code answer }
    ensures told { ticket.new ≡ resume_told (result_ok answer) ticket.old }
{
    match answer {
        Ok(Ok(Resume::Waiting)) => WAITING,
        Ok(Ok(Resume::Acquired(id))) => {
            *ticket = id;
            DONE
        }
        Ok(Ok(Resume::Lost(how))) => settled_code(how),
        Ok(Err(fault)) => fault_code(fault),
        Err(why) => unserved_code(why),
    }
}

/// Returns the code of a call that is done or refused.
pub fn finish_code(answer: Result<Result<(), ContextError>, Unserved>) -> u32
    ensures { result ≡ served_code done_code answer }
{
    match answer {
        Ok(Ok(())) => DONE,
        Ok(Err(fault)) => fault_code(fault),
        Err(why) => unserved_code(why),
    }
}

/// Writes the session's mark, unless the call is refused, and returns the code.
pub fn mark_code(answer: Result<mdl_context::Mark, Unserved>, mark: &mut Mark) -> u32
    ensures code { result ≡ served_code (λ _. 0) answer }
    ensures told { mark.new ≡ mark_told (result_ok answer) mark.old }
{
    match answer {
        Ok(now) => {
            *mark = Mark::of(now);
            DONE
        }
        Err(why) => unserved_code(why),
    }
}

/// Returns the code of a call that is done, unless the `ServedSpace` refuses it.
pub fn served_code(answer: Result<(), Unserved>) -> u32
    ensures { result ≡ served_code (λ _. 0) answer }
{
    match answer {
        Ok(()) => DONE,
        Err(why) => unserved_code(why),
    }
}
