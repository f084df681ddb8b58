//! The codes of a space's answers, and what is written with them.
ghost use Rattle.std.specs.Prelude.{◌≡◌, Some};
ghost use Rattle.mdl_calls.specs.Words.{Has_killed, Has_wait, attempted, begun, cloned, done, ended, listed, placed, polled, searched, timed_out, upgrade_tried};
ghost use Rattle.mdl_c_parts.specs.Answers.{HeldTold, code_of, number_told};

use crate::codes::{
    DONE, KILLED, NO_WAIT, NOT_KILLED, TIMEOUT, VICTIM, WAITING, WOULD_WAIT, cause_code,
    settled_code,
};
use crate::rows::{HeldRow, tell_held};
use mdl_calls::{
    Attempt, Begun, Ended, Held, Place, Poll, Search, SpaceError, TicketId, TimedOut, Upgrade,
};

/// Writes the place of a key, if the call succeeded, and returns the code.
pub fn place_code(answer: Result<Place, SpaceError>, place: &mut u16) -> u32
    ensures code { result ≡ code_of (placed answer) }
    ensures told { place.new ≡ number_told (placed answer) place.old }
{
    match answer {
        Ok(found) => {
            *place = found;
            DONE
        }
        Err(cause) => cause_code(cause),
    }
}

/// Writes the ticket, if it was granted, and returns the code.
pub fn attempt_code(answer: Result<Attempt, SpaceError>, ticket: &mut u64) -> u32
    ensures code { result ≡ code_of (attempted answer) }
    ensures told { ticket.new ≡ number_told (attempted answer) ticket.old }
{
    match answer {
        Ok(Attempt::Granted(id)) => {
            *ticket = id;
            DONE
        }
        Ok(Attempt::WouldWait) => WOULD_WAIT,
        Err(cause) => cause_code(cause),
    }
}

/// Writes the number of the granted ticket or of the wait, if there is one, and returns the code.
pub fn begun_code(answer: Result<Begun, SpaceError>, number: &mut u64) -> u32
    ensures code { result ≡ code_of (begun answer) }
    ensures told { number.new ≡ number_told (begun answer) number.old }
{
    match answer {
        Ok(Begun::Granted(id)) => {
            *number = id;
            DONE
        }
        Ok(Begun::Waiting(wait)) => {
            *number = wait;
            WAITING
        }
        Err(cause) => cause_code(cause),
    }
}

/// Writes the session of a deadlock's victim, if there is one, and returns the code.
pub fn search_code(answer: Result<Search, SpaceError>, victim: &mut u16) -> u32
    ensures code { result ≡ code_of (searched answer) }
    ensures told { victim.new ≡ number_told (searched answer) victim.old }
{
    match answer {
        Ok(Search::NoCycle) => DONE,
        Ok(Search::Victim(session)) => {
            *victim = session;
            VICTIM
        }
        Err(cause) => cause_code(cause),
    }
}

/// Returns the code of a wait's state.
pub fn poll_code(answer: Result<Poll, SpaceError>) -> u32
    ensures { result ≡ code_of (polled answer) }
{
    match answer {
        Ok(Poll::Pending) => WAITING,
        Ok(Poll::Settled(how)) => settled_code(how),
        Err(cause) => cause_code(cause),
    }
}

/// Returns the code that says how a wait is settled, by this call's timeout or before.
pub fn timeout_code(answer: Result<TimedOut, SpaceError>) -> u32
    ensures { result ≡ code_of (timed_out answer) }
{
    match answer {
        Ok(TimedOut::ByThisCall) => TIMEOUT,
        Ok(TimedOut::Already(how)) => settled_code(how),
        Err(cause) => cause_code(cause),
    }
}

/// Writes the ticket, if the wait was granted, and returns the code that says how the wait has ended.
pub fn end_code(answer: Result<Ended, SpaceError>, ticket: &mut u64) -> u32
    ensures code { result ≡ code_of (ended answer) }
    ensures told { ticket.new ≡ number_told (ended answer) ticket.old }
{
    match answer {
        Ok(Ended::Granted(id)) => {
            *ticket = id;
            DONE
        }
        Ok(Ended::Victim) => VICTIM,
        Ok(Ended::Timeout) => TIMEOUT,
        Ok(Ended::Killed) => KILLED,
        Err(cause) => cause_code(cause),
    }
}

/// Writes the number of a session's wait, if it has one, and returns the code.
pub fn wait_code(answer: Option<u64>, number: &mut u64) -> u32
    ensures code { result ≡ code_of (Has_wait answer) }
    ensures told { number.new ≡ number_told (Has_wait answer) number.old }
{
    match answer {
        Some(wait) => {
            *number = wait;
            DONE
        }
        None => NO_WAIT,
    }
}

/// Returns the code that says whether a wait was killed.
pub fn kill_code(has_killed: bool) -> u32
    ensures { result ≡ code_of (Has_killed has_killed) }
{
    if has_killed { DONE } else { NOT_KILLED }
}

/// Returns the code of a call that is done or refused.
pub fn done_code(answer: Result<(), SpaceError>) -> u32
    ensures { result ≡ code_of (done answer) }
{
    match answer {
        Ok(()) => DONE,
        Err(cause) => cause_code(cause),
    }
}

/// Writes the second ticket, if it was granted, and returns the code.
pub fn clone_code(answer: Result<TicketId, SpaceError>, ticket: &mut u64) -> u32
    ensures code { result ≡ code_of (cloned answer) }
    ensures told { ticket.new ≡ number_told (cloned answer) ticket.old }
{
    match answer {
        Ok(id) => {
            *ticket = id;
            DONE
        }
        Err(cause) => cause_code(cause),
    }
}

/// Returns the code of an upgrade: done, not possible without waiting, or refused.
pub fn upgrade_code(answer: Result<Upgrade, SpaceError>) -> u32
    ensures { result ≡ code_of (upgrade_tried answer) }
{
    match answer {
        Ok(Upgrade::Upgraded) => DONE,
        Ok(Upgrade::WouldWait) => WOULD_WAIT,
        Err(cause) => cause_code(cause),
    }
}

/// Writes the tickets that a session holds, and returns the code.
pub fn held_code(
    answer: Result<Vec<Held>, SpaceError>,
    room: &mut [HeldRow],
    count: &mut usize,
) -> u32
    ensures code { result ≡ code_of (listed answer) }
    ensures told { HeldTold room.old room.new count.old count.new (Some (listed answer)) }
{
    match answer {
        Ok(tickets) => {
            tell_held(&tickets, room, count);
            DONE
        }
        Err(cause) => cause_code(cause),
    }
}
