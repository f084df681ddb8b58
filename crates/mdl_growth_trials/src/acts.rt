//! Calls of a session of a space that threads share, and their answers.
ghost use Rattle.std.specs.Prelude.{◌≡◌, true};
ghost use Rattle.mdl_key.specs.KeyLookups.{is_known};
ghost use Rattle.mdl_shared.specs.SessionViews.{data_of};

use mdl_defs::{Change, Column, Columns, Definition};
use mdl_key::{Key, Mode};
use mdl_shared::{Fast, Released, Session};
use mdl_space::{Attempt, Begun, Ended, Place, Search, Settled, SpaceError, TicketId, Upgrade};
use std::alloc::Global;
use std::mem::drop;
use std::sync::Wait;

/// A call of a session.
#[derive(Clone, Copy)]
pub(crate) enum Act {
    Resolve(&'static str),
    Unpin(Place),
    TryNow(Place, Mode),
    BeginWait(Place, Mode),
    Search,
    EndWait,
    Clone(TicketId, Mode),
    Upgrade(TicketId, Mode),
    Merge(TicketId, TicketId),
    Downgrade(TicketId, Mode),
    /// Creates a table of one column under the first ticket, or adds another column to it.
    Create,
    AddColumn,
    /// Reserves room for this number of tickets.
    Reserve(usize),
    /// Gains this number of fast tickets, for which there is room.
    TryFast(Place, Mode, usize),
    /// Releases the tickets from one number to another.
    Release(TicketId, TicketId),
    /// Releases a fast ticket, and leaves it to the session to reschedule the place.
    ReleaseFast(TicketId),
    /// Asks whether the session owes a place a reschedule.
    Owes(Place),
    /// Reschedules a place.
    Reschedule(Place),
    /// Makes the session's fast tickets slow.
    Materialise,
}

/// The answer of a call. If memory runs out for a key or a change that the call needs, the call isn't made, and the answer is `NoMemory`, too.
#[derive(Clone, Copy, PartialEq, Eq)]
pub(crate) enum Reply {
    At(Place),
    Granted(TicketId),
    WouldWait,
    Waiting(u64),
    Victim(u16),
    NoCycle,
    Lost(Settled),
    Changed(u64),
    Owes(bool),
    Done,
    NoMemory,
    Refused,
}

impl Act {
    /// Whether it never takes memory.
    pub(crate) fn takes_none(self) -> bool {
        matches!(
            self,
            Act::Unpin(_)
                | Act::Release(_, _)
                | Act::ReleaseFast(_)
                | Act::Owes(_)
                | Act::Reschedule(_)
                | Act::Downgrade(_, _)
                | Act::EndWait
                | Act::TryFast(_, _, _)
        )
    }
}

/// Makes a call.
pub(crate) fn make<R: Wait>(session: &mut Session<R>, alloc: Global, act: Act) -> Reply {
    match act {
        Act::Resolve(name) => resolve(session, alloc, name),
        Act::Unpin(place) => done(session.unpin(place)),
        Act::TryNow(place, mode) => attempted(session.try_now(place, mode)),
        Act::BeginWait(place, mode) => begun(session.begin_wait(place, mode)),
        Act::Search => searched(session.search_deadlock()),
        Act::EndWait => ended(session.end_wait()),
        Act::Clone(id, mode) => cloned(session.clone_ticket(id, mode)),
        Act::Upgrade(id, mode) => upgraded(session.upgrade_now(id, mode)),
        Act::Merge(old, new) => done(session.merge(old, new)),
        Act::Downgrade(id, mode) => done(session.downgrade(id, mode)),
        Act::Create => create(session, alloc),
        Act::AddColumn => add_column(session, alloc),
        Act::Reserve(count) => done(session.reserve_tickets(count)),
        Act::TryFast(place, mode, count) => try_fast(session, place, mode, count),
        Act::Release(first, last) => release_all(session, first, last),
        Act::ReleaseFast(id) => released(session.release_fast(id)),
        Act::Owes(place) => Reply::Owes(session.owes(place)),
        Act::Reschedule(place) => reschedule(session, place),
        Act::Materialise => done(session.materialise()),
    }
}

// Looks up the place of a table.
fn resolve<R: Wait>(session: &mut Session<R>, alloc: Global, name: &str) -> Reply {
    let Ok(key) = Key::table(alloc, "test", name) else {
        return Reply::NoMemory;
    };
    let outcome = session.resolve(&key);
    drop(key);
    match outcome {
        Ok(place) => Reply::At(place),
        Err(error) => refused(error),
    }
}

fn create<R: Wait>(session: &mut Session<R>, alloc: Global) -> Reply {
    match one_column(alloc) {
        Some(columns) => redefine(session, Change::Create(Definition::Table(columns))),
        None => Reply::NoMemory,
    }
}

fn one_column(alloc: Global) -> Option<Columns> {
    let column = Column::new(alloc, "x").ok()?;
    let mut columns = Columns::new(alloc);
    match columns.push(column) {
        Ok(()) => Some(columns),
        Err(_) => None,
    }
}

fn add_column<R: Wait>(session: &mut Session<R>, alloc: Global) -> Reply {
    match Column::new(alloc, "y") {
        Ok(column) => redefine(session, Change::AddColumn(column)),
        Err(_) => Reply::NoMemory,
    }
}

// Changes the definition of the first ticket's key.
fn redefine<R: Wait>(session: &mut Session<R>, change: Change) -> Reply {
    let outcome = session.change_definition(1, &change);
    drop(change);
    match outcome {
        Ok(version) => Reply::Changed(version),
        Err(error) => refused(error),
    }
}

// Tries to gain `count` fast tickets, as long as they are granted. Returns the answer of the last try.
fn try_fast<R>(session: &mut Session<R>, place: Place, mode: Mode, count: usize) -> Reply {
    let mut reply = Reply::WouldWait;
    for _ in 0..count {
        reply = tried(session.try_fast(place, mode));
        if !matches!(reply, Reply::Granted(_)) {
            return reply;
        }
    }
    reply
}

fn reschedule<R: Wait>(session: &mut Session<R>, place: Place) -> Reply {
    if !knows(session, place) {
        return Reply::Refused;
    }
    session.reschedule(place);
    Reply::Done
}

// Whether a session knows the key of a place. Tries a second time if memory runs out.
fn knows<R>(session: &mut Session<R>, place: Place) -> bool
    ensures { result ≡ true → is_known place (data_of session.new).known ≡ true }
{
    match session.key_of(place) {
        Ok(_key) => true,
        Err(SpaceError::OutOfMemory) => session.key_of(place).is_ok(),
        Err(_) => false,
    }
}

// Releases the tickets from one number to another. Refused at the first release that fails.
fn release_all<R: Wait>(session: &mut Session<R>, first: TicketId, last: TicketId) -> Reply {
    for id in first..=last {
        if session.release(id).is_err() {
            return Reply::Refused;
        }
    }
    Reply::Done
}

fn refused(error: SpaceError) -> Reply {
    if matches!(error, SpaceError::OutOfMemory) {
        Reply::NoMemory
    } else {
        Reply::Refused
    }
}

fn attempted(outcome: Result<Attempt, SpaceError>) -> Reply {
    match outcome {
        Ok(Attempt::Granted(id)) => Reply::Granted(id),
        Ok(Attempt::WouldWait) => Reply::WouldWait,
        Err(error) => refused(error),
    }
}

fn begun(outcome: Result<Begun, SpaceError>) -> Reply {
    match outcome {
        Ok(Begun::Granted(id)) => Reply::Granted(id),
        Ok(Begun::Waiting(number)) => Reply::Waiting(number),
        Err(error) => refused(error),
    }
}

fn searched(outcome: Result<Search, SpaceError>) -> Reply {
    match outcome {
        Ok(Search::NoCycle) => Reply::NoCycle,
        Ok(Search::Victim(session)) => Reply::Victim(session),
        Err(error) => refused(error),
    }
}

fn ended(outcome: Result<Ended, SpaceError>) -> Reply {
    match outcome {
        Ok(Ended::Granted(id)) => Reply::Granted(id),
        Ok(Ended::Victim) => Reply::Lost(Settled::Victim),
        Ok(Ended::Timeout) => Reply::Lost(Settled::Timeout),
        Ok(Ended::Killed) => Reply::Lost(Settled::Killed),
        Err(error) => refused(error),
    }
}

fn cloned(outcome: Result<TicketId, SpaceError>) -> Reply {
    match outcome {
        Ok(id) => Reply::Granted(id),
        Err(error) => refused(error),
    }
}

fn upgraded(outcome: Result<Upgrade, SpaceError>) -> Reply {
    match outcome {
        Ok(Upgrade::Upgraded) => Reply::Done,
        Ok(Upgrade::WouldWait) => Reply::WouldWait,
        Err(error) => refused(error),
    }
}

fn released(outcome: Result<Released, SpaceError>) -> Reply {
    match outcome {
        Ok(Released { owes }) => Reply::Owes(owes),
        Err(error) => refused(error),
    }
}

fn tried(outcome: Result<Fast, SpaceError>) -> Reply {
    match outcome {
        Ok(Fast::Granted(id)) => Reply::Granted(id),
        Ok(_) => Reply::WouldWait,
        Err(error) => refused(error),
    }
}

fn done(outcome: Result<(), SpaceError>) -> Reply {
    match outcome {
        Ok(()) => Reply::Done,
        Err(error) => refused(error),
    }
}
