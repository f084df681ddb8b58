//! Calls of a context over a lock space of any kind, and their answers.
ghost use Rattle.std.specs.Prelude.{◌≡◌};
ghost use Rattle.mdl_context.specs.Contexts.{Attends, LeavesOthers};

use mdl_context::{Acquire, Context, ContextError, Kept, Mark, Request, Resume, Tried};
use mdl_key::{Duration, Key, Mode};
use mdl_space::{Held, LockSpace, Settled, SpaceError, TicketId};
use std::alloc::Global;
use std::mem::drop;

/// Durations of tickets.
pub(crate) const STATEMENT: Duration = Duration::Statement;

pub(crate) const TRANSACTION: Duration = Duration::Transaction;

pub(crate) const EXPLICIT: Duration = Duration::Explicit;

/// A call of a session.
#[derive(Clone, Copy)]
pub(crate) enum Act {
    /// Requests a ticket of a table.
    Acquire(&'static str, Mode, Duration),
    /// The same, if that needs no wait.
    Try(&'static str, Mode, Duration),
    /// Of the ticket that it gained last.
    Upgrade(Mode),
    Downgrade(Mode),
    /// To a mark with these numbers of tickets of the statement and of the transaction.
    GoBack(usize, usize),
    EndStatement,
    EndTransaction,
    Resume,
    /// The wait for a stronger mode is over, and the ticket gets that mode.
    Raise(Mode),
    GiveUp,
}

/// The answer of a call.
#[derive(Clone, Copy, PartialEq, Eq)]
pub(crate) enum Reply {
    Acquired,
    MustWait,
    WouldWait,
    Waits,
    Lost(Settled),
    Done,
    NoMemory,
    Refused,
}

impl Act {
    /// Whether it may take memory.
    pub(crate) fn takes_memory(self) -> bool {
        matches!(
            self,
            Act::Acquire(_, _, _) | Act::Try(_, _, _) | Act::Upgrade(_) | Act::Raise(_)
        )
    }

    /// Returns the call to make after this one ran out of memory. A wait that it was to end is over then.
    pub(crate) fn again(self) -> Act {
        match self {
            Act::Raise(mode) => Act::Upgrade(mode),
            act => act,
        }
    }
}

/// Makes a call.
pub(crate) fn make<S: LockSpace>(
    alloc: Global,
    space: &mut S,
    context: &mut Context<S>,
    act: Act,
) -> Reply
    requires { Attends S.LockSpace space.old context.old }
    ensures attends { Attends S.LockSpace space.new context.new }
    ensures who { context.new.who ≡ context.old.who }
    ensures others { LeavesOthers S.LockSpace context.old.who space.old space.new }
{
    match act {
        Act::Acquire(name, _, _) | Act::Try(name, _, _) => match Key::table(alloc, "test", name) {
            Ok(key) => {
                let reply = ask(space, context, &key, act);
                drop(key);
                reply
            }
            Err(_) => Reply::NoMemory,
        },
        Act::Upgrade(mode) => acquired(context.upgrade(space, last_ticket(context), mode)),
        Act::Downgrade(mode) => done(context.downgrade(space, last_ticket(context), mode)),
        Act::GoBack(statement, transaction) => {
            let mark = Mark {
                statement,
                transaction,
            };
            done(context.rollback_to(space, mark))
        }
        Act::EndStatement => done(context.end_statement(space)),
        Act::EndTransaction => done(context.end_transaction(space)),
        Act::Resume | Act::Raise(_) => resumed(context.resume(space)),
        Act::GiveUp => resumed(context.give_up(space)),
    }
}

// Requests a ticket of a key.
fn ask<S: LockSpace>(space: &mut S, context: &mut Context<S>, key: &Key, act: Act) -> Reply
    requires { Attends S.LockSpace space.old context.old }
    ensures attends { Attends S.LockSpace space.new context.new }
    ensures who { context.new.who ≡ context.old.who }
    ensures others { LeavesOthers S.LockSpace context.old.who space.old space.new }
{
    match act {
        Act::Acquire(_, mode, duration) => {
            let request = Request {
                key,
                mode,
                duration,
            };
            acquired(context.acquire(space, request))
        }
        Act::Try(_, mode, duration) => {
            let request = Request {
                key,
                mode,
                duration,
            };
            tried(context.try_acquire(space, request))
        }
        _ => Reply::Refused,
    }
}

// Returns the number of the ticket that a session gained last, or 0 if it has none.
fn last_ticket<S: LockSpace>(context: &Context<S>) -> TicketId {
    match context.kept().last() {
        Some(ticket) => ticket.id,
        None => 0,
    }
}

fn acquired(outcome: Result<Acquire, ContextError>) -> Reply {
    match outcome {
        Ok(Acquire::Acquired(_)) => Reply::Acquired,
        Ok(Acquire::MustWait(_)) => Reply::MustWait,
        Err(error) => refused(error),
    }
}

fn tried(outcome: Result<Tried, ContextError>) -> Reply {
    match outcome {
        Ok(Tried::Acquired(_)) => Reply::Acquired,
        Ok(Tried::WouldWait) => Reply::WouldWait,
        Err(error) => refused(error),
    }
}

fn resumed(outcome: Result<Resume, ContextError>) -> Reply {
    match outcome {
        Ok(Resume::Waiting) => Reply::Waits,
        Ok(Resume::Acquired(_)) => Reply::Acquired,
        Ok(Resume::Lost(how)) => Reply::Lost(how),
        Err(error) => refused(error),
    }
}

fn done(outcome: Result<(), ContextError>) -> Reply {
    match outcome {
        Ok(()) => Reply::Done,
        Err(error) => refused(error),
    }
}

fn refused(error: ContextError) -> Reply {
    if matches!(error, ContextError::Space(SpaceError::OutOfMemory)) {
        Reply::NoMemory
    } else {
        Reply::Refused
    }
}

/// Returns how many tickets there are of the statement, of the transaction and in all, and whether the session waits.
pub(crate) fn stands<S: LockSpace>(context: &Context<S>) -> (Mark, usize, bool) {
    (
        context.savepoint(),
        context.kept().len(),
        context.wish().is_some(),
    )
}

/// Whether a context keeps the tickets that its session holds, and there are `count` of them.
pub(crate) fn keeps<S: LockSpace>(space: &S, context: &Context<S>, count: usize) -> bool
    requires { S.speaks_for space.now context.now.who }
{
    let held = match space.held(context.who()) {
        Err(SpaceError::OutOfMemory) => space.held(context.who()),
        outcome => outcome,
    };
    match held {
        Ok(held) => {
            let is_so = held.len() == count && are_kept(context.kept(), &held);
            drop(held);
            is_so
        }
        Err(_) => false,
    }
}

// Whether the kept tickets are those that are held.
fn are_kept(kept: &[Kept], held: &[Held]) -> bool {
    for (ticket, other) in kept.iter().zip(held) {
        if ticket.id != other.id || ticket.place != other.place || ticket.mode != other.mode {
            return false;
        }
    }
    kept.len() == held.len()
}
