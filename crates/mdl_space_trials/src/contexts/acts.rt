//! Acts and replies, by which all tests call a context.
ghost use Rattle.std.specs.Prelude.{◌≡◌};
ghost use Rattle.mdl_context.specs.Contexts.{Attends, LeavesOthers};

use mdl_context::{Acquire, Context, ContextError, Mark, Request, Resume, Tried};
use mdl_key::{Duration, Key, KeyError, Kind, Mode};
use mdl_space::{LockSpace, SpaceError, TicketId};
use std::alloc::Global;

/// What can be locked.
#[derive(Clone, Copy, PartialEq, Eq)]
pub(crate) enum Lock {
    A,
    B,
    Schema,
    Global,
    Commit,
    User,
    // A table named by its number.
    Numbered(u16),
}

impl Lock {
    /// The lock's kind.
    pub(crate) fn kind(self) -> Kind {
        match self {
            Lock::A | Lock::B | Lock::User | Lock::Numbered(_) => Kind::Object,
            Lock::Schema | Lock::Global | Lock::Commit => Kind::Scoped,
        }
    }

    /// The lock's key.
    pub(crate) fn key(self, alloc: Global) -> Result<Key, KeyError> {
        match self {
            Lock::A => Key::table(alloc, "test", "a"),
            Lock::B => Key::table(alloc, "test", "b"),
            Lock::Schema => Key::schema(alloc, "test"),
            Lock::Global => Ok(Key::global(alloc)),
            Lock::Commit => Ok(Key::commit(alloc)),
            Lock::User => Key::user_lock(alloc, "a"),
            Lock::Numbered(number) => numbered_key(alloc, number),
        }
    }
}

fn numbered_key(alloc: Global, number: u16) -> Result<Key, KeyError> {
    match format!(in alloc; "t{number}") {
        Ok(table) => Key::table(alloc, "test", table.as_str()),
        Err(_) => Err(KeyError::OutOfMemory),
    }
}

/// A call of a session's context, or a kill of a session's wait.
#[derive(Clone, Copy)]
pub(crate) enum Act {
    Acquire(Lock, Mode, Duration),
    TryAcquire(Lock, Mode, Duration),
    Last(Lock),
    Holds(Lock, Mode),
    AwaitsUserLock,
    Upgrade(TicketId, Mode),
    Downgrade(TicketId, Mode),
    Release(TicketId),
    ReleaseName(Lock),
    Mark,
    // Goes back to a mark with these numbers of tickets of the statement and of the transaction.
    GoBack(usize, usize),
    EndStatement,
    EndTransaction,
    ReleaseExplicit,
    SetDuration(TicketId, Duration),
    MakeExplicit,
    MakeTransactional,
    Resume,
    GiveUp,
    Kill(u16, u64),
}

/// The outcome of an act.
#[derive(Clone, Copy, PartialEq, Eq)]
pub(crate) enum Reply {
    Acquired(TicketId),
    MustWait(u64),
    WouldWait,
    Last(Option<TicketId>),
    Holds(bool),
    AwaitsUserLock(bool),
    Resumed(Resume),
    Stands(usize, usize),
    Done,
    Killed(bool),
    Refused(ContextError),
}

/// Returns the reply for an answer without a value.
pub(crate) fn done(answer: Result<(), ContextError>) -> Reply {
    match answer {
        Ok(()) => Reply::Done,
        Err(cause) => Reply::Refused(cause),
    }
}

/// Returns the reply for the answer to a request. None if memory ran out.
pub(crate) fn acquired(answer: Result<Acquire, ContextError>) -> Option<Reply> {
    match answer {
        Ok(Acquire::Acquired(id)) => Some(Reply::Acquired(id)),
        Ok(Acquire::MustWait(number)) => Some(Reply::MustWait(number)),
        Err(ContextError::Space(SpaceError::OutOfMemory)) => None,
        Err(cause) => Some(Reply::Refused(cause)),
    }
}

/// Returns the reply for the answer to a request that doesn't wait. None if memory ran out.
pub(crate) fn tried(answer: Result<Tried, ContextError>) -> Option<Reply> {
    match answer {
        Ok(Tried::Acquired(id)) => Some(Reply::Acquired(id)),
        Ok(Tried::WouldWait) => Some(Reply::WouldWait),
        Err(ContextError::Space(SpaceError::OutOfMemory)) => None,
        Err(cause) => Some(Reply::Refused(cause)),
    }
}

/// Returns the reply for the answer of a wait. None if memory ran out.
pub(crate) fn resumed(answer: Result<Resume, ContextError>) -> Option<Reply> {
    match answer {
        Ok(how) => Some(Reply::Resumed(how)),
        Err(ContextError::Space(SpaceError::OutOfMemory)) => None,
        Err(cause) => Some(Reply::Refused(cause)),
    }
}

// Returns what the session reads in its context of a lock.
fn look_up<S: LockSpace>(context: &Context<S>, key: &Key, act: Act) -> Reply {
    match act {
        Act::Holds(_, mode) => Reply::Holds(context.holds(key, mode)),
        _ => Reply::Last(context.last_ticket(key)),
    }
}

// Returns what the session reads in its context. None if memory ran out.
fn look<S: LockSpace>(alloc: Global, context: &Context<S>, act: Act) -> Option<Reply> {
    match act {
        Act::Last(lock) | Act::Holds(lock, _) => match lock.key(alloc) {
            Ok(key) => {
                let reply = look_up(context, &key, act);
                drop(key);
                Some(reply)
            }
            Err(_) => None,
        },
        Act::AwaitsUserLock => Some(Reply::AwaitsUserLock(context.waits_for_user_lock())),
        _ => {
            let mark = context.savepoint();
            Some(Reply::Stands(mark.statement, mark.transaction))
        }
    }
}

// Requests a lock by its key, or releases it by its key.
fn ask<S: LockSpace>(space: &mut S, context: &mut Context<S>, key: &Key, act: Act) -> Option<Reply>
    requires { Attends S.LockSpace space.old context.old }
    ensures attends { Attends S.LockSpace space.new context.new }
    ensures who { context.new.who ≡ context.old.who }
    ensures others { LeavesOthers S.LockSpace context.old.who space.old space.new }
{
    match act {
        Act::Acquire(_, mode, duration) => {
            let wish = Request {
                key,
                mode,
                duration,
            };
            acquired(context.acquire(space, wish))
        }
        Act::TryAcquire(_, mode, duration) => {
            let wish = Request {
                key,
                mode,
                duration,
            };
            tried(context.try_acquire(space, wish))
        }
        _ => Some(done(context.release_name(space, key))),
    }
}

// Releases tickets, or gives them a weaker mode or another duration.
fn give_up<S: LockSpace>(
    space: &mut S,
    context: &mut Context<S>,
    act: Act,
) -> Result<(), ContextError>
    requires { Attends S.LockSpace space.old context.old }
    ensures attends { Attends S.LockSpace space.new context.new }
    ensures who { context.new.who ≡ context.old.who }
    ensures others { LeavesOthers S.LockSpace context.old.who space.old space.new }
{
    match act {
        Act::Downgrade(id, mode) => context.downgrade(space, id, mode),
        Act::Release(id) => context.release(space, id),
        Act::GoBack(statement, transaction) => {
            let mark = Mark {
                statement,
                transaction,
            };
            context.rollback_to(space, mark)
        }
        Act::EndStatement => context.end_statement(space),
        Act::EndTransaction => context.end_transaction(space),
        Act::ReleaseExplicit => context.release_explicit(space),
        Act::SetDuration(id, duration) => context.set_duration(id, duration),
        Act::MakeExplicit => context.make_explicit(),
        _ => context.make_transactional(),
    }
}

/// Performs an act. None if memory ran out.
pub(crate) fn make<S: LockSpace>(
    alloc: Global,
    space: &mut S,
    context: &mut Context<S>,
    act: Act,
) -> Option<Reply>
    requires { Attends S.LockSpace space.old context.old }
    ensures attends { Attends S.LockSpace space.new context.new }
    ensures who { context.new.who ≡ context.old.who }
    ensures others { LeavesOthers S.LockSpace context.old.who space.old space.new }
{
    match act {
        Act::Last(_) | Act::Holds(..) | Act::AwaitsUserLock | Act::Mark => look(
            alloc, context, act,
        ),
        Act::Acquire(lock, _, _) | Act::TryAcquire(lock, _, _) | Act::ReleaseName(lock) => {
            let Ok(key) = lock.key(alloc) else {
                return None;
            };
            let reply = ask(space, context, &key, act);
            drop(key);
            reply
        }
        Act::Upgrade(id, mode) => acquired(context.upgrade(space, id, mode)),
        Act::Resume => resumed(context.resume(space)),
        Act::GiveUp => resumed(context.give_up(space)),
        Act::Kill(target, number) => Some(Reply::Killed(space.kill(target, number))),
        _ => Some(done(give_up(space, context, act))),
    }
}
