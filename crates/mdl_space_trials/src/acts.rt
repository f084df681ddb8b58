//! Calls of a space with the answers that they have to give. All tests call a space by these.
ghost use Rattle.std.specs.Prelude.{ℕ};

use crate::room::{Of, new_key};
use crate::wishes::{Shown, Wish, change_of, what_stands};
use mdl_defs::{DefCache, VersionedDefinition};
use mdl_key::Mode;
use mdl_space::{
    Attempt, Begun, Ended, LockSpace, Place, Poll, Search, SpaceError, TicketId, TimedOut, Upgrade,
};
use std::alloc::Global;

/// A version, and the definition that is read with it.
pub(crate) type Seen = (u64, Shown);

/// A call of a space, and the wanted answer.
#[derive(Clone, Copy)]
pub(crate) enum Act {
    Resolve(Of, Result<Place, SpaceError>),
    Unpin(Place, Result<(), SpaceError>),
    TryNow(Place, Mode, Result<Attempt, SpaceError>),
    BeginWait(Place, Mode, Result<Begun, SpaceError>),
    Search(Result<Search, SpaceError>),
    Poll(Result<Poll, SpaceError>),
    TimeOut(Result<TimedOut, SpaceError>),
    EndWait(Result<Ended, SpaceError>),
    WaitOf(u16, Option<u64>),
    Kill(u16, u64, bool),
    Release(TicketId, Result<(), SpaceError>),
    Clone(TicketId, Mode, Result<TicketId, SpaceError>),
    Upgrade(TicketId, Mode, Result<Upgrade, SpaceError>),
    Merge(TicketId, TicketId, Result<(), SpaceError>),
    Downgrade(TicketId, Mode, Result<(), SpaceError>),
    Read(TicketId, Result<Seen, SpaceError>),
    // With an empty cache.
    ReadKept(TicketId, Result<Seen, SpaceError>),
    Redefine(TicketId, Wish, Result<u64, SpaceError>),
}

/// The session that makes a call, and the call.
pub(crate) type Row = (u16, Act);

// Whether an answer is the wanted one. None if memory ran out.
fn compared<T: PartialEq + Copy>(
    answer: Result<T, SpaceError>,
    wanted: Result<T, SpaceError>,
) -> Option<bool> {
    match answer {
        Err(SpaceError::OutOfMemory) => None,
        _ => Some(answer == wanted),
    }
}

/// Makes a call for a session. Whether the answer is the wanted one, or None if memory ran out.
pub(crate) fn call<S: LockSpace>(space: &mut S, alloc: Global, who: u16, act: Act) -> Option<bool>
    requires { S.speaks_for space.old who }
    ensures { (w : ℕ) → S.speaks_for space.old w → S.speaks_for space.new w }
{
    match act {
        Act::Resolve(of, wanted) => compared(resolve(space, alloc, who, of), wanted),
        Act::Unpin(place, wanted) => compared(space.unpin(who, place), wanted),
        Act::TryNow(place, mode, wanted) => compared(space.try_now(who, place, mode), wanted),
        Act::BeginWait(place, mode, wanted) => {
            compared(space.begin_wait(who, place, mode), wanted)
        }
        Act::Search(wanted) => compared(space.search(who), wanted),
        Act::Poll(wanted) => compared(space.poll_wait(who), wanted),
        Act::TimeOut(wanted) => compared(space.settle_timeout(who), wanted),
        Act::EndWait(wanted) => compared(space.end_wait(who), wanted),
        Act::WaitOf(target, wanted) => Some(space.wait_of(target) == wanted),
        Act::Kill(target, number, wanted) => Some(space.kill(target, number) == wanted),
        Act::Release(id, wanted) => compared(space.release(who, id), wanted),
        Act::Clone(id, mode, wanted) => compared(space.clone_ticket(who, id, mode), wanted),
        Act::Upgrade(id, mode, wanted) => compared(space.upgrade_now(who, id, mode), wanted),
        Act::Merge(old, new, wanted) => compared(space.merge(who, old, new), wanted),
        Act::Downgrade(id, mode, wanted) => compared(space.downgrade(who, id, mode), wanted),
        Act::Read(id, wanted) => compared(seen(space.read_definition(who, id)), wanted),
        Act::ReadKept(id, wanted) => read_kept(space, alloc, who, id, wanted),
        Act::Redefine(id, wish, wanted) => compared(redefine(space, alloc, who, id, wish), wanted),
    }
}

// Looks up the place of a key, which the session pins.
fn resolve<S: LockSpace>(
    space: &mut S,
    alloc: Global,
    who: u16,
    of: Of,
) -> Result<Place, SpaceError>
    requires { S.speaks_for space.old who }
    ensures { (w : ℕ) → S.speaks_for space.old w → S.speaks_for space.new w }
{
    let Ok(key) = new_key(alloc, of) else {
        return Err(SpaceError::OutOfMemory);
    };
    let place = space.resolve(who, &key);
    drop(key);
    place
}

// Reads the definition at a ticket's place with an empty cache, which has to stay empty.
fn read_kept<S: LockSpace>(
    space: &mut S,
    alloc: Global,
    who: u16,
    id: TicketId,
    wanted: Result<Seen, SpaceError>,
) -> Option<bool>
    requires { S.speaks_for space.old who }
    ensures { (w : ℕ) → S.speaks_for space.old w → S.speaks_for space.new w }
{
    let Ok(mut cache) = DefCache::new(alloc, 4) else {
        return None;
    };
    let outcome = space.read_kept(who, id, &mut cache);
    let answer = seen(outcome);
    let kept = cache.len();
    drop(cache);
    match kept {
        0 => compared(answer, wanted),
        _ => Some(false),
    }
}

// Changes the definition at a ticket's place.
fn redefine<S: LockSpace>(
    space: &mut S,
    alloc: Global,
    who: u16,
    id: TicketId,
    wish: Wish,
) -> Result<u64, SpaceError>
    requires { S.speaks_for space.old who }
    ensures { (w : ℕ) → S.speaks_for space.old w → S.speaks_for space.new w }
{
    let Some(change) = change_of(alloc, wish) else {
        return Err(SpaceError::OutOfMemory);
    };
    let outcome = space.change_definition(who, id, &change);
    drop(change);
    outcome
}

fn seen(outcome: Result<VersionedDefinition, SpaceError>) -> Result<Seen, SpaceError> {
    match outcome {
        Ok(standing) => {
            let seen = (standing.version, what_stands(&standing));
            drop(standing);
            Ok(seen)
        }
        Err(error) => Err(error),
    }
}
