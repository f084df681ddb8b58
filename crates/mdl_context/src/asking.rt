//! Requests for locks in a lock space of any kind.
ghost use Rattle.std.specs.Prelude.{◌≡◌, ◌≢◌, ℕ, Some, None, true, IfErr, IsOkUnless};
ghost use Rattle.std.specs.Option.{IfSome};
ghost use Rattle.mdl_key.specs.Keys.{KeyName};
ghost use Rattle.mdl_calls.specs.Words.{is_pinned, is_waiting, ticket_held, Runs};
ghost use Rattle.mdl_context.specs.Gains.{gaining_from, requesting_at, trying_from, waiting_at, waiting_on, own_got, own_tried, OwnWaited};

use crate::Tried;
use crate::searches::{abandon, seek};
use mdl_key::Mode;
use mdl_space::{Attempt, Begun, Held, LockSpace, Place, SpaceError, TicketId};

/// The result of asking a space for a lock.
#[derive(Clone, Copy)]
pub enum AskResult {
    /// The lock is held, by the ticket of this number.
    Granted(TicketId),
    /// The session waits. This is the number of its wait, and whether the searches for deadlocks are over.
    Waits(u64, bool),
}

/// Gets a lock at a pinned place, or begins to wait for it. If a ticket to clone is given, the session gets a clone of it.
#[inline(always)]
pub(crate) fn gain<S: LockSpace>(
    space: &mut S,
    who: u16,
    ticket: Option<Held>,
    place: Place,
    mode: Mode,
) -> Result<AskResult, SpaceError>
    requires speaks { S.speaks_for space.old who }
    requires idle { (S.own space.old who).wait ≡ None }
    requires pinned { is_pinned place (S.own space.old who) ≡ true }
    requires held { IfSome ticket (λ held. (ticket_held held.id (S.own space.old who) ≡ Some held) × (held.place ≡ place)) }
    ensures run { Runs S.joins space.old (gaining_from ticket who place mode) result space.new }
    ensures speaks { S.speaks_for space.new who }
    ensures remembers { (at : ℕ) (key : KeyName) → S.knows space.old who at key → S.knows space.new who at key }
    ensures own { S.own space.new who ≡ own_got place mode result (S.own space.old who) }
    ensures placed { IfErr result (λ refusal. refusal ≢ SpaceError.NoPlace) }
{
    match ticket {
        Some(held) => match space.clone_ticket(who, held.id, mode) {
            Ok(id) => Ok(AskResult::Granted(id)),
            Err(refusal) => Err(refusal),
        },
        None => ask(space, who, place, mode),
    }
}

/// Gets a lock at a pinned place if that needs no wait. If a ticket to clone is given, the session gets a clone of it.
pub(crate) fn try_gain<S: LockSpace>(
    space: &mut S,
    who: u16,
    ticket: Option<Held>,
    place: Place,
    mode: Mode,
) -> Result<Tried, SpaceError>
    requires speaks { S.speaks_for space.old who }
    requires pinned { is_pinned place (S.own space.old who) ≡ true }
    requires held { IfSome ticket (λ held. (ticket_held held.id (S.own space.old who) ≡ Some held) × (held.place ≡ place)) }
    ensures run { Runs S.joins space.old (trying_from ticket who place mode) result space.new }
    ensures speaks { S.speaks_for space.new who }
    ensures remembers { (at : ℕ) (key : KeyName) → S.knows space.old who at key → S.knows space.new who at key }
    ensures own { S.own space.new who ≡ own_tried place mode result (S.own space.old who) }
    ensures placed { IfErr result (λ refusal. refusal ≢ SpaceError.NoPlace) }
{
    match ticket {
        Some(held) => match space.clone_ticket(who, held.id, mode) {
            Ok(id) => Ok(Tried::Acquired(id)),
            Err(refusal) => Err(refusal),
        },
        None => try_ask(space, who, place, mode),
    }
}

// Asks for a lock, and does nothing more if it can't be granted now.
fn try_ask<S: LockSpace>(
    space: &mut S,
    who: u16,
    place: Place,
    mode: Mode,
) -> Result<Tried, SpaceError>
    requires speaks { S.speaks_for space.old who }
    requires pinned { is_pinned place (S.own space.old who) ≡ true }
    ensures run { Runs S.joins space.old (trying_from None who place mode) result space.new }
    ensures speaks { S.speaks_for space.new who }
    ensures remembers { (at : ℕ) (key : KeyName) → S.knows space.old who at key → S.knows space.new who at key }
    ensures own { S.own space.new who ≡ own_tried place mode result (S.own space.old who) }
    ensures placed { IfErr result (λ refusal. refusal ≢ SpaceError.NoPlace) }
{
    match space.try_now(who, place, mode) {
        Ok(Attempt::Granted(id)) => Ok(Tried::Acquired(id)),
        Ok(Attempt::WouldWait) => Ok(Tried::WouldWait),
        Err(refusal) => Err(refusal),
    }
}

// Asks for a lock, and begins to wait for it if it can't be granted now.
#[inline(always)]
fn ask<S: LockSpace>(
    space: &mut S,
    who: u16,
    place: Place,
    mode: Mode,
) -> Result<AskResult, SpaceError>
    requires speaks { S.speaks_for space.old who }
    requires idle { (S.own space.old who).wait ≡ None }
    requires pinned { is_pinned place (S.own space.old who) ≡ true }
    ensures run { Runs S.joins space.old (requesting_at who place mode) result space.new }
    ensures speaks { S.speaks_for space.new who }
    ensures remembers { (at : ℕ) (key : KeyName) → S.knows space.old who at key → S.knows space.new who at key }
    ensures own { S.own space.new who ≡ own_got place mode result (S.own space.old who) }
    ensures placed { IfErr result (λ refusal. refusal ≢ SpaceError.NoPlace) }
{
    match space.try_now(who, place, mode) {
        Ok(Attempt::Granted(id)) => Ok(AskResult::Granted(id)),
        Ok(Attempt::WouldWait) => wait_at(space, who, place, mode),
        Err(refusal) => Err(refusal),
    }
}

/// Begins to wait for a lock, unless it can be granted now after all. It isn't inlined, so that the request of a lock is.
#[inline(never)]
pub(crate) fn wait_at<S: LockSpace>(
    space: &mut S,
    who: u16,
    place: Place,
    mode: Mode,
) -> Result<AskResult, SpaceError>
    requires speaks { S.speaks_for space.old who }
    requires idle { (S.own space.old who).wait ≡ None }
    requires pinned { is_pinned place (S.own space.old who) ≡ true }
    ensures run { Runs S.joins space.old (waiting_at who place mode) result space.new }
    ensures speaks { S.speaks_for space.new who }
    ensures remembers { (at : ℕ) (key : KeyName) → S.knows space.old who at key → S.knows space.new who at key }
    ensures own { S.own space.new who ≡ own_got place mode result (S.own space.old who) }
    ensures placed { IfErr result (λ refusal. refusal ≢ SpaceError.NoPlace) }
{
    match space.begin_wait(who, place, mode) {
        Ok(Begun::Granted(id)) => Ok(AskResult::Granted(id)),
        Ok(Begun::Waiting(number)) => wait_on(space, who, number),
        Err(refusal) => Err(refusal),
    }
}

// Searches for deadlocks once the session waits. The wait stays, unless a search is refused.
fn wait_on<S: LockSpace>(space: &mut S, who: u16, number: u64) -> Result<AskResult, SpaceError>
    requires speaks { S.speaks_for space.old who }
    requires waits { is_waiting (S.own space.old who) ≡ true }
    ensures run { Runs S.joins space.old (waiting_on who number) result space.new }
    ensures speaks { S.speaks_for space.new who }
    ensures remembers { (at : ℕ) (key : KeyName) → S.knows space.old who at key → S.knows space.new who at key }
    ensures own { OwnWaited number result (S.own space.old who) (S.own space.new who) }
    ensures refused { IsOkUnless result SpaceError.OutOfMemory }
{
    match seek(space, who) {
        Ok(searched) => Ok(AskResult::Waits(number, searched)),
        Err(refusal) => {
            abandon(space, who);
            Err(refusal)
        }
    }
}
