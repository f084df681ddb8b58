//! Releases of tickets in a lock space of any kind.
ghost use Rattle.std.specs.Prelude.{◌≡◌, ℕ, true, not, map, filter};
ghost use Rattle.mdl_key.specs.Keys.{KeyName};
ghost use Rattle.mdl_calls.specs.Words.{Done, Release, holds, giving_up, Runs};
ghost use Rattle.mdl_context.specs.Contexts.{held_of, newest_first};
ghost use Rattle.mdl_context.specs.Goings.{goes};
ghost use Rattle.mdl_context.specs.Releases.{releasing_all};

use crate::going::Going;
use crate::holdings::Holdings;
use mdl_space::{LockSpace, TicketId};

/// Releases a ticket that the session holds. Takes no memory.
pub(crate) fn release<S: LockSpace>(space: &mut S, who: u16, id: TicketId)
    requires speaks { S.speaks_for space.old who }
    requires held { holds id (S.own space.old who) ≡ true }
    ensures speaks { S.speaks_for space.new who }
    ensures released { S.joins space.old (Release who id) Done space.new }
    ensures remembers { (place : ℕ) (key : KeyName) → S.knows space.old who place key → S.knows space.new who place key }
    ensures own { S.own space.new who ≡ giving_up id (S.own space.old who) }
{
    space.release(who, id).unwrap();
}

/// Releases the tickets that `going` names, from the newest to the oldest. Takes no memory.
pub(crate) fn release_all<S: LockSpace>(
    space: &mut S,
    who: u16,
    holdings: &mut Holdings,
    going: &Going,
)
    requires speaks { S.speaks_for space.old who }
    requires held { (S.own space.old who).held ≡ map held_of holdings.old.kept }
    ensures speaks { S.speaks_for space.new who }
    ensures remembers { (place : ℕ) (key : KeyName) → S.knows space.old who place key → S.knows space.new who place key }
    ensures run { Runs S.joins space.old (releasing_all who (newest_first (filter (goes going.now) holdings.old.kept))) tt space.new }
    ensures kept { holdings.new.kept ≡ filter (λ ticket. not (goes going.now ticket)) holdings.old.kept }
    ensures held { (S.own space.new who).held ≡ map held_of holdings.new.kept }
    ensures known { holdings.new.known ≡ holdings.old.known }
    ensures waits { holdings.new.wait ≡ holdings.old.wait }
    ensures wait { (S.own space.new who).wait ≡ (S.own space.old who).wait }
    ensures pins { (S.own space.new who).pins ≡ (S.own space.old who).pins }
{
    release_newest(space, who, holdings, going);
    release_rest(space, who, holdings, going);
}

// Releases the newest tickets, one after the other, up to one that `going` doesn't name.
fn release_newest<S: LockSpace>(space: &mut S, who: u16, holdings: &mut Holdings, going: &Going)
    requires speaks { S.speaks_for space.old who }
    requires held { (S.own space.old who).held ≡ map held_of holdings.old.kept }
    ensures speaks { S.speaks_for space.new who }
    ensures remembers { (place : ℕ) (key : KeyName) → S.knows space.old who place key → S.knows space.new who place key }
    ensures run { (last : S) → Runs S.joins space.new (releasing_all who (newest_first (filter (goes going.now) holdings.new.kept))) tt last → Runs S.joins space.old (releasing_all who (newest_first (filter (goes going.now) holdings.old.kept))) tt last }
    ensures kept { filter (λ ticket. not (goes going.now ticket)) holdings.new.kept ≡ filter (λ ticket. not (goes going.now ticket)) holdings.old.kept }
    ensures held { (S.own space.new who).held ≡ map held_of holdings.new.kept }
    ensures known { holdings.new.known ≡ holdings.old.known }
    ensures waits { holdings.new.wait ≡ holdings.old.wait }
    ensures wait { (S.own space.new who).wait ≡ (S.own space.old who).wait }
    ensures pins { (S.own space.new who).pins ≡ (S.own space.old who).pins }
{
    for at in (0..holdings.tickets().len()).rev() {
        let ticket = &holdings.tickets()[at];
        if !going.names(ticket) {
            return;
        }
        let id = ticket.id;
        release(space, who, id);
        holdings.remove(at, id);
    }
}

// Releases the tickets that `going` names, wherever they are, from the newest to the oldest.
fn release_rest<S: LockSpace>(space: &mut S, who: u16, holdings: &mut Holdings, going: &Going)
    requires speaks { S.speaks_for space.old who }
    requires held { (S.own space.old who).held ≡ map held_of holdings.old.kept }
    ensures speaks { S.speaks_for space.new who }
    ensures remembers { (place : ℕ) (key : KeyName) → S.knows space.old who place key → S.knows space.new who place key }
    ensures run { Runs S.joins space.old (releasing_all who (newest_first (filter (goes going.now) holdings.old.kept))) tt space.new }
    ensures kept { holdings.new.kept ≡ filter (λ ticket. not (goes going.now ticket)) holdings.old.kept }
    ensures held { (S.own space.new who).held ≡ map held_of holdings.new.kept }
    ensures known { holdings.new.known ≡ holdings.old.known }
    ensures waits { holdings.new.wait ≡ holdings.old.wait }
    ensures wait { (S.own space.new who).wait ≡ (S.own space.old who).wait }
    ensures pins { (S.own space.new who).pins ≡ (S.own space.old who).pins }
{
    let tickets = holdings.tickets();
    if tickets.is_empty() {
        return;
    }
    for at in (0..tickets.len()).rev() {
        let ticket = &tickets[at];
        if going.names(ticket) {
            release(space, who, ticket.id);
        }
    }
    holdings.remove_all(going);
}
