//! A session's fast tickets at a place become slow ones.
ghost use Rattle.std.specs.Prelude.{◌≡◌, ◌≤◌, ℕ, length, map, false, None, OnOk, IfErr};
ghost use Rattle.mdl_book.specs.declared.book_view.BookView.{BookView};
ghost use Rattle.mdl_steps.specs.Cells.{own_at, ticket_by};
ghost use Rattle.mdl_steps.specs.FastPlays.{moved, weight_of};
ghost use Rattle.mdl_steps.specs.Limits.{most_fast};
ghost use Rattle.mdl_steps.specs.Lists.{Once};
ghost use Rattle.mdl_visits.specs.Materialisings.{CanStand, LacksRoomIn, OfBookFor, Stand, WasMaterialised, WasRefusedFor, granting_own, with_book};
ghost use Rattle.mdl_visits.specs.Visits.{KnowsKind, MayVisit};
ghost use Rattle.mdl_word.specs.Words.{encode, one_in};

use crate::enter_and_leave::lower_flags_and_put;
use crate::latches::await_latch;
use crate::no_fast_tickets::NO_FAST_TICKETS;
use mdl_book::BookError;
use mdl_key::{Kind, Mode};
use mdl_steps::{Latched, SessionTicket, TableSeat};
use mdl_word::Word;
use std::sync::Wait;

/// Makes these fast tickets of the session slow, which are all that it has at the place: they are granted in the place's book, and the
/// lock's word no longer counts them. The session has no wait. The call takes the latch there once, or not at all without such tickets,
/// and leaves the fast path open. If there is no room for all of them, nothing changes. After `MDL_context::materialize_fast_path_locks`.
pub fn materialise<R: Wait>(
    rt: &R,
    seat: &mut TableSeat,
    place: usize,
    kind: Kind,
    fast: &[SessionTicket],
) -> Result<(), BookError>
    requires at { MayVisit place seat.old }
    requires knows { KnowsKind seat.old.me.0 place kind }
    requires idle { seat.old.me.0.asks ≡ None }
    requires these { fast.now ≡ own_at place seat.old.me.0.fast }
    requires once { Once (moved place seat.old.me.0) }
    ensures materialised { OnOk result (WasMaterialised place seat.old seat.new) }
    ensures refused { IfErr result (λ cause. WasRefusedFor (length fast.now) place cause seat.old seat.new) }
{
    if fast.is_empty() {
        return Ok(());
    }
    let latch = await_latch(rt, seat, place);
    seat.raise_flags(&latch, true, false);
    if let Err(cause) = write_gains(seat, &latch, fast) {
        lower_flags_and_put(seat, latch, &[]);
        return Err(cause);
    }
    seat.materialise(&latch, weigh(kind, fast));
    seat.put_latch(latch, &[]);
    Ok(())
}

// Grants these tickets of the session in the book in hand. If there is no room for all of them, the book is unchanged.
fn write_gains(
    seat: &mut TableSeat,
    latch: &Latched,
    tickets: &[SessionTicket],
) -> Result<(), BookError>
    requires can { (book : BookView) × CanStand latch.now.place tickets.now book seat.old }
    ensures written { OfBookFor latch.now.place tickets.now seat.old (λ book. OnOk result (seat.new ≡ with_book latch.now.place (granting_own seat.old.me.0.number tickets.now book) seat.old)) }
    ensures refused { OfBookFor latch.now.place tickets.now seat.old (λ book. IfErr result (λ cause. (seat.new ≡ seat.old) × LacksRoomIn book (length tickets.now) cause)) }
{
    for (at, ticket) in tickets.iter().enumerate() {
        if let Err(cause) = seat.write_gain(latch, ticket.number, ticket.mode, NO_FAST_TICKETS) {
            write_losses(seat, latch, &tickets[..at]);
            return Err(cause);
        }
    }
    Ok(())
}

// Removes these tickets of the session, the last ones granted in the book in hand, from it. It takes no memory.
fn write_losses(seat: &mut TableSeat, latch: &Latched, tickets: &[SessionTicket])
    requires stand { (book : BookView) × Stand latch.now.place tickets.now book seat.old }
    ensures written { (book : BookView) → Stand latch.now.place tickets.now book seat.old → seat.new ≡ with_book latch.now.place book seat.old }
{
    for ticket in tickets {
        let _gone = seat.write_loss(latch, ticket.number);
    }
}

// What these few tickets add to the word of a lock of this kind, whichever session has them.
fn weigh(kind: Kind, tickets: &[SessionTicket]) -> u64
    requires few { length tickets.now ≤ most_fast }
    ensures { (session : ℕ) → result ≡ weight_of kind (map (ticket_by session) tickets.now) }
{
    let mut weight = 0;
    for ticket in tickets {
        weight += increment(kind, ticket.mode);
    }
    weight
}

// What a ticket in a mode adds to the word: nothing if the mode isn't counted.
fn increment(kind: Kind, mode: Mode) -> u64
    ensures { result ≡ encode (one_in 0 kind mode) (one_in 1 kind mode) (one_in 2 kind mode) false false }
{
    Word::increment(kind, mode).unwrap_or(0)
}
