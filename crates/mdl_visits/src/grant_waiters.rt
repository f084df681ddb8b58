//! Grants the waits at a place, under its latch.
ghost use Rattle.std.specs.Prelude.{◌≡◌};
ghost use Rattle.mdl_steps.specs.SeatStates.{AtItsTable};
ghost use Rattle.mdl_steps.specs.WaitSeats.{IsSession};
ghost use Rattle.mdl_steps.specs.WaitStates.{unsettled_state, wait_state};
ghost use Rattle.mdl_visits.specs.Grantings.{GrantsAll, HasJustMet, IsGrantableAt, IsGrantedFrom, IsOrderlyLatch, IsTriedOrGranted, ReschedulesInTurn};
ghost use Rattle.mdl_visits.specs.Visits.{HasLatched, OfLatch};

use mdl_book::{Sessions, Ticket};
use mdl_steps::{Latched, TableSeat, WaitWord};

/// Reads the lock's word, and grants the waits of tickets at the latched place, in order of arrival, as long as there is one that can be
/// granted. A wait that is settled already isn't granted. It takes no memory. After `MDL_lock::reschedule_waiters`.
///
/// It is apart so that a visit to a place where nobody waits has only the check for waiters inlined.
#[inline(never)]
pub(crate) fn grant_waiters(seat: &mut TableSeat, latch: &Latched)
    requires here { HasLatched latch.now.place seat.old IsOrderlyLatch }
    ensures all { GrantsAll latch.now.place seat.old seat.new }
{
    let word = seat.read_word(latch);
    let mut untried = Sessions::all();
    while let Some((index, ticket)) = seat.next_grantable_at(latch, word, &untried) {
        grant_waiter(seat, latch, index, ticket);
        untried.remove(ticket.session);
    }
}

// Grants the wait of a session, whose ticket waits at an index and can be granted, if the table has the session and the wait is unsettled.
fn grant_waiter(seat: &mut TableSeat, latch: &Latched, index: usize, ticket: Ticket)
    requires here { HasLatched latch.now.place seat.old (IsGrantableAt index ticket.session ticket.number) }
    ensures tried { OfLatch latch.now.place seat.old (λ h. IsTriedOrGranted seat.old.table latch.now.place ticket.session ticket.number h seat.old.me seat.new.me) }
    ensures in_turn { AtItsTable seat.old seat.new (ReschedulesInTurn seat.old.table latch.now.place ticket.session ticket.number) }
{
    if !seat.has_session(ticket.session) {
        return;
    }
    let wait = seat.read_wait(ticket.session);
    if wait.state() == WaitWord::UNSETTLED {
        grant_unsettled(seat, latch, index, ticket, wait);
    }
}

// Grants a wait that was unsettled when it was read just before, if it still is.
fn grant_unsettled(
    seat: &mut TableSeat,
    latch: &Latched,
    index: usize,
    ticket: Ticket,
    wait: WaitWord,
)
    requires session { IsSession seat.old.table ticket.session }
    requires here { HasLatched latch.now.place seat.old (λ h. IsGrantableAt index ticket.session ticket.number h × HasJustMet seat.old.table.slots latch.now.place ticket.session h seat.old.me) }
    requires unsettled { wait_state wait.0 ≡ unsettled_state }
    ensures granted { OfLatch latch.now.place seat.old (λ h. IsGrantedFrom seat.old.table.slots latch.now.place ticket.session ticket.number wait.0 h seat.old.me seat.new.me) }
    ensures in_turn { AtItsTable seat.old seat.new (ReschedulesInTurn seat.old.table latch.now.place ticket.session ticket.number) }
{
    let met = seat.grant_wait(latch, ticket.session, ticket.number, wait.number());
    if met == wait {
        let _granted = seat.write_admission_at(latch, index);
    }
}
