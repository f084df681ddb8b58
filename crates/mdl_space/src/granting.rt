//! Granting a lock, as a ticket in the lock's book and in the session's seat, and merging two tickets into one.
ghost use Rattle.std.specs.Prelude.{◌≡◌, ◌≢◌, ◌+◌, ◌<◌, ◌^◌, ◌⊎◌, None, IsSome, OnErr, MatchResult, nat_le, true, false};
ghost use Rattle.mdl_book.specs.Books.{lock_kind, granting, enqueueing, changing, removing, ticket_count};
ghost use Rattle.mdl_book.specs.Granting.{is_compatible, is_grantable};
ghost use Rattle.mdl_book.specs.Tickets.{ticket_of};
ghost use Rattle.mdl_core.specs.Words.{cause_in, holding, beginning_wait};

use crate::seat::Seat;
use crate::{Held, Place, SpaceError, TicketId};
use mdl_book::{Book, BookError, Ticket};
use mdl_key::Mode;
use mdl_word::Word;

// The word of each lock: in the space of one thread no ticket is a fast one.
pub(crate) const NO_FAST: Word = Word(0);

/// Whether a session's request for a mode can be granted now.
pub(crate) fn is_free(book: &Book, who: u16, mode: Mode) -> bool
    ensures { result ≡ is_grantable (lock_kind book.now) book.now.granted book.now.waiting who mode }
{
    book.can_grant(who, mode, NO_FAST)
}

/// Grants a request that clashes with no granted ticket of another session, and returns the ticket's number. If it is refused, nothing has
/// changed.
pub(crate) fn give(
    seat: &mut Seat,
    book: &mut Book,
    who: u16,
    place: Place,
    mode: Mode,
) -> Result<TicketId, SpaceError>
    requires numbers { seat.old.last_ticket + 1 < 2 ^ 60 }
    requires idle { seat.old.wait ≡ None }
    requires compatible { is_compatible (lock_kind book.old) book.old.granted who mode ≡ true }
    ensures given { MatchResult result
        (λ id. (id ≡ seat.old.last_ticket + 1)
        × (nat_le 65535 (ticket_count book.old) ≡ false)
        × (seat.new ≡ holding place mode seat.old)
        × (book.new ≡ granting (record { session = who; number = id; mode = mode }) book.old))
        (λ e. (e ≡ SpaceError.OutOfMemory) ⊎ ((e ≡ SpaceError.Full) × (nat_le 65535 (ticket_count book.old) ≡ true))) }
    ensures unchanged { OnErr result ((seat.new ≡ seat.old) × (book.new ≡ book.old)) }
{
    seat.hold(place, mode)?;
    let number = seat.last_ticket();
    let ticket = Ticket {
        session: who,
        number,
        mode,
    };
    match book.grant(ticket, NO_FAST) {
        Ok(()) => Ok(number),
        Err(error) => {
            seat.unhold();
            Err(cause_of(error))
        }
    }
}

/// Begins a wait, and returns its number. If it is refused, nothing has changed.
pub(crate) fn queue(
    seat: &mut Seat,
    book: &mut Book,
    who: u16,
    place: Place,
    mode: Mode,
) -> Result<u64, SpaceError>
    requires numbers { seat.old.last_ticket + 1 < 2 ^ 60 }
    requires idle { seat.old.wait ≡ None }
    ensures queued { MatchResult result
        (λ number. (number ≡ seat.old.last_wait + 1)
        × (nat_le 65535 (ticket_count book.old) ≡ false)
        × (seat.new ≡ beginning_wait place mode seat.old)
        × (book.new ≡ enqueueing (record { session = who; number = seat.old.last_ticket + 1; mode = mode }) book.old))
        (λ e. (e ≡ SpaceError.OutOfMemory) ⊎ ((e ≡ SpaceError.Full) × (nat_le 65535 (ticket_count book.old) ≡ true))) }
    ensures unchanged { OnErr result ((seat.new ≡ seat.old) × (book.new ≡ book.old)) }
{
    seat.begin_wait(place, mode)?;
    let ticket = Ticket {
        session: who,
        number: seat.last_ticket(),
        mode,
    };
    match book.enqueue(ticket) {
        Ok(()) => Ok(seat.last_wait()),
        Err(error) => {
            seat.unbegin_wait();
            Err(cause_of(error))
        }
    }
}

/// Gives one of a session's granted tickets the mode of another one, which is removed.
pub(crate) fn fold(book: &mut Book, who: u16, kept: TicketId, gone: Held)
    requires kept { IsSome (ticket_of who kept book.old.granted) }
    requires gone { IsSome (ticket_of who gone.id book.old.granted) }
    requires two { kept ≢ gone.id }
    requires compatible { is_compatible (lock_kind book.old) book.old.granted who gone.mode ≡ true }
    ensures { book.new ≡ changing who kept gone.mode (removing who gone.id book.old) }
{
    book.remove(who, gone.id).unwrap();
    book.set_mode(who, kept, gone.mode, NO_FAST).unwrap();
}

// The error for a book that can't take a ticket because it is full or memory ran out.
fn cause_of(error: BookError) -> SpaceError
    requires { (error ≡ BookError.Full) ⊎ (error ≡ BookError.OutOfMemory) }
    ensures { result ≡ cause_in error }
{
    match error {
        BookError::Full => SpaceError::Full,
        BookError::OutOfMemory => SpaceError::OutOfMemory,
        BookError::NotHere | BookError::WouldConflict => unreachable!(),
    }
}
