//! What a session has in hand: the book or the directory whose latch it took last.
ghost use Rattle.std.specs.Prelude.{◌≡◌, ◌∷◌};
ghost use Rattle.std.specs.Borrow.{sem};
ghost use Rattle.mdl_book.specs.declared.book_view.BookView.{BookView};
ghost use Rattle.mdl_steps.specs.declared.slot.Slot.TheVariants as slot;
ghost use Rattle.mdl_steps.specs.declared.view.Keys.{Keys};
ghost use Rattle.mdl_steps.specs.InHand.{LendsBook, LendsDirectory};
ghost use Rattle.mdl_steps.specs.Seats.{rest};

use crate::table_seat::LockTable;
use crate::{Directory, Slot, View};
use atomic_table::Seat;
use mdl_book::Book;

/// Borrows the book of the place whose latch the session took last.
pub(crate) fn book_in_hand<'a>(
    seat: &'a mut Seat<Slot, View>,
    top: &'a LockTable,
    place: usize,
) -> &'a mut Book
    requires there { seat.old.table_id ≡ top.now.table_id }
    requires carried { (book : BookView) × (seat.old.me.1 ≡ (place, slot.Place book) ∷ rest seat.old.me.1) }
    ensures* writes_back { sem 𝓛 (LendsBook place seat.entry result) }
    ensures value { seat.old.me.1 ≡ (place, slot.Place result.now) ∷ rest seat.old.me.1 }
{
    match seat.slot_mut(top, place) {
        Slot::Place(book) => book,
        Slot::Directory(_) => unreachable!(),
    }
}

/// Borrows the directory, whose latch the session took last.
pub(crate) fn directory_in_hand<'a>(
    seat: &'a mut Seat<Slot, View>,
    top: &'a LockTable,
) -> &'a mut Directory
    requires there { seat.old.table_id ≡ top.now.table_id }
    requires carried { (k : Keys) × (seat.old.me.1 ≡ (0, slot.Directory k) ∷ rest seat.old.me.1) }
    ensures* writes_back { sem 𝓛 (LendsDirectory seat.entry result) }
    ensures value { seat.old.me.1 ≡ (0, slot.Directory result.now) ∷ rest seat.old.me.1 }
{
    match seat.slot_mut(top, 0) {
        Slot::Directory(directory) => directory,
        Slot::Place(_) => unreachable!(),
    }
}
