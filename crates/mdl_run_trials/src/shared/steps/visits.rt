//! What a session does at a place under its latch.
ghost use Rattle.std.specs.Prelude.{◌≡◌, ◌<◌, []};
ghost use Rattle.mdl_steps.specs.Seats.{IsPlace};

use mdl_book::Needs;
use mdl_steps::TableSeat;
use mdl_word::Word;

// Whether no session has a ticket: the book's lists need no flag, and the word has both flags while they are raised and is 0 after that.
fn is_empty(needs: Needs, raised: Word, lowered: Word) -> bool {
    !needs.obtrusive
        && !needs.slow
        && raised == Word(Word::SLOW | Word::OBTRUSIVE)
        && lowered == Word(0)
}

/// Takes the latch of a place, reads the word there with all flags raised and with those that are needed, and gives the latch back. Whether no
/// session has a ticket, or `None` if the latch is taken.
pub(crate) fn visit(seat: &mut TableSeat, place: usize) -> Option<bool>
    requires place { IsPlace seat.old.table place }
    requires idle { seat.old.me.0.latches ≡ [] }
    ensures table { seat.new.table ≡ seat.old.table }
    ensures idle { seat.new.me.0.latches ≡ [] }
{
    let latch = seat.take_latch(place)?;
    let needs = seat.needs(&latch);
    seat.raise_flags(&latch, true, true);
    let raised = seat.read_word(&latch);
    seat.lower_flags(&latch, needs.slow, needs.obtrusive, &[]);
    let lowered = seat.read_word(&latch);
    seat.put_latch(latch, &[]);
    Some(is_empty(needs, raised, lowered))
}
