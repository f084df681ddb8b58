//! The checks that a request for a lock (a wish) has to pass before anything is tried.
ghost use Rattle.std.specs.Prelude.{MatchResult, None, Some, ◌≡◌};
ghost use Rattle.mdl_book.specs.declared.book_error.BookError.TheVariants as book;
ghost use Rattle.mdl_calls.specs.declared.space_error.SpaceError.TheVariants as space;
ghost use Rattle.mdl_visits.specs.KnownLists.{kind_pinned};
ghost use Rattle.mdl_shared.specs.Members.{wish_fault};

use crate::holdings::MOST_NUMBERS;
use crate::member::Member;
use mdl_book::BookError;
use mdl_calls::SpaceError;
use mdl_key::{Kind, Mode};

impl Member {
    /// Returns the kind of the lock at a place, if the session pins the place and may request a mode there.
    pub(crate) fn kind_wished(&self, place: usize, mode: Mode) -> Result<Kind, SpaceError>
        ensures { MatchResult result
            (λ kind. (kind_pinned place self.now.known.pins self.now.known.known ≡ Some kind) × (wish_fault (Some kind) self.now.asks mode self.now.next ≡ None))
            (λ why. wish_fault (kind_pinned place self.now.known.pins self.now.known.known) self.now.asks mode self.now.next ≡ Some why) }
    {
        let Some(kind) = self.known.kind_pinned(place) else {
            return Err(SpaceError::NoPlace);
        };
        if self.asks.is_some() {
            return Err(SpaceError::AlreadyWaiting);
        }
        if !kind.has_mode(mode) {
            return Err(SpaceError::BadMode);
        }
        if self.next > MOST_NUMBERS {
            return Err(SpaceError::CounterFull);
        }
        Ok(kind)
    }
}

/// Converts the reason why a book refuses a new ticket to the error of a lock space.
pub(crate) fn refusal(cause: BookError) -> SpaceError
    ensures full { cause ≡ book.Full → result ≡ space.Full }
    ensures memory { cause ≡ book.OutOfMemory → result ≡ space.OutOfMemory }
{
    match cause {
        BookError::Full => SpaceError::Full,
        _ => SpaceError::OutOfMemory,
    }
}
