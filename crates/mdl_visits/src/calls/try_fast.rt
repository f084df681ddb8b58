//! Grants a request for a lock without the latch, if the flag OBTRUSIVE of the lock's word is down: the word counts the ticket then.
ghost use Rattle.std.specs.Prelude.{◌≡◌, false};
ghost use Rattle.mdl_word.specs.declared.word.Word.{Word};
ghost use Rattle.mdl_word.specs.Laws.{HasFlags};
ghost use Rattle.mdl_word.specs.Words.{slow_flag};
ghost use Rattle.mdl_steps.specs.FastPlays.{MayGrantFast};
ghost use Rattle.mdl_steps.specs.SeatStates.{AtItsTable};
ghost use Rattle.mdl_steps.specs.Seats.{IsPlace};
ghost use Rattle.mdl_visits.specs.declared.calls.try_fast.FastTried.TheVariants.{Granted, Obtruded, Contended};
ghost use Rattle.mdl_visits.specs.FastTries.{FindsObtrusive, Misses, WasGrantedFast};
ghost use Rattle.mdl_visits.specs.Visits.{StaysOn};

use mdl_key::Mode;
use mdl_steps::TableSeat;
use mdl_word::Word;

/// The result of a try for a fast ticket.
#[derive(Clone, Copy, Debug, PartialEq, Eq)]
pub enum FastTried {
    /// The session has the ticket.
    Granted,
    /// The lock's word, which is this one, has the flag OBTRUSIVE up. Nothing has changed.
    Obtruded(Word),
    /// Each try found that the lock's word had changed. This is the word that was found last. Nothing has changed.
    Contended(Word),
}

// The most exchanges of the word that are tried after the first.
const TRIES: u32 = 8;

/// Tries to grant the session a fast ticket with its next number in this mode. That needs the flag OBTRUSIVE of the lock's word down. If
/// it isn't granted, nothing changes. The session has no wait. It makes nine steps at most, needs no latch and takes no memory.
///
/// `one` is what [`Word::increment`] returns for the mode. `noted` is the version that the session noted under a ticket of the place, if it noted
/// one. `guess` may be any word: the first exchange expects it, except for the flag OBTRUSIVE. A right guess saves a look at the word. It
/// becomes the word that the last step left or met.
///
/// After the fast path of `MDL_context::try_acquire_lock_impl`, which looks at the word first.
#[inline(always)]
pub fn try_fast(
    seat: &mut TableSeat,
    place: usize,
    mode: Mode,
    noted: Option<u64>,
    guess: &mut Word,
    one: u64,
) -> FastTried
    requires place { IsPlace seat.old.table place }
    requires gained { MayGrantFast place mode noted one seat.old.me }
    ensures granted { result ≡ Granted → WasGrantedFast place mode noted seat.old seat.new }
    ensures obtruded { (word : Word) → result ≡ Obtruded word → AtItsTable seat.old seat.new (FindsObtrusive place word.0) }
    ensures contended { (word : Word) → result ≡ Contended word → AtItsTable seat.old seat.new (Misses place 8 word.0) }
    ensures stays { StaysOn seat.old.me seat.new.me }
{
    let expected = unobtruded(*guess);
    let met = seat.grant_fast(place, mode, noted, expected, one);
    if met.0 == expected.0 {
        *guess = Word(expected.0.wrapping_add(one));
        return FastTried::Granted;
    }
    let mut word = met;
    for _ in 0..TRIES {
        if word.obtrusive() {
            *guess = word;
            return FastTried::Obtruded(word);
        }
        let found = seat.grant_fast(place, mode, noted, word, one);
        if found.0 == word.0 {
            *guess = Word(word.0.wrapping_add(one));
            return FastTried::Granted;
        }
        word = found;
    }
    *guess = word;
    FastTried::Contended(word)
}

// The word with the flag OBTRUSIVE down: a fast grant may expect no other.
fn unobtruded(word: Word) -> Word
    ensures { HasFlags word.0 result.0 (slow_flag word.0) false }
{
    Word(word.0 & !Word::OBTRUSIVE)
}
