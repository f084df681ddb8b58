//! Steps of a lock word's fast path. A fast ticket is in no list: the word counts it, and the session's view has it.
ghost use Rattle.std.specs.Prelude.{◌≡◌, ◌≢◌, ℕ, ◌+◌, ◌*◌, ◌^◌, ◌<◌, false, List, Option};
ghost use Rattle.mdl_book.specs.declared.book_view.BookView.{BookView};
ghost use Rattle.mdl_steps.specs.declared.view.LatchRecord.{LatchRecord};
ghost use Rattle.mdl_word.specs.Words.{obtrusive_flag};
ghost use Rattle.mdl_steps.specs.FastPlays.{met_word, missed_fast, granted_fast, released_fast, materialised, moved, with_granted, MayGrantFast, MayReleaseFast, MayMaterialise};
ghost use Rattle.mdl_steps.specs.Seats.{IsPlace, Holds, elsewhere};

use crate::layout::lock_word;
use crate::plays::{
    GrantFast, GrantingFast, Materialise, ReadWordUnlatched, ReleaseFast, ReleasingFast,
};
use crate::table_seat::{Latched, TableSeat};
use mdl_key::Mode;
use mdl_word::Word;
use std::marker::Brand;

impl TableSeat {
    /// Reads the word of a place. The session needs no latch for it.
    pub fn read_word_unlatched(&mut self, place: usize) -> Word
        requires place { IsPlace self.old.table place }
        ensures made { self.new ≡ record self.old { me = met_word place result.0 self.old.me } }
    {
        Word(
            self.table
                .shared
                .load::<ReadWordUnlatched>(&mut self.seat, lock_word(place)),
        )
    }

    /// A fast grant: if the place's word is still `word`, the session gets a fast ticket with its next number, and the word counts it from then
    /// on. Otherwise nothing changes. Returns the word that the exchange found.
    ///
    /// `one` is what [`Word::increment`] returns for the mode. `noted` is the version that the session noted under a ticket of the place, if it noted one.
    pub fn grant_fast(
        &mut self,
        place: usize,
        mode: Mode,
        noted: Option<u64>,
        word: Word,
        one: u64,
    ) -> Word
        requires place { IsPlace self.old.table place }
        requires down { obtrusive_flag word.0 ≡ false }
        requires gained { MayGrantFast place mode noted one self.old.me }
        ensures gained { result.0 ≡ word.0 → self.new ≡ record self.old { me = granted_fast place mode noted result.0 self.old.me } }
        ensures missed { result.0 ≢ word.0 → self.new ≡ record self.old { me = missed_fast place result.0 self.old.me } }
    {
        self.grant_fast_as::<Brand>(place, mode, noted, word, one)
    }

    fn grant_fast_as<J: GrantingFast>(
        &mut self,
        place: usize,
        _mode: Mode,
        _noted: Option<u64>,
        word: Word,
        one: u64,
    ) -> Word
        requires place { IsPlace self.old.table place }
        requires down { obtrusive_flag word.0 ≡ false }
        requires gained { MayGrantFast place _mode _noted one self.old.me }
        requires picked { (_mode ≡ J.mode) × (_noted ≡ J.noted) }
        ensures gained { result.0 ≡ word.0 → self.new ≡ record self.old { me = granted_fast place _mode _noted result.0 self.old.me } }
        ensures missed { result.0 ≢ word.0 → self.new ≡ record self.old { me = missed_fast place result.0 self.old.me } }
    {
        let more = word.0.wrapping_add(one);
        Word(
            self.table
                .shared
                .compare_exchange::<GrantFast<J>>(&mut self.seat, lock_word(place), word.0, more),
        )
    }

    /// A fast release: the session loses the fast ticket with this number, and the word no longer counts it. Returns the word that the
    /// subtraction found: if its flag [`Word::SLOW`] is up, waiters at the place may have become grantable.
    ///
    /// `one` is what [`Word::increment`] returns for the ticket's mode.
    pub fn release_fast(&mut self, place: usize, number: u64, one: u64) -> Word
        requires place { IsPlace self.old.table place }
        requires lost { MayReleaseFast place number one self.old.me }
        ensures made { self.new ≡ record self.old { me = released_fast place number result.0 self.old.me } }
    {
        self.release_fast_as::<Brand>(place, number, one)
    }

    fn release_fast_as<J: ReleasingFast>(&mut self, place: usize, _number: u64, one: u64) -> Word
        requires place { IsPlace self.old.table place }
        requires lost { MayReleaseFast place _number one self.old.me }
        requires picked { _number ≡ J.number }
        ensures made { self.new ≡ record self.old { me = released_fast place _number result.0 self.old.me } }
    {
        Word(
            self.table
                .shared
                .fetch_sub::<ReleaseFast<J>>(&mut self.seat, lock_word(place), one),
        )
    }

    /// Makes the session's fast tickets at the place slow ones: the word no longer counts them, and the latch's record has them granted in the
    /// book. The caller writes them into the book in hand.
    ///
    /// `weight` is the sum of the increments of these tickets.
    pub fn materialise(&mut self, latch: &Latched, weight: u64)
        requires place { IsPlace self.old.table latch.now.place }
        requires moved { (h : LatchRecord) × MayMaterialise latch.now.place weight h self.old.me }
        ensures made { (found : ℕ) × (self.new ≡ record self.old { me = materialised latch.now.place found self.old.me }) }
        ensures keeps { (h : LatchRecord) (book : BookView) → Holds latch.now.place h book self.old.me
            → Holds latch.now.place (with_granted (moved latch.now.place self.old.me.0) h) book self.new.me }
        ensures apart { elsewhere latch.now.place self.new.me ≡ elsewhere latch.now.place self.old.me }
    {
        self.table
            .shared
            .fetch_sub::<Materialise>(&mut self.seat, lock_word(latch.place), weight);
    }
}
