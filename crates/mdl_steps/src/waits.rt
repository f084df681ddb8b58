//! Steps on wait words.
ghost use Rattle.std.specs.Prelude.{◌≡◌, ◌≢◌, ℕ, ◌+◌, ◌*◌, ◌^◌, ◌<◌, Some};
ghost use Rattle.mdl_book.specs.declared.book_view.BookView.{BookView};
ghost use Rattle.mdl_steps.specs.declared.view.Ask.{Ask};
ghost use Rattle.mdl_steps.specs.declared.view.LatchRecord.{LatchRecord};
ghost use Rattle.mdl_steps.specs.Seats.{IsPlace, Holds, elsewhere};
ghost use Rattle.mdl_steps.specs.WaitPlays.{met_wait, missed_wait, opened, settled_lost, settled_granted, ended_granted, ended_lost, asked_ticket, with_waiting, with_admitted, with_cancelled, TellsOwn};
ghost use Rattle.mdl_steps.specs.WaitSeats.{IsSession, MayOpen, MayGrant, MayCancel};
ghost use Rattle.mdl_steps.specs.WaitStates.{granted_state, lost_state, unsettled_state, wait_in};

use crate::layout::wait_word;
use crate::plays::{
    EndGranted, EndLost, GrantWait, Granting, OpenWait, ReadWait, SettleLost, Wishing,
};
use crate::table_seat::{Latched, TableSeat};
use crate::wait_word::{Loss, WaitWord, word_in};
use mdl_key::Mode;
use std::marker::Brand;

impl TableSeat {
    /// Opens a wait for a mode at the place. Its ticket has the session's next number and is the last one in the waiting list. `wait` is the
    /// wait's number: one more than the number of the session's last wait.
    pub fn open_wait(&mut self, latch: &Latched, mode: Mode, wait: u64)
        requires place { IsPlace self.old.table latch.now.place }
        requires opened { (h : LatchRecord) × MayOpen latch.now.place mode h self.old.me }
        requires wait { (wait ≡ self.old.me.0.waits + 1) × (wait < 2 ^ 60) }
        ensures made { self.new ≡ record self.old { me = opened self.old.table.slots latch.now.place mode self.old.me } }
        ensures keeps { (h : LatchRecord) (book : BookView) → Holds latch.now.place h book self.old.me
            → Holds latch.now.place (with_waiting (asked_ticket mode self.old.me.0) h) book self.new.me }
        ensures apart { elsewhere latch.now.place self.new.me ≡ elsewhere latch.now.place self.old.me }
    {
        self.open_wait_at::<Brand>(latch, mode, wait);
    }

    fn open_wait_at<J: Wishing>(&mut self, latch: &Latched, mode: Mode, wait: u64)
        requires place { IsPlace self.old.table latch.now.place }
        requires opened { (h : LatchRecord) × MayOpen latch.now.place mode h self.old.me }
        requires wait { (wait ≡ self.old.me.0.waits + 1) × (wait < 2 ^ 60) }
        requires picked { (latch.now.place ≡ J.place) × (mode ≡ J.mode) }
        ensures made { self.new ≡ record self.old { me = opened self.old.table.slots latch.now.place mode self.old.me } }
        ensures keeps { (h : LatchRecord) (book : BookView) → Holds latch.now.place h book self.old.me
            → Holds latch.now.place (with_waiting (asked_ticket mode self.old.me.0) h) book self.new.me }
        ensures apart { elsewhere latch.now.place self.new.me ≡ elsewhere latch.now.place self.old.me }
    {
        let word = word_in(wait, WaitWord::UNSETTLED);
        self.table.shared.store::<OpenWait<J>>(
            &mut self.seat,
            wait_word(self.table.slot_count(), self.number),
            word,
        );
    }

    /// Reads the wait word of a session. If it is the session's own word and is settled, it doesn't change until the session ends the wait.
    pub fn read_wait(&mut self, session: u16) -> WaitWord
        requires session { IsSession self.old.table session }
        ensures made { self.new ≡ record self.old { me = met_wait self.old.table.slots session result.0 self.old.me } }
        ensures own { TellsOwn self.old.table.slots session result.0 self.old.me.0 }
    {
        let index = wait_word(self.table.slot_count(), session);
        WaitWord(self.table.shared.load::<ReadWait>(&mut self.seat, index))
    }

    /// Settles a wait of a session as lost, if it is the session's last one and unsettled. Returns the word that the exchange found. No
    /// latch is needed: the ticket stays in the waiting list until its session ends the wait.
    pub fn settle_wait(&mut self, session: u16, wait: u64, how: Loss) -> WaitWord
        requires session { IsSession self.old.table session }
        requires wait { wait < 2 ^ 61 }
        ensures settled { result.0 ≡ wait_in wait unsettled_state → self.new ≡ record self.old { me = settled_lost self.old.table.slots session wait (lost_state how) self.old.me } }
        ensures missed { result.0 ≢ wait_in wait unsettled_state → self.new ≡ record self.old { me = missed_wait self.old.table.slots session result.0 self.old.me } }
        ensures own { TellsOwn self.old.table.slots session result.0 self.old.me.0 }
    {
        let open = word_in(wait, WaitWord::UNSETTLED);
        let lost = word_in(wait, how.state());
        WaitWord(
            self.table.shared.compare_exchange::<SettleLost>(
                &mut self.seat,
                wait_word(self.table.slot_count(), session),
                open,
                lost,
            ),
        )
    }

    /// Grants a wait of a session, whose ticket is in the waiting list of the place, if the wait is unsettled. Returns the word that the
    /// exchange found. `ticket` is the ticket's number, and `wait` the wait's number.
    pub fn grant_wait(&mut self, latch: &Latched, session: u16, ticket: u64, wait: u64) -> WaitWord
        requires place { IsPlace self.old.table latch.now.place }
        requires session { IsSession self.old.table session }
        requires granted { (h : LatchRecord) × MayGrant latch.now.place session ticket h self.old.me }
        requires wait { wait < 2 ^ 61 }
        ensures granted { result.0 ≡ wait_in wait unsettled_state → self.new ≡ record self.old { me = settled_granted self.old.table.slots latch.now.place session ticket wait self.old.me } }
        ensures keeps { result.0 ≡ wait_in wait unsettled_state → (h : LatchRecord) (book : BookView) → Holds latch.now.place h book self.old.me
            → Holds latch.now.place (with_admitted session ticket h) book self.new.me }
        ensures missed { result.0 ≢ wait_in wait unsettled_state → self.new ≡ record self.old { me = missed_wait self.old.table.slots session result.0 self.old.me } }
        ensures own { TellsOwn self.old.table.slots session result.0 self.old.me.0 }
        ensures apart { elsewhere latch.now.place self.new.me ≡ elsewhere latch.now.place self.old.me }
    {
        self.grant_wait_at::<Brand>(latch, session, ticket, wait)
    }

    fn grant_wait_at<J: Granting>(
        &mut self,
        latch: &Latched,
        session: u16,
        ticket: u64,
        wait: u64,
    ) -> WaitWord
        requires place { IsPlace self.old.table latch.now.place }
        requires session { IsSession self.old.table session }
        requires granted { (h : LatchRecord) × MayGrant latch.now.place session ticket h self.old.me }
        requires wait { wait < 2 ^ 61 }
        requires picked { (latch.now.place ≡ J.place) × (ticket ≡ J.ticket) }
        ensures granted { result.0 ≡ wait_in wait unsettled_state → self.new ≡ record self.old { me = settled_granted self.old.table.slots latch.now.place session ticket wait self.old.me } }
        ensures keeps { result.0 ≡ wait_in wait unsettled_state → (h : LatchRecord) (book : BookView) → Holds latch.now.place h book self.old.me
            → Holds latch.now.place (with_admitted session ticket h) book self.new.me }
        ensures missed { result.0 ≢ wait_in wait unsettled_state → self.new ≡ record self.old { me = missed_wait self.old.table.slots session result.0 self.old.me } }
        ensures own { TellsOwn self.old.table.slots session result.0 self.old.me.0 }
        ensures apart { elsewhere latch.now.place self.new.me ≡ elsewhere latch.now.place self.old.me }
    {
        let open = word_in(wait, WaitWord::UNSETTLED);
        let granted = word_in(wait, WaitWord::GRANTED);
        WaitWord(
            self.table.shared.compare_exchange::<GrantWait<J>>(
                &mut self.seat,
                wait_word(self.table.slot_count(), session),
                open,
                granted,
            ),
        )
    }

    /// Ends the session's own wait, which it met granted. From then on the session has the ticket. `wait` is the wait's number.
    pub fn end_granted(&mut self, wait: u64)
        requires told { self.old.me.0.told ≡ Some granted_state }
        requires wait { (wait ≡ self.old.me.0.waits) × (wait < 2 ^ 60) }
        ensures made { self.new ≡ record self.old { me = ended_granted self.old.table.slots self.old.me } }
    {
        let word = word_in(wait, WaitWord::IDLE);
        self.table.shared.store::<EndGranted>(
            &mut self.seat,
            wait_word(self.table.slot_count(), self.number),
            word,
        );
    }

    /// Ends the session's own wait, which it met lost. Its ticket is removed from the waiting list. `wait` is the wait's number.
    pub fn end_lost(&mut self, latch: &Latched, wait: u64)
        requires place { IsPlace self.old.table latch.now.place }
        requires cancelled { (h : LatchRecord) × MayCancel latch.now.place h self.old.me }
        requires wait { (wait ≡ self.old.me.0.waits) × (wait < 2 ^ 60) }
        ensures made { (a : Ask) (state : ℕ) → self.old.me.0.asks ≡ Some a → self.old.me.0.told ≡ Some state
            → self.new ≡ record self.old { me = ended_lost self.old.table.slots latch.now.place a.number state self.old.me } }
        ensures keeps { (a : Ask) (h : LatchRecord) (book : BookView) → self.old.me.0.asks ≡ Some a → Holds latch.now.place h book self.old.me
            → Holds latch.now.place (with_cancelled self.old.me.0.number a.number h) book self.new.me }
        ensures apart { elsewhere latch.now.place self.new.me ≡ elsewhere latch.now.place self.old.me }
    {
        let word = word_in(wait, WaitWord::IDLE);
        self.table.shared.store::<EndLost>(
            &mut self.seat,
            wait_word(self.table.slot_count(), self.number),
            word,
        );
    }
}
