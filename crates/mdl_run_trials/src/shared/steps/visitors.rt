//! A session that visits the place of one key, and reads the words there and those of waits.
ghost use Rattle.std.specs.Prelude.{◌≡◌, ℕ, ◌+◌, ◌<◌, ◌^◌, [], ◌∷◌, ◌++◌, length, None, Some, IfSome, true};
ghost use Rattle.std.specs.Arc.{arc_value};
ghost use Rattle.std.specs.Option.{option_to_list};
ghost use Rattle.mdl_key.specs.Words.{is_mode_of};
ghost use Rattle.mdl_steps.specs.FastPlays.{fast_own};
ghost use Rattle.mdl_steps.specs.Seats.{IsPlace, IsSized};
ghost use Rattle.mdl_steps.specs.WaitStates.{IsLost, granted_state};
ghost use Rattle.mdl_visits.specs.Idle.{HoldsNoLatch};
ghost use Rattle.mdl_key.specs.KeyLookups.{kind_known};
ghost use Rattle.mdl_run_trials.specs.shared.steps.Fast.{HasFastAlone};

use crate::shared::steps::rows::{Answer, Deed};
use mdl_key::{Key, Kind, Mode};
use mdl_steps::{Ask, Loss, Maker, OwnedTable, SessionTicket, TableSeat, WaitWord};
use mdl_visits::{
    FastTried, Queued, TryOutcome, begin_wait, end_lost_wait, materialise, release, release_fast,
    reschedule, resolve, try_fast, try_now,
};
use mdl_word::Word;
use std::alloc::Global;
use std::sync::{Arc, Wait};

// The greatest number of a ticket and of a wait.
const MOST_NUMBERS: u64 = (1 << 60) - 1;

/// A session at the place of one key, which it knows. It has one ticket there at most, a slow or a fast one, or waits for one.
#[derive(Drop)]
pub(crate) struct Visitor {
    seat: TableSeat,
    place: usize,
    kind: Kind,
    // The number of its next ticket, and that of its last wait.
    next: u64,
    waits: u64,
    asks: Option<Ask>,
    slow: Option<SessionTicket>,
    fast: Option<SessionTicket>,
    ghost placed: { IsPlace seat.table place },
    ghost known: { kind_known place seat.me.0.known ≡ Some kind },
    ghost idle: { HoldsNoLatch seat.me },
    ghost next_is: { next ≡ seat.me.0.next },
    ghost waits_is: { waits ≡ seat.me.0.waits },
    ghost asks_is: { asks ≡ seat.me.0.asks },
    ghost slow_is: { seat.me.0.slow ≡ option_to_list slow },
    ghost fast_is: { seat.me.0.fast ≡ option_to_list fast },
}

impl Visitor {
    /// Returns the session of the next seat, which has looked up the key and done nothing else yet.
    pub(crate) fn come<R: Wait>(
        rt: &R,
        alloc: Global,
        table: &Arc<OwnedTable, Global>,
        maker: &mut Maker,
        key: &Key,
    ) -> Option<Visitor>
        requires seated { maker.old.seat.table_id ≡ (arc_value table.now).shared.table_id }
        requires sized { IsSized (arc_value table.now).shared.table_id }
        requires most { (arc_value table.now).shared.key ≡ maker.old.most }
        ensures seated { maker.new.seat.table_id ≡ maker.old.seat.table_id }
        ensures most { maker.new.most ≡ maker.old.most }
    {
        let mut seat = maker.enrol(Arc::try_clone(table).ok()?)?;
        let place = resolve(rt, &mut seat, alloc, key).ok()?;
        Some(Visitor {
            seat,
            place,
            kind: key.kind(),
            next: 1,
            waits: 0,
            asks: None,
            slow: None,
            fast: None,
        })
    }

    /// Does something there, and returns the answer.
    pub(crate) fn act<R: Wait>(&mut self, rt: &R, deed: Deed) -> Answer {
        match deed {
            Deed::TryNow(mode) => self.try_now(rt, mode),
            Deed::BeginWait(mode) => self.begin_wait(rt, mode),
            Deed::Release => self.release(rt),
            Deed::EndWait => self.end_wait(rt),
            Deed::TryFast(mode) => self.try_fast(mode),
            Deed::ReleaseFast => self.release_fast(),
            Deed::Reschedule => self.reschedule(rt),
            Deed::LockWord => Answer::Lock(self.seat.read_word_unlatched(self.place)),
            Deed::WaitWord(session) => self.wait_word(session),
            Deed::Settle(session, wait, how) => self.settle(session, wait, how),
        }
    }

    // Reads the word of a session's wait.
    fn wait_word(&mut self, session: u16) -> Answer {
        if !self.seat.has_session(session) {
            return Answer::Refused;
        }
        Answer::Wait(self.seat.read_wait(session))
    }

    // Settles a wait as lost so, if it is unsettled, and returns the word that it met.
    fn settle(&mut self, session: u16, wait: u64, how: Loss) -> Answer {
        if !self.seat.has_session(session) || wait > MOST_NUMBERS {
            return Answer::Refused;
        }
        Answer::Wait(self.seat.settle_wait(session, wait, how))
    }

    // Whether it may request a ticket in a mode: the key has the mode, and the session has no ticket, waits for none, and has numbers left.
    fn may_ask(&self, mode: Mode) -> bool
        ensures { result ≡ true → (self.now.asks ≡ None) × (self.now.slow ≡ None) × (self.now.fast ≡ None) × (self.now.next < 2 ^ 60)
            × (self.now.waits + 1 < 2 ^ 60) × (is_mode_of self.now.kind mode ≡ true) }
    {
        self.asks.is_none()
            && self.slow.is_none()
            && self.fast.is_none()
            && self.next < MOST_NUMBERS
            && self.waits < MOST_NUMBERS
            && self.kind.has_mode(mode)
    }

    // Requests a ticket, without waiting.
    fn try_now<R: Wait>(&mut self, rt: &R, mode: Mode) -> Answer {
        if !self.may_ask(mode) {
            return Answer::Refused;
        }
        let (place, number) = (self.place, self.next);
        match try_now(rt, &mut self.seat, place, self.kind, number, mode) {
            Ok(TryOutcome::Granted) => {
                self.slow = Some(SessionTicket {
                    number,
                    place,
                    mode,
                    noted: None,
                });
                self.next += 1;
                Answer::Granted
            }
            Ok(TryOutcome::Blocked) => Answer::WouldWait,
            Err(_) => Answer::Refused,
        }
    }

    // Requests a ticket, and begins to wait for it if it can't be granted now.
    fn begin_wait<R: Wait>(&mut self, rt: &R, mode: Mode) -> Answer {
        if !self.may_ask(mode) {
            return Answer::Refused;
        }
        let (place, number, wait) = (self.place, self.next, self.waits + 1);
        match begin_wait(rt, &mut self.seat, place, self.kind, number, mode, wait) {
            Ok(Queued::Granted) => {
                self.slow = Some(SessionTicket {
                    number,
                    place,
                    mode,
                    noted: None,
                });
                self.next += 1;
                Answer::Granted
            }
            Ok(Queued::Waiting) => {
                self.asks = Some(Ask {
                    number,
                    place,
                    mode,
                });
                self.next += 1;
                self.waits = wait;
                Answer::Waiting(wait)
            }
            Err(_) => Answer::Refused,
        }
    }

    // Releases its slow ticket, unless it waits for one.
    fn release<R: Wait>(&mut self, rt: &R) -> Answer {
        let Some(ticket) = self.slow else {
            return Answer::Refused;
        };
        if self.asks.is_some() || ticket.place != self.place {
            return Answer::Refused;
        }
        self.give_back(rt, ticket);
        Answer::Done
    }

    fn give_back<R: Wait>(&mut self, rt: &R, ticket: SessionTicket)
        requires held { self.old.slow ≡ Some ticket }
        requires here { ticket.place ≡ self.old.place }
        requires unwaited { self.old.asks ≡ None }
    {
        release(rt, &mut self.seat, ticket.place, ticket.number);
        self.slow = None;
    }

    // Ends its wait, if it is settled.
    fn end_wait<R: Wait>(&mut self, rt: &R) -> Answer {
        let Some(ask) = self.asks else {
            return Answer::Refused;
        };
        if self.slow.is_some() || ask.place != self.place || self.waits > MOST_NUMBERS {
            return Answer::Refused;
        }
        let session = self.seat.number();
        if !self.seat.has_session(session) {
            return Answer::Refused;
        }
        let word = self.seat.read_wait(session);
        let state = word.state();
        if state == WaitWord::GRANTED {
            self.take_over(ask);
            return Answer::Granted;
        }
        if state > WaitWord::GRANTED {
            self.give_up(rt, ask);
            return Answer::Lost(state);
        }
        Answer::Refused
    }

    // Takes the ticket of its granted wait over.
    fn take_over(&mut self, ask: Ask)
        requires asks { self.old.asks ≡ Some ask }
        requires granted { self.old.seat.me.0.told ≡ Some granted_state }
        requires empty { self.old.slow ≡ None }
        requires few { self.old.waits < 2 ^ 60 }
    {
        self.seat.end_granted(self.waits);
        self.slow = Some(SessionTicket {
            number: ask.number,
            place: ask.place,
            mode: ask.mode,
            noted: None,
        });
        self.asks = None;
    }

    // Ends its lost wait.
    fn give_up<R: Wait>(&mut self, rt: &R, ask: Ask)
        requires asks { self.old.asks ≡ Some ask }
        requires lost { (state : ℕ) × (self.old.seat.me.0.told ≡ Some state) × IsLost state }
        requires here { ask.place ≡ self.old.place }
        requires few { self.old.waits < 2 ^ 60 }
    {
        end_lost_wait(rt, &mut self.seat, ask, self.waits);
        self.asks = None;
    }

    // Tries for a fast ticket. Does nothing if tickets in this mode aren't counted.
    fn try_fast(&mut self, mode: Mode) -> Answer {
        if !self.may_ask(mode) {
            return Answer::Refused;
        }
        let (place, number) = (self.place, self.next);
        let Some(one) = Word::increment(self.kind, mode) else {
            return Answer::Refused;
        };
        let mut guess = Word(0);
        match try_fast(&mut self.seat, place, mode, None, &mut guess, one) {
            FastTried::Granted => {
                self.fast = Some(SessionTicket {
                    number,
                    place,
                    mode,
                    noted: None,
                });
                self.next += 1;
                Answer::Granted
            }
            FastTried::Obtruded(word) => Answer::Obtruded(word),
            FastTried::Contended(word) => Answer::Contended(word),
        }
    }

    // Releases its fast ticket, and returns whether waits there may have become grantable.
    fn release_fast(&mut self) -> Answer {
        let Some(ticket) = self.fast else {
            return Answer::Refused;
        };
        if ticket.place != self.place {
            return Answer::Refused;
        }
        let Some(one) = Word::increment(self.kind, ticket.mode) else {
            return Answer::Refused;
        };
        let mut guess = Word(0);
        let owes = release_fast(&mut self.seat, self.place, ticket.number, &mut guess, one);
        self.fast = None;
        Answer::Owes(owes)
    }

    // Grants the waits there that can be granted.
    fn reschedule<R: Wait>(&mut self, rt: &R) -> Answer {
        reschedule(rt, &mut self.seat, self.place);
        Answer::Done
    }

    /// Whether another session gains and releases a fast ticket while this one holds the latch of the place, or `None` if it doesn't get the
    /// latch.
    pub(crate) fn lets_by(self, other: &mut Visitor) -> Option<bool> {
        let Visitor {
            mut seat,
            place,
            ..
        } = self;
        let Some(latch) = seat.take_latch(place) else {
            drop(seat);
            return None;
        };
        let granted = other.try_fast(Mode::SW) == Answer::Granted;
        let free = other.release_fast() == Answer::Owes(false);
        seat.put_latch(latch, &[]);
        drop(seat);
        Some(granted && free)
    }

    /// Gains three fast tickets in these modes and makes them slow. Returns the words of the lock before and after that, or `None` if it doesn't
    /// come so far.
    pub(crate) fn makes_slow<R: Wait>(self, rt: &R, modes: [Mode; 3]) -> Option<(Word, Word)> {
        if self.asks.is_some() || self.slow.is_some() || self.fast.is_some() {
            drop(self);
            return None;
        }
        let Visitor {
            mut seat,
            place,
            kind,
            next,
            ..
        } = self;
        if next > MOST_NUMBERS {
            drop(seat);
            return None;
        }
        let words = made_slow(rt, &mut seat, place, kind, next, modes);
        drop(seat);
        words
    }
}

// Gains three fast tickets in these modes, numbered from `next` on, and makes them slow. Returns the words before and after that.
fn made_slow<R: Wait>(
    rt: &R,
    seat: &mut TableSeat,
    place: usize,
    kind: Kind,
    next: u64,
    modes: [Mode; 3],
) -> Option<(Word, Word)>
    requires alone { HasFastAlone place kind next [] seat.old }
    requires rest { next < 2 ^ 60 }
{
    let [first, second, third] = modes;
    let one = gain(seat, place, kind, next, &[], first)?;
    let two = gain(seat, place, kind, next, &[first], second)?;
    let three = gain(seat, place, kind, next, &[first, second], third)?;
    let before = seat.read_word_unlatched(place);
    if materialise(rt, seat, place, kind, &[one, two, three]).is_err() {
        return None;
    }
    Some((before, seat.read_word_unlatched(place)))
}

// Gains one more fast ticket, beside those in the modes `beside`, whose numbers begin with `next`.
fn gain(
    seat: &mut TableSeat,
    place: usize,
    kind: Kind,
    next: u64,
    beside: &[Mode],
    mode: Mode,
) -> Option<SessionTicket>
    requires alone { HasFastAlone place kind next beside.now seat.old }
    requires few { length beside.now < 3 }
    requires rest { next < 2 ^ 60 }
    ensures gained { IfSome result (λ ticket. (ticket ≡ fast_own (next + length beside.now) place mode None)
        × HasFastAlone place kind next (beside.now ++ mode ∷ []) seat.new) }
{
    let one = Word::increment(kind, mode)?;
    let mut guess = Word(0);
    match try_fast(seat, place, mode, None, &mut guess, one) {
        FastTried::Granted => Some(SessionTicket {
            number: next + beside.len() as u64,
            place,
            mode,
            noted: None,
        }),
        FastTried::Obtruded(_) | FastTried::Contended(_) => None,
    }
}
