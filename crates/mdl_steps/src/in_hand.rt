//! The book in hand: while a session holds a place's latch, it reads and writes the book as plain memory, which is no step.
ghost use Rattle.std.specs.Prelude.{◌≡◌, is_some, IfOk, OnOk, OnErr};
ghost use Rattle.std.specs.Option.{ok_or};
ghost use Rattle.mdl_key.specs.Refusals.{Refuses, RefusesJust};
ghost use Rattle.mdl_defs.specs.VersionedDefinitions.{standing_fault};
ghost use Rattle.mdl_book.specs.Books.{lock_kind, grant_fault, change_fault, has_obtrusive, has_tickets, redefining};
ghost use Rattle.mdl_book.specs.FastTickets.{can_be_granted};
ghost use Rattle.mdl_book.specs.Tickets.{ticket_of};
ghost use Rattle.mdl_steps.specs.declared.deed.Deed.TheVariants.{Gain, Alter, Lose};
ghost use Rattle.mdl_steps.specs.Deeds.{booked};
ghost use Rattle.mdl_steps.specs.SeatStates.{HoldsBook, OfBook};
ghost use Rattle.mdl_steps.specs.Seats.{written};

use crate::hand::book_in_hand;
use crate::table_seat::{Latched, TableSeat};
use mdl_book::{BookError, Needs, Ticket};
use mdl_defs::{Change, ChangeError, VersionedDefinition};
use mdl_key::Mode;
use mdl_word::Word;
use std::alloc::AllocError;

impl TableSeat {
    /// Returns which flags of the place's word the lists of the book in hand need. Nothing changes.
    pub fn needs(&mut self, latch: &Latched) -> Needs
        requires carried { HoldsBook latch.now.place self.old }
        ensures same { self.new ≡ self.old }
        ensures told { OfBook latch.now.place self.old (λ book. (result.obtrusive ≡ has_obtrusive book) × (result.slow ≡ has_tickets book)) }
    {
        let book = book_in_hand(&mut self.seat, &self.table.shared, latch.place);
        book.needs()
    }

    /// Whether the session's request for a mode can be granted, by the book in hand and the place's word `word`. All fast tickets that the
    /// word counts are taken for tickets of other sessions. Nothing changes.
    pub fn can_grant(&mut self, latch: &Latched, mode: Mode, word: Word) -> bool
        requires carried { HoldsBook latch.now.place self.old }
        ensures same { self.new ≡ self.old }
        ensures told { OfBook latch.now.place self.old (λ book. result ≡ can_be_granted (lock_kind book) book.granted book.waiting word.0 self.old.me.0.number mode) }
    {
        let session = self.number;
        let book = book_in_hand(&mut self.seat, &self.table.shared, latch.place);
        book.can_grant(session, mode, word)
    }

    /// Returns the version in the book in hand. Nothing changes.
    pub fn version(&mut self, latch: &Latched) -> u64
        requires carried { HoldsBook latch.now.place self.old }
        ensures same { self.new ≡ self.old }
        ensures told { OfBook latch.now.place self.old (λ book. result ≡ book.standing.version) }
    {
        let book = book_in_hand(&mut self.seat, &self.table.shared, latch.place);
        book.version()
    }

    /// Whether the book in hand has a definition. Nothing changes.
    pub fn has_definition(&mut self, latch: &Latched) -> bool
        requires carried { HoldsBook latch.now.place self.old }
        ensures same { self.new ≡ self.old }
        ensures told { OfBook latch.now.place self.old (λ book. result ≡ is_some book.standing.definition) }
    {
        let book = book_in_hand(&mut self.seat, &self.table.shared, latch.place);
        book.definition().is_some()
    }

    /// Returns a copy of the version and the definition in the book in hand. Nothing changes, even if memory runs out.
    pub fn standing(&mut self, latch: &Latched) -> Result<VersionedDefinition, AllocError>
        requires carried { HoldsBook latch.now.place self.old }
        ensures same { self.new ≡ self.old }
        ensures told { OfBook latch.now.place self.old (λ book. IfOk result (λ standing. standing ≡ book.standing)) }
    {
        let book = book_in_hand(&mut self.seat, &self.table.shared, latch.place);
        book.read()
    }

    /// Adds a granted ticket of the session to the book in hand. `word` is the place's word. Waiting tickets aren't considered.
    pub fn write_gain(
        &mut self,
        latch: &Latched,
        number: u64,
        mode: Mode,
        word: Word,
    ) -> Result<(), BookError>
        requires carried { HoldsBook latch.now.place self.old }
        ensures written { OfBook latch.now.place self.old (λ book. OnOk result (self.new ≡ record self.old { me = written latch.now.place (booked self.old.me.0.number (Gain number mode) book) self.old.me })) }
        ensures unchanged { OnErr result (self.new ≡ self.old) }
        ensures refused { OfBook latch.now.place self.old (λ book. Refuses (grant_fault (record { session = self.old.me.0.number; number = number; mode = mode }) word.0 book) BookError.OutOfMemory result) }
    {
        let ticket = Ticket {
            number,
            session: self.number,
            mode,
        };
        let book = book_in_hand(&mut self.seat, &self.table.shared, latch.place);
        book.grant(ticket, word)
    }

    /// Changes the mode of a granted ticket of the session in the book in hand. `word` is the place's word. Waiting tickets aren't considered.
    pub fn write_mode(
        &mut self,
        latch: &Latched,
        number: u64,
        mode: Mode,
        word: Word,
    ) -> Result<(), BookError>
        requires carried { HoldsBook latch.now.place self.old }
        ensures written { OfBook latch.now.place self.old (λ book. OnOk result (self.new ≡ record self.old { me = written latch.now.place (booked self.old.me.0.number (Alter number mode) book) self.old.me })) }
        ensures unchanged { OnErr result (self.new ≡ self.old) }
        ensures refused { OfBook latch.now.place self.old (λ book. RefusesJust (change_fault self.old.me.0.number number mode word.0 book) result) }
    {
        let session = self.number;
        let book = book_in_hand(&mut self.seat, &self.table.shared, latch.place);
        book.set_mode(session, number, mode, word)
    }

    /// Removes a granted ticket of the session from the book in hand, and returns it.
    pub fn write_loss(&mut self, latch: &Latched, number: u64) -> Result<Ticket, BookError>
        requires carried { HoldsBook latch.now.place self.old }
        ensures written { OfBook latch.now.place self.old (λ book. OnOk result (self.new ≡ record self.old { me = written latch.now.place (booked self.old.me.0.number (Lose number) book) self.old.me })) }
        ensures unchanged { OnErr result (self.new ≡ self.old) }
        ensures refused { OfBook latch.now.place self.old (λ book. result ≡ ok_or (ticket_of self.old.me.0.number number book.granted) BookError.NotHere) }
    {
        let session = self.number;
        let book = book_in_hand(&mut self.seat, &self.table.shared, latch.place);
        book.remove(session, number)
    }

    /// Changes the definition in the book in hand, and returns its version, which is one greater than before. `Drop` takes no
    /// memory. [`TableSeat::write_version`] has to write the version's word afterwards.
    pub fn write_change(&mut self, latch: &Latched, change: &Change) -> Result<u64, ChangeError>
        requires carried { HoldsBook latch.now.place self.old }
        ensures written { OfBook latch.now.place self.old (λ book. IfOk result (λ version. (self.new ≡ record self.old { me = written latch.now.place (redefining change.now book) self.old.me })
            × (version ≡ (redefining change.now book).standing.version))) }
        ensures unchanged { OnErr result (self.new ≡ self.old) }
        ensures refused { OfBook latch.now.place self.old (λ book. Refuses (standing_fault book.key.namespace change.now book.standing) ChangeError.OutOfMemory result) }
        ensures drop { OfBook latch.now.place self.old (λ book. change.now ≡ Change.Drop → RefusesJust (standing_fault book.key.namespace change.now book.standing) result) }
    {
        let book = book_in_hand(&mut self.seat, &self.table.shared, latch.place);
        book.redefine(change)
    }
}
