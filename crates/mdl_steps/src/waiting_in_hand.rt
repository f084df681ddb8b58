//! The waiting list of the book in hand, read and written as plain memory, which is no step.
ghost use Rattle.std.specs.Prelude.{◌≡◌, nat_lt, length, slice_get, OnOk, OnErr};
ghost use Rattle.std.specs.Option.{ok_or, option_map};
ghost use Rattle.mdl_key.specs.Refusals.{Refuses};
ghost use Rattle.mdl_book.specs.Books.{full_fault, ticket_count, enqueueing, admitting_by_index, cancelling, is_ready, next_grantable};
ghost use Rattle.mdl_book.specs.Tickets.{ticket_of, with_index};
ghost use Rattle.mdl_graph.specs.Graphs.{AddsBook};
ghost use Rattle.mdl_steps.specs.SeatStates.{HoldsBook, OfBook};
ghost use Rattle.mdl_steps.specs.Seats.{written};

use crate::hand::book_in_hand;
use crate::table_seat::{Latched, TableSeat};
use mdl_book::{BookError, Sessions, Ticket};
use mdl_graph::WaitGraph;
use mdl_key::Mode;
use mdl_word::Word;
use std::alloc::AllocError;

impl TableSeat {
    /// Whether the waiting list of the book in hand has a ticket. Nothing changes.
    pub fn has_waiters(&mut self, latch: &Latched) -> bool
        requires carried { HoldsBook latch.now.place self.old }
        ensures same { self.new ≡ self.old }
        ensures told { OfBook latch.now.place self.old (λ book. result ≡ nat_lt 0 (length book.waiting)) }
    {
        let book = book_in_hand(&mut self.seat, &self.table.shared, latch.place);
        !book.waiting().is_empty()
    }

    /// Adds the book in hand to a graph of who waits for whom. Nothing else changes. If memory runs out, nothing changes at all.
    pub fn add_to_graph(&mut self, latch: &Latched, graph: &mut WaitGraph) -> Result<(), AllocError>
        requires carried { HoldsBook latch.now.place self.old }
        ensures same { self.new ≡ self.old }
        ensures added { OfBook latch.now.place self.old (λ book. OnOk result (AddsBook book graph.old graph.new)) }
        ensures unchanged { OnErr result (graph.new ≡ graph.old) }
    {
        let book = book_in_hand(&mut self.seat, &self.table.shared, latch.place);
        graph.add(book)
    }

    /// Returns the first waiting ticket of the book in hand that can be granted, among those whose sessions are in `unsettled`, after its
    /// index in the waiting list. `word` is the place's word. Nothing changes.
    pub fn next_grantable_at(
        &mut self,
        latch: &Latched,
        word: Word,
        unsettled: &Sessions,
    ) -> Option<(usize, Ticket)>
        requires carried { HoldsBook latch.now.place self.old }
        ensures same { self.new ≡ self.old }
        ensures told { OfBook latch.now.place self.old (λ book. result ≡ option_map (with_index (is_ready word.0 unsettled.now book) book.waiting) (next_grantable word.0 unsettled.now book)) }
    {
        let book = book_in_hand(&mut self.seat, &self.table.shared, latch.place);
        book.next_grantable_at(word, unsettled)
    }

    /// Adds a ticket of the session to the end of the waiting list of the book in hand. [`TableSeat::open_wait`] opens its wait.
    pub fn write_wish(&mut self, latch: &Latched, number: u64, mode: Mode) -> Result<(), BookError>
        requires carried { HoldsBook latch.now.place self.old }
        ensures written { OfBook latch.now.place self.old (λ book. OnOk result (self.new ≡ record self.old { me = written latch.now.place (enqueueing (record { session = self.old.me.0.number; number = number; mode = mode }) book) self.old.me })) }
        ensures unchanged { OnErr result (self.new ≡ self.old) }
        ensures refused { OfBook latch.now.place self.old (λ book. Refuses (full_fault (ticket_count book)) BookError.OutOfMemory result) }
    {
        let ticket = Ticket {
            number,
            session: self.number,
            mode,
        };
        let book = book_in_hand(&mut self.seat, &self.table.shared, latch.place);
        book.enqueue(ticket)
    }

    /// Moves the waiting ticket at an index of the book in hand to the end of the granted list, and returns it. [`TableSeat::grant_wait`]
    /// grants its wait. It takes no memory.
    pub fn write_admission_at(&mut self, latch: &Latched, index: usize) -> Result<Ticket, BookError>
        requires carried { HoldsBook latch.now.place self.old }
        ensures written { OfBook latch.now.place self.old (λ book. OnOk result (self.new ≡ record self.old { me = written latch.now.place (admitting_by_index index book) self.old.me })) }
        ensures unchanged { OnErr result (self.new ≡ self.old) }
        ensures refused { OfBook latch.now.place self.old (λ book. result ≡ ok_or (slice_get book.waiting index) BookError.NotHere) }
    {
        let book = book_in_hand(&mut self.seat, &self.table.shared, latch.place);
        book.admit_at(index)
    }

    /// Removes a waiting ticket of the session from the book in hand, and returns it. [`TableSeat::end_lost`] ends its wait. It takes no
    /// memory.
    pub fn write_withdrawal(&mut self, latch: &Latched, number: u64) -> Result<Ticket, BookError>
        requires carried { HoldsBook latch.now.place self.old }
        ensures written { OfBook latch.now.place self.old (λ book. OnOk result (self.new ≡ record self.old { me = written latch.now.place (cancelling self.old.me.0.number number book) self.old.me })) }
        ensures unchanged { OnErr result (self.new ≡ self.old) }
        ensures refused { OfBook latch.now.place self.old (λ book. result ≡ ok_or (ticket_of self.old.me.0.number number book.waiting) BookError.NotHere) }
    {
        let session = self.number;
        let book = book_in_hand(&mut self.seat, &self.table.shared, latch.place);
        book.cancel(session, number)
    }
}
