//! Makes tables and the seats of their sessions.
ghost use Rattle.std.specs.Arc.{arc_value};
ghost use Rattle.std.specs.Prelude.{◌≡◌, ℕ, ◌+◌, ◌^◌, ◌<◌, ◌≤◌, [], length, IfOk, MatchOption};
ghost use Rattle.mdl_steps.specs.Cells.{blank, numbers_for};
ghost use Rattle.mdl_steps.specs.Layout.{word_count};
ghost use Rattle.mdl_steps.specs.Limits.{most_enrolled};
ghost use Rattle.mdl_steps.specs.Openings.{IsOpening};
ghost use Rattle.mdl_steps.specs.SeatStates.{enrolled_seat};
ghost use Rattle.mdl_steps.specs.Seats.{IsSized};

use crate::layout::enrol_word;
use crate::opening::{opening_slots, opening_words};
use crate::plays::{Enrol, SplitOff};
use crate::table_seat::TableSeat;
use crate::{Order, Slot, View};
use atomic_table::{Refused, Seat, Table};
use std::alloc::{AllocError, Global};
use std::sync::Arc;

/// A table, which owns its words and slots. Its field `shared` is the part that sessions use.
pub type OwnedTable = Table<Slot, View, usize, Order, Global>;

/// The first seat at a table. The seats of the sessions are split off from it.
#[derive(Drop)]
pub struct Maker {
    most: usize,
    given: usize,
    seat: Seat<Slot, View>,
    ghost first: { seat.id ≡ 0 },
    ghost idle: { seat.me ≡ (blank 0 (numbers_for most given given), []) },
    ghost few: { (given ≤ most) × (most ≤ most_enrolled) },
    ghost roomy: { (0 < seat.table_id.slots) × (word_count seat.table_id.slots most ≤ seat.table_id.words) },
}

impl Maker {
    /// Makes a table with this number of places and room for this number of sessions, and its first seat. No place has a key yet.
    pub fn of_places(
        alloc: Global,
        places: usize,
        sessions: usize,
    ) -> Result<(OwnedTable, Maker), AllocError>
        requires places { places + 1 < 2 ^ 32 }
        requires sessions { sessions ≤ most_enrolled }
        ensures { IfOk result (λ made. (made.0.shared.table_id.words ≡ word_count (places + 1) sessions) × (made.0.shared.table_id.slots ≡ places + 1)
            × (made.0.shared.key ≡ sessions) × (made.1.seat.table_id ≡ made.0.shared.table_id) × (made.1.most ≡ sessions) × (made.1.given ≡ 0)) }
    {
        let slots = opening_slots(alloc, places)?;
        let words = opening_words(alloc, slots.len(), sessions)?;
        Maker::open(alloc, &words, slots, sessions)
    }

    /// Makes a table from given words and slots, with room for this number of sessions, and its first seat.
    pub fn open(
        alloc: Global,
        words: &[u64],
        slots: Vec<Slot>,
        sessions: usize,
    ) -> Result<(OwnedTable, Maker), AllocError>
        requires { IsOpening sessions words.now slots.items }
        ensures { IfOk result (λ made. (made.0.shared.table_id.words ≡ length words.now) × (made.0.shared.table_id.slots ≡ length slots.items)
            × (made.0.shared.key ≡ sessions) × (made.1.seat.table_id ≡ made.0.shared.table_id) × (made.1.most ≡ sessions) × (made.1.given ≡ 0)) }
    {
        match Table::new(alloc, words, slots, &sessions) {
            Ok((table, seat)) => Ok((
                table,
                Maker {
                    most: sessions,
                    given: 0,
                    seat,
                },
            )),
            Err(Refused { slots: _ }) => Err(AllocError),
        }
    }

    /// Makes a seat at the table for one more session. Returns `None` if all sessions have seats. Sessions get the numbers from 1 on, in turn.
    pub fn enrol(&mut self, table: Arc<OwnedTable, Global>) -> Option<TableSeat>
        requires mine { self.old.seat.table_id ≡ (arc_value table).shared.table_id }
        requires sized { IsSized self.old.seat.table_id }
        requires most { (arc_value table).shared.key ≡ self.old.most }
        ensures same { (self.new.seat.table_id ≡ self.old.seat.table_id) × (self.new.most ≡ self.old.most) }
        ensures enrolled { MatchOption result
            ((self.old.given ≡ self.old.most) × (self.new.given ≡ self.old.given))
            (λ seat. (self.old.given < self.old.most) × (self.new.given ≡ self.old.given + 1)
            × (seat ≡ enrolled_seat self.old.seat.table_id (self.old.given + 1))) }
    {
        if self.given == self.most {
            return None;
        }
        let word = enrol_word(table.slot_count());
        let number = table.shared.fetch_add::<Enrol>(&mut self.seat, word, 1);
        let seat = table.shared.split_seat::<SplitOff>(&mut self.seat);
        self.given += 1;
        Some(TableSeat {
            table,
            number: number as u16,
            seat,
        })
    }
}
