//! Statements one after another, and what they have to give.
use crate::outcomes::Outcome;
use crate::used_up::room::{Lock, Room};
use mdl_defs::{Change, Column, Columns, Definition};
use mdl_key::Mode;
use mdl_space::TicketId;
use mdl_syntax::{Line, Script, parse};
use std::alloc::Global;
use std::mem::drop;

/// One step of a story.
#[derive(Clone, Copy)]
pub(crate) enum Row {
    /// A statement, its outcome, and how many tickets its session holds then.
    Says(&'static str, Outcome, usize),
    /// The second session has a lock, for which a statement waits until it is released, and then the outcome of the statement.
    Waits(&'static str, Lock, Mode, Outcome),
    /// The same, but the second session kills the wait, and then gives up the lock with its pin.
    Loses(&'static str, Lock, Mode, Outcome),
    /// The second session creates and drops a schema, or a table with a column `x`, until its key has had that many versions and is defined.
    Renews(Lock, u32),
    /// The second session looks up the place of a lock, and pins it.
    Pins(Lock),
    /// It gives that pin up.
    Unpins(Lock),
    /// The second session gets that many tickets of a lock, and keeps them.
    Crowds(Lock, Mode, u32),
    /// The second session releases the ticket that it got last.
    Leaves,
}

/// A name, how many places there are, and the rows, which begin with a new space.
pub(crate) type Story = (&'static str, u16, &'static [Row]);

/// Returns the index of the first row of a story that goes wrong. The index after the last row means that the session leaves something at its end.
pub(crate) fn first_wrong(alloc: Global, (_, places, rows): Story) -> Option<usize> {
    let Ok(room) = Room::new(alloc, places) else {
        return Some(rows.len());
    };
    let mut play = Play { room, newest: 0 };
    let mut wrong = None;
    for (index, row) in rows.iter().enumerate() {
        if wrong.is_none() && !play.goes_so(*row) {
            wrong = Some(index);
        }
    }
    if play.room.held_after_the_end() == Some(0) {
        wrong
    } else {
        wrong.or(Some(rows.len()))
    }
}

// A room, and the ticket that the second session got last.
#[derive(Drop)]
struct Play {
    room: Room,
    newest: TicketId,
}

impl Play {
    // Whether the row goes as it says.
    fn goes_so(&mut self, row: Row) -> bool {
        match row {
            Row::Says(text, want, held) => {
                self.says(text) == Some(want) && self.room.held() == Some(held)
            }
            Row::Waits(text, lock, mode, want) => self.waits(text, lock, mode) == Some(want),
            Row::Loses(text, lock, mode, want) => self.loses(text, lock, mode) == Some(want),
            Row::Renews(lock, count) => self.renews(lock, count) == Some(true),
            Row::Pins(lock) => self.room.place(lock).is_some(),
            Row::Unpins(lock) => self.unpins(lock) == Some(true),
            Row::Crowds(lock, mode, count) => self.crowds(lock, mode, count).is_some(),
            Row::Leaves => self.room.leave(self.newest),
        }
    }

    // Returns the outcome of a statement, which is dropped as soon as it has started.
    fn says(&mut self, text: &str) -> Option<Outcome> {
        let script = script_of(self.room.alloc, text)?;
        let outcome = self.starts(script.lines());
        drop(script);
        outcome
    }

    // Returns the outcome of the first of these lines.
    fn starts(&mut self, lines: &[Line]) -> Option<Outcome> {
        let line = lines.first()?;
        Some(self.room.start(&line.statement))
    }

    // Returns the outcome of a statement that waits until the second session releases a lock.
    fn waits(&mut self, text: &str, lock: Lock, mode: Mode) -> Option<Outcome> {
        let ticket = self.crowds(lock, mode, 1)?;
        let waits = self.says(text) == Some(Outcome::Waits)
            && self.room.go_on() == Some(Outcome::Waits)
            && self.room.leave(ticket);
        let outcome = self.room.go_on();
        if waits && self.room.go_on().is_none() {
            outcome
        } else {
            None
        }
    }

    // Returns the outcome of a statement whose wait for a lock of the second session is killed.
    fn loses(&mut self, text: &str, lock: Lock, mode: Mode) -> Option<Outcome> {
        let ticket = self.crowds(lock, mode, 1)?;
        let is_killed = self.says(text) == Some(Outcome::Waits) && self.room.kill();
        let outcome = self.room.go_on();
        if is_killed && self.room.leave(ticket) && self.unpins(lock) == Some(true) {
            outcome
        } else {
            None
        }
    }

    // Makes `count` versions of what a lock's key defines. Whether the second session has released the lock afterwards.
    fn renews(&mut self, lock: Lock, count: u32) -> Option<bool> {
        let put = Change::Put(definition_of(self.room.alloc, lock)?);
        let left = self.changes(lock, count, &put);
        drop(put);
        left
    }

    // The same, where every second change puts this definition and the others drop it.
    fn changes(&mut self, lock: Lock, count: u32, put: &Change) -> Option<bool> {
        let place = self.room.place(lock)?;
        let ticket = self.room.take(place, Mode::X)?;
        self.room.change(ticket, put)?;
        for left in (1..count).rev() {
            if left % 2 == 1 {
                self.room.change(ticket, put)?;
            } else {
                self.room.change(ticket, &Change::Drop)?;
            }
        }
        Some(self.room.leave(ticket))
    }

    // Whether the second session gives up its pin of the place of a lock.
    fn unpins(&mut self, lock: Lock) -> Option<bool> {
        let place = self.room.place(lock)?;
        Some(self.room.unpin(place))
    }

    // Gives the second session `count` tickets of a lock, and returns the last of them.
    fn crowds(&mut self, lock: Lock, mode: Mode, count: u32) -> Option<TicketId> {
        let place = self.room.place(lock)?;
        let first = self.room.take(place, mode)?;
        self.newest = first;
        for _copy in 1..count {
            self.newest = self.room.copy(first, mode)?;
        }
        Some(self.newest)
    }
}

// Returns a statement as a script of session 1.
fn script_of(alloc: Global, text: &str) -> Option<Script> {
    let line = format!(in alloc; "1 {text}").ok()?;
    parse(alloc, line.as_bytes()).ok()
}

// Returns a valid definition for the key of a lock, if there is one.
fn definition_of(alloc: Global, lock: Lock) -> Option<Definition> {
    match lock {
        Lock::Schema(_) => Some(Definition::Schema),
        Lock::Table(_) => one_column(alloc),
        Lock::Global | Lock::Commit | Lock::User(_) => None,
    }
}

// Returns a table with the one column `x`.
fn one_column(alloc: Global) -> Option<Definition> {
    let column = Column::new(alloc, "x").ok()?;
    let mut columns = Columns::new(alloc);
    match columns.push(column) {
        Ok(()) => Some(Definition::Table(columns)),
        Err(_) => None,
    }
}
