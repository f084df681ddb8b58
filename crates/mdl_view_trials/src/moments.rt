//! Moments of a timeline, made from rows.
use mdl_picture::{Event, Fate, Held, Moment};
use std::alloc::Global;

/// A lock that a session holds: the session, the mode, and the lock.
pub(crate) type HeldRow = (u16, &'static str, &'static str);

/// An event of a session: its line, its words and its answer, the sessions that are in its way, and what is held after it.
pub(crate) struct EventRow {
    pub(crate) line: u64,
    pub(crate) session: u16,
    pub(crate) statement: &'static [u8],
    pub(crate) answer: &'static [u8],
    pub(crate) fate: Fate,
    pub(crate) in_the_way: &'static [u16],
    pub(crate) held: &'static [HeldRow],
}

/// A line, the session that it belongs to, and the events at it.
pub(crate) type MomentRow = (u64, u16, &'static [EventRow]);

// Adds a lock that is held. Whether there was memory for it.
fn add_held(alloc: Global, held: &mut Vec<Held>, (session, mode, lock): HeldRow) -> bool {
    let mut one = Held {
        session,
        mode: Vec::new(alloc),
        lock: Vec::new(alloc),
    };
    let is_filled = one.mode.extend_from_slice(mode.as_bytes()).is_ok()
        && one.lock.extend_from_slice(lock.as_bytes()).is_ok();
    held.push(one).is_ok() && is_filled
}

fn add_all_held(alloc: Global, held: &mut Vec<Held>, rows: &[HeldRow]) -> bool {
    for row in rows {
        if !add_held(alloc, held, *row) {
            return false;
        }
    }
    true
}

// Gives an event the words and lists of a row. Whether there was memory for them.
fn fill(alloc: Global, event: &mut Event, row: &EventRow) -> bool {
    event.statement.extend_from_slice(row.statement).is_ok()
        && event.answer.extend_from_slice(row.answer).is_ok()
        && event.in_the_way.extend_from_slice(row.in_the_way).is_ok()
        && add_all_held(alloc, &mut event.held, row.held)
}

// Adds an event. Whether there was memory for it.
fn add_event(alloc: Global, events: &mut Vec<Event>, row: &EventRow) -> bool {
    let mut event = Event {
        line: row.line,
        session: row.session,
        statement: Vec::new(alloc),
        answer: Vec::new(alloc),
        fate: row.fate,
        in_the_way: Vec::new(alloc),
        held: Vec::new(alloc),
    };
    let is_filled = fill(alloc, &mut event, row);
    events.push(event).is_ok() && is_filled
}

fn add_events(alloc: Global, events: &mut Vec<Event>, rows: &[EventRow]) -> bool {
    for row in rows {
        if !add_event(alloc, events, row) {
            return false;
        }
    }
    true
}

// Adds a moment. Whether there was memory for it.
fn add_moment(alloc: Global, moments: &mut Vec<Moment>, (line, session, rows): MomentRow) -> bool {
    let mut moment = Moment {
        line,
        session,
        events: Vec::new(alloc),
    };
    let is_filled = add_events(alloc, &mut moment.events, rows);
    moments.push(moment).is_ok() && is_filled
}

/// Adds moments. Whether there was memory for them.
pub(crate) fn add_moments(alloc: Global, moments: &mut Vec<Moment>, rows: &[MomentRow]) -> bool {
    for row in rows {
        if !add_moment(alloc, moments, *row) {
            return false;
        }
    }
    true
}
