//! What happens at the lines of a script.
use std::marker::Model;

/// The state in which an event leaves its statement.
#[derive(Clone, Copy, Debug, PartialEq, Eq)]
pub enum Fate {
    /// It begins to wait.
    Waits,
    /// It is done.
    Ends,
    /// It is ended by an error.
    Fails,
    /// It is refused, since its session waits for another one.
    Busy,
}

/// A lock that a session holds.
#[derive(Drop)]
pub struct Held {
    /// The session.
    pub session: u16,
    /// The mode, as `SR`.
    pub mode: Vec<u8>,
    /// The lock's name, as `TABLE test.orders`.
    pub lock: Vec<u8>,
}

impl Model for Held {
    ghost use Rattle.mdl_picture.specs.Moments.{HeldView};

    ghost Value = { HeldView };

    ghost view = { λ held. record {
      session = held.session;
      mode = held.mode.items;
      lock = held.lock.items;
    } };
}

/// What happens to a statement at a moment.
#[derive(Drop)]
pub struct Event {
    /// The line of the statement.
    pub line: u64,
    /// The session that it belongs to.
    pub session: u16,
    /// The statement's words if the moment is that of its own line, otherwise empty.
    pub statement: Vec<u8>,
    /// The answer that is printed.
    pub answer: Vec<u8>,
    /// The state in which the event leaves the statement.
    pub fate: Fate,
    /// The sessions that block the statement if it begins to wait, in order of their numbers. Empty otherwise.
    pub in_the_way: Vec<u16>,
    /// The locks that sessions hold right after the event.
    pub held: Vec<Held>,
}

impl Model for Event {
    ghost use Rattle.mdl_picture.specs.Moments.{EventView};

    ghost Value = { EventView };

    ghost view = { λ event. record {
      line = event.line;
      session = event.session;
      statement = event.statement.items;
      answer = event.answer.items;
      fate = event.fate;
      in_the_way = event.in_the_way.items;
      held = event.held.items;
    } };
}

/// What happens at a line of a script.
#[derive(Drop)]
pub struct Moment {
    /// The line.
    pub line: u64,
    /// The session that it belongs to.
    pub session: u16,
    /// What happens to statements, in order.
    pub events: Vec<Event>,
}

impl Model for Moment {
    ghost use Rattle.mdl_picture.specs.Moments.{MomentView};

    ghost Value = { MomentView };

    ghost view = { λ moment. record {
      line = moment.line;
      session = moment.session;
      events = moment.events.items;
    } };
}
