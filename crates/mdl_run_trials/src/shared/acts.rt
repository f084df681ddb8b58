//! Calls of a session and their replies, as the rows of tests have them.

use crate::shared::audits::{Shown, are_shown};
use crate::shared::columns::{adding, table};
use mdl_calls::{
    Attempt, Begun, Ended, Held, Place, Poll, Search, Settled, SpaceError, TicketId, TimedOut,
    Upgrade,
};
use mdl_defs::{Change, Definition, VersionedDefinition};
use mdl_key::{Key, KeyError, Mode};
use mdl_shared::{Fast, Released, Session};
use mdl_word::Word;
use std::alloc::Global;
use std::sync::Wait;

/// A lock: the global one, the schema `shop`, some of its tables, of which many have only a number, or a table of another schema.
#[derive(Clone, Copy)]
pub(crate) enum Lock {
    Global,
    Shop,
    Sales,
    Orders,
    Goods,
    Games,
    Numbered(u16),
}

impl Lock {
    /// Returns the lock's key.
    pub(crate) fn key(self, alloc: Global) -> Result<Key, KeyError> {
        match self {
            Lock::Global => Ok(Key::global(alloc)),
            Lock::Shop => Key::schema(alloc, "shop"),
            Lock::Sales => Key::table(alloc, "shop", "sales"),
            Lock::Orders => Key::table(alloc, "shop", "orders"),
            Lock::Goods => Key::table(alloc, "shop", "goods"),
            Lock::Games => Key::table(alloc, "toys", "games"),
            Lock::Numbered(number) => numbered(alloc, number),
        }
    }
}

// Returns the key of the table of a number.
fn numbered(alloc: Global, number: u16) -> Result<Key, KeyError> {
    match format!(in alloc; "t{number}") {
        Ok(name) => Key::table(alloc, "shop", &name),
        Err(_) => Err(KeyError::OutOfMemory),
    }
}

/// A change of a key's definition.
#[derive(Clone, Copy)]
pub(crate) enum Edit {
    CreateSchema,
    PutSchema,
    // Of one column, which has this name.
    CreateTable(&'static str),
    PutTable(&'static str),
    AddColumn(&'static str),
    Drop,
}

impl Edit {
    // Returns the change, unless memory runs out.
    fn change(self, alloc: Global) -> Option<Change> {
        match self {
            Edit::CreateSchema => Some(Change::Create(Definition::Schema)),
            Edit::PutSchema => Some(Change::Put(Definition::Schema)),
            Edit::CreateTable(column) => match table(alloc, column) {
                Some(definition) => Some(Change::Create(definition)),
                None => None,
            },
            Edit::PutTable(column) => match table(alloc, column) {
                Some(definition) => Some(Change::Put(definition)),
                None => None,
            },
            Edit::AddColumn(column) => adding(alloc, column),
            Edit::Drop => Some(Change::Drop),
        }
    }
}

/// What a session may do.
#[derive(Clone, Copy)]
pub(crate) enum Act {
    Resolve(Lock),
    Unpin(Place),
    Try(Place, Mode),
    // It tries without the latch.
    TryFast(Place, Mode),
    Upgrade(TicketId, Mode),
    Downgrade(TicketId, Mode),
    Clone(TicketId, Mode),
    Merge(TicketId, TicketId),
    Release(TicketId),
    ReleaseFast(TicketId),
    // It tries for a fast ticket this number of times. The reply is that of the last time.
    TryFastOften(Place, Mode, u32),
    // It releases all its tickets, and counts them.
    ReleaseAll,
    // Its fast tickets become slow ones.
    Materialise,
    // It makes room for this number of tickets.
    Reserve(usize),
    Read(TicketId),
    Change(TicketId, Edit),
    // It puts a schema this number of times. The reply is that of the last time.
    PutOften(TicketId, u32),
    // It asks for the tables of `shop`, and counts them.
    Tables,
    // Whether its tickets are these.
    Holds(&'static [Held]),
    // Whether the key of a place is this lock's.
    Names(Place, Lock),
    // Whether an audit returns just these books.
    Audit(&'static [Shown]),
    Begin(Place, Mode),
    Poll,
    TimeOut,
    End,
    // It kills the wait of a session that has this number.
    Kill(u16, u64),
    WaitOf(u16),
    // It reschedules a place that it knows.
    Reschedule(Place),
    // Whether it owes a place a reschedule.
    Owes(Place),
    // It reads the version of a place that it knows.
    Version(Place),
    // It looks for a deadlock.
    Search,
}

/// The reply to an act.
#[derive(Clone, Copy, PartialEq)]
pub(crate) enum Reply {
    Place(Place),
    Granted(TicketId),
    Obtruded(Word),
    Contended(Word),
    Limit,
    WouldWait,
    Upgraded,
    Done,
    // Its ticket is released. Whether it owes the place a reschedule.
    Owes(bool),
    Version(u64),
    // There is no definition, and the version is 0.
    New,
    // The definition is a schema, of this version.
    Schema(u64),
    // The definition is a table, or it was dropped. The number is the version.
    Other(u64),
    Count(usize),
    Is(bool),
    Waiting(u64),
    Pending,
    Settled(Settled),
    Ended(Ended),
    Wait(Option<u64>),
    NoCycle,
    Victim(u16),
    // Memory was refused to its fast ticket, for which there was no room.
    NoRoom,
    Refused(SpaceError),
}

/// Makes an act. Returns the reply.
pub(crate) fn make<R: Wait>(alloc: Global, session: &mut Session<R>, act: Act) -> Reply {
    match act {
        Act::Resolve(lock) => resolve(alloc, session, lock),
        Act::Unpin(place) => done(session.unpin(place)),
        Act::Try(place, mode) => attempted(session.try_now(place, mode)),
        Act::TryFast(place, mode) => tried_fast(session.try_fast(place, mode)),
        Act::Upgrade(id, mode) => upgraded(session.upgrade_now(id, mode)),
        Act::Downgrade(id, mode) => done(session.downgrade(id, mode)),
        Act::Clone(id, mode) => cloned(session.clone_ticket(id, mode)),
        Act::Merge(old, new) => done(session.merge(old, new)),
        Act::Release(id) => done(session.release(id)),
        Act::ReleaseFast(id) => released(session.release_fast(id)),
        Act::TryFastOften(place, mode, times) => try_fast_often(session, place, mode, times),
        Act::ReleaseAll => release_all(session),
        Act::Materialise => done(session.materialise()),
        Act::Reserve(count) => done(session.reserve_tickets(count)),
        Act::Read(id) => read(session, id),
        Act::Change(id, edit) => change(alloc, session, id, edit),
        Act::PutOften(id, times) => put_often(alloc, session, id, times),
        Act::Tables => count_tables(session),
        Act::Holds(tickets) => holds(session, tickets),
        Act::Names(place, lock) => names(alloc, session, place, lock),
        Act::Audit(books) => audit(alloc, session, books),
        Act::Begin(place, mode) => begun(session.begin_wait(place, mode)),
        Act::Poll => polled(session.poll_wait()),
        Act::TimeOut => timed_out(session.settle_timeout()),
        Act::End => ended(session.end_wait()),
        Act::Kill(target, wait) => Reply::Is(session.kill(target, wait)),
        Act::WaitOf(target) => Reply::Wait(session.wait_of(target)),
        Act::Reschedule(place) => reschedule(session, place),
        Act::Owes(place) => Reply::Is(session.owes(place)),
        Act::Version(place) => version(session, place),
        Act::Search => searched(session.search_deadlock()),
    }
}

/// Whether memory may be refused to acts.
#[derive(Clone, Copy)]
pub(crate) enum Memory {
    Ample,
    /// Once. The act is made again then, if it may take memory.
    Scarce,
}

/// Makes an act, and makes it again if memory is scarce, the act may take some, and it ran out. Returns the last reply.
pub(crate) fn make_at_last<R: Wait>(
    alloc: Global,
    session: &mut Session<R>,
    act: Act,
    memory: Memory,
) -> Reply {
    let reply = make(alloc, session, act);
    match memory {
        Memory::Scarce if reply == NO_MEMORY && may_take_memory(act) => make(alloc, session, act),
        _ => reply,
    }
}

/// The reply to an act that ran out of memory.
pub(crate) const NO_MEMORY: Reply = Reply::Refused(SpaceError::OutOfMemory);

// Whether an act may take memory. The end of a pin, a release, fast or not, a downgrade, a change that defines a schema and a drop take none, nor do a
// poll, a timeout, a kill, the end of a wait and the question what is owed. A merge and an upgrade take none if no ticket is fast, and an upgrade to a
// mode that the ticket covers never takes any. An act that reschedules asks for the key of the place first, which takes some. Fast tickets take none if
// room was made before.
fn may_take_memory(act: Act) -> bool {
    match act {
        Act::Resolve(_)
        | Act::Try(_, _)
        | Act::Clone(_, _)
        | Act::Read(_)
        | Act::Change(_, Edit::CreateTable(_) | Edit::PutTable(_) | Edit::AddColumn(_))
        | Act::Tables
        | Act::Holds(_)
        | Act::Names(_, _)
        | Act::Audit(_)
        | Act::Begin(_, _)
        | Act::ReleaseAll
        | Act::Reschedule(_)
        | Act::Version(_)
        | Act::Materialise
        | Act::Reserve(_)
        | Act::Search => true,
        _ => false,
    }
}

fn attempted(outcome: Result<Attempt, SpaceError>) -> Reply {
    match outcome {
        Ok(Attempt::Granted(id)) => Reply::Granted(id),
        Ok(Attempt::WouldWait) => Reply::WouldWait,
        Err(why) => Reply::Refused(why),
    }
}

fn upgraded(outcome: Result<Upgrade, SpaceError>) -> Reply {
    match outcome {
        Ok(Upgrade::Upgraded) => Reply::Upgraded,
        Ok(Upgrade::WouldWait) => Reply::WouldWait,
        Err(why) => Reply::Refused(why),
    }
}

fn cloned(outcome: Result<TicketId, SpaceError>) -> Reply {
    match outcome {
        Ok(id) => Reply::Granted(id),
        Err(why) => Reply::Refused(why),
    }
}

fn done(outcome: Result<(), SpaceError>) -> Reply {
    match outcome {
        Ok(()) => Reply::Done,
        Err(why) => Reply::Refused(why),
    }
}

fn changed(outcome: Result<u64, SpaceError>) -> Reply {
    match outcome {
        Ok(version) => Reply::Version(version),
        Err(why) => Reply::Refused(why),
    }
}

fn begun(outcome: Result<Begun, SpaceError>) -> Reply {
    match outcome {
        Ok(Begun::Granted(id)) => Reply::Granted(id),
        Ok(Begun::Waiting(wait)) => Reply::Waiting(wait),
        Err(why) => Reply::Refused(why),
    }
}

fn polled(outcome: Result<Poll, SpaceError>) -> Reply {
    match outcome {
        Ok(Poll::Pending) => Reply::Pending,
        Ok(Poll::Settled(how)) => Reply::Settled(how),
        Err(why) => Reply::Refused(why),
    }
}

fn timed_out(outcome: Result<TimedOut, SpaceError>) -> Reply {
    match outcome {
        Ok(TimedOut::ByThisCall) => Reply::Done,
        Ok(TimedOut::Already(how)) => Reply::Settled(how),
        Err(why) => Reply::Refused(why),
    }
}

fn ended(outcome: Result<Ended, SpaceError>) -> Reply {
    match outcome {
        Ok(how) => Reply::Ended(how),
        Err(why) => Reply::Refused(why),
    }
}

fn searched(outcome: Result<Search, SpaceError>) -> Reply {
    match outcome {
        Ok(Search::NoCycle) => Reply::NoCycle,
        Ok(Search::Victim(session)) => Reply::Victim(session),
        Err(why) => Reply::Refused(why),
    }
}

fn released(outcome: Result<Released, SpaceError>) -> Reply {
    match outcome {
        Ok(Released { owes }) => Reply::Owes(owes),
        Err(why) => Reply::Refused(why),
    }
}

fn release_all<R: Wait>(session: &mut Session<R>) -> Reply {
    let Ok(held) = session.held() else {
        return NO_MEMORY;
    };
    let mut reply = Reply::Count(held.len());
    for ticket in &held {
        if let Err(why) = session.release(ticket.id) {
            reply = Reply::Refused(why);
        }
    }
    drop(held);
    reply
}

fn reschedule<R: Wait>(session: &mut Session<R>, place: Place) -> Reply {
    match session.key_of(place) {
        Ok(key) => {
            drop(key);
            session.reschedule(place);
            Reply::Done
        }
        Err(why) => Reply::Refused(why),
    }
}

fn version<R>(session: &mut Session<R>, place: Place) -> Reply {
    match session.key_of(place) {
        Ok(key) => {
            drop(key);
            Reply::Version(session.version(place))
        }
        Err(why) => Reply::Refused(why),
    }
}

fn try_fast_often<R>(session: &mut Session<R>, place: Place, mode: Mode, times: u32) -> Reply {
    let mut last = Reply::Done;
    for _ in 0..times {
        last = tried_fast(session.try_fast(place, mode));
    }
    last
}

fn tried_fast(outcome: Result<Fast, SpaceError>) -> Reply {
    match outcome {
        Ok(Fast::Granted(id)) => Reply::Granted(id),
        Ok(Fast::Obtruded(word)) => Reply::Obtruded(word),
        Ok(Fast::Contended(word)) => Reply::Contended(word),
        Ok(Fast::Limit) => Reply::Limit,
        Err(SpaceError::OutOfMemory) => Reply::NoRoom,
        Err(why) => Reply::Refused(why),
    }
}

fn resolve<R: Wait>(alloc: Global, session: &mut Session<R>, lock: Lock) -> Reply {
    let Ok(key) = lock.key(alloc) else {
        return NO_MEMORY;
    };
    let outcome = session.resolve(&key);
    drop(key);
    match outcome {
        Ok(place) => Reply::Place(place),
        Err(why) => Reply::Refused(why),
    }
}

fn read<R: Wait>(session: &mut Session<R>, id: TicketId) -> Reply {
    match session.read_definition(id) {
        Ok(standing) => {
            let reply = standing_reply(&standing);
            drop(standing);
            reply
        }
        Err(why) => Reply::Refused(why),
    }
}

fn standing_reply(standing: &VersionedDefinition) -> Reply {
    match standing {
        VersionedDefinition {
            version: 0,
            definition: None,
        } => Reply::New,
        VersionedDefinition {
            version,
            definition: Some(Definition::Schema),
        } => Reply::Schema(*version),
        _ => Reply::Other(standing.version),
    }
}

fn change<R: Wait>(alloc: Global, session: &mut Session<R>, id: TicketId, edit: Edit) -> Reply {
    match edit.change(alloc) {
        Some(change) => {
            let outcome = session.change_definition(id, &change);
            drop(change);
            changed(outcome)
        }
        None => NO_MEMORY,
    }
}

fn put_often<R: Wait>(alloc: Global, session: &mut Session<R>, id: TicketId, times: u32) -> Reply {
    let mut last = Reply::Done;
    for _ in 0..times {
        last = change(alloc, session, id, Edit::PutSchema);
    }
    last
}

fn count_tables<R: Wait>(session: &mut Session<R>) -> Reply {
    match session.tables_of("shop") {
        Ok(places) => {
            let count = places.len();
            drop(places);
            Reply::Count(count)
        }
        Err(why) => Reply::Refused(why),
    }
}

fn holds<R>(session: &Session<R>, tickets: &[Held]) -> Reply {
    match session.held() {
        Ok(held) => {
            let is_so = held.as_slice() == tickets;
            drop(held);
            Reply::Is(is_so)
        }
        Err(why) => Reply::Refused(why),
    }
}

fn names<R>(alloc: Global, session: &mut Session<R>, place: Place, lock: Lock) -> Reply {
    let Ok(key) = lock.key(alloc) else {
        return NO_MEMORY;
    };
    let reply = named_so(session, place, &key);
    drop(key);
    reply
}

// Whether this is the key of a place.
fn named_so<R>(session: &mut Session<R>, place: Place, key: &Key) -> Reply {
    match session.key_of(place) {
        Ok(named) => {
            let is_so = named == *key;
            drop(named);
            Reply::Is(is_so)
        }
        Err(why) => Reply::Refused(why),
    }
}

fn audit<R: Wait>(alloc: Global, session: &mut Session<R>, books: &[Shown]) -> Reply {
    match session.audit() {
        Ok(audited) => {
            let reply = are_shown(alloc, &audited, books);
            drop(audited);
            reply
        }
        Err(why) => Reply::Refused(why),
    }
}
