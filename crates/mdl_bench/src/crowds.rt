//! Many sessions of the table that threads share, on one thread. Either one holds a lock for which the others wait, or each waits for the next,
//! or each looks up a key for the first time.
use crate::failure::Failure;
use crate::guests::{Guest, open_all};
use crate::lap::spent_since;
use crate::places::look_table_up;
use crate::session::{has_place, take};
use crate::table::table;
use mdl_calls::{Begun, Ended, Place, Poll, Search, TicketId};
use mdl_key::{Key, MOST_PLACES, Mode};
use mdl_shared::Session;
use std::alloc::Global;
use std::sync::Wait;
use std::time::{Clock, Duration, Instant};

// The number of places of a lock table in which sessions look for deadlocks. Each has the key of a table.
const SEARCHED: u16 = 64;

/// What is done in a turn.
pub enum Crowd {
    /// A session releases X, and this number of sessions wait to read.
    Grant(u16),
    /// A session releases X, and this number of sessions wait for it. Each gets it from the one before, and releases it.
    Pass(u16),
    /// A session polls its wait.
    Poll,
    /// The first session of a chain looks for a deadlock. In it this number of sessions wait, each for the next one's lock.
    Search(u16),
    /// The last of this number of sessions that wait for one lock in X looks for a deadlock.
    Queue(u16),
    /// A session looks up a key, among this number of keys. Each turn it is another one, which knows no key.
    LookUp(u16),
}

impl Crowd {
    // Returns the number of places of the table, and the number of its sessions.
    fn size(&self) -> (u16, u16) {
        match self {
            Crowd::Grant(waiters) | Crowd::Pass(waiters) | Crowd::Queue(waiters) => {
                (1, waiters.saturating_add(1))
            }
            Crowd::Poll => (1, 2),
            Crowd::Search(waiters) => (SEARCHED, waiters.saturating_add(1)),
            Crowd::LookUp(_) => (MOST_PLACES, 64),
        }
    }

    // Times `turns` turns of the sessions of a new table.
    fn timed<R: Wait + Clock>(
        &self,
        rt: &R,
        alloc: Global,
        guests: &mut [Guest<'_, R>],
        turns: u32,
    ) -> Result<Duration, Failure> {
        let Some((first, others)) = guests.split_first_mut() else {
            return Err(Failure::Unexpected);
        };
        let first = &mut first.session;
        match self {
            Crowd::Grant(_) => time_grants(rt, alloc, first, others, turns),
            Crowd::Pass(_) => time_passes(rt, alloc, first, others, turns),
            Crowd::Poll => time_polls(rt, alloc, first, others, turns),
            Crowd::Search(_) => time_searches(rt, alloc, first, others, turns),
            Crowd::Queue(_) => time_searches_in_queue(rt, alloc, first, others, turns),
            Crowd::LookUp(keys) => time_look_ups(rt, alloc, first, others, *keys, turns),
        }
    }
}

/// Times `turns` turns. If the clock is read in each of them, its own time isn't counted.
pub fn time_crowd<R: Wait + Clock>(
    rt: &R,
    alloc: Global,
    crowd: &Crowd,
    turns: u32,
) -> Result<Duration, Failure> {
    let (places, sessions) = crowd.size();
    let mut guests = Vec::new(alloc);
    let spent = match open_all(rt, alloc, places, sessions, &mut guests) {
        Ok(()) => crowd.timed(rt, alloc, &mut guests, turns),
        Err(why) => Err(why),
    };
    drop(guests);
    spent
}

// Times `turns` releases of the lock that the others wait for.
fn time_grants<R: Wait + Clock>(
    rt: &R,
    alloc: Global,
    first: &mut Session<&R>,
    others: &mut [Guest<'_, R>],
    turns: u32,
) -> Result<Duration, Failure> {
    let place = meet(alloc, first, others)?;
    let mut spent = Duration::ZERO;
    for _turn in 0..turns {
        let id = fill(first, others, place, Mode::SR)?;
        spent = spent.saturating_add(time_release(rt, first, id)?);
        empty(others)?;
    }
    Ok(spent)
}

// Times `turns` chains of releases of X, each of which grants it to the next session.
fn time_passes<R: Wait + Clock>(
    rt: &R,
    alloc: Global,
    first: &mut Session<&R>,
    others: &mut [Guest<'_, R>],
    turns: u32,
) -> Result<Duration, Failure> {
    let place = meet(alloc, first, others)?;
    let mut spent = Duration::ZERO;
    for _turn in 0..turns {
        let id = fill(first, others, place, Mode::X)?;
        spent = spent.saturating_add(time_chain(rt, first, others, id)?);
    }
    Ok(spent)
}

// Returns how long it took until the first session and all others, one after another, had released the lock.
fn time_chain<R: Wait + Clock>(
    rt: &R,
    first: &mut Session<&R>,
    others: &mut [Guest<'_, R>],
    id: TicketId,
) -> Result<Duration, Failure> {
    let began = Instant::now(rt)?;
    first.release(id)?;
    empty(others)?;
    Ok(began.elapsed(rt)?)
}

// Has all sessions look up the same key. Returns its place.
fn meet<R: Wait>(
    alloc: Global,
    first: &mut Session<&R>,
    others: &mut [Guest<'_, R>],
) -> Result<Place, Failure> {
    for other in others {
        look_table_up(alloc, &mut other.session, 0, 0)?;
    }
    look_table_up(alloc, first, 0, 0)
}

// The first takes the lock in X, and all others begin to wait for it in a mode.
fn fill<R: Wait>(
    first: &mut Session<&R>,
    others: &mut [Guest<'_, R>],
    place: Place,
    mode: Mode,
) -> Result<TicketId, Failure> {
    let id = take(first, place, Mode::X)?;
    for other in others {
        wait_for(&mut other.session, place, mode)?;
    }
    Ok(id)
}

// Each ends its wait, which is granted, and releases the lock.
fn empty<R: Wait>(others: &mut [Guest<'_, R>]) -> Result<(), Failure> {
    for other in others {
        come_and_go(&mut other.session)?;
    }
    Ok(())
}

// Returns how long the release of a lock took, without the clock's own time.
fn time_release<R: Wait + Clock>(
    rt: &R,
    session: &mut Session<&R>,
    id: TicketId,
) -> Result<Duration, Failure> {
    let idle = Instant::now(rt)?.elapsed(rt)?;
    let began = Instant::now(rt)?;
    session.release(id)?;
    let spent = began.elapsed(rt)?;
    Ok(spent.saturating_sub(idle))
}

// Begins to wait for a lock that isn't free.
fn wait_for<R: Wait>(session: &mut Session<&R>, place: Place, mode: Mode) -> Result<(), Failure> {
    match session.begin_wait(place, mode)? {
        Begun::Waiting(_) => Ok(()),
        Begun::Granted(_) => Err(Failure::Unexpected),
    }
}

// Ends a session's wait, which is granted, and releases the lock.
fn come_and_go<R: Wait>(session: &mut Session<&R>) -> Result<(), Failure> {
    match session.end_wait()? {
        Ended::Granted(id) => Ok(session.release(id)?),
        _ => Err(Failure::Unexpected),
    }
}

// Times `turns` polls of a wait.
fn time_polls<R: Wait + Clock>(
    rt: &R,
    alloc: Global,
    first: &mut Session<&R>,
    others: &mut [Guest<'_, R>],
    turns: u32,
) -> Result<Duration, Failure> {
    let place = meet(alloc, first, others)?;
    fill(first, others, place, Mode::SR)?;
    let Some(second) = others.first_mut() else {
        return Err(Failure::Unexpected);
    };
    let began = Instant::now(rt)?;
    let pending = poll_often(&mut second.session, turns);
    spent_since(rt, began, pending, turns)
}

// Polls a wait `turns` times. Returns how often it was pending.
fn poll_often<R: Wait>(session: &mut Session<&R>, turns: u32) -> u32 {
    let mut pending = 0u32;
    for _turn in 0..turns {
        let is_pending = match session.poll_wait() {
            Ok(Poll::Pending) => true,
            _ => false,
        };
        pending = pending.wrapping_add(u32::from(is_pending));
    }
    pending
}

// Times `turns` searches for a deadlock by the first of a chain. Each place has a key.
fn time_searches<R: Wait + Clock>(
    rt: &R,
    alloc: Global,
    first: &mut Session<&R>,
    others: &mut [Guest<'_, R>],
    turns: u32,
) -> Result<Duration, Failure> {
    learn(alloc, first, SEARCHED)?;
    link(alloc, first, others)?;
    let began = Instant::now(rt)?;
    let untangled = search_often(first, turns);
    spent_since(rt, began, untangled, turns)
}

// Times `turns` searches for a deadlock by the last of those that wait for one lock.
fn time_searches_in_queue<R: Wait + Clock>(
    rt: &R,
    alloc: Global,
    first: &mut Session<&R>,
    others: &mut [Guest<'_, R>],
    turns: u32,
) -> Result<Duration, Failure> {
    let place = meet(alloc, first, others)?;
    fill(first, others, place, Mode::X)?;
    let Some(last) = others.last_mut() else {
        return Err(Failure::Unexpected);
    };
    let began = Instant::now(rt)?;
    let untangled = search_often(&mut last.session, turns);
    spent_since(rt, began, untangled, turns)
}

// Each takes the lock of its own table in X. Then each except the last begins to wait for the next one's lock.
fn link<R: Wait>(
    alloc: Global,
    first: &mut Session<&R>,
    others: &mut [Guest<'_, R>],
) -> Result<(), Failure> {
    take_own(alloc, first)?;
    for other in others.iter_mut() {
        take_own(alloc, &mut other.session)?;
    }
    wait_for_next(alloc, first)?;
    let waiters = others.len().saturating_sub(1);
    for other in others.iter_mut().take(waiters) {
        wait_for_next(alloc, &mut other.session)?;
    }
    Ok(())
}

// Takes the lock of the session's own table, which is free, in X.
fn take_own<R: Wait>(alloc: Global, session: &mut Session<&R>) -> Result<(), Failure> {
    let own = session.number().saturating_sub(1);
    let place = look_table_up(alloc, session, own, 0)?;
    take(session, place, Mode::X)?;
    Ok(())
}

// Begins to wait for the lock of the next session's table.
fn wait_for_next<R: Wait>(alloc: Global, session: &mut Session<&R>) -> Result<(), Failure> {
    let next = session.number();
    let place = look_table_up(alloc, session, next, 0)?;
    wait_for(session, place, Mode::SR)
}

// Looks `turns` times for a deadlock. Returns how often there was none.
fn search_often<R: Wait>(session: &mut Session<&R>, turns: u32) -> u32 {
    let mut untangled = 0u32;
    for _turn in 0..turns {
        let is_untangled = match session.search_deadlock() {
            Ok(Search::NoCycle) => true,
            _ => false,
        };
        untangled = untangled.wrapping_add(u32::from(is_untangled));
    }
    untangled
}

// Looks up `keys` keys. Returns the last place.
fn learn<R: Wait>(alloc: Global, session: &mut Session<&R>, keys: u16) -> Result<Place, Failure> {
    let mut place = 0;
    for index in 0..keys {
        place = look_table_up(alloc, session, index, 0)?;
    }
    Ok(place)
}

// Times look-ups of the last of `keys` keys, to which the first session gave a place. Each is by another session.
fn time_look_ups<R: Wait + Clock>(
    rt: &R,
    alloc: Global,
    first: &mut Session<&R>,
    others: &mut [Guest<'_, R>],
    keys: u16,
    turns: u32,
) -> Result<Duration, Failure> {
    let wanted = learn(alloc, first, keys)?;
    let key = table(alloc, keys.saturating_sub(1))?;
    let spent = look_up_by_each(rt, others, &key, wanted, turns);
    drop(key);
    spent
}

// The same once the key has its place.
fn look_up_by_each<R: Wait + Clock>(
    rt: &R,
    others: &mut [Guest<'_, R>],
    key: &Key,
    wanted: Place,
    turns: u32,
) -> Result<Duration, Failure> {
    let mut made = 0u32;
    let began = Instant::now(rt)?;
    for guest in others.iter_mut().take(turns as usize) {
        made = made.wrapping_add(u32::from(has_place(&mut guest.session, key, wanted)));
    }
    spent_since(rt, began, made, turns)
}
