//! Sessions that make random calls of every kind, over the locks of some tables, wait with short patience, look for deadlocks and kill each
//! other's waits, for some seconds and until enough waits were settled. Meanwhile another session checks all books each tenth of a second.
use crate::shared::acts::{Act, Edit, Lock, Reply, make};
use crate::shared::chance::Chance;
use crate::shared::clashes::{are_lawful, are_of};
use crate::shared::tally::Tally;
use mdl_calls::{Ended, Held, Place, Settled, SpaceError, TicketId};
use mdl_key::Mode;
use mdl_shared::{Audited, Session};
use std::alloc::Global;
use std::sync::Wait;
use std::sync::atomic::{AtomicBool, AtomicU64, Ordering};
use std::thread;
use std::time::{Clock, Duration, Instant};

// How many milliseconds the sessions make calls at least and at most, and how many pass between two audits of the session that watches.
const LEAST_SPAN: u64 = 3_000;

const MOST_SPAN: u64 = 40_000;

const PAUSE: u64 = 100;

// How many calls a session makes at most, and how many of them pass until it reads the clock, and until it checks all books.
const CALLS: u32 = 1_000_000_000;

const UNTIMED: u32 = 100;

const UNWATCHED: u32 = 5_000;

const MOST_HELD: usize = 4;

// How many turns a session waits at most, in a game with many waits and in another one, and how many it holds the lock in X at most.
const SHORT_PATIENCE: usize = 12;

const PATIENCE: usize = 120;

const TURNS: usize = 12;

// From how many draws the calls without a ticket are chosen, in a game with many waits and in another one. Seven of them may wait.
const FEW_DRAWS: usize = 12;

const DRAWS: usize = 40;

// How often a session tries for a fast ticket that it keeps.
const KEPT: u32 = 40;

/// A session's random numbers, the number of tables, how many waits have to be settled, how often it changed each table and the last version that
/// it saw of each, and how waits ended.
#[derive(Drop)]
pub(crate) struct Player {
    alloc: Global,
    chance: Chance,
    tables: u16,
    wanted: u64,
    pub(crate) tally: Tally,
    changes: [u64; 8],
    seen: [u64; 8],
}

impl Player {
    /// Returns the player of the session of a number.
    pub(crate) fn new(alloc: Global, number: u16, tables: u16, wanted: u64) -> Player {
        Player {
            alloc,
            chance: Chance::new(number),
            tables,
            wanted,
            tally: Tally::new(alloc),
            changes: [0; 8],
            seen: [0; 8],
        }
    }

    /// Returns how often it changed a table. Tables are counted from 0 here.
    pub(crate) fn changes(&self, table: usize) -> u64 {
        self.changes.get(table).copied().unwrap_or(0)
    }

    // Returns one number if many waits are wanted, and else the other.
    fn choose(&self, with_waits: usize, without: usize) -> usize {
        if self.wanted > 0 { with_waits } else { without }
    }

    // Returns the place of a random table.
    fn draw(&mut self) -> Place {
        let drawn = self.chance.below(usize::from(self.tables));
        u16::try_from(drawn).unwrap_or(0).saturating_add(1)
    }

    // Notes a version that was read of a place's table. Whether it is no less than the one before.
    fn see(&mut self, place: Place, version: u64) -> bool {
        match self.seen.get_mut(usize::from(place).wrapping_sub(1)) {
            Some(seen) if *seen <= version => {
                *seen = version;
                true
            }
            _ => false,
        }
    }

    // Notes a change, which has brought a place's table to a version. Whether that is no less than the one before.
    fn count(&mut self, place: Place, version: u64) -> bool {
        if let Some(changes) = self.changes.get_mut(usize::from(place).wrapping_sub(1)) {
            *changes = changes.saturating_add(1);
        }
        self.see(place, version)
    }
}

/// Whether a call was made, or refused because of what it requested.
pub(crate) fn was_answered(reply: Reply) -> bool {
    match reply {
        Reply::Refused(why) => matches!(
            why,
            SpaceError::NotUpgradable | SpaceError::NotExclusive | SpaceError::BadMode
        ),
        Reply::NoRoom => false,
        _ => true,
    }
}

// Makes one call of any kind. This function and those that it calls return whether all went well: nothing was refused that must not be, and what
// was read is possible.
fn make_call<R: Wait>(session: &mut Session<R>, player: &mut Player, taken: &AtomicBool) -> bool {
    let Ok(held) = session.held() else {
        return false;
    };
    match player.chance.ticket(&held) {
        Some(ticket) if held.len() >= MOST_HELD || player.chance.below(3) > 0 => {
            use_ticket(session, player, ticket, &held)
        }
        _ => ask(session, player, taken, &held),
    }
}

// Requests a lock, pins a place anew, lists the tables, or kills a wait.
fn ask<R: Wait>(
    session: &mut Session<R>,
    player: &mut Player,
    taken: &AtomicBool,
    held: &[Held],
) -> bool {
    let place = player.draw();
    let draws = player.choose(FEW_DRAWS, DRAWS);
    let act = match player.chance.below(draws) {
        0 => return pin_anew(session, player, place, held),
        1 => Act::Tables,
        2 => return kill(session, player),
        3..=7 => {
            let mode = player.chance.mode();
            return gain(session, player, place, mode).is_some();
        }
        8..=9 => return write(session, player, taken),
        10..=19 => Act::TryFast(place, player.chance.mode()),
        _ => Act::Try(place, player.chance.mode()),
    };
    was_answered(make(player.alloc, session, act))
}

// Reads a place's key and gives up the pin, which is refused if the session has a ticket there. Otherwise it can request no lock there until it has
// looked the key up again.
fn pin_anew<R: Wait>(
    session: &mut Session<R>,
    player: &mut Player,
    place: Place,
    held: &[Held],
) -> bool {
    let lock = Lock::Numbered(place);
    if make(player.alloc, session, Act::Names(place, lock)) != Reply::Is(true) {
        return false;
    }
    match make(player.alloc, session, Act::Unpin(place)) {
        Reply::Done => {
            let mode = player.chance.mode();
            let refused = make(player.alloc, session, Act::Try(place, mode));
            let found = make(player.alloc, session, Act::Resolve(lock));
            !has_ticket_at(held, place)
                && refused == Reply::Refused(SpaceError::NoPlace)
                && found == Reply::Place(place)
        }
        Reply::Refused(SpaceError::InUse) => has_ticket_at(held, place),
        _ => false,
    }
}

fn has_ticket_at(held: &[Held], place: Place) -> bool {
    for ticket in held {
        if ticket.place == place {
            return true;
        }
    }
    false
}

// Kills the wait of some session, if it has one. Sometimes it uses the number of the wait before, which mostly kills none.
fn kill<R: Wait>(session: &mut Session<R>, player: &mut Player) -> bool {
    let target = u16::try_from(player.chance.below(17)).unwrap_or(0);
    let wait = match make(player.alloc, session, Act::WaitOf(target)) {
        Reply::Wait(Some(wait)) if player.chance.below(4) == 0 => wait.saturating_sub(1),
        Reply::Wait(Some(wait)) => wait,
        Reply::Wait(None) => return true,
        _ => return false,
    };
    match make(player.alloc, session, Act::Kill(target, wait)) {
        Reply::Is(true) => player.tally.kill(target, wait),
        Reply::Is(false) => true,
        _ => false,
    }
}

// Looks for a deadlock.
fn search<R: Wait>(session: &mut Session<R>, player: &mut Player) -> bool {
    match make(player.alloc, session, Act::Search) {
        Reply::NoCycle => {}
        Reply::Victim(victim) => player.tally.fell(victim),
        _ => return false,
    }
    true
}

// Looks for a deadlock, or kills some session's wait, between two turns. Mostly does nothing.
fn meddle<R: Wait>(session: &mut Session<R>, player: &mut Player) -> bool {
    match player.chance.below(64) {
        0..=1 => kill(session, player),
        2..=9 => search(session, player),
        _ => true,
    }
}

// Requests the first lock in X. The session holds it for some turns, in which no other session does, and releases it.
fn write<R: Wait>(session: &mut Session<R>, player: &mut Player, taken: &AtomicBool) -> bool {
    match gain(session, player, 1, Mode::X) {
        Some(Some(own)) => {
            let alone = !taken.swap(true, Ordering::SeqCst);
            let mut well = true;
            for _ in 0..player.chance.below(TURNS) {
                well = meddle(session, player) && well;
            }
            taken.store(false, Ordering::SeqCst);
            make(player.alloc, session, Act::Release(own)) == Reply::Done && alone && well
        }
        Some(None) => true,
        None => false,
    }
}

// Requests a lock, and waits for it with some patience if it can't be granted at once. Returns its ticket, if the session gets it, or `None` if
// something goes wrong.
fn gain<R: Wait>(
    session: &mut Session<R>,
    player: &mut Player,
    place: Place,
    mode: Mode,
) -> Option<Option<TicketId>> {
    match make(player.alloc, session, Act::Begin(place, mode)) {
        Reply::Granted(id) => Some(Some(id)),
        Reply::Waiting(wait) => wait_for(session, player, wait),
        Reply::Refused(SpaceError::BadMode) => Some(None),
        _ => None,
    }
}

// Polls the wait until it is settled or patience is lost, and ends it. Returns its ticket, if it is granted, or `None` if something goes wrong.
fn wait_for<R: Wait>(
    session: &mut Session<R>,
    player: &mut Player,
    wait: u64,
) -> Option<Option<TicketId>> {
    if !player.tally.is_next(wait) {
        return None;
    }
    let looked = look_on(session, player)?;
    let settled = settle(session, player, wait);
    if looked != Reply::Pending && looked != settled {
        return None;
    }
    let Reply::Ended(ended) = make(player.alloc, session, Act::End) else {
        return None;
    };
    let how = settlement(ended);
    if !player.tally.end(how) || settled != Reply::Settled(how) {
        return None;
    }
    match ended {
        Ended::Granted(id) => Some(Some(id)),
        _ => Some(None),
    }
}

// Returns how a wait was settled that ended so.
fn settlement(ended: Ended) -> Settled {
    match ended {
        Ended::Granted(_) => Settled::Granted,
        Ended::Victim => Settled::Victim,
        Ended::Timeout => Settled::Timeout,
        Ended::Killed => Settled::Killed,
    }
}

// Polls the wait for some turns. Returns how it is settled, or that it is pending, or `None` if something goes wrong.
fn look_on<R: Wait>(session: &mut Session<R>, player: &mut Player) -> Option<Reply> {
    let patience = player.choose(SHORT_PATIENCE, PATIENCE);
    for _ in 0..player.chance.below(patience) {
        let looked = make(player.alloc, session, Act::Poll);
        if looked != Reply::Pending {
            return Some(looked);
        }
        if !meddle(session, player) {
            return None;
        }
    }
    Some(Reply::Pending)
}

// Settles the wait as a timeout if it isn't settled yet, and lets the other threads run then. Returns how it is settled.
fn settle<R: Wait>(session: &mut Session<R>, player: &mut Player, wait: u64) -> Reply {
    match make(player.alloc, session, Act::TimeOut) {
        Reply::Done if player.tally.lose_patience(wait) => {
            thread::yield_now();
            Reply::Settled(Settled::Timeout)
        }
        settled => settled,
    }
}

// Makes a call with a ticket.
fn use_ticket<R: Wait>(
    session: &mut Session<R>,
    player: &mut Player,
    ticket: Held,
    held: &[Held],
) -> bool {
    let Held { id, place, .. } = ticket;
    let mode = player.chance.mode();
    let act = match player.chance.below(11) {
        0 => Act::Clone(id, mode),
        1 => Act::Upgrade(id, mode),
        2 => Act::Downgrade(id, mode),
        3 => match player.chance.ticket(held) {
            Some(other) => Act::Merge(id, other.id),
            None => return false,
        },
        4 => Act::Read(id),
        5 => Act::Change(id, Edit::PutTable("number")),
        6..=8 => Act::ReleaseFast(id),
        _ => Act::Release(id),
    };
    let reply = make(player.alloc, session, act);
    follow(session, player, place, act, reply)
}

// Notes the reply to a call with a ticket. Makes the reschedule that a fast release owes. A fast release may refuse a ticket that isn't fast. A
// read is never refused.
fn follow<R: Wait>(
    session: &mut Session<R>,
    player: &mut Player,
    place: Place,
    act: Act,
    reply: Reply,
) -> bool {
    match (act, reply) {
        (Act::Change(_, _), Reply::Version(version)) => player.count(place, version),
        (Act::Read(_), Reply::New) => player.see(place, 0),
        (Act::Read(_), Reply::Other(version)) => player.see(place, version),
        (Act::Read(_), _) => false,
        (Act::ReleaseFast(_), Reply::Owes(true)) => {
            was_answered(make(player.alloc, session, Act::Reschedule(place)))
        }
        (Act::ReleaseFast(_), reply) => {
            matches!(
                reply,
                Reply::Owes(false) | Reply::Refused(SpaceError::NotHeld)
            )
        }
        _ => was_answered(reply),
    }
}

// Whether the books are lawful, and have just the tickets that the session holds, none of which is fast.
fn are_right<R>(session: &Session<R>, books: &[Audited]) -> bool {
    match session.held() {
        Ok(held) => are_lawful(books) && are_of(books, session.number(), &held),
        Err(_) => false,
    }
}

// Makes the session's fast tickets slow, and then checks all books.
fn audit<R: Wait>(alloc: Global, session: &mut Session<R>) -> bool {
    if make(alloc, session, Act::Materialise) != Reply::Done {
        return false;
    }
    match session.audit() {
        Ok(books) => are_right(session, &books),
        Err(_) => false,
    }
}

/// Checks all books, and releases all tickets of the session.
pub(crate) fn leave<R: Wait>(alloc: Global, session: &mut Session<R>) -> bool {
    let audited = audit(alloc, session);
    matches!(make(alloc, session, Act::ReleaseAll), Reply::Count(_)) && audited
}

/// Looks up `tables` tables, which get the places from 1 on in this order.
pub(crate) fn look_all_up<R: Wait>(alloc: Global, session: &mut Session<R>, tables: u16) -> bool {
    let mut all = true;
    for number in 1..=tables {
        let looked_up = make(alloc, session, Act::Resolve(Lock::Numbered(number)));
        all = all && was_answered(looked_up);
    }
    all
}

// Tries for fast tickets, and keeps those that it gets.
fn keep_some<R: Wait>(session: &mut Session<R>, player: &mut Player) -> bool {
    for _ in 0..KEPT {
        let act = Act::TryFast(player.draw(), player.chance.mode());
        if !was_answered(make(player.alloc, session, act)) {
            return false;
        }
    }
    true
}

// Whether a game that began then goes on, with so many waits settled.
fn goes_on<R: Clock>(rt: &R, player: &Player, start: Instant, settled: u64) -> bool {
    let span = if settled < player.wanted {
        MOST_SPAN
    } else {
        LEAST_SPAN
    };
    match start.elapsed(rt) {
        Ok(elapsed) => elapsed < Duration::from_millis(span),
        Err(_) => false,
    }
}

// Adds the waits that a session had since it had `counted`, and returns how many all sessions had.
fn add_waits(player: &Player, counted: u64, settled: &AtomicU64) -> u64 {
    let more = player.tally.waits().saturating_sub(counted);
    settled
        .fetch_add(more, Ordering::SeqCst)
        .saturating_add(more)
}

// Makes all calls of a player.
fn make_calls<R: Wait + Clock>(
    rt: &R,
    session: &mut Session<&R>,
    player: &mut Player,
    taken: &AtomicBool,
    settled: &AtomicU64,
) -> bool {
    let Ok(start) = Instant::now(rt) else {
        return false;
    };
    let (mut well, mut counted) = (true, 0);
    for call in 0..CALLS {
        if call % UNTIMED == 0 {
            let all = add_waits(player, counted, settled);
            counted = player.tally.waits();
            if !goes_on(rt, player, start, all) {
                break;
            }
        }
        well = make_call(session, player, taken)
            && (call % UNWATCHED != 0 || audit(player.alloc, session));
        if !well {
            break;
        }
    }
    well
}

/// Plays a session's part: it makes all its calls, checks all books, releases all its tickets, and gets some fast ones and no others.
pub(crate) fn play<R: Wait + Clock>(
    rt: &R,
    session: &mut Session<&R>,
    player: &mut Player,
    taken: &AtomicBool,
    settled: &AtomicU64,
) -> bool {
    look_all_up(player.alloc, session, player.tables)
        && make_calls(rt, session, player, taken, settled)
        && leave(player.alloc, session)
        && keep_some(session, player)
}

/// Checks all books from time to time, until the game is over.
pub(crate) fn watch<R: Wait + Clock>(
    rt: &R,
    session: &mut Session<&R>,
    player: &Player,
    settled: &AtomicU64,
) -> bool {
    let Ok(start) = Instant::now(rt) else {
        return false;
    };
    for _ in 0..CALLS {
        thread::sleep(rt, Duration::from_millis(PAUSE));
        if !audit(player.alloc, session) {
            return false;
        }
        if !goes_on(rt, player, start, settled.load(Ordering::SeqCst)) {
            break;
        }
    }
    true
}
