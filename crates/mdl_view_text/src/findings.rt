//! What the answer to `why` says, before it is put into words.
ghost use Rattle.std.specs.Prelude.{◌≡◌, ◌+◌, ◌-◌, filter, length, map, take, IfOk};
ghost use Rattle.std.specs.List.{All, list_any};
ghost use Rattle.mdl_view.specs.Acts.{target_of};
ghost use Rattle.mdl_view.specs.Ways.{blockers_of};
ghost use Rattle.mdl_view_text.specs.Findings.{AreFindings, Follows, Needs, act_against, is_wanted, most_found, outlasts, wait_of, waits_among, way_of};

use mdl_view::{
    Act, AtLock, Lock, LockKind, Ticket, Way, at_once, blocked_waits, blockers, held_by, in_turn,
    joint_waits, lock_clashes, stuck_waits, unexplained_waits, ways,
};
use std::alloc::{AllocError, Global};

// The greatest number of ways, and of waits, that are described.
const MOST_FOUND: usize = 8;

/// A way out, and what follows from it.
#[derive(Drop)]
pub struct WayFound {
    /// The way.
    pub way: Way,
    /// What its session holds.
    pub held: Vec<AtLock>,
    /// Those of it at whose locks somebody waits.
    pub wanted: Vec<AtLock>,
    /// The waits that are granted at once.
    pub at_once: Vec<AtLock>,
    /// The waits that end in turn.
    pub in_turn: Vec<AtLock>,
}

/// A wait, and what it needs to go on.
#[derive(Drop)]
pub struct BlockedWait {
    /// The wait.
    pub at: AtLock,
    /// How many sessions block it.
    pub blockers: usize,
    /// For the first eight of them, the act by which it no longer does.
    pub acts: Vec<Act>,
}

/// What is found about a table of locks. Of a kind at most eight are described.
#[derive(Drop)]
pub struct Findings {
    /// How many requests wait.
    pub waits: u64,
    /// How many of them some ticket blocks.
    pub blocked: usize,
    /// The waits for which no ticket shows a reason.
    pub unexplained: Vec<AtLock>,
    /// The ways out, the best first.
    pub ways: Vec<WayFound>,
    /// How many more ways there are.
    pub more_ways: usize,
    /// The waits that no way ends, since several sessions block them.
    pub joint: Vec<BlockedWait>,
    /// How many more such waits there are.
    pub more_joint: usize,
    /// The waits that are in a deadlock, or behind one.
    pub stuck: Vec<BlockedWait>,
    /// How many such waits there are in all.
    pub stuck_count: usize,
}

/// Finds the ways out of the waits at these locks, the waits that several sessions block, those in deadlocks, and those that can't be explained.
pub fn find(alloc: Global, locks: &[Lock]) -> Result<Findings, AllocError>
    ensures { IfOk result (λ found. AreFindings locks.now found) }
{
    let all = ways(alloc, locks)?;
    let joint = joint_waits(alloc, locks, &all)?;
    let stuck = stuck_waits(alloc, locks)?;
    Ok(Findings {
        waits: waits_among(locks)?,
        blocked: blocked_waits(alloc, locks)?.len(),
        unexplained: unexplained_waits(alloc, locks)?,
        ways: described(alloc, locks, first_of(&all))?,
        more_ways: all.len().saturating_sub(MOST_FOUND),
        joint: blocked(alloc, locks, first_of(&joint))?,
        more_joint: joint.len().saturating_sub(MOST_FOUND),
        stuck: blocked(alloc, locks, first_of(&stuck))?,
        stuck_count: stuck.len(),
    })
}

// The first of some facts, which are described.
fn first_of<T>(facts: &[T]) -> &[T]
    ensures { result.now ≡ take most_found facts.now }
{
    if facts.len() <= MOST_FOUND {
        return facts;
    }
    &facts[..MOST_FOUND]
}

// The number of requests that wait. It can't overflow, since all are in memory. If it did, that would count as out of memory.
fn waits_among(locks: &[Lock]) -> Result<u64, AllocError>
    ensures { IfOk result (λ count. count ≡ waits_among locks.now) }
{
    let mut count = 0u64;
    for lock in locks {
        count = match count.checked_add(lock.waiting().len() as u64) {
            Some(count) => count,
            None => return Err(AllocError),
        };
    }
    Ok(count)
}

// These ways, each with what follows from it.
fn described(alloc: Global, locks: &[Lock], ways: &[Way]) -> Result<Vec<WayFound>, AllocError>
    ensures same { IfOk result (λ found. map way_of found.items ≡ ways.now) }
    ensures each { IfOk result (λ found. All (Follows locks.now) found.items) }
{
    let mut found = Vec::new(alloc);
    for way in ways {
        found.push(follow(alloc, locks, *way)?)?;
    }
    Ok(found)
}

// What follows from a way.
fn follow(alloc: Global, locks: &[Lock], way: Way) -> Result<WayFound, AllocError>
    ensures same { IfOk result (λ found. found.way ≡ way) }
    ensures follows { IfOk result (λ found. Follows locks.now found) }
{
    let held = held_by(alloc, locks, target_of(way.act))?;
    Ok(WayFound {
        way,
        wanted: wanted(alloc, locks, &held)?,
        held,
        at_once: at_once(alloc, locks, way.act)?,
        in_turn: in_turn(alloc, locks, way.act)?,
    })
}

// Those of these tickets at whose locks somebody waits.
fn wanted(alloc: Global, locks: &[Lock], held: &[AtLock]) -> Result<Vec<AtLock>, AllocError>
    ensures { IfOk result (λ found. found.items ≡ filter (is_wanted locks.now) held.now) }
{
    let mut found = Vec::new(alloc);
    for at in held {
        if is_wanted(locks, *at) {
            found.push(*at)?;
        }
    }
    Ok(found)
}

// Whether somebody waits at the lock of a ticket.
fn is_wanted(locks: &[Lock], at: AtLock) -> bool
    ensures { result ≡ is_wanted locks.now at }
{
    match locks.get(at.lock) {
        Some(lock) => !lock.waiting().is_empty(),
        None => false,
    }
}

/// Returns the session that an act is about.
pub(crate) fn target_of(act: Act) -> usize
    ensures { result ≡ target_of act }
{
    match act {
        Act::Kill(session) => session,
        Act::KillQuery(session) => session,
    }
}

// These waits, each with what it needs to go on.
fn blocked(alloc: Global, locks: &[Lock], waits: &[AtLock]) -> Result<Vec<BlockedWait>, AllocError>
    ensures same { IfOk result (λ found. map wait_of found.items ≡ waits.now) }
    ensures each { IfOk result (λ found. All (Needs locks.now) found.items) }
{
    let mut found = Vec::new(alloc);
    for at in waits {
        found.push(needs(alloc, locks, *at)?)?;
    }
    Ok(found)
}

// What a wait needs to go on.
fn needs(alloc: Global, locks: &[Lock], at: AtLock) -> Result<BlockedWait, AllocError>
    ensures same { IfOk result (λ wait. wait.at ≡ at) }
    ensures needs { IfOk result (λ wait. Needs locks.now wait) }
{
    match locks.get(at.lock) {
        Some(lock) => needs_at(alloc, lock, at),
        None => needs_at(alloc, &Lock::new(alloc, LockKind::Object), at),
    }
}

// What a wait at this lock needs to go on.
fn needs_at(alloc: Global, lock: &Lock, at: AtLock) -> Result<BlockedWait, AllocError>
    ensures { IfOk result (λ wait. (wait.at ≡ at) × (wait.blockers ≡ length (blockers_of lock.now at.ticket))
        × (wait.acts.items ≡ map (act_against lock.now at.ticket) (take most_found (blockers_of lock.now at.ticket)))) }
{
    let sessions = blockers(alloc, lock, at.ticket)?;
    Ok(BlockedWait {
        at,
        blockers: sessions.len(),
        acts: acts_against(alloc, lock, at.ticket, first_of(&sessions))?,
    })
}

// The acts by which these sessions no longer block a request.
fn acts_against(
    alloc: Global,
    lock: &Lock,
    ask: Ticket,
    sessions: &[usize],
) -> Result<Vec<Act>, AllocError>
    ensures { IfOk result (λ acts. acts.items ≡ map (act_against lock.now ask) sessions.now) }
{
    let mut acts = Vec::new(alloc);
    for session in sessions {
        acts.push(act_against(lock, ask, *session))?;
    }
    Ok(acts)
}

// The act by which a session no longer blocks a request: that which costs it less.
fn act_against(lock: &Lock, ask: Ticket, session: usize) -> Act
    ensures { result ≡ act_against lock.now ask session }
{
    if holds_past_statement(lock, lock.granted(), ask, session) {
        Act::Kill(session)
    } else {
        Act::KillQuery(session)
    }
}

// Whether one of these granted tickets of a session blocks a request, and stays if the session's statement is killed.
fn holds_past_statement(lock: &Lock, granted: &[Ticket], ask: Ticket, session: usize) -> bool
    ensures { result ≡ list_any (outlasts lock.now ask session) granted.now }
{
    granted
        .iter()
        .any(|held| outlasts(lock, ask, session, *held))
}

// Whether a granted ticket is a session's, blocks a request, and stays if the session's statement is killed.
fn outlasts(lock: &Lock, ask: Ticket, session: usize, held: Ticket) -> bool
    ensures { result ≡ outlasts lock.now ask session held }
{
    held.session == session
        && held.session != ask.session
        && lock_clashes(lock.kind(), ask.mode, held.mode)
        && !held.of_statement
}
