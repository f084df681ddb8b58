//! Locks as they are held by now: a server's rows show the mode with which a ticket was made, and not to which it was upgraded.
ghost use Rattle.std.specs.Prelude.{◌≡◌, ◌++◌, map, filter, find, IfOk, OnOk};
ghost use Rattle.std.specs.List.{list_all, list_any};
ghost use Rattle.mdl_view.specs.Blockings.{is_unexplained};
ghost use Rattle.mdl_view.specs.Upgrades.{by_now, explains_all, held_for, in_mode, is_upgraded, later_modes, may_block, unexplained_at, upgrade_of, upgrades_at, upgrades_in, would_block};

use crate::blocking::holds_against;
use crate::lock::Lock;
use crate::lock_mode::{BackupMode, LockMode};
use crate::ticket::Ticket;
use crate::waits::is_unexplained;
use mdl_key::Mode;
use std::alloc::{AllocError, Global};

/// Returns locks as they are held by now, in their order. Rows show the mode that a ticket had at first: an `ALTER TABLE` that copies rows shows
/// SU, and holds SNW or X. So a granted ticket that may be the reason for a wait which the shown modes don't explain is in the first later mode
/// that explains it.
pub fn by_now(alloc: Global, locks: &[Lock]) -> Result<Vec<Lock>, AllocError>
    ensures { IfOk result (λ held. held.items ≡ map by_now locks.now) }
{
    let mut held = Vec::new(alloc);
    for lock in locks {
        held.push(lock_by_now(alloc, lock)?)?;
    }
    Ok(held)
}

/// A granted ticket that is taken for upgraded.
#[derive(Clone, Copy, Debug, PartialEq, Eq)]
pub struct Upgrade {
    /// The index of its lock among those examined, counted from 0.
    pub lock: usize,
    /// The ticket as its row shows it.
    pub ticket: Ticket,
    /// The mode that it is taken to have by now.
    pub now: LockMode,
}

/// Returns the granted tickets that [`by_now`] changes, lock by lock.
pub fn upgrades(alloc: Global, locks: &[Lock]) -> Result<Vec<Upgrade>, AllocError>
    ensures { IfOk result (λ found. found.items ≡ upgrades_in 0 locks.now) }
{
    let mut found = Vec::new(alloc);
    for (place, lock) in locks.iter().enumerate() {
        let waits = unexplained_at(alloc, lock)?;
        add_upgrades(&mut found, place, lock, &waits)?;
    }
    Ok(found)
}

// Adds the tickets of a lock that are taken for upgraded, where these waits can't be explained.
#[tactic(auto, unfolding(crate::specs::Upgrades::upgrades_at))]
fn add_upgrades(
    found: &mut Vec<Upgrade>,
    place: usize,
    lock: &Lock,
    waits: &[Ticket],
) -> Result<(), AllocError>
    requires { waits.now ≡ unexplained_at lock.now }
    ensures { OnOk result (found.new.items ≡ found.old.items ++ upgrades_at place lock.now) }
{
    for held in lock.granted() {
        if is_upgraded(lock, waits, *held) {
            found.push(upgrade_of(place, lock, waits, *held))?;
        }
    }
    Ok(())
}

// A granted ticket that is taken for upgraded, where these waits can't be explained.
fn upgrade_of(place: usize, lock: &Lock, waits: &[Ticket], held: Ticket) -> Upgrade
    requires { waits.now ≡ unexplained_at lock.now }
    ensures { result ≡ upgrade_of place lock.now held }
{
    Upgrade {
        lock: place,
        ticket: held,
        now: held_for(lock, waits, held).mode,
    }
}

// A lock as it is held by now.
#[tactic(auto, unfolding(crate::specs::Upgrades::by_now))]
fn lock_by_now(alloc: Global, lock: &Lock) -> Result<Lock, AllocError>
    ensures { IfOk result (λ held. held ≡ by_now lock.now) }
{
    let waits = unexplained_at(alloc, lock)?;
    let granted = granted_by_now(alloc, lock, &waits)?;
    lock.with_granted(alloc, granted)
}

// The waits at a lock that its shown modes can't explain.
fn unexplained_at(alloc: Global, lock: &Lock) -> Result<Vec<Ticket>, AllocError>
    ensures { IfOk result (λ waits. waits.items ≡ unexplained_at lock.now) }
{
    let few = lock.sample(alloc)?;
    unexplained_of(alloc, &few, lock.waiting())
}

// Those of these requests that no ticket of a lock explains.
fn unexplained_of(alloc: Global, lock: &Lock, asks: &[Ticket]) -> Result<Vec<Ticket>, AllocError>
    ensures { IfOk result (λ waits. waits.items ≡ filter (is_unexplained lock.now) asks.now) }
{
    let mut waits = Vec::new(alloc);
    for ask in asks {
        if is_unexplained(lock, *ask) {
            waits.push(*ask)?;
        }
    }
    Ok(waits)
}

// The granted tickets of a lock as they are held by now, where these waits can't be explained.
fn granted_by_now(alloc: Global, lock: &Lock, waits: &[Ticket]) -> Result<Vec<Ticket>, AllocError>
    ensures { IfOk result (λ granted. granted.items ≡ map (held_for lock.now waits.now) lock.now.granted) }
{
    let mut granted = Vec::new(alloc);
    for held in lock.granted() {
        granted.push(held_for(lock, waits, *held))?;
    }
    Ok(granted)
}

// A granted ticket as it is held by now, where these waits can't be explained.
fn held_for(lock: &Lock, waits: &[Ticket], held: Ticket) -> Ticket
    ensures { result ≡ held_for lock.now waits.now held }
{
    if !is_upgraded(lock, waits, held) {
        return held;
    }
    match first_explaining(lock, waits, held) {
        Some(mode) => in_mode(held, mode),
        None => held,
    }
}

// Whether a granted ticket may be the reason for some of these waits.
fn is_upgraded(lock: &Lock, waits: &[Ticket], held: Ticket) -> bool
    ensures { result ≡ is_upgraded lock.now waits.now held }
{
    waits.iter().any(|ask| may_block(lock, held, *ask))
}

// The first later mode of a granted ticket that explains each of these waits that some later mode explains.
fn first_explaining(lock: &Lock, waits: &[Ticket], held: Ticket) -> Option<LockMode>
    ensures { result ≡ find (explains_all lock.now held waits.now) (later_modes held.mode) }
{
    for mode in later_modes(held.mode) {
        if explains_all(lock, waits, held, *mode) {
            return Some(*mode);
        }
    }
    None
}

// Whether a mode explains each of these waits that some later mode of a granted ticket explains.
fn explains_all(lock: &Lock, waits: &[Ticket], held: Ticket, mode: LockMode) -> bool
    ensures { result ≡ explains_all lock.now held waits.now mode }
{
    waits.iter().all(|ask| !may_block(lock, held, *ask) || would_block(lock, held, mode, *ask))
}

// Whether a granted ticket, in some mode that it may have by now, would block a request.
fn may_block(lock: &Lock, held: Ticket, ask: Ticket) -> bool
    ensures { result ≡ may_block lock.now held ask }
{
    later_modes(held.mode)
        .iter()
        .any(|mode| would_block(lock, held, *mode, ask))
}

// Whether a granted ticket would block a request if it had this mode.
fn would_block(lock: &Lock, held: Ticket, mode: LockMode, ask: Ticket) -> bool
    ensures { result ≡ would_block lock.now held mode ask }
{
    holds_against(lock, ask, in_mode(held, mode))
}

// A ticket in another mode.
fn in_mode(ticket: Ticket, mode: LockMode) -> Ticket
    ensures { result ≡ in_mode ticket mode }
{
    Ticket { mode, ..ticket }
}

// The modes that a ticket may have by now if its row shows this one, in the order in which a statement reaches them.
fn later_modes(mode: LockMode) -> &'static [LockMode]
    ensures { result.now ≡ later_modes mode }
{
    match mode {
        LockMode::Mdl(Mode::SU) => &[LockMode::Mdl(Mode::SNW), LockMode::Mdl(Mode::X)],
        LockMode::Mdl(Mode::SNW | Mode::SNRW) => &[LockMode::Mdl(Mode::X)],
        LockMode::Backup(BackupMode::Ftwrl1) => &[LockMode::Backup(BackupMode::Ftwrl2)],
        LockMode::Backup(BackupMode::BlockDdl) => &[
            LockMode::Backup(BackupMode::Start),
            LockMode::Backup(BackupMode::Flush),
            LockMode::Backup(BackupMode::WaitFlush),
            LockMode::Backup(BackupMode::WaitDdl),
            LockMode::Backup(BackupMode::WaitCommit),
        ],
        _ => &[],
    }
}
