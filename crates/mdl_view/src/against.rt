//! Which sessions block requests at a lock. What is found of a mode is kept, since many requests are for one mode.
ghost use Rattle.std.specs.Prelude.{◌≡◌, ◌||◌, ℕ, IfOk};
ghost use Rattle.std.specs.List.{list_any};
ghost use Rattle.mdl_view.specs.Blockings.{is_blocked};
ghost use Rattle.mdl_view.specs.GoingOn.{goes_on, is_gone, no_ticket};
ghost use Rattle.mdl_view.specs.Passes.{AreKnown};
ghost use Rattle.mdl_view.specs.SessionSets.{AreAgainst, IsFew, has, holds_apart, some_apart, taken_by, waits_apart};

use crate::act::Act;
use crate::few_sessions::FewSessions;
use crate::lock::Lock;
use crate::lock_mode::{LockMode, lock_clashes, lock_waits_behind};
use crate::session_set::SessionSet;
use crate::ticket::Ticket;
use std::alloc::{AllocError, Global};

/// The sessions whose tickets block requests for a mode.
#[derive(Clone, Copy, Debug, PartialEq, Eq)]
pub(crate) struct ModeSessions {
    /// The mode.
    pub(crate) mode: LockMode,
    /// The sessions.
    pub(crate) sessions: FewSessions,
}

/// Whether a ticket has gone: the act took it, or its session has ended.
pub(crate) fn is_gone(act: Option<Act>, ended: &SessionSet, ticket: Ticket) -> bool
    ensures { result ≡ is_gone (taken_by act) (has ended.now) ticket }
{
    match act {
        Some(act) => act.takes(ticket) || ended.contains(ticket.session),
        None => ended.contains(ticket.session),
    }
}

/// Whether some ticket blocks a request.
pub(crate) fn is_blocked(
    alloc: Global,
    known: &mut Vec<ModeSessions>,
    lock: &Lock,
    ask: Ticket,
) -> Result<bool, AllocError>
    requires { AreKnown lock.now no_ticket known.old.items }
    ensures known { AreKnown lock.now no_ticket known.new.items }
    ensures value { IfOk result (λ blocked. blocked ≡ is_blocked lock.now ask) }
{
    let sessions = blocking_sessions(alloc, known, lock, ask.mode)?;
    Ok(sessions.has_other(ask.session))
}

/// Whether a wait goes on, when what the act takes and the tickets of these sessions have gone.
pub(crate) fn goes_on(
    alloc: Global,
    known: &mut Vec<ModeSessions>,
    left: &mut Vec<ModeSessions>,
    lock: &Lock,
    act: Option<Act>,
    ended: &SessionSet,
    ask: Ticket,
) -> Result<bool, AllocError>
    requires known { AreKnown lock.now no_ticket known.old.items }
    requires left { AreKnown lock.now (is_gone (taken_by act) (has ended.now)) left.old.items }
    ensures known { AreKnown lock.now no_ticket known.new.items }
    ensures left { AreKnown lock.now (is_gone (taken_by act) (has ended.now)) left.new.items }
    ensures value { IfOk result (λ goes. goes ≡ goes_on (is_gone (taken_by act) (has ended.now)) lock.now ask) }
{
    if is_gone(act, ended, ask) {
        return Ok(false);
    }
    if !is_blocked(alloc, known, lock, ask)? {
        return Ok(false);
    }
    let sessions = sessions_against(left, lock, act, ended, ask.mode)?;
    Ok(!sessions.has_other(ask.session))
}

/// The sessions whose tickets block a mode.
pub(crate) fn blocking_sessions(
    alloc: Global,
    known: &mut Vec<ModeSessions>,
    lock: &Lock,
    mode: LockMode,
) -> Result<FewSessions, AllocError>
    requires { AreKnown lock.now no_ticket known.old.items }
    ensures known { AreKnown lock.now no_ticket known.new.items }
    ensures sessions { IfOk result (AreAgainst lock.now no_ticket mode) }
{
    let nobody = SessionSet::new(alloc);
    sessions_against(known, lock, None, &nobody, mode)
}

// The sessions whose tickets block a mode and haven't gone.
fn sessions_against(
    known: &mut Vec<ModeSessions>,
    lock: &Lock,
    act: Option<Act>,
    ended: &SessionSet,
    mode: LockMode,
) -> Result<FewSessions, AllocError>
    requires { AreKnown lock.now (is_gone (taken_by act) (has ended.now)) known.old.items }
    ensures known { AreKnown lock.now (is_gone (taken_by act) (has ended.now)) known.new.items }
    ensures sessions { IfOk result (AreAgainst lock.now (is_gone (taken_by act) (has ended.now)) mode) }
{
    for one in known.iter() {
        if one.mode == mode {
            return Ok(one.sessions);
        }
    }
    let sessions = found_against(lock, act, ended, mode);
    known.push(ModeSessions { mode, sessions })?;
    Ok(sessions)
}

// The sessions whose tickets block a mode and haven't gone, found ticket by ticket.
fn found_against(lock: &Lock, act: Option<Act>, ended: &SessionSet, mode: LockMode) -> FewSessions
    ensures { AreAgainst lock.now (is_gone (taken_by act) (has ended.now)) mode result }
{
    let holding = with_granted(FewSessions::Nobody, lock, act, ended, mode);
    with_waiting(holding, lock, act, ended, mode)
}

// Notes the sessions of the granted tickets that clash with a mode and haven't gone.
fn with_granted(
    few: FewSessions,
    lock: &Lock,
    act: Option<Act>,
    ended: &SessionSet,
    mode: LockMode,
) -> FewSessions
    requires { IsFew few }
    ensures few { IsFew result }
    ensures apart { (one other : ℕ) → some_apart result one other
        ≡ (some_apart few one other || list_any (holds_apart lock.now (is_gone (taken_by act) (has ended.now)) mode one other) lock.now.granted) }
{
    let mut noted = few;
    for held in lock.granted() {
        noted = with_held(noted, lock, act, ended, mode, *held);
    }
    noted
}

// Notes the session of a granted ticket, if it clashes with a mode and hasn't gone.
fn with_held(
    few: FewSessions,
    lock: &Lock,
    act: Option<Act>,
    ended: &SessionSet,
    mode: LockMode,
    held: Ticket,
) -> FewSessions
    requires { IsFew few }
    ensures few { IsFew result }
    ensures apart { (one other : ℕ) → some_apart result one other
        ≡ (some_apart few one other || holds_apart lock.now (is_gone (taken_by act) (has ended.now)) mode one other held) }
{
    let clashes = lock_clashes(lock.kind(), mode, held.mode);
    few.with_if(clashes, is_gone(act, ended, held), held.session)
}

// Notes the sessions of the waiting tickets that a mode waits behind and that haven't gone.
fn with_waiting(
    few: FewSessions,
    lock: &Lock,
    act: Option<Act>,
    ended: &SessionSet,
    mode: LockMode,
) -> FewSessions
    requires { IsFew few }
    ensures few { IsFew result }
    ensures apart { (one other : ℕ) → some_apart result one other
        ≡ (some_apart few one other || list_any (waits_apart lock.now (is_gone (taken_by act) (has ended.now)) mode one other) lock.now.waiting) }
{
    let mut noted = few;
    for pending in lock.waiting() {
        noted = with_pending(noted, lock, act, ended, mode, *pending);
    }
    noted
}

// Notes the session of a waiting ticket, if a mode waits behind it and it hasn't gone.
fn with_pending(
    few: FewSessions,
    lock: &Lock,
    act: Option<Act>,
    ended: &SessionSet,
    mode: LockMode,
    pending: Ticket,
) -> FewSessions
    requires { IsFew few }
    ensures few { IsFew result }
    ensures apart { (one other : ℕ) → some_apart result one other
        ≡ (some_apart few one other || waits_apart lock.now (is_gone (taken_by act) (has ended.now)) mode one other pending) }
{
    let behind = lock_waits_behind(lock.kind(), mode, pending.mode);
    few.with_if(behind, is_gone(act, ended, pending), pending.session)
}
