//! The answer to `why`: how many requests wait, what to type so that they go on, and which of them these rows don't explain.
ghost use Rattle.std.specs.Prelude.{◌≡◌, ◌++◌, ◌-◌, ◌+◌, ◌∷◌, [], codes, flat_map, length, take, OnOk, IfOk};
ghost use Rattle.mdl_view_text.specs.ActTexts.{act_lines};
ghost use Rattle.mdl_view_text.specs.Why.{acts_text, all_at_once, all_waits, all_words, and_more, deeper, effect_line, ends_words, first_blocker, granted_line, granted_lines, head_line, held_text, joint_head, joint_line, joint_start, joint_text, locks_words, mode_of, more_joint_line, more_ways_line, most_lines, number_start, other_text, others_line, others_start, passing, passing_line, so_that, start_text, stuck_head, stuck_line, stuck_text, stuck_words, ticket_line, ticket_lines, ticket_start, wait_words, way_head, way_text, ways_from, ways_head, ways_text, when_words, why_text};

use crate::act_texts::push_act;
use crate::findings::{BlockedWait, Findings, WayFound, target_of};
use crate::layout::push_line_with;
use crate::left_out::{push_left_out, waiting_among};
use crate::names::Names;
use crate::owners::push_runs;
use crate::text::{push_mode, push_numbered, push_session};
use crate::unexplained::{push_threads_note, push_unexplained};
use mdl_lines::{push, push_number};
use mdl_lock_rows::LeftOut;
use mdl_view::{Act, AtLock, LockMode, Way};
use std::alloc::{AllocError, Global};

// The greatest number of lines of a kind that are printed.
pub(crate) const MOST_LINES: usize = 8;

// What lines below a line of a ticket start with.
const DEEPER: &[u8] = b"      ";

/// Returns the answer to `why`: how many requests wait; for each way out what to type, how many waits end by it, what its session holds where
/// somebody waits, and who is granted what at once; the waits that go on only after several acts; those in deadlocks; and those that can't be
/// explained, with what to do about them. Only if no row waits it says so. Of a kind at most eight lines are printed, and then one that says how
/// many more there are. Names and statements are cut if a line would have more than 100 bytes.
pub fn why_text(
    alloc: Global,
    names: &Names,
    found: &Findings,
    left_out: &[LeftOut],
) -> Result<Vec<u8>, AllocError>
    ensures { IfOk result (λ text. text.items ≡ why_text names.now found.now left_out.now) }
{
    let mut out = Vec::new(alloc);
    push_start(&mut out, names, found, left_out)?;
    push_ways(&mut out, alloc, names, found)?;
    push_others(&mut out, alloc, names, found, left_out)?;
    push_left_out(&mut out, alloc, left_out)?;
    Ok(out)
}

/// Returns how many requests wait in all: those of the locks, and those of rows that aren't read. It can't overflow, since all are in memory.
/// If it did, that would count as out of memory.
pub(crate) fn all_waits(found: &Findings, left_out: &[LeftOut]) -> Result<u64, AllocError>
    ensures { IfOk result (λ count. count ≡ all_waits found.now left_out.now) }
{
    match found.waits.checked_add(waiting_among(left_out)?) {
        Some(count) => Ok(count),
        None => Err(AllocError),
    }
}

// Appends the first lines.
fn push_start(
    out: &mut Vec<u8>,
    names: &Names,
    found: &Findings,
    left_out: &[LeftOut],
) -> Result<(), AllocError>
    ensures { OnOk result (out.new.items ≡ out.old.items ++ start_text names.now found.now left_out.now) }
{
    push_threads_note(
        out,
        names,
        !found.ways.is_empty() || !found.joint.is_empty(),
    )?;
    push_head(out, all_waits(found, left_out)?, &found.ways)
}

// Appends how many requests wait, and whether there are ways out.
fn push_head(out: &mut Vec<u8>, count: u64, ways: &[WayFound]) -> Result<(), AllocError>
    ensures { OnOk result (out.new.items ≡ out.old.items ++ head_line count ways.now) }
{
    if count == 0 {
        return push(out, b"No session waits.\n");
    }
    push_wait_words(out, count)?;
    push(out, ways_head(ways))
}

// Appends how many requests wait.
fn push_wait_words(out: &mut Vec<u8>, count: u64) -> Result<(), AllocError>
    ensures { OnOk result (out.new.items ≡ out.old.items ++ wait_words count) }
{
    if count == 1 {
        return push(out, b"1 request waits");
    }
    push_number(out, count)?;
    push(out, b" requests wait")
}

// The rest of that line.
fn ways_head(ways: &[WayFound]) -> &'static [u8]
    ensures { result.now ≡ ways_head ways.now }
{
    if ways.is_empty() {
        b".\n"
    } else {
        b". Ways out, the best first. Do one, and look again:\n"
    }
}

// Appends the ways out, and the waits that several acts are needed for.
fn push_ways(
    out: &mut Vec<u8>,
    alloc: Global,
    names: &Names,
    found: &Findings,
) -> Result<(), AllocError>
    ensures { OnOk result (out.new.items ≡ out.old.items ++ ways_text names.now found.now) }
{
    push_each_way(out, alloc, names, &found.ways)?;
    push_more_ways(out, found.more_ways)?;
    push_each_joint(out, alloc, names, &found.ways, &found.joint)?;
    push_more_joint(out, found.more_joint)
}

// Appends each way out.
fn push_each_way(
    out: &mut Vec<u8>,
    alloc: Global,
    names: &Names,
    ways: &[WayFound],
) -> Result<(), AllocError>
    ensures { OnOk result (out.new.items ≡ out.old.items ++ ways_from names.now 0 ways.now) }
{
    for (place, way) in ways.iter().enumerate() {
        push_way(out, alloc, names, place, way)?;
    }
    Ok(())
}

// Appends a way out.
fn push_way(
    out: &mut Vec<u8>,
    alloc: Global,
    names: &Names,
    place: usize,
    found: &WayFound,
) -> Result<(), AllocError>
    ensures { OnOk result (out.new.items ≡ out.old.items ++ way_text names.now place found.now) }
{
    push_way_head(out, alloc, names, place, found.way)?;
    push_held(out, alloc, names, found)?;
    push_granted(out, alloc, names, &found.at_once)
}

// Appends what to type, and how many waits end by it.
fn push_way_head(
    out: &mut Vec<u8>,
    alloc: Global,
    names: &Names,
    place: usize,
    way: Way,
) -> Result<(), AllocError>
    ensures { OnOk result (out.new.items ≡ out.old.items ++ way_head names.now place way) }
{
    let start = number_start(alloc, place)?;
    push_act(out, alloc, names, &start, b"   ", way.act)?;
    push_effect(out, way)
}

// What the line of a way starts with: its number, counted from 1. It can't overflow, since all ways are in memory. If it did, that would count as
// out of memory.
fn number_start(alloc: Global, place: usize) -> Result<Vec<u8>, AllocError>
    ensures { IfOk result (λ start. start.items ≡ number_start place) }
{
    let Some(number) = (place as u64).checked_add(1) else {
        return Err(AllocError);
    };
    let mut start = Vec::new(alloc);
    push_numbered(&mut start, b"", number, b". ")?;
    Ok(start)
}

// Appends how many waits end by a way.
fn push_effect(out: &mut Vec<u8>, way: Way) -> Result<(), AllocError>
    ensures { OnOk result (out.new.items ≡ out.old.items ++ effect_line way) }
{
    push(out, b"   ")?;
    push_ends(out, way.in_turn)?;
    push_when(out, way.at_once, way.in_turn.saturating_sub(way.at_once))?;
    push(out, b"\n")
}

// Appends so many waits that end.
fn push_ends(out: &mut Vec<u8>, count: usize) -> Result<(), AllocError>
    ensures { OnOk result (out.new.items ≡ out.old.items ++ ends_words count) }
{
    if count == 1 {
        return push(out, b"1 wait ends");
    }
    push_number(out, count as u64)?;
    push(out, b" waits end")
}

// Appends when they do.
fn push_when(out: &mut Vec<u8>, at_once: usize, later: usize) -> Result<(), AllocError>
    ensures { OnOk result (out.new.items ≡ out.old.items ++ when_words at_once later) }
{
    if later == 0 {
        return push(out, all_at_once(at_once));
    }
    push_numbered(out, b": ", at_once as u64, b" at once, ")?;
    push_numbered(out, b"", later as u64, b" when those have ended")
}

// When waits end that all end at once.
fn all_at_once(count: usize) -> &'static [u8]
    ensures { result.now ≡ all_at_once count }
{
    if count == 1 {
        b" at once"
    } else {
        b", all at once"
    }
}

// Appends how many ways aren't printed.
fn push_more_ways(out: &mut Vec<u8>, more: usize) -> Result<(), AllocError>
    ensures { OnOk result (out.new.items ≡ out.old.items ++ more_ways_line more) }
{
    if more == 0 {
        return Ok(());
    }
    push_numbered(out, b"More ways, which are no better: ", more as u64, b"\n")
}

// Appends what the session of a way holds: the locks at which somebody waits, and how many others there are.
fn push_held(
    out: &mut Vec<u8>,
    alloc: Global,
    names: &Names,
    found: &WayFound,
) -> Result<(), AllocError>
    ensures { OnOk result (out.new.items ≡ out.old.items ++ held_text names.now found.now) }
{
    let listed = found.wanted.len();
    let others = found.held.len().saturating_sub(listed);
    push_tickets(out, alloc, names, b" holds ", b"", &found.wanted)?;
    push_others_held(out, names, target_of(found.way.act), listed, others)
}

// Appends how many locks a session holds at which nobody waits, behind a list of others.
fn push_others_held(
    out: &mut Vec<u8>,
    names: &Names,
    session: usize,
    listed: usize,
    others: usize,
) -> Result<(), AllocError>
    ensures { OnOk result (out.new.items ≡ out.old.items ++ others_line names.now session listed others) }
{
    if others == 0 {
        return Ok(());
    }
    push_others_start(out, names, session, listed)?;
    push_locks_words(out, others)?;
    push(out, b" at which nobody waits\n")
}

// Appends what that line starts with: the session, unless a line before has it.
fn push_others_start(
    out: &mut Vec<u8>,
    names: &Names,
    session: usize,
    listed: usize,
) -> Result<(), AllocError>
    ensures { OnOk result (out.new.items ≡ out.old.items ++ others_start names.now session listed) }
{
    if listed > 0 {
        return push(out, b"   and ");
    }
    push(out, b"   ")?;
    push_session(out, names, session)?;
    push(out, b" holds ")
}

// Appends so many locks.
fn push_locks_words(out: &mut Vec<u8>, count: usize) -> Result<(), AllocError>
    ensures { OnOk result (out.new.items ≡ out.old.items ++ locks_words count) }
{
    if count == 1 {
        return push(out, b"1 lock");
    }
    push_numbered(out, b"", count as u64, b" locks")
}

// Appends the first eight requests that are granted, each with what its session runs then, and how many more there are.
fn push_granted(
    out: &mut Vec<u8>,
    alloc: Global,
    names: &Names,
    ats: &[AtLock],
) -> Result<(), AllocError>
    ensures { OnOk result (out.new.items ≡ out.old.items ++ granted_lines names.now ats.now) }
{
    push_each_granted(out, alloc, names, first_lines(ats))?;
    push_and_more(out, ats.len().saturating_sub(MOST_LINES))
}

// Appends each of these requests, with what its session runs.
fn push_each_granted(
    out: &mut Vec<u8>,
    alloc: Global,
    names: &Names,
    ats: &[AtLock],
) -> Result<(), AllocError>
    ensures { OnOk result (out.new.items ≡ out.old.items ++ flat_map (granted_line names.now) ats.now) }
{
    for at in ats {
        push_ticket(out, alloc, names, b" gets ", b"", *at)?;
        push_runs(out, alloc, names, DEEPER, at.ticket.session)?;
    }
    Ok(())
}

/// Appends a line for each of the first eight tickets, and how many more there are: the session, what it does, its mode, the lock, and the rest
/// of the line.
pub(crate) fn push_tickets(
    out: &mut Vec<u8>,
    alloc: Global,
    names: &Names,
    verb: &[u8],
    rest: &[u8],
    ats: &[AtLock],
) -> Result<(), AllocError>
    ensures { OnOk result (out.new.items ≡ out.old.items ++ ticket_lines names.now verb.now rest.now ats.now) }
{
    push_each_ticket(out, alloc, names, verb, rest, first_lines(ats))?;
    push_and_more(out, ats.len().saturating_sub(MOST_LINES))
}

// The first tickets, which are printed.
fn first_lines(ats: &[AtLock]) -> &[AtLock]
    ensures { result.now ≡ take most_lines ats.now }
{
    if ats.len() <= MOST_LINES {
        return ats;
    }
    &ats[..MOST_LINES]
}

// Appends a line for each of these tickets.
fn push_each_ticket(
    out: &mut Vec<u8>,
    alloc: Global,
    names: &Names,
    verb: &[u8],
    rest: &[u8],
    ats: &[AtLock],
) -> Result<(), AllocError>
    ensures { OnOk result (out.new.items ≡ out.old.items ++ flat_map (ticket_line names.now verb.now rest.now) ats.now) }
{
    for at in ats {
        push_ticket(out, alloc, names, verb, rest, *at)?;
    }
    Ok(())
}

// Appends the line of a ticket.
fn push_ticket(
    out: &mut Vec<u8>,
    alloc: Global,
    names: &Names,
    verb: &[u8],
    rest: &[u8],
    at: AtLock,
) -> Result<(), AllocError>
    ensures { OnOk result (out.new.items ≡ out.old.items ++ ticket_line names.now verb.now rest.now at) }
{
    let mut start = Vec::new(alloc);
    push_ticket_start(&mut start, names, verb, at)?;
    push_line_with(out, alloc, &start, names.lock(at.lock), rest)
}

// Appends the beginning of that line, before the lock's name.
fn push_ticket_start(
    out: &mut Vec<u8>,
    names: &Names,
    verb: &[u8],
    at: AtLock,
) -> Result<(), AllocError>
    ensures { OnOk result (out.new.items ≡ out.old.items ++ ticket_start names.now verb.now at) }
{
    push(out, b"   ")?;
    push_session(out, names, at.ticket.session)?;
    push(out, verb)?;
    push_mode_of(out, at.ticket.mode)
}

/// Appends a mode before the name of its lock.
pub(crate) fn push_mode_of(out: &mut Vec<u8>, mode: LockMode) -> Result<(), AllocError>
    ensures { OnOk result (out.new.items ≡ out.old.items ++ mode_of mode) }
{
    push_mode(out, mode)?;
    push(out, b" of ")
}

/// Appends how many more lines there would be.
pub(crate) fn push_and_more(out: &mut Vec<u8>, more: usize) -> Result<(), AllocError>
    ensures { OnOk result (out.new.items ≡ out.old.items ++ and_more more) }
{
    if more == 0 {
        return Ok(());
    }
    push_numbered(out, b"   and ", more as u64, b" more\n")
}

// Appends each wait that several acts are needed for.
fn push_each_joint(
    out: &mut Vec<u8>,
    alloc: Global,
    names: &Names,
    ways: &[WayFound],
    waits: &[BlockedWait],
) -> Result<(), AllocError>
    ensures { OnOk result (out.new.items ≡ out.old.items ++ flat_map (joint_text names.now ways.now) waits.now) }
{
    for wait in waits {
        push_joint_head(out, alloc, names, ways, wait.at)?;
        push_acts_text(out, alloc, names, wait)?;
    }
    Ok(())
}

// Appends who gets what, in place of one of these ways, and what it runs then.
fn push_joint_head(
    out: &mut Vec<u8>,
    alloc: Global,
    names: &Names,
    ways: &[WayFound],
    at: AtLock,
) -> Result<(), AllocError>
    ensures { OnOk result (out.new.items ≡ out.old.items ++ joint_head names.now ways.now at) }
{
    push_joint_line(out, alloc, names, ways, at)?;
    push_runs(out, alloc, names, b"   ", at.ticket.session)
}

// Appends who gets what.
fn push_joint_line(
    out: &mut Vec<u8>,
    alloc: Global,
    names: &Names,
    ways: &[WayFound],
    at: AtLock,
) -> Result<(), AllocError>
    ensures { OnOk result (out.new.items ≡ out.old.items ++ joint_line names.now ways.now at) }
{
    let mut start = Vec::new(alloc);
    push_joint_start(&mut start, names, ways, at)?;
    push_line_with(out, alloc, &start, names.lock(at.lock), b",")
}

// Appends the beginning of that line, before the lock's name.
fn push_joint_start(
    out: &mut Vec<u8>,
    names: &Names,
    ways: &[WayFound],
    at: AtLock,
) -> Result<(), AllocError>
    ensures { OnOk result (out.new.items ≡ out.old.items ++ joint_start names.now ways.now at) }
{
    push(out, so_that(ways))?;
    push_session(out, names, at.ticket.session)?;
    push(out, b" gets ")?;
    push_mode_of(out, at.ticket.mode)
}

// What it starts with: whether there is another way.
fn so_that(ways: &[WayFound]) -> &'static [u8]
    ensures { result.now ≡ so_that ways.now }
{
    if ways.is_empty() {
        b"So that "
    } else {
        b"Or, so that "
    }
}

// Appends what to type for a wait that several acts are needed for.
fn push_acts_text(
    out: &mut Vec<u8>,
    alloc: Global,
    names: &Names,
    wait: &BlockedWait,
) -> Result<(), AllocError>
    ensures { OnOk result (out.new.items ≡ out.old.items ++ acts_text names.now wait.now) }
{
    push_all_words(out, wait.blockers)?;
    push_acts(out, alloc, names, &wait.acts)?;
    push_and_more(out, wait.blockers.saturating_sub(wait.acts.len()))
}

// Appends that each of so many acts is needed.
fn push_all_words(out: &mut Vec<u8>, count: usize) -> Result<(), AllocError>
    ensures { OnOk result (out.new.items ≡ out.old.items ++ all_words count) }
{
    if count == 2 {
        return push(out, b"do both of these:\n");
    }
    push_numbered(out, b"do all ", count as u64, b" of these:\n")
}

// Appends what to type for each of these acts.
fn push_acts(
    out: &mut Vec<u8>,
    alloc: Global,
    names: &Names,
    acts: &[Act],
) -> Result<(), AllocError>
    ensures { OnOk result (out.new.items ≡ out.old.items ++ flat_map (act_lines names.now (codes "   ") deeper) acts.now) }
{
    for act in acts {
        push_act(out, alloc, names, b"   ", DEEPER, *act)?;
    }
    Ok(())
}

// Appends how many such waits aren't printed.
fn push_more_joint(out: &mut Vec<u8>, more: usize) -> Result<(), AllocError>
    ensures { OnOk result (out.new.items ≡ out.old.items ++ more_joint_line more) }
{
    if more == 0 {
        return Ok(());
    }
    push_numbered(
        out,
        b"More requests that go on only after several acts: ",
        more as u64,
        b"\n",
    )
}

// Appends what is said of other waits.
fn push_others(
    out: &mut Vec<u8>,
    alloc: Global,
    names: &Names,
    found: &Findings,
    left_out: &[LeftOut],
) -> Result<(), AllocError>
    ensures { OnOk result (out.new.items ≡ out.old.items ++ other_text names.now found.now left_out.now) }
{
    push_stuck(out, alloc, names, &found.stuck, found.stuck_count)?;
    push_passing(out, passing(found))?;
    push_unexplained(out, alloc, names, &found.unexplained, left_out)
}

// How many waits are only behind others that are over.
fn passing(found: &Findings) -> u64
    ensures { result ≡ passing found.now }
{
    found
        .waits
        .saturating_sub(found.blocked as u64)
        .saturating_sub(found.unexplained.len() as u64)
}

// Appends the waits that are in a deadlock, or behind one.
fn push_stuck(
    out: &mut Vec<u8>,
    alloc: Global,
    names: &Names,
    waits: &[BlockedWait],
    count: usize,
) -> Result<(), AllocError>
    ensures { OnOk result (out.new.items ≡ out.old.items ++ stuck_text names.now waits.now count) }
{
    if count == 0 {
        return Ok(());
    }
    push_stuck_head(out, count as u64)?;
    push_each_stuck(out, alloc, names, waits)?;
    push_and_more(out, count.saturating_sub(waits.len()))
}

// Appends how many such waits there are.
fn push_stuck_head(out: &mut Vec<u8>, count: u64) -> Result<(), AllocError>
    ensures { OnOk result (out.new.items ≡ out.old.items ++ stuck_head count) }
{
    push_stuck_words(out, count)?;
    push(
        out,
        b" in a deadlock or behind one. A server ends a deadlock by itself: look again.\n",
    )
}

// Appends so many such waits.
fn push_stuck_words(out: &mut Vec<u8>, count: u64) -> Result<(), AllocError>
    ensures { OnOk result (out.new.items ≡ out.old.items ++ stuck_words count) }
{
    if count == 1 {
        return push(out, b"1 request is");
    }
    push_numbered(out, b"", count, b" requests are")
}

// Appends a line for each of these waits.
fn push_each_stuck(
    out: &mut Vec<u8>,
    alloc: Global,
    names: &Names,
    waits: &[BlockedWait],
) -> Result<(), AllocError>
    ensures { OnOk result (out.new.items ≡ out.old.items ++ flat_map (stuck_line names.now) waits.now) }
{
    for wait in waits {
        push_stuck_wait(out, alloc, names, wait)?;
    }
    Ok(())
}

// Appends a wait, and the first session that blocks it.
fn push_stuck_wait(
    out: &mut Vec<u8>,
    alloc: Global,
    names: &Names,
    wait: &BlockedWait,
) -> Result<(), AllocError>
    ensures { OnOk result (out.new.items ≡ out.old.items ++ stuck_line names.now wait.now) }
{
    let rest = first_blocker(alloc, names, &wait.acts)?;
    push_ticket(out, alloc, names, b" waits for ", &rest, wait.at)
}

// The first session that blocks a wait, as the rest of a line.
fn first_blocker(alloc: Global, names: &Names, acts: &[Act]) -> Result<Vec<u8>, AllocError>
    ensures { IfOk result (λ words. words.items ≡ first_blocker names.now acts.now) }
{
    let mut words = Vec::new(alloc);
    let Some(act) = acts.first() else {
        return Ok(words);
    };
    push(&mut words, b", behind ")?;
    push_session(&mut words, names, target_of(*act))?;
    Ok(words)
}

// Appends how many waits are only behind others that are over.
fn push_passing(out: &mut Vec<u8>, count: u64) -> Result<(), AllocError>
    ensures { OnOk result (out.new.items ≡ out.old.items ++ passing_line count) }
{
    if count == 0 {
        return Ok(());
    }
    push_wait_words(out, count)?;
    push(out, b" only behind requests that are over: look again.\n")
}
