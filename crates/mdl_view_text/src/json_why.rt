//! The answer to `why` as JSON.
ghost use Rattle.std.specs.Prelude.{◌≡◌, ◌-◌, ◌++◌, codes, OnOk, IfOk};
ghost use Rattle.mdl_view_text.specs.Json.{act_members, act_object, blocked_end, blocked_object, joint_members, stuck_members, way_object, way_waits, ways_members, why_json};
ghost use Rattle.mdl_view_text.specs.Layouts.{listed};

use crate::act_texts::act_words;
use crate::findings::{BlockedWait, Findings, WayFound, target_of};
use crate::json_text::{
    push_end, push_lock_member, push_number_member, push_session_member, push_text_member,
    push_ticket_members, push_tickets_member,
};
use crate::layout::push_mark;
use crate::names::Names;
use crate::why::all_waits;
use mdl_lines::push;
use mdl_lock_rows::LeftOut;
use mdl_view::Act;
use std::alloc::{AllocError, Global};

/// Returns the answer to `why` as an object of JSON: how many requests wait; the first eight ways out, each with what its session holds, the
/// waits that are granted at once, and those that end in turn; the first eight waits that go on only after several acts; the first eight in
/// deadlocks; and all that can't be explained.
pub fn why_json(
    alloc: Global,
    names: &Names,
    found: &Findings,
    left_out: &[LeftOut],
) -> Result<Vec<u8>, AllocError>
    ensures { IfOk result (λ text. text.items ≡ why_json names.now found.now left_out.now) }
{
    let mut out = Vec::new(alloc);
    let waits = all_waits(found, left_out)?;
    push_number_member(&mut out, b"{\"version\":1,\"waits\":", waits)?;
    push_ways_members(&mut out, names, found)?;
    push_joint_members(&mut out, names, found)?;
    push_stuck_members(&mut out, names, found)?;
    push_end(&mut out, names, &found.unexplained, left_out)?;
    Ok(out)
}

// Appends the ways out.
fn push_ways_members(out: &mut Vec<u8>, names: &Names, found: &Findings) -> Result<(), AllocError>
    ensures { OnOk result (out.new.items ≡ out.old.items ++ ways_members names.now found.now) }
{
    push(out, b",\"ways\":[")?;
    push_ways(out, names, &found.ways)?;
    push_number_member(out, b"],\"more_ways\":", found.more_ways as u64)
}

// Appends the waits that several acts are needed for.
fn push_joint_members(out: &mut Vec<u8>, names: &Names, found: &Findings) -> Result<(), AllocError>
    ensures { OnOk result (out.new.items ≡ out.old.items ++ joint_members names.now found.now) }
{
    push(out, b",\"joint\":[")?;
    push_blocked(out, names, &found.joint)?;
    push_number_member(out, b"],\"more_joint\":", found.more_joint as u64)
}

// Appends the waits that are in deadlocks.
fn push_stuck_members(out: &mut Vec<u8>, names: &Names, found: &Findings) -> Result<(), AllocError>
    ensures { OnOk result (out.new.items ≡ out.old.items ++ stuck_members names.now found.now) }
{
    push(out, b",\"deadlocked\":[")?;
    push_blocked(out, names, &found.stuck)?;
    let more = found.stuck_count.saturating_sub(found.stuck.len());
    push_number_member(out, b"],\"more_deadlocked\":", more as u64)
}

// Appends the ways.
fn push_ways(out: &mut Vec<u8>, names: &Names, ways: &[WayFound]) -> Result<(), AllocError>
    ensures { OnOk result (out.new.items ≡ out.old.items ++ listed (codes ",") (way_object names.now) 0 ways.now) }
{
    for (place, way) in ways.iter().enumerate() {
        push_mark(out, b",", place)?;
        push_way(out, names, way)?;
    }
    Ok(())
}

// Appends a way.
fn push_way(out: &mut Vec<u8>, names: &Names, found: &WayFound) -> Result<(), AllocError>
    ensures { OnOk result (out.new.items ≡ out.old.items ++ way_object names.now 0 found.now) }
{
    push_act_members(out, names, found.way.act)?;
    push_tickets_member(out, b",\"holds\":", names, &found.held)?;
    push_way_waits(out, names, found)
}

// Appends the waits that end by a way, as members, and the end of the object.
fn push_way_waits(out: &mut Vec<u8>, names: &Names, found: &WayFound) -> Result<(), AllocError>
    ensures { OnOk result (out.new.items ≡ out.old.items ++ way_waits names.now found.now) }
{
    push_tickets_member(out, b",\"at_once\":", names, &found.at_once)?;
    push_tickets_member(out, b",\"in_turn\":", names, &found.in_turn)?;
    push(out, b"}")
}

// Appends the beginning of an object: an act.
fn push_act_members(out: &mut Vec<u8>, names: &Names, act: Act) -> Result<(), AllocError>
    ensures { OnOk result (out.new.items ≡ out.old.items ++ act_members names.now act) }
{
    push_text_member(out, b"{\"act\":", act_words(act))?;
    push_session_member(out, b",\"session\":", names, target_of(act))
}

// Appends waits with what they need.
fn push_blocked(out: &mut Vec<u8>, names: &Names, waits: &[BlockedWait]) -> Result<(), AllocError>
    ensures { OnOk result (out.new.items ≡ out.old.items ++ listed (codes ",") (blocked_object names.now) 0 waits.now) }
{
    for (place, wait) in waits.iter().enumerate() {
        push_mark(out, b",", place)?;
        push_blocked_wait(out, names, wait)?;
    }
    Ok(())
}

// Appends a wait with what it needs.
fn push_blocked_wait(out: &mut Vec<u8>, names: &Names, wait: &BlockedWait) -> Result<(), AllocError>
    ensures { OnOk result (out.new.items ≡ out.old.items ++ blocked_object names.now 0 wait.now) }
{
    push_ticket_members(out, names, wait.at.ticket)?;
    push_lock_member(out, names, wait.at.lock)?;
    push_blocked_end(out, names, wait)
}

// Appends how many sessions block a wait, and the acts.
fn push_blocked_end(out: &mut Vec<u8>, names: &Names, wait: &BlockedWait) -> Result<(), AllocError>
    ensures { OnOk result (out.new.items ≡ out.old.items ++ blocked_end names.now wait.now) }
{
    push_number_member(out, b",\"blockers\":", wait.blockers as u64)?;
    push(out, b",\"acts\":[")?;
    push_acts(out, names, &wait.acts)?;
    push(out, b"]}")
}

// Appends acts.
fn push_acts(out: &mut Vec<u8>, names: &Names, acts: &[Act]) -> Result<(), AllocError>
    ensures { OnOk result (out.new.items ≡ out.old.items ++ listed (codes ",") (act_object names.now) 0 acts.now) }
{
    for (place, act) in acts.iter().enumerate() {
        push_mark(out, b",", place)?;
        push_act(out, names, *act)?;
    }
    Ok(())
}

// Appends an act.
fn push_act(out: &mut Vec<u8>, names: &Names, act: Act) -> Result<(), AllocError>
    ensures { OnOk result (out.new.items ≡ out.old.items ++ act_object names.now 0 act) }
{
    push_act_members(out, names, act)?;
    push(out, b"}")
}
