//! Locks and waits as JSON.
ghost use Rattle.std.specs.Prelude.{◌≡◌, ◌++◌, codes, OnOk, IfOk};
ghost use Rattle.mdl_view_text.specs.Json.{blocker_members, granted_member, lock_object, locks_json, pending_member, reason_word, settled_member, ticket_object, wait_object, waiting_object, waits_json};
ghost use Rattle.mdl_view_text.specs.Layouts.{listed};

use crate::json_text::{
    push_end, push_lock_member, push_mode_member, push_session_member, push_text_member,
    push_ticket_members,
};
use crate::layout::push_mark;
use crate::names::Names;
use mdl_lines::push;
use mdl_lock_rows::LeftOut;
use mdl_view::{AtLock, Blocking, Lock, Reason, Ticket};
use std::alloc::{AllocError, Global};

/// Returns all tickets as an object of JSON: for each lock its name, and the tickets that hold it and wait for it; and the waits that can't be
/// explained. The text of a name has the name's bytes if they are UTF-8, and otherwise each byte from 128 on as the character of that number.
pub fn locks_json(
    alloc: Global,
    names: &Names,
    locks: &[Lock],
    unexplained: &[AtLock],
    left_out: &[LeftOut],
) -> Result<Vec<u8>, AllocError>
    ensures { IfOk result (λ text. text.items ≡ locks_json names.now locks.now unexplained.now left_out.now) }
{
    let mut out = Vec::new(alloc);
    push(&mut out, b"{\"version\":1,\"locks\":[")?;
    push_locks(&mut out, names, locks)?;
    push(&mut out, b"]")?;
    push_end(&mut out, names, unexplained, left_out)?;
    Ok(out)
}

// Appends all locks.
fn push_locks(out: &mut Vec<u8>, names: &Names, locks: &[Lock]) -> Result<(), AllocError>
    ensures { OnOk result (out.new.items ≡ out.old.items ++ listed (codes ",") (lock_object names.now) 0 locks.now) }
{
    for (place, lock) in locks.iter().enumerate() {
        push_mark(out, b",", place)?;
        push_lock(out, names, place, lock)?;
    }
    Ok(())
}

// Appends a lock.
fn push_lock(out: &mut Vec<u8>, names: &Names, place: usize, lock: &Lock) -> Result<(), AllocError>
    ensures { OnOk result (out.new.items ≡ out.old.items ++ lock_object names.now place lock.now) }
{
    push_text_member(out, b"{\"lock\":", names.lock(place))?;
    push_granted_member(out, names, lock)?;
    push_pending_member(out, names, lock)?;
    push_settled_member(out, names, lock)
}

// Appends the tickets that hold a lock, as a member.
fn push_granted_member(out: &mut Vec<u8>, names: &Names, lock: &Lock) -> Result<(), AllocError>
    ensures { OnOk result (out.new.items ≡ out.old.items ++ granted_member names.now lock.now) }
{
    push(out, b",\"granted\":[")?;
    push_granted(out, names, lock.granted())?;
    push(out, b"]")
}

// Appends the tickets that hold a lock.
fn push_granted(out: &mut Vec<u8>, names: &Names, tickets: &[Ticket]) -> Result<(), AllocError>
    ensures { OnOk result (out.new.items ≡ out.old.items ++ listed (codes ",") (ticket_object names.now) 0 tickets.now) }
{
    for (place, ticket) in tickets.iter().enumerate() {
        push_mark(out, b",", place)?;
        push_ticket(out, names, *ticket)?;
    }
    Ok(())
}

// Appends a ticket that holds a lock.
fn push_ticket(out: &mut Vec<u8>, names: &Names, ticket: Ticket) -> Result<(), AllocError>
    ensures { OnOk result (out.new.items ≡ out.old.items ++ ticket_object names.now 0 ticket) }
{
    push_ticket_members(out, names, ticket)?;
    push(out, b"}")
}

// Appends the tickets that wait for a lock, as a member.
fn push_pending_member(out: &mut Vec<u8>, names: &Names, lock: &Lock) -> Result<(), AllocError>
    ensures { OnOk result (out.new.items ≡ out.old.items ++ pending_member names.now lock.now) }
{
    push(out, b",\"waiting\":[")?;
    push_waiting(out, names, b"PENDING", lock.waiting())?;
    push(out, b"]")
}

// Appends the tickets whose wait is over, as a member, and the end of the object.
fn push_settled_member(out: &mut Vec<u8>, names: &Names, lock: &Lock) -> Result<(), AllocError>
    ensures { OnOk result (out.new.items ≡ out.old.items ++ settled_member names.now lock.now) }
{
    push(out, b",\"settled\":[")?;
    push_waiting(out, names, b"SETTLED", lock.settled())?;
    push(out, b"]}")
}

// Appends tickets that wait for a lock, or whose wait is over.
fn push_waiting(
    out: &mut Vec<u8>,
    names: &Names,
    status: &[u8],
    tickets: &[Ticket],
) -> Result<(), AllocError>
    ensures { OnOk result (out.new.items ≡ out.old.items ++ listed (codes ",") (waiting_object names.now status.now) 0 tickets.now) }
{
    for (place, ticket) in tickets.iter().enumerate() {
        push_mark(out, b",", place)?;
        push_waiter(out, names, status, *ticket)?;
    }
    Ok(())
}

// Appends one of these tickets.
fn push_waiter(
    out: &mut Vec<u8>,
    names: &Names,
    status: &[u8],
    ticket: Ticket,
) -> Result<(), AllocError>
    ensures { OnOk result (out.new.items ≡ out.old.items ++ waiting_object names.now status.now 0 ticket) }
{
    push_ticket_members(out, names, ticket)?;
    push_text_member(out, b",\"status\":", status)?;
    push(out, b"}")
}

/// Returns who blocks whom, as an object of JSON: each waiting ticket with each ticket that blocks it; and the waits that can't be explained.
pub fn waits_json(
    alloc: Global,
    names: &Names,
    blockings: &[Blocking],
    unexplained: &[AtLock],
    left_out: &[LeftOut],
) -> Result<Vec<u8>, AllocError>
    ensures { IfOk result (λ text. text.items ≡ waits_json names.now blockings.now unexplained.now left_out.now) }
{
    let mut out = Vec::new(alloc);
    push(&mut out, b"{\"version\":1,\"waits\":[")?;
    push_waits(&mut out, names, blockings)?;
    push(&mut out, b"]")?;
    push_end(&mut out, names, unexplained, left_out)?;
    Ok(out)
}

// Appends each pair of a waiting ticket and one that blocks it.
fn push_waits(out: &mut Vec<u8>, names: &Names, blockings: &[Blocking]) -> Result<(), AllocError>
    ensures { OnOk result (out.new.items ≡ out.old.items ++ listed (codes ",") (wait_object names.now) 0 blockings.now) }
{
    for (place, blocking) in blockings.iter().enumerate() {
        push_mark(out, b",", place)?;
        push_wait(out, names, *blocking)?;
    }
    Ok(())
}

// Appends a pair.
fn push_wait(out: &mut Vec<u8>, names: &Names, blocking: Blocking) -> Result<(), AllocError>
    ensures { OnOk result (out.new.items ≡ out.old.items ++ wait_object names.now 0 blocking) }
{
    push_ticket_members(out, names, blocking.waiter)?;
    push_lock_member(out, names, blocking.lock)?;
    push_blocker_members(out, names, blocking)?;
    push(out, b"}")
}

// Appends which ticket blocks, and why, as members.
fn push_blocker_members(
    out: &mut Vec<u8>,
    names: &Names,
    blocking: Blocking,
) -> Result<(), AllocError>
    ensures { OnOk result (out.new.items ≡ out.old.items ++ blocker_members names.now blocking) }
{
    push_session_member(out, b",\"blocking\":", names, blocking.other.session)?;
    push_text_member(out, b",\"reason\":", reason_word(blocking.reason))?;
    push_mode_member(out, b",\"blocking_mode\":", blocking.other.mode)
}

// Why a ticket blocks another.
fn reason_word(reason: Reason) -> &'static [u8]
    ensures { result.now ≡ reason_word reason }
{
    match reason {
        Reason::Holds => b"holds",
        Reason::WaitsBefore => b"waits_before",
    }
}
