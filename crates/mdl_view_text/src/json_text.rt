//! Pieces of JSON.
ghost use Rattle.std.specs.Prelude.{◌≡◌, ◌++◌, codes, flat_map, OnOk};
ghost use Rattle.std.specs.Str.{is_utf8};
ghost use Rattle.mdl_view.specs.Modes.{lock_mode_name};
ghost use Rattle.mdl_view_text.specs.Json.{at_lock_object, class_members, end_members, escape, json_byte, json_string, left_out_members, left_out_object, lock_member, number_member, number_or_null, owner_object, session_member, session_value, text_member, ticket_members, tickets_member};
ghost use Rattle.mdl_view_text.specs.Layouts.{listed};

use crate::layout::push_mark;
use crate::names::{Names, hex_digit};
use mdl_lines::{push, push_number};
use mdl_lock_rows::{LeftOut, Owner};
use mdl_view::{AtLock, LockMode, Ticket};
use std::alloc::AllocError;
use std::str;

/// Appends bytes as a string of JSON.
pub(crate) fn push_string(out: &mut Vec<u8>, bytes: &[u8]) -> Result<(), AllocError>
    ensures { OnOk result (out.new.items ≡ out.old.items ++ json_string bytes.now) }
{
    push(out, b"\"")?;
    push_bytes(out, is_text(bytes), bytes)?;
    push(out, b"\"")
}

// Whether bytes are UTF-8.
#[tactic(auto, using(crate::proofs::TextLemmas::is_text, crate::proofs::TextLemmas::is_no_text))]
fn is_text(bytes: &[u8]) -> bool
    ensures { result ≡ is_utf8 bytes.now }
{
    match str::from_utf8(bytes) {
        Ok(text) => true,
        Err(error) => false,
    }
}

// Appends what is within the quotes.
fn push_bytes(out: &mut Vec<u8>, is_text: bool, bytes: &[u8]) -> Result<(), AllocError>
    ensures { OnOk result (out.new.items ≡ out.old.items ++ flat_map (json_byte is_text) bytes.now) }
{
    for byte in bytes {
        push_byte(out, is_text, *byte)?;
    }
    Ok(())
}

// Appends a byte within quotes.
fn push_byte(out: &mut Vec<u8>, is_text: bool, byte: u8) -> Result<(), AllocError>
    ensures { OnOk result (out.new.items ≡ out.old.items ++ json_byte is_text byte) }
{
    if byte == b'"' || byte == b'\\' {
        push(out, b"\\")?;
    } else if byte < 32 || byte == 127 || (!is_text && byte >= 128) {
        return push_escaped(out, byte);
    }
    out.push(byte)?;
    Ok(())
}

// A byte by its digits.
fn push_escaped(out: &mut Vec<u8>, byte: u8) -> Result<(), AllocError>
    ensures { OnOk result (out.new.items ≡ out.old.items ++ escape byte) }
{
    push(out, b"\\u00")?;
    out.push(hex_digit(byte / 16))?;
    out.push(hex_digit(byte % 16))?;
    Ok(())
}

/// Appends a member whose value is a text. `head` is what precedes the value.
pub(crate) fn push_text_member(
    out: &mut Vec<u8>,
    head: &[u8],
    bytes: &[u8],
) -> Result<(), AllocError>
    ensures { OnOk result (out.new.items ≡ out.old.items ++ text_member head.now bytes.now) }
{
    push(out, head)?;
    push_string(out, bytes)
}

/// Appends a member whose value is a number. `head` is what precedes the value.
pub(crate) fn push_number_member(
    out: &mut Vec<u8>,
    head: &[u8],
    number: u64,
) -> Result<(), AllocError>
    ensures { OnOk result (out.new.items ≡ out.old.items ++ number_member head.now number) }
{
    push(out, head)?;
    push_number(out, number)
}

/// Appends a session: of a script its number, and of a server its thread and its connection.
pub(crate) fn push_session_value(
    out: &mut Vec<u8>,
    names: &Names,
    session: usize,
) -> Result<(), AllocError>
    ensures { OnOk result (out.new.items ≡ out.old.items ++ session_value names.now session) }
{
    match names.owner(session) {
        Some(owner) => push_owner(out, owner),
        None => push_number(out, session as u64),
    }
}

// Appends a server's session.
fn push_owner(out: &mut Vec<u8>, owner: &Owner) -> Result<(), AllocError>
    ensures { OnOk result (out.new.items ≡ out.old.items ++ owner_object owner.now) }
{
    push_number_member(out, b"{\"thread\":", owner.thread())?;
    push(out, b",\"connection\":")?;
    push_number_or_null(out, owner.connection())?;
    push(out, b"}")
}

// Appends a number, or null.
fn push_number_or_null(out: &mut Vec<u8>, number: Option<u64>) -> Result<(), AllocError>
    ensures { OnOk result (out.new.items ≡ out.old.items ++ number_or_null number) }
{
    match number {
        Some(number) => push_number(out, number),
        None => push(out, b"null"),
    }
}

/// Appends a member whose value is a session. `head` is what precedes the value.
pub(crate) fn push_session_member(
    out: &mut Vec<u8>,
    head: &[u8],
    names: &Names,
    session: usize,
) -> Result<(), AllocError>
    ensures { OnOk result (out.new.items ≡ out.old.items ++ session_member names.now head.now session) }
{
    push(out, head)?;
    push_session_value(out, names, session)
}

/// Appends a member whose value is a mode. `head` is what precedes the value.
pub(crate) fn push_mode_member(
    out: &mut Vec<u8>,
    head: &[u8],
    mode: LockMode,
) -> Result<(), AllocError>
    ensures { OnOk result (out.new.items ≡ out.old.items ++ text_member head.now (lock_mode_name mode)) }
{
    push_text_member(out, head, mode.as_str().as_bytes())
}

/// Appends the beginning of an object: a ticket's session, and its mode.
pub(crate) fn push_ticket_members(
    out: &mut Vec<u8>,
    names: &Names,
    ticket: Ticket,
) -> Result<(), AllocError>
    ensures { OnOk result (out.new.items ≡ out.old.items ++ ticket_members names.now ticket) }
{
    push_session_member(out, b"{\"session\":", names, ticket.session)?;
    push_mode_member(out, b",\"mode\":", ticket.mode)
}

/// Appends the name of a lock as a member.
pub(crate) fn push_lock_member(
    out: &mut Vec<u8>,
    names: &Names,
    place: usize,
) -> Result<(), AllocError>
    ensures { OnOk result (out.new.items ≡ out.old.items ++ lock_member names.now place) }
{
    push_text_member(out, b",\"lock\":", names.lock(place))
}

/// Appends tickets at locks as a member. `head` is what precedes the value.
pub(crate) fn push_tickets_member(
    out: &mut Vec<u8>,
    head: &[u8],
    names: &Names,
    ats: &[AtLock],
) -> Result<(), AllocError>
    ensures { OnOk result (out.new.items ≡ out.old.items ++ tickets_member names.now head.now ats.now) }
{
    push(out, head)?;
    push(out, b"[")?;
    push_each_at_lock(out, names, ats)?;
    push(out, b"]")
}

// Appends tickets at locks.
fn push_each_at_lock(out: &mut Vec<u8>, names: &Names, ats: &[AtLock]) -> Result<(), AllocError>
    ensures { OnOk result (out.new.items ≡ out.old.items ++ listed (codes ",") (at_lock_object names.now) 0 ats.now) }
{
    for (place, at) in ats.iter().enumerate() {
        push_mark(out, b",", place)?;
        push_at_lock(out, names, *at)?;
    }
    Ok(())
}

// Appends a ticket at a lock.
fn push_at_lock(out: &mut Vec<u8>, names: &Names, at: AtLock) -> Result<(), AllocError>
    ensures { OnOk result (out.new.items ≡ out.old.items ++ at_lock_object names.now 0 at) }
{
    push_ticket_members(out, names, at.ticket)?;
    push_lock_member(out, names, at.lock)?;
    push(out, b"}")
}

/// Appends the end of an answer: the waits that can't be explained, and the rows that are left out.
pub(crate) fn push_end(
    out: &mut Vec<u8>,
    names: &Names,
    unexplained: &[AtLock],
    left_out: &[LeftOut],
) -> Result<(), AllocError>
    ensures { OnOk result (out.new.items ≡ out.old.items ++ end_members names.now unexplained.now left_out.now) }
{
    push_tickets_member(out, b",\"unexplained\":", names, unexplained)?;
    push_left_out(out, left_out)
}

// Appends the rows that are left out.
fn push_left_out(out: &mut Vec<u8>, classes: &[LeftOut]) -> Result<(), AllocError>
    ensures { OnOk result (out.new.items ≡ out.old.items ++ left_out_members classes.now) }
{
    push(out, b",\"left_out\":[")?;
    push_classes(out, classes)?;
    push(out, b"]}\n")
}

// Appends each class of rows left out.
fn push_classes(out: &mut Vec<u8>, classes: &[LeftOut]) -> Result<(), AllocError>
    ensures { OnOk result (out.new.items ≡ out.old.items ++ listed (codes ",") left_out_object 0 classes.now) }
{
    for (place, class) in classes.iter().enumerate() {
        push_mark(out, b",", place)?;
        push_class(out, class)?;
    }
    Ok(())
}

// Appends a class of rows left out, and how many rows are of it.
fn push_class(out: &mut Vec<u8>, left: &LeftOut) -> Result<(), AllocError>
    ensures { OnOk result (out.new.items ≡ out.old.items ++ left_out_object 0 left.now) }
{
    push_class_members(out, left)?;
    push_number_member(out, b",\"rows\":", left.count as u64)?;
    push_number_member(out, b",\"waiting\":", left.waiting as u64)?;
    push(out, b"}")
}

// Appends the object type and the lock type of a class.
fn push_class_members(out: &mut Vec<u8>, left: &LeftOut) -> Result<(), AllocError>
    ensures { OnOk result (out.new.items ≡ out.old.items ++ class_members left.now) }
{
    push_text_member(out, b"{\"object_type\":", left.class.object_type())?;
    push_text_member(out, b",\"lock_type\":", left.class.lock_type())
}
