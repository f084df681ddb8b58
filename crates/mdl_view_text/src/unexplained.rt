//! What `why` says of waits that can't be explained, and of rows that number threads alone.
ghost use Rattle.std.specs.Prelude.{◌≡◌, ◌++◌, ◌∷◌, [], ◌==◌, flat_map, OnOk, IfOk};
ghost use Rattle.mdl_view_text.specs.Why.{holder_help, lacks_connections, threads_note, unexplained_body, unexplained_text, unread_help, unread_line, unread_name, unread_rest, unread_words};

use crate::layout::push_line_with;
use crate::left_out::{push_unexplained_words, unexplained_count, waiting_among};
use crate::names::{Names, knows_connections, push_name};
use crate::why::push_tickets;
use mdl_lines::{push, push_number};
use mdl_lock_rows::LeftOut;
use mdl_view::AtLock;
use std::alloc::{AllocError, Global};

/// Appends the waits that can't be explained, why that may be, and what to do, if there are such waits.
pub(crate) fn push_unexplained(
    out: &mut Vec<u8>,
    alloc: Global,
    names: &Names,
    unexplained: &[AtLock],
    left_out: &[LeftOut],
) -> Result<(), AllocError>
    ensures { OnOk result (out.new.items ≡ out.old.items ++ unexplained_text names.now unexplained.now left_out.now) }
{
    let count = unexplained_count(unexplained, left_out)?;
    if count == 0 {
        return Ok(());
    }
    push_unexplained_words(out, count)?;
    push(out, b":\n")?;
    push_body(out, alloc, names, unexplained, left_out)
}

// Appends these waits, and what to do.
fn push_body(
    out: &mut Vec<u8>,
    alloc: Global,
    names: &Names,
    unexplained: &[AtLock],
    left_out: &[LeftOut],
) -> Result<(), AllocError>
    ensures { OnOk result (out.new.items ≡ out.old.items ++ unexplained_body names.now unexplained.now left_out.now) }
{
    push_tickets(
        out,
        alloc,
        names,
        b" waits for ",
        b", and no row shows who holds it",
        unexplained,
    )?;
    push_holder_help(out, unexplained)?;
    push_unread(out, alloc, left_out)?;
    push_unread_help(out, waiting_among(left_out)?)
}

// Appends what to do if no row shows who holds a lock.
fn push_holder_help(out: &mut Vec<u8>, unexplained: &[AtLock]) -> Result<(), AllocError>
    ensures { OnOk result (out.new.items ≡ out.old.items ++ holder_help unexplained.now) }
{
    if unexplained.is_empty() {
        return Ok(());
    }
    push(
        out,
        b"   Either the lock was taken while the instrument wait/lock/metadata/sql/mdl was off, or it is held by
   a prepared XA transaction, which has no client. These show the open transactions:
      SELECT trx_mysql_thread_id, trx_started FROM information_schema.INNODB_TRX ORDER BY 2;
      XA RECOVER;
   Begin with the oldest: KILL takes its trx_mysql_thread_id. For 0, XA ROLLBACK takes the xid.
",
    )
}

// Appends the classes of rows that wait and aren't read.
fn push_unread(out: &mut Vec<u8>, alloc: Global, left_out: &[LeftOut]) -> Result<(), AllocError>
    ensures { OnOk result (out.new.items ≡ out.old.items ++ flat_map unread_line left_out.now) }
{
    for left in left_out {
        push_unread_line(out, alloc, left)?;
    }
    Ok(())
}

// Appends a class of rows, and how many of them wait, unless none does.
fn push_unread_line(out: &mut Vec<u8>, alloc: Global, left: &LeftOut) -> Result<(), AllocError>
    ensures { OnOk result (out.new.items ≡ out.old.items ++ unread_line left.now) }
{
    if left.waiting == 0 {
        return Ok(());
    }
    push_unread_words(out, alloc, left)
}

// Appends a class of rows, and how many of them wait.
fn push_unread_words(out: &mut Vec<u8>, alloc: Global, left: &LeftOut) -> Result<(), AllocError>
    ensures { OnOk result (out.new.items ≡ out.old.items ++ unread_words left.now) }
{
    let name = unread_name(alloc, left)?;
    let rest = unread_rest(alloc, left)?;
    push_line_with(
        out,
        alloc,
        b"   rows that wait and aren't read: ",
        &name,
        &rest,
    )
}

// How many rows of a class wait, behind its name.
fn unread_rest(alloc: Global, left: &LeftOut) -> Result<Vec<u8>, AllocError>
    ensures { IfOk result (λ rest. rest.items ≡ unread_rest left.now) }
{
    let mut rest = Vec::new(alloc);
    push(&mut rest, b" ")?;
    push_number(&mut rest, left.waiting as u64)?;
    Ok(rest)
}

// The object type and the lock type of a class.
fn unread_name(alloc: Global, left: &LeftOut) -> Result<Vec<u8>, AllocError>
    ensures { IfOk result (λ name. name.items ≡ unread_name left.now) }
{
    let mut name = Vec::new(alloc);
    push_name(&mut name, left.class.object_type())?;
    push(&mut name, b" ")?;
    push_name(&mut name, left.class.lock_type())?;
    Ok(name)
}

// Appends what to do if rows that wait aren't read.
fn push_unread_help(out: &mut Vec<u8>, waiting: u64) -> Result<(), AllocError>
    ensures { OnOk result (out.new.items ≡ out.old.items ++ unread_help waiting) }
{
    if waiting == 0 {
        return Ok(());
    }
    push(
        out,
        b"   Who holds those: the rows with their OBJECT_TYPE and OBJECT_NAME that are GRANTED. To see all rows:
      SELECT * FROM performance_schema.metadata_locks;
",
    )
}

/// Appends that `KILL` takes other numbers than these rows have, and what prints an answer with both, if that is so and there is something to
/// end.
pub(crate) fn push_threads_note(
    out: &mut Vec<u8>,
    names: &Names,
    has_acts: bool,
) -> Result<(), AllocError>
    ensures { OnOk result (out.new.items ≡ out.old.items ++ threads_note names.now has_acts) }
{
    if has_acts && lacks_connections(names) {
        return push(
            out,
            b"The numbers below are of threads. KILL takes those of connections, which differ. To get both, run:
   mysql -B -e \"$(mdlview query)\" | mdlview
",
        );
    }
    Ok(())
}

// Whether rows lack the numbers of connections.
fn lacks_connections(names: &Names) -> bool
    ensures { result ≡ lacks_connections names.now }
{
    !names.owners().is_empty() && !knows_connections(names)
}
