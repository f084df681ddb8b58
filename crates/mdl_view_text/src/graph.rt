//! The graph of waits.
ghost use Rattle.std.specs.Prelude.{◌≡◌, ◌++◌, flat_map, OnOk, IfOk};
ghost use Rattle.mdl_view_text.specs.Graph.{arrow, graph_text, label, node, quoted, quoted_byte};

use crate::names::Names;
use crate::text::{push_reason, push_session};
use mdl_lines::push;
use mdl_view::Blocking;
use std::alloc::{AllocError, Global};

/// Returns a graph of who waits for whom, in Graphviz's DOT language: an arrow from each waiting ticket's session to each session that blocks
/// it, labelled with the lock and the reason. A quote or a backslash in a name has a backslash before it.
pub fn graph_text(
    alloc: Global,
    names: &Names,
    blockings: &[Blocking],
) -> Result<Vec<u8>, AllocError>
    ensures { IfOk result (λ text. text.items ≡ graph_text names.now blockings.now) }
{
    let mut out = Vec::new(alloc);
    push(&mut out, b"digraph waits {\n")?;
    push_arrows(&mut out, names, blockings)?;
    push(&mut out, b"}\n")?;
    Ok(out)
}

// Appends the arrows.
fn push_arrows(out: &mut Vec<u8>, names: &Names, blockings: &[Blocking]) -> Result<(), AllocError>
    ensures { OnOk result (out.new.items ≡ out.old.items ++ flat_map (arrow names.now) blockings.now) }
{
    for blocking in blockings {
        push_arrow(out, names, *blocking)?;
    }
    Ok(())
}

// Appends an arrow.
fn push_arrow(out: &mut Vec<u8>, names: &Names, blocking: Blocking) -> Result<(), AllocError>
    ensures { OnOk result (out.new.items ≡ out.old.items ++ arrow names.now blocking) }
{
    push(out, b"  ")?;
    push_node(out, names, blocking.waiter.session)?;
    push(out, b" -> ")?;
    push_node(out, names, blocking.other.session)?;
    push_label(out, names, blocking)
}

// Appends a session as a node.
fn push_node(out: &mut Vec<u8>, names: &Names, session: usize) -> Result<(), AllocError>
    ensures { OnOk result (out.new.items ≡ out.old.items ++ node names.now session) }
{
    push(out, b"\"")?;
    push_session(out, names, session)?;
    push(out, b"\"")
}

// Appends the label of an arrow.
fn push_label(out: &mut Vec<u8>, names: &Names, blocking: Blocking) -> Result<(), AllocError>
    ensures { OnOk result (out.new.items ≡ out.old.items ++ label names.now blocking) }
{
    push(out, b" [label=\"")?;
    push_quoted(out, names.lock(blocking.lock))?;
    push(out, b": ")?;
    push_reason(out, blocking.reason, blocking.other.mode)?;
    push(out, b"\"];\n")
}

// Appends a text within quotes.
fn push_quoted(out: &mut Vec<u8>, text: &[u8]) -> Result<(), AllocError>
    ensures { OnOk result (out.new.items ≡ out.old.items ++ quoted text.now) }
{
    for byte in text {
        push_quoted_byte(out, *byte)?;
    }
    Ok(())
}

// Appends a byte within quotes.
fn push_quoted_byte(out: &mut Vec<u8>, byte: u8) -> Result<(), AllocError>
    ensures { OnOk result (out.new.items ≡ out.old.items ++ quoted_byte byte) }
{
    if byte == b'"' || byte == b'\\' {
        out.push(b'\\')?;
    }
    out.push(byte)?;
    Ok(())
}
