//! The data of a page.
ghost use Rattle.std.specs.Prelude.{◌≡◌, ◌++◌, codes, flat_map, OnOk};
ghost use Rattle.mdl_page.specs.Pages.{behind_comma, data_text, facts_text, in_script, lines_text, script_byte};

use crate::facts::LineFacts;
use mdl_lines::{push, push_number};
use std::alloc::AllocError;

/// Appends the data of a page: an array of JSON, with an object for each line.
pub(crate) fn push_data(out: &mut Vec<u8>, lines: &[LineFacts]) -> Result<(), AllocError>
    ensures { OnOk result (out.new.items ≡ out.old.items ++ data_text lines.now) }
{
    push(out, b"[")?;
    push_lines(out, lines)?;
    push(out, b"]")
}

// Appends the objects of lines, with commas between them.
fn push_lines(out: &mut Vec<u8>, lines: &[LineFacts]) -> Result<(), AllocError>
    ensures { OnOk result (out.new.items ≡ out.old.items ++ lines_text lines.now) }
{
    let [first, others @ ..] = lines else {
        return Ok(());
    };
    push_facts(out, first)?;
    push_behind_commas(out, others)
}

// Appends the objects of lines, each behind a comma.
fn push_behind_commas(out: &mut Vec<u8>, lines: &[LineFacts]) -> Result<(), AllocError>
    ensures { OnOk result (out.new.items ≡ out.old.items ++ flat_map behind_comma lines.now) }
{
    for facts in lines {
        push(out, b",\n")?;
        push_facts(out, facts)?;
    }
    Ok(())
}

// Appends the object of a line.
fn push_facts(out: &mut Vec<u8>, facts: &LineFacts) -> Result<(), AllocError>
    ensures { OnOk result (out.new.items ≡ out.old.items ++ facts_text facts.now) }
{
    push(out, b"{\"line\":")?;
    push_number(out, facts.line)?;
    push_member(out, b",\"locks\":", &facts.locks)?;
    push_member(out, b",\"waits\":", &facts.waits)?;
    push_member(out, b",\"why\":", &facts.why)?;
    push(out, b"}")
}

// Appends a member, whose value is JSON. `head` is what precedes the value.
fn push_member(out: &mut Vec<u8>, head: &[u8], value: &[u8]) -> Result<(), AllocError>
    ensures { OnOk result (out.new.items ≡ out.old.items ++ (head.now ++ in_script value.now)) }
{
    push(out, head)?;
    push_json(out, value)
}

// Appends JSON, in which each `<` is written by its number.
fn push_json(out: &mut Vec<u8>, text: &[u8]) -> Result<(), AllocError>
    ensures { OnOk result (out.new.items ≡ out.old.items ++ in_script text.now) }
{
    for byte in text {
        push_byte(out, *byte)?;
    }
    Ok(())
}

// Appends a byte of JSON.
fn push_byte(out: &mut Vec<u8>, byte: u8) -> Result<(), AllocError>
    ensures { OnOk result (out.new.items ≡ out.old.items ++ script_byte byte) }
{
    if byte == b'<' {
        return push(out, b"\\u003c");
    }
    out.push(byte)?;
    Ok(())
}
