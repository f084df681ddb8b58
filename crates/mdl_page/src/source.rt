//! The text of a script in a page.
ghost use Rattle.std.specs.Prelude.{◌≡◌, ◌++◌, OnOk};
ghost use Rattle.mdl_page.specs.Pages.{in_text, source_text, text_byte};

use crate::frame::BEFORE_SOURCE;
use mdl_lines::push;
use std::alloc::AllocError;

/// Appends the text of a script, with what stands before it.
#[tactic(auto, unfolding(crate::specs::Pages::source_text))]
pub(crate) fn push_source(out: &mut Vec<u8>, source: &[u8]) -> Result<(), AllocError>
    ensures { OnOk result (out.new.items ≡ out.old.items ++ source_text source.now) }
{
    push(out, BEFORE_SOURCE)?;
    push_text(out, source)
}

// Appends a text, in which nothing is markup.
fn push_text(out: &mut Vec<u8>, text: &[u8]) -> Result<(), AllocError>
    ensures { OnOk result (out.new.items ≡ out.old.items ++ in_text text.now) }
{
    for byte in text {
        push_byte(out, *byte)?;
    }
    Ok(())
}

// Appends a byte of a text.
fn push_byte(out: &mut Vec<u8>, byte: u8) -> Result<(), AllocError>
    ensures { OnOk result (out.new.items ≡ out.old.items ++ text_byte byte) }
{
    match byte {
        b'&' => push(out, b"&amp;"),
        b'<' => push(out, b"&lt;"),
        byte => push(out, &[byte]),
    }
}
