//! Names, as the client escapes them.
ghost use Rattle.std.specs.Prelude.{◌≡◌, ◌++◌, IfOk, OnOk};
ghost use Rattle.mdl_client_table.specs.Escapes.{name_of, unescaped, written_by};

use std::alloc::{AllocError, Global};

/// Returns the name in a field. It is empty if the field is `NULL`.
pub(crate) fn name_of(alloc: Global, field: &[u8]) -> Result<Vec<u8>, AllocError>
    ensures { IfOk result (λ name. name.items ≡ name_of field.now) }
{
    if field == b"NULL".as_slice() {
        return Ok(Vec::new(alloc));
    }
    unescaped(alloc, field)
}

// Returns the bytes that an escaped field stands for.
fn unescaped(alloc: Global, field: &[u8]) -> Result<Vec<u8>, AllocError>
    ensures { IfOk result (λ name. name.items ≡ unescaped field.now) }
{
    let mut name = Vec::with_capacity(alloc, field.len())?;
    let mut is_escaped = false;
    for byte in field {
        add_byte(&mut name, is_escaped, *byte)?;
        is_escaped = !is_escaped && *byte == b'\\';
    }
    if is_escaped {
        name.push(b'\\')?;
    }
    Ok(name)
}

// Adds what a byte stands for, given whether an unescaped backslash is before it.
fn add_byte(name: &mut Vec<u8>, is_escaped: bool, byte: u8) -> Result<(), AllocError>
    ensures { OnOk result (name.new.items ≡ name.old.items ++ written_by is_escaped byte) }
{
    match (is_escaped, byte) {
        (false, b'\\') => {}
        (false, _) | (true, b'\\') => name.push(byte)?,
        (true, b'0') => name.push(0)?,
        (true, b't') => name.push(b'\t')?,
        (true, b'n') => name.push(b'\n')?,
        (true, _) => {
            name.push(b'\\')?;
            name.push(byte)?;
        }
    }
    Ok(())
}
