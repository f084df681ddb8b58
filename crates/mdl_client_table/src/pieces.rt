//! The fields of a line.
ghost use Rattle.std.specs.Prelude.{◌≡◌, ◌==◌, IfOk, map};
ghost use Rattle.std.specs.List.{slice_split};
ghost use Rattle.mdl_client_table.specs.Boxes.{trimmed};
ghost use Rattle.mdl_client_table.specs.Escapes.{name_of};
ghost use Rattle.mdl_client_table.specs.Tabs.{tab_fields};

use crate::escapes::name_of;
use crate::field::Field;
use std::alloc::{AllocError, Global};

/// Returns the fields of a line, separated by tabs.
pub(crate) fn tab_fields(alloc: Global, line: &[u8]) -> Result<Vec<Field>, AllocError>
    ensures { IfOk result (λ fields. fields.items ≡ tab_fields line.now) }
{
    let parts = parts_of(alloc, line, b'\t')?;
    unescaped_fields(alloc, parts.as_slice())
}

// Returns the fields of escaped values.
fn unescaped_fields(alloc: Global, parts: &[&[u8]]) -> Result<Vec<Field>, AllocError>
    ensures { IfOk result (λ fields. fields.items ≡ map (λ part. name_of part.now) parts.now) }
{
    let mut fields = Vec::with_capacity(alloc, parts.len())?;
    for part in parts {
        fields.push(Field::new(name_of(alloc, part)?))?;
    }
    Ok(fields)
}

/// Returns a text without blanks at its ends.
pub(crate) fn trimmed(text: &[u8]) -> &[u8]
    ensures { result.now ≡ trimmed text.now }
{
    text.trim_ascii()
}

/// Returns the parts of a line that a byte separates.
pub(crate) fn parts_of(alloc: Global, line: &[u8], separator: u8) -> Result<Vec<&[u8]>, AllocError>
    ensures { IfOk result (λ parts. map (λ part. part.now) parts.items ≡ slice_split (λ byte. byte == separator) line.now) }
{
    line.split(|byte| *byte == separator).collect(alloc)
}
