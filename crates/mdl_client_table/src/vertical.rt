//! Lines of vertical tables.
ghost use Rattle.std.specs.Prelude.{◌≡◌, ◌==◌, position};
ghost use Rattle.std.specs.List.{after_first, before_first};
ghost use Rattle.mdl_client_table.specs.Forms.{may_be_field};
ghost use Rattle.mdl_client_table.specs.Vertical.{begins_row, is_as_wide, is_field_line, is_name_at, label_of, value_text, without_space};

use crate::field::Field;
use crate::pieces::trimmed;

/// Whether a line begins a row.
pub(crate) fn begins_row(line: &[u8]) -> bool
    ensures { result ≡ begins_row line.now }
{
    let text = trimmed(line);
    text.starts_with(b"***".as_slice()) && text.ends_with(b"***".as_slice())
}

/// Whether a line may be of a vertical table: its first colon has a space behind it.
pub(crate) fn may_be_field(line: &[u8]) -> bool
    ensures { result ≡ may_be_field line.now }
{
    match colon_in(line) {
        Some(place) => matches!(&line[place + 1..], [b' ', ..]),
        None => false,
    }
}

/// Whether a line has the next field of the row of this number, which has `count` fields so far.
pub(crate) fn is_field_line(number: usize, names: &[Field], count: usize, line: &[u8]) -> bool
    ensures { result ≡ is_field_line number names.now count line.now }
{
    if !line.contains(&b':') {
        return false;
    }
    let label = label_of(line);
    if number == 1 {
        is_as_wide(names, label)
    } else {
        is_name_at(names, count, label)
    }
}

// Whether a label is as wide as the first name.
fn is_as_wide(names: &[Field], label: &[u8]) -> bool
    ensures { result ≡ is_as_wide names.now label.now }
{
    match names {
        [first, ..] => label.len() == first.as_slice().len(),
        [] => true,
    }
}

// Whether a label is the name at an index.
fn is_name_at(names: &[Field], place: usize, label: &[u8]) -> bool
    ensures { result ≡ is_name_at names.now place label.now }
{
    match names.get(place) {
        Some(name) => name.as_slice() == label,
        None => false,
    }
}

/// Returns the name in a line, with the spaces before it.
pub(crate) fn label_of(line: &[u8]) -> &[u8]
    ensures { result.now ≡ label_of line.now }
{
    match colon_in(line) {
        Some(place) => &line[..place],
        None => line,
    }
}

/// Returns what is printed for the value in a line.
pub(crate) fn value_text(line: &[u8]) -> &[u8]
    ensures { result.now ≡ value_text line.now }
{
    match colon_in(line) {
        Some(place) => without_space(&line[place + 1..]),
        None => &[],
    }
}

// Returns a text without its first byte, if that is a space.
fn without_space(text: &[u8]) -> &[u8]
    ensures { result.now ≡ without_space text.now }
{
    match text {
        [b' ', rest @ ..] => rest,
        _ => text,
    }
}

// The index of the first colon.
fn colon_in(line: &[u8]) -> Option<usize>
    ensures { result ≡ position (λ byte. byte == 58) line.now }
{
    line.iter().position(|byte| *byte == b':')
}
