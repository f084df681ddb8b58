//! The forms of printed tables.
ghost use Rattle.std.specs.Prelude.{◌≡◌};
ghost use Rattle.mdl_client_table.specs.Commas.{first_mark};
ghost use Rattle.mdl_client_table.specs.Forms.{begins_json, form_begun, form_separated};

use crate::pieces::trimmed;
use crate::remarks::is_remark;
use crate::vertical::{begins_row, may_be_field};

/// How a client prints a table.
#[derive(Clone, Copy, Debug, PartialEq, Eq)]
pub enum Form {
    /// A header and a line for each row, with tabs between the fields: `mysql -B`.
    Tabs,
    /// A header and a line for each row, in boxes: `mysql -t`.
    Boxes,
    /// A line for each field: `mysql -E`.
    Vertical,
    /// A header and a line for each row, with commas between the fields: CSV.
    Commas,
    /// An object for each row: JSON.
    Json,
}

impl Form {
    /// Returns the form of a table that begins with a line, unless none does: the line is the client's own, or has no separator of any form. Behind
    /// blanks, JSON begins with `[` or `{`, a vertical table with a line of stars, and boxes with `+-` or `|`. A header has tabs or commas.
    pub fn begun_by(line: &[u8]) -> Option<Form>
        ensures { result ≡ form_begun line.now }
    {
        if is_remark(line) {
            return None;
        }
        let text = trimmed(line);
        if begins_json(text) {
            Some(Form::Json)
        } else if begins_row(line) {
            Some(Form::Vertical)
        } else if text.starts_with(b"+-".as_slice()) || text.starts_with(b"|".as_slice()) {
            Some(Form::Boxes)
        } else {
            Form::separated(line)
        }
    }

    // Returns the form of a table whose fields are separated by tabs or commas. A line of a vertical table is taken for its header.
    fn separated(line: &[u8]) -> Option<Form>
        ensures { result ≡ form_separated line.now }
    {
        match first_mark(line) {
            Some(b'\t') => Some(Form::Tabs),
            Some(_) => Some(Form::Commas),
            None => may_be_field(line).then_some(Form::Tabs),
        }
    }
}

// Whether a text begins with an array or an object of JSON, and not with a shell's prompt.
fn begins_json(text: &[u8]) -> bool
    ensures { result ≡ begins_json text.now }
{
    match text {
        [b'{', ..] | [b'['] => true,
        [b'[', next, ..] => !next.is_ascii_alphabetic(),
        _ => false,
    }
}

// Returns the first byte of a line that is a tab or a comma.
fn first_mark(line: &[u8]) -> Option<u8>
    ensures { result ≡ first_mark line.now }
{
    line.iter()
        .copied()
        .find(|byte| *byte == b'\t' || *byte == b',')
}
