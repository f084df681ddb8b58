//! What a client prints above and below tables.
ghost use Rattle.std.specs.Prelude.{◌≡◌};
ghost use Rattle.mdl_client_table.specs.Remarks.{counts_rows, end_of_digits, is_footer, is_notice, is_outcome, is_prompt, is_remark};

use crate::pieces::trimmed;

/// Whether a line is no line of a table: it is blank, or the client's own.
pub(crate) fn is_remark(line: &[u8]) -> bool
    ensures { result ≡ is_remark line.now }
{
    let text = trimmed(line);
    text.is_empty() || is_prompt(text) || is_notice(text) || is_outcome(text)
}

/// Whether a text is the line below rows: a number, and then `rows in set`.
pub(crate) fn is_footer(text: &[u8]) -> bool
    ensures { result ≡ is_footer text.now }
{
    match end_of_digits(text) {
        Some(place) => place != 0 && counts_rows(&text[place..]),
        None => false,
    }
}

// Returns where the digits end with which a text begins.
fn end_of_digits(text: &[u8]) -> Option<usize>
    ensures { result ≡ end_of_digits text.now }
{
    text.iter().position(|byte| !byte.is_ascii_digit())
}

// Whether a text is what stands behind the number of rows.
fn counts_rows(text: &[u8]) -> bool
    ensures { result ≡ counts_rows text.now }
{
    text.starts_with(b" row in set".as_slice()) || text.starts_with(b" rows in set".as_slice())
}

// Whether a text begins with the client's prompt, behind which a statement stands, or more of one.
fn is_prompt(text: &[u8]) -> bool
    ensures { result ≡ is_prompt text.now }
{
    text.starts_with(b"mysql>".as_slice())
        || text.starts_with(b"MariaDB [".as_slice())
        || text.starts_with(b"->".as_slice())
        || text.starts_with(b"'>".as_slice())
        || text.starts_with(b"\">".as_slice())
        || text.starts_with(b"`>".as_slice())
}

// Whether a text is what the client says before it sends a statement.
fn is_notice(text: &[u8]) -> bool
    ensures { result ≡ is_notice text.now }
{
    text.starts_with(b"mysql: ".as_slice())
        || text.starts_with(b"mariadb: ".as_slice())
        || text.starts_with(b"Warning: ".as_slice())
        || text.starts_with(b"WARNING: ".as_slice())
        || text.starts_with(b"Enter password:".as_slice())
        || text.starts_with(b"Server version: ".as_slice())
        || text.starts_with(b"Copyright ".as_slice())
        || text.starts_with(b"Connection id: ".as_slice())
        || text.starts_with(b"Current database: ".as_slice())
}

// Whether a text is how a statement ended.
fn is_outcome(text: &[u8]) -> bool
    ensures { result ≡ is_outcome text.now }
{
    text.starts_with(b"Empty set".as_slice())
        || text.starts_with(b"Query OK".as_slice())
        || text.starts_with(b"Rows matched: ".as_slice())
        || is_footer(text)
}
