//! What becomes of the lines of a script, as text.
ghost use Rattle.std.specs.Prelude.{◌≡◌, ◌++◌, ◌∷◌, [], OnOk, flat_map, codes};
ghost use Rattle.std.specs.List.{join_by};
ghost use Rattle.std.specs.String.{string_bytes};
ghost use Rattle.mdl_key.specs.Keys.{key_text};
ghost use Rattle.mdl_script.specs.RunTexts.{answer_line, answers_text};
ghost use Rattle.mdl_script.specs.Texts.{columns_text, end_line, error_text, heading, news_text, number_text, reply_text, table_text, tables_text, told_line, told_text, wait_text};

use mdl_defs::Column;
use mdl_key::{Key, Mode, Namespace};
use mdl_lines::push_digits;
use mdl_stmt::{Reply, TableShown};
use std::alloc::AllocError;

/// What becomes of a line.
#[derive(Drop)]
pub enum News {
    /// Its statement has ended.
    Ends(Reply),
    /// Its statement begins to wait for a lock on this key in this mode.
    Waits(Key, Mode),
    /// Its session is busy: the statement of another line still waits.
    Busy,
}

/// What becomes of a line.
#[derive(Drop)]
pub struct Told {
    /// The line's number.
    pub line: u64,
    /// The session that the line asks.
    pub who: u16,
    /// What becomes of the line.
    pub news: News,
}

/// Appends a line for each of these to a text.
pub(crate) fn push_all_told(out: &mut String, all: &[Told]) -> Result<(), AllocError>
    ensures { OnOk result (string_bytes out.new ≡ string_bytes out.old ++ told_text all.now) }
{
    for told in all {
        push_told(out, told)?;
    }
    Ok(())
}

/// Appends a line to a text: the numbers of the line that asked and of its session, and what becomes of it.
pub fn push_told(out: &mut String, told: &Told) -> Result<(), AllocError>
    ensures { OnOk result (string_bytes out.new ≡ string_bytes out.old ++ told_line told.now) }
{
    push_heading(out, told.line, told.who)?;
    push_news(out, &told.news)?;
    out.push('\n')
}

/// Appends what becomes of a line to a text, without the numbers of the line and of its session.
pub fn push_news(out: &mut String, news: &News) -> Result<(), AllocError>
    ensures { OnOk result (string_bytes out.new ≡ string_bytes out.old ++ news_text news.now) }
{
    match news {
        News::Ends(reply) => push_reply(out, reply),
        News::Waits(key, mode) => push_wait(out, key, *mode),
        News::Busy => out.push_str("BUSY"),
    }
}

/// Appends a line for each session that still waits at the end to a text.
pub(crate) fn push_ends(out: &mut String, waiting: &[u16]) -> Result<(), AllocError>
    ensures { OnOk result (string_bytes out.new ≡ string_bytes out.old ++ flat_map end_line waiting.now) }
{
    for who in waiting {
        push_end(out, *who)?;
    }
    Ok(())
}

/// Appends the line of a session that still waits at the end to a text.
pub fn push_end(out: &mut String, who: u16) -> Result<(), AllocError>
    ensures { OnOk result (string_bytes out.new ≡ string_bytes out.old ++ end_line who) }
{
    match writeln!(out, "END {who} WAIT") {
        Ok(()) => Ok(()),
        Err(_) => Err(AllocError),
    }
}

/// Appends the lines of all answers to a session to a text.
pub(crate) fn push_answers(
    out: &mut String,
    who: u16,
    answers: &[(u64, Reply)],
) -> Result<(), AllocError>
    ensures { OnOk result (string_bytes out.new ≡ string_bytes out.old ++ answers_text who answers.now) }
{
    for (line, reply) in answers {
        push_answer(out, *line, who, reply)?;
    }
    Ok(())
}

// Appends the line of an answer to a session, asked by the line of this number.
fn push_answer(out: &mut String, line: u64, who: u16, reply: &Reply) -> Result<(), AllocError>
    ensures { OnOk result (string_bytes out.new ≡ string_bytes out.old ++ answer_line who (line, reply.now)) }
{
    push_heading(out, line, who)?;
    push_reply(out, reply)?;
    out.push('\n')
}

// Appends the numbers of a line and of its session, each with a space after it. Most of the text is numbers, and a formatter takes longer for them.
fn push_heading(out: &mut String, line: u64, who: u16) -> Result<(), AllocError>
    ensures { OnOk result (string_bytes out.new ≡ string_bytes out.old ++ heading line who) }
{
    push_digits(out, line)?;
    out.push(' ')?;
    push_digits(out, u64::from(who))?;
    out.push(' ')
}

// Appends a wait that has begun.
fn push_wait(out: &mut String, key: &Key, mode: Mode) -> Result<(), AllocError>
    ensures { OnOk result (string_bytes out.new ≡ string_bytes out.old ++ wait_text key.now mode) }
{
    out.push_str("WAIT ")?;
    push_key(out, key)?;
    out.push(' ')?;
    out.push_str(mode.as_str())
}

// Appends a key as it is displayed. A formatter takes longer.
fn push_key(out: &mut String, key: &Key) -> Result<(), AllocError>
    ensures { OnOk result (string_bytes out.new ≡ string_bytes out.old ++ key_text key.now) }
{
    match key.namespace() {
        Namespace::Global => out.push_str("GLOBAL"),
        Namespace::Schema => {
            out.push_str("SCHEMA ")?;
            out.push_str(key.schema_name())
        }
        Namespace::Table => {
            out.push_str("TABLE ")?;
            push_table_name(out, key)
        }
        Namespace::Commit => out.push_str("COMMIT"),
        Namespace::UserLevelLock => {
            out.push_str("USER ")?;
            out.push_str(key.schema_name())
        }
    }
}

// Appends the name of a table, after its schema's and a dot.
fn push_table_name(out: &mut String, key: &Key) -> Result<(), AllocError>
    ensures { OnOk result (string_bytes out.new ≡ string_bytes out.old ++ key.now.schema ++ codes "." ++ key.now.table) }
{
    out.push_str(key.schema_name())?;
    out.push('.')?;
    out.push_str(key.table_name())
}

// Appends a reply.
fn push_reply(out: &mut String, reply: &Reply) -> Result<(), AllocError>
    ensures { OnOk result (string_bytes out.new ≡ string_bytes out.old ++ reply_text reply.now) }
{
    match reply {
        Reply::Ok => out.push_str("OK"),
        Reply::Columns(tables) => {
            out.push_str("OK")?;
            push_tables(out, tables.as_slice())
        }
        Reply::Number(number) => push_truth(out, *number),
        Reply::Null => out.push_str("OK NULL"),
        Reply::Error(error) => push_error(out, error.number()),
    }
}

// Appends a truth value, as the number 1 or 0.
fn push_truth(out: &mut String, number: bool) -> Result<(), AllocError>
    ensures { OnOk result (string_bytes out.new ≡ string_bytes out.old ++ number_text number) }
{
    match number {
        true => out.push_str("OK 1"),
        false => out.push_str("OK 0"),
    }
}

// Appends the number of an error.
fn push_error(out: &mut String, number: u16) -> Result<(), AllocError>
    ensures { OnOk result (string_bytes out.new ≡ string_bytes out.old ++ error_text number) }
{
    out.push_str("ERR ")?;
    push_digits(out, u64::from(number))
}

// Appends the tables that a statement read, each after a space.
fn push_tables(out: &mut String, tables: &[TableShown]) -> Result<(), AllocError>
    ensures { OnOk result (string_bytes out.new ≡ string_bytes out.old ++ tables_text tables.now) }
{
    for table in tables {
        push_table(out, table)?;
    }
    Ok(())
}

// Appends a table that a statement read, after a space.
fn push_table(out: &mut String, table: &TableShown) -> Result<(), AllocError>
    ensures { OnOk result (string_bytes out.new ≡ string_bytes out.old ++ table_text table.now) }
{
    out.push(' ')?;
    push_table_name(out, &table.key)?;
    out.push('@')?;
    push_digits(out, table.version)?;
    push_columns(out, table.columns.as_slice())
}

// Appends columns, separated by commas and in parentheses.
pub(crate) fn push_columns(out: &mut String, columns: &[Column]) -> Result<(), AllocError>
    ensures { OnOk result (string_bytes out.new ≡ string_bytes out.old ++ columns_text columns.now) }
{
    out.push('(')?;
    push_parted(out, columns)?;
    out.push(')')
}

// Appends columns, separated by commas.
fn push_parted(out: &mut String, columns: &[Column]) -> Result<(), AllocError>
    ensures { OnOk result (string_bytes out.new ≡ string_bytes out.old ++ join_by (λ column. column) (codes ",") columns.now) }
{
    let [first, rest @ ..] = columns else {
        return Ok(());
    };
    out.push_str(first.name())?;
    push_behind_commas(out, rest)
}

// Appends columns, each after a comma.
fn push_behind_commas(out: &mut String, columns: &[Column]) -> Result<(), AllocError>
    ensures { OnOk result (string_bytes out.new ≡ string_bytes out.old ++ flat_map (λ column. codes "," ++ column) columns.now) }
{
    for column in columns {
        out.push(',')?;
        out.push_str(column.name())?;
    }
    Ok(())
}
