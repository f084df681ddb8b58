//! The names in the words of a line, before memory is taken for them.
ghost use Rattle.std.specs.Prelude.{◌≡◌, ◌<◌, ◌≤◌, ◌++◌, ◌∷◌, [], List, Some, None, Ok, Err, codes, length, map, position, take, MatchOption, MatchResult};
ghost use Rattle.std.specs.List.{list_any};
ghost use Rattle.mdl_key.specs.Keys.{KeyName, key_eq, table_key};
ghost use Rattle.mdl_lines.specs.Lines.{words_of};
ghost use Rattle.mdl_syntax.specs.Names.{is_dot, name_of, table_in, table_of};
ghost use Rattle.mdl_lines.specs.declared.fault.LineError.TheVariants.{BadName};
ghost use Rattle.mdl_syntax.specs.Forms.{more_tables, listed, one_word, or_refuse, other_table, next_table};
ghost use Rattle.mdl_syntax.specs.Reading.{ReadsAs};

use crate::no_statement::NoStatement;
use crate::words::split_word;
use mdl_key::{Key, KeyError, check_name};
use mdl_lines::LineError;
use std::alloc::Global;
use std::marker::Model;
use std::str;

// The most tables of a statement.
const MOST_TABLES: usize = 8;

// The schema of a table that is named without one.
const DEFAULT_SCHEMA: &str = "test";

/// The names of a table's schema and of the table.
#[derive(Clone, Copy)]
pub(crate) struct TableName<'a> {
    pub(crate) schema: &'a str,
    pub(crate) table: &'a str,
}

/// Returns the word as a name, if it is one.
pub(crate) fn name_of(word: &[u8]) -> Option<&str>
    ensures { MatchOption result (name_of word.now ≡ None) (λ name. name_of word.now ≡ Some name.now) }
{
    let name = str::from_utf8(word).ok()?;
    check_name(name).ok()?;
    Some(name)
}

/// Returns the table that a word names.
pub(crate) fn table_of(word: &[u8]) -> Option<TableName<'_>>
    ensures { MatchOption result (table_of word.now ≡ None) (λ name. table_of word.now ≡ Some (table_key name.schema.now name.table.now)) }
{
    match first_dot(word) {
        Some(at) => table_in(&word[..at], &word[at + 1..]),
        None => table_in_default(word),
    }
}

// Returns the table of this name in the default schema, whose own name needs no check.
fn table_in_default(table: &[u8]) -> Option<TableName<'_>>
    ensures { MatchOption result (table_in (codes "test") table.now ≡ None) (λ name. table_in (codes "test") table.now ≡ Some (table_key name.schema.now name.table.now)) }
{
    let table = name_of(table)?;
    Some(TableName {
        schema: DEFAULT_SCHEMA,
        table,
    })
}

// Returns where the first dot is.
fn first_dot(word: &[u8]) -> Option<usize>
    ensures { result ≡ position is_dot word.now }
{
    word.iter().position(|byte| *byte == b'.')
}

// Returns the table of this name in this schema.
fn table_in<'a>(schema: &'a [u8], table: &'a [u8]) -> Option<TableName<'a>>
    ensures { MatchOption result (table_in schema.now table.now ≡ None) (λ name. table_in schema.now table.now ≡ Some (table_key name.schema.now name.table.now)) }
{
    let schema = name_of(schema)?;
    let table = name_of(table)?;
    Some(TableName { schema, table })
}

/// Returns the key of the table that a word names. Making the key checks the names.
pub(crate) fn named_key(alloc: Global, word: &[u8]) -> Result<Key, NoStatement>
    ensures { ReadsAs (or_refuse BadName (table_of word.now)) result }
{
    let Some(at) = first_dot(word) else {
        return key_in(alloc, DEFAULT_SCHEMA, word);
    };
    match name_of(&word[..at]) {
        Some(schema) => key_in(alloc, schema, &word[at + 1..]),
        None => Err(NoStatement::Refused(LineError::BadName)),
    }
}

// Returns the key of the table that a word names in a schema.
fn key_in(alloc: Global, schema: &str, word: &[u8]) -> Result<Key, NoStatement>
    ensures { ReadsAs (or_refuse BadName (table_in schema.now word.now)) result }
{
    let Ok(table) = str::from_utf8(word) else {
        return Err(NoStatement::Refused(LineError::BadName));
    };
    match Key::table(alloc, schema, table) {
        Ok(key) => Ok(key),
        Err(KeyError::OutOfMemory) => Err(NoStatement::Memory),
        Err(_) => Err(NoStatement::Refused(LineError::BadName)),
    }
}

/// Returns the one table that words name, which must differ from the given one.
pub(crate) fn other_table<'a>(
    table: &TableName,
    words: &'a [u8],
) -> Result<TableName<'a>, LineError>
    ensures { MatchResult result
        (λ other. one_word BadName (other_table (table_key table.now.schema.now table.now.table.now)) (words_of words.now) ≡ Ok (table_key other.schema.now other.table.now))
        (λ error. one_word BadName (other_table (table_key table.now.schema.now table.now.table.now)) (words_of words.now) ≡ Err error) }
{
    let Some((word, rest)) = split_word(words) else {
        return Err(LineError::BadWord);
    };
    let Some(other) = table_of(word) else {
        return Err(LineError::BadName);
    };
    if is_same(table, &other) {
        return Err(LineError::BadName);
    }
    if split_word(rest).is_some() {
        return Err(LineError::BadWord);
    }
    Ok(other)
}

// Whether two names are of one table.
fn is_same(one: &TableName, other: &TableName) -> bool
    ensures { result ≡ key_eq (table_key one.now.schema.now one.now.table.now) (table_key other.now.schema.now other.now.table.now) }
{
    one.schema == other.schema && one.table == other.table
}

/// The tables that a statement names, no two the same.
#[derive(Drop)]
pub(crate) struct TableNames<'a> {
    names: [TableName<'a>; MOST_TABLES],
    count: usize,
}

impl<'a> Model for TableNames<'a> {
    ghost use Rattle.std.specs.Prelude.{◌≡◌, ◌≤◌, List, length, map, take};
    ghost use Rattle.mdl_key.specs.Keys.{KeyName, key_eq, table_key};

    ghost Value = { List KeyName };

    ghost view = { λ t. map (λ name. table_key name.schema.now name.table.now) (take t.count t.names) };

    ghost invariant = { λ t. (t.count ≤ 8) × (length t.names ≡ 8) };
}

impl<'a> TableNames<'a> {
    /// Returns an empty list.
    pub(crate) fn none() -> TableNames<'a>
        ensures { result ≡ [] }
    {
        TableNames {
            names: [TableName {
                schema: "",
                table: "",
            }; MOST_TABLES],
            count: 0,
        }
    }

    /// Returns the tables that words name.
    pub(crate) fn read(words: &'a [u8]) -> Result<TableNames<'a>, LineError>
        ensures { MatchResult result (λ tables. listed more_tables (words_of words.now) ≡ Ok tables) (λ error. listed more_tables (words_of words.now) ≡ Err error) }
    {
        let mut tables = TableNames::none();
        let mut left = words;
        while let Some((word, rest)) = split_word(left) {
            tables.add(word)?;
            left = rest;
        }
        if tables.as_slice().is_empty() {
            return Err(LineError::BadWord);
        }
        Ok(tables)
    }

    /// Adds the table that a word names.
    pub(crate) fn add(&mut self, word: &'a [u8]) -> Result<TableName<'a>, LineError>
        ensures { MatchResult result
            (λ name. (next_table self.old word.now ≡ Ok (table_key name.schema.now name.table.now)) × (self.new ≡ self.old ++ table_key name.schema.now name.table.now ∷ []))
            (λ error. next_table self.old word.now ≡ Err error) }
    {
        if self.count == MOST_TABLES {
            return Err(LineError::BadWord);
        }
        let Some(name) = table_of(word) else {
            return Err(LineError::BadName);
        };
        if self.has(&name) {
            return Err(LineError::BadName);
        }
        self.names[self.count] = name;
        self.count += 1;
        Ok(name)
    }

    // Whether the list has this table.
    fn has(&self, name: &TableName) -> bool
        ensures { result ≡ list_any (key_eq (table_key name.now.schema.now name.now.table.now)) self.now }
    {
        self.as_slice().iter().any(|other| is_same(name, other))
    }

    /// Returns the tables, in order.
    pub(crate) fn as_slice(&self) -> &[TableName<'a>]
        ensures { self.now ≡ map (λ name. table_key name.schema.now name.table.now) result.now }
    {
        &self.names[..self.count]
    }
}
