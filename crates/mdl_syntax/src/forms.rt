//! The forms of statements: key words, and what follows them.
ghost use Rattle.std.specs.Prelude.{◌≡◌, ◌<◌, ◌++◌, ◌∷◌, [], Ok, Err, length, map, IfOk, MatchResult};
ghost use Rattle.mdl_key.specs.Keys.{table_key};
ghost use Rattle.mdl_lines.specs.Lines.{words_of};
ghost use Rattle.mdl_syntax.specs.declared.statement.Statement.TheVariants.{Savepoint, Select, CreateTable, RenameTable, AlterTable, KillQuery, GetLock, ReleaseLock};
ghost use Rattle.mdl_syntax.specs.Forms as forms;
ghost use Rattle.mdl_syntax.specs.Reading.{alter_of, kill_of, ReadsAs, create_of, rename_of, flush_of, unlock_of, write_of, lock_of, next_lock_type, drop_of, rollback_of, start_of};

use crate::key_words::behind;
use crate::no_statement::NoStatement;
use crate::table_names::{TableName, TableNames, name_of, named_key, other_table, table_of};
use crate::verb::{Verb, verb_of};
use crate::words::split_word;
use crate::{
    Algorithm, Alteration, LockType, Name, Priority, Statement, TableLock, TableLocks, Tables,
};
use mdl_defs::{Change, Column, Columns, MOST_COLUMNS};
use mdl_key::Key;
use mdl_lines::{LineError, session_of};
use std::alloc::{AllocError, Global};
use std::mem;

/// Returns the statement that words say. Words that are wrong are refused also if memory ran out before.
pub(crate) fn statement_of(alloc: Global, words: &[u8]) -> Result<Statement, NoStatement>
    ensures { ReadsAs (forms.statement_of (words_of words.now)) result }
{
    let Some((word, rest)) = split_word(words) else {
        return bad_word();
    };
    let Some(verb) = verb_of(word) else {
        return bad_word();
    };
    match verb {
        Verb::Begin => no_more(Statement::Begin, rest),
        Verb::Start => start(rest),
        Verb::Commit => no_more(Statement::Commit, rest),
        Verb::Rollback => rollback(alloc, rest),
        Verb::Savepoint => savepoint(alloc, rest),
        Verb::Select => select(alloc, rest),
        Verb::Insert => write(alloc, rest),
        Verb::Update => write(alloc, rest),
        Verb::Delete => write(alloc, rest),
        Verb::Create => create(alloc, rest),
        Verb::Drop => drop(alloc, rest),
        Verb::Rename => rename(alloc, rest),
        Verb::Alter => alter(alloc, rest),
        Verb::Lock => lock_tables(alloc, rest),
        Verb::Unlock => unlock(rest),
        Verb::Flush => flush(rest),
        Verb::Kill => kill(rest),
        Verb::Timeout => no_more(Statement::Timeout, rest),
        Verb::GetLock => get_lock(alloc, rest),
        Verb::ReleaseLock => release_lock(alloc, rest),
    }
}

// Refuses words that have no form, or are one too few or too many.
fn bad_word() -> Result<Statement, NoStatement>
    ensures { result ≡ Err (NoStatement.Refused LineError.BadWord) }
{
    Err(NoStatement::Refused(LineError::BadWord))
}

// Returns the statement, if no word is left.
fn no_more(statement: Statement, words: &[u8]) -> Result<Statement, NoStatement>
    ensures { ReadsAs (forms.no_more statement (words_of words.now)) result }
{
    match split_word(words) {
        None => Ok(statement),
        Some(_) => {
            mem::drop(statement);
            bad_word()
        }
    }
}

// Reads what follows START.
fn start(words: &[u8]) -> Result<Statement, NoStatement>
    ensures { ReadsAs (start_of (words_of words.now)) result }
{
    match behind("TRANSACTION", words) {
        Some(rest) => no_more(Statement::Begin, rest),
        None => bad_word(),
    }
}

// Reads what follows ROLLBACK: nothing, or the savepoint to go back to.
fn rollback(alloc: Global, words: &[u8]) -> Result<Statement, NoStatement>
    ensures { ReadsAs (rollback_of (words_of words.now)) result }
{
    match behind("TO", words) {
        Some(rest) => Ok(Statement::RollbackTo(one_name(alloc, rest)?)),
        None => no_more(Statement::Rollback, words),
    }
}

// Reads the name of a new savepoint.
fn savepoint(alloc: Global, words: &[u8]) -> Result<Statement, NoStatement>
    ensures { ReadsAs (forms.makes Savepoint forms.one_name (words_of words.now)) result }
{
    Ok(Statement::Savepoint(one_name(alloc, words)?))
}

// Reads the tables to select from.
fn select(alloc: Global, words: &[u8]) -> Result<Statement, NoStatement>
    ensures { ReadsAs (forms.makes Select forms.some_tables (words_of words.now)) result }
{
    Ok(Statement::Select(some_tables(alloc, words)?))
}

// Reads one name.
fn one_name(alloc: Global, words: &[u8]) -> Result<Name, NoStatement>
    ensures { ReadsAs (forms.one_name (words_of words.now)) result }
{
    let Some((word, rest)) = split_word(words) else {
        return Err(NoStatement::Refused(LineError::BadWord));
    };
    let Some(name) = name_of(word) else {
        return Err(NoStatement::Refused(LineError::BadName));
    };
    if split_word(rest).is_some() {
        return Err(NoStatement::Refused(LineError::BadWord));
    }
    match Name::new(alloc, name) {
        Ok(name) => Ok(name),
        Err(_) => Err(NoStatement::Memory),
    }
}

// Reads one table.
fn one_table(alloc: Global, words: &[u8]) -> Result<Key, NoStatement>
    ensures { ReadsAs (forms.one_table (words_of words.now)) result }
{
    match split_word(words) {
        Some((word, rest)) => last_table(alloc, word, rest),
        None => Err(NoStatement::Refused(LineError::BadWord)),
    }
}

// Reads the table that a word names, if no word is left after it.
fn last_table(alloc: Global, word: &[u8], words: &[u8]) -> Result<Key, NoStatement>
    ensures { ReadsAs (forms.one_table (word.now ∷ words_of words.now)) result }
{
    if split_word(words).is_none() {
        return named_key(alloc, word);
    }
    match table_of(word) {
        Some(_) => Err(NoStatement::Refused(LineError::BadWord)),
        None => Err(NoStatement::Refused(LineError::BadName)),
    }
}

// Returns the key of a table whose names have been checked.
fn key_of(alloc: Global, name: &TableName) -> Result<Key, AllocError>
    ensures { IfOk result (λ key. key ≡ table_key name.now.schema.now name.now.table.now) }
{
    match Key::table(alloc, name.schema, name.table) {
        Ok(key) => Ok(key),
        Err(_) => Err(AllocError),
    }
}

// Reads a write of one table.
fn write(alloc: Global, words: &[u8]) -> Result<Statement, NoStatement>
    ensures { ReadsAs (write_of (words_of words.now)) result }
{
    let Some((word, rest)) = split_word(words) else {
        return bad_word();
    };
    if word == b"LOW_PRIORITY".as_slice() {
        return Ok(Statement::Write {
            table: one_table(alloc, rest)?,
            priority: Priority::Low,
        });
    }
    Ok(Statement::Write {
        table: last_table(alloc, word, rest)?,
        priority: Priority::Normal,
    })
}

// Reads tables. Most statements name one.
fn some_tables(alloc: Global, words: &[u8]) -> Result<Tables, NoStatement>
    ensures { ReadsAs (forms.some_tables (words_of words.now)) result }
{
    let Some((word, rest)) = split_word(words) else {
        return Err(NoStatement::Refused(LineError::BadWord));
    };
    if split_word(rest).is_none() {
        return only_table(alloc, word);
    }
    many_tables(alloc, words)
}

// Reads the only table of a statement.
fn only_table(alloc: Global, word: &[u8]) -> Result<Tables, NoStatement>
    ensures { ReadsAs (forms.some_tables (word.now ∷ [])) result }
{
    Ok(Tables::of_one(alloc, named_key(alloc, word)?))
}

// Reads tables, however many they are.
fn many_tables(alloc: Global, words: &[u8]) -> Result<Tables, NoStatement>
    ensures { ReadsAs (forms.some_tables (words_of words.now)) result }
{
    let names = TableNames::read(words)?;
    Ok(keys_of(alloc, names.as_slice())?)
}

// Returns the keys of tables whose names have been checked.
fn keys_of(alloc: Global, names: &[TableName]) -> Result<Tables, AllocError>
    ensures { IfOk result (λ tables. tables ≡ map (λ name. table_key name.schema.now name.table.now) names.now) }
{
    let mut tables = Tables::with_room(alloc, names.len())?;
    for name in names {
        tables.push(key_of(alloc, name)?)?;
    }
    Ok(tables)
}

// Reads a new table or schema.
fn create(alloc: Global, words: &[u8]) -> Result<Statement, NoStatement>
    ensures { ReadsAs (create_of (words_of words.now)) result }
{
    if let Some(rest) = behind("TABLE", words) {
        return create_table(alloc, rest);
    }
    match behind("SCHEMA", words) {
        Some(rest) => Ok(Statement::CreateSchema(one_name(alloc, rest)?)),
        None => bad_word(),
    }
}

// Reads the tables or the schema to drop.
fn drop(alloc: Global, words: &[u8]) -> Result<Statement, NoStatement>
    ensures { ReadsAs (drop_of (words_of words.now)) result }
{
    if let Some(rest) = behind("TABLE", words) {
        return Ok(Statement::DropTables(some_tables(alloc, rest)?));
    }
    match behind("SCHEMA", words) {
        Some(rest) => Ok(Statement::DropSchema(one_name(alloc, rest)?)),
        None => bad_word(),
    }
}

// Reads a new table and its columns.
fn create_table(alloc: Global, words: &[u8]) -> Result<Statement, NoStatement>
    ensures { ReadsAs (forms.makes (λ named. CreateTable named.0 named.1) forms.table_and_columns (words_of words.now)) result }
{
    let Some((word, rest)) = split_word(words) else {
        return bad_word();
    };
    let Some(name) = table_of(word) else {
        return Err(NoStatement::Refused(LineError::BadName));
    };
    let columns = some_columns(alloc, rest)?;
    Ok(Statement::CreateTable {
        table: key_of(alloc, &name)?,
        columns,
    })
}

// Reads columns. If memory runs out for one, those after it are still checked.
fn some_columns(alloc: Global, words: &[u8]) -> Result<Columns, NoStatement>
    ensures { ReadsAs (forms.some_columns (words_of words.now)) result }
{
    let mut columns = Columns::new(alloc);
    let mut count = 0;
    let mut has_room = true;
    let mut left = words;
    while let Some((word, rest)) = split_word(left) {
        if count == MOST_COLUMNS {
            return Err(NoStatement::Refused(LineError::BadWord));
        }
        let Some(name) = name_of(word) else {
            return Err(NoStatement::Refused(LineError::BadName));
        };
        has_room = has_room && push_column(alloc, &mut columns, name).is_ok();
        count += 1;
        left = rest;
    }
    if count == 0 {
        return Err(NoStatement::Refused(LineError::BadWord));
    }
    if !has_room {
        return Err(NoStatement::Memory);
    }
    Ok(columns)
}

// Appends a column whose name has been checked.
fn push_column(alloc: Global, columns: &mut Columns, name: &str) -> Result<(), AllocError>
    ensures { IfOk result (λ _. columns.new ≡ columns.old ++ name.now ∷ []) }
{
    match Column::new(alloc, name) {
        Ok(column) => columns.push(column),
        Err(_) => Err(AllocError),
    }
}

// Reads a table and its new name, after RENAME.
fn rename(alloc: Global, words: &[u8]) -> Result<Statement, NoStatement>
    ensures { ReadsAs (rename_of (words_of words.now)) result }
{
    match behind("TABLE", words) {
        Some(rest) => rename_table(alloc, rest),
        None => bad_word(),
    }
}

// Reads a table and its new name.
fn rename_table(alloc: Global, words: &[u8]) -> Result<Statement, NoStatement>
    ensures { ReadsAs (forms.makes (λ named. RenameTable named.0 named.1) forms.table_to_table (words_of words.now)) result }
{
    let Some((word, rest)) = split_word(words) else {
        return bad_word();
    };
    let Some(from) = table_of(word) else {
        return Err(NoStatement::Refused(LineError::BadName));
    };
    let Some(rest) = behind("TO", rest) else {
        return bad_word();
    };
    let to = other_table(&from, rest)?;
    Ok(Statement::RenameTable {
        from: key_of(alloc, &from)?,
        to: key_of(alloc, &to)?,
    })
}

// Reads what follows UNLOCK.
fn unlock(words: &[u8]) -> Result<Statement, NoStatement>
    ensures { ReadsAs (unlock_of (words_of words.now)) result }
{
    match behind("TABLES", words) {
        Some(rest) => no_more(Statement::UnlockTables, rest),
        None => bad_word(),
    }
}

// Reads what follows FLUSH: the request for the global read lock.
fn flush(words: &[u8]) -> Result<Statement, NoStatement>
    ensures { ReadsAs (flush_of (words_of words.now)) result }
{
    let Some(words) = behind("TABLES", words) else {
        return bad_word();
    };
    let Some(words) = behind("WITH", words) else {
        return bad_word();
    };
    let Some(words) = behind("READ", words) else {
        return bad_word();
    };
    match behind("LOCK", words) {
        Some(words) => no_more(Statement::FlushTablesWithReadLock, words),
        None => bad_word(),
    }
}

// Reads an alteration of a table, after ALTER.
fn alter(alloc: Global, words: &[u8]) -> Result<Statement, NoStatement>
    ensures { ReadsAs (alter_of (words_of words.now)) result }
{
    match behind("TABLE", words) {
        Some(rest) => alter_table(alloc, rest),
        None => bad_word(),
    }
}

// Reads a table, a change of its columns, and how it is altered.
fn alter_table(alloc: Global, words: &[u8]) -> Result<Statement, NoStatement>
    ensures { ReadsAs (forms.makes AlterTable forms.alteration (words_of words.now)) result }
{
    let Some((word, rest)) = split_word(words) else {
        return bad_word();
    };
    let Some(name) = table_of(word) else {
        return Err(NoStatement::Refused(LineError::BadName));
    };
    let (change, algorithm) = column_change(alloc, rest)?;
    Ok(Statement::AlterTable(Alteration {
        table: key_of(alloc, &name)?,
        change,
        algorithm,
    }))
}

// Reads a column to add or drop, and how its table is altered.
fn column_change(alloc: Global, words: &[u8]) -> Result<(Change, Algorithm), NoStatement>
    ensures { ReadsAs (forms.column_change (words_of words.now)) result }
{
    if let Some(rest) = behind("ADD", words) {
        let (column, algorithm) = column_and_algorithm(alloc, rest)?;
        return Ok((Change::AddColumn(column), algorithm));
    }
    let Some(rest) = behind("DROP", words) else {
        return Err(NoStatement::Refused(LineError::BadWord));
    };
    let (column, algorithm) = column_and_algorithm(alloc, rest)?;
    Ok((Change::DropColumn(column), algorithm))
}

// Reads a column, and how its table is altered.
fn column_and_algorithm(alloc: Global, words: &[u8]) -> Result<(Column, Algorithm), NoStatement>
    ensures { ReadsAs (forms.column_and_algorithm (words_of words.now)) result }
{
    let Some((word, rest)) = split_word(words) else {
        return Err(NoStatement::Refused(LineError::BadWord));
    };
    let Some(name) = name_of(word) else {
        return Err(NoStatement::Refused(LineError::BadName));
    };
    let algorithm = one_algorithm(rest)?;
    match Column::new(alloc, name) {
        Ok(column) => Ok((column, algorithm)),
        Err(_) => Err(NoStatement::Memory),
    }
}

// Reads how a table is altered.
fn one_algorithm(words: &[u8]) -> Result<Algorithm, NoStatement>
    ensures { ReadsAs (forms.one_algorithm (words_of words.now)) result }
{
    let Some((word, rest)) = split_word(words) else {
        return Err(NoStatement::Refused(LineError::BadWord));
    };
    let Some(algorithm) = algorithm_of(word) else {
        return Err(NoStatement::Refused(LineError::BadWord));
    };
    if split_word(rest).is_some() {
        return Err(NoStatement::Refused(LineError::BadWord));
    }
    Ok(algorithm)
}

// Returns the algorithm that a word names.
fn algorithm_of(word: &[u8]) -> Option<Algorithm>
    ensures { result ≡ forms.algorithm_of word.now }
{
    if word == b"COPY".as_slice() {
        return Some(Algorithm::Copy);
    }
    (word == b"INPLACE".as_slice()).then_some(Algorithm::Inplace)
}

// Reads the tables to lock.
fn lock_tables(alloc: Global, words: &[u8]) -> Result<Statement, NoStatement>
    ensures { ReadsAs (lock_of (words_of words.now)) result }
{
    match behind("TABLES", words) {
        Some(rest) => Ok(Statement::LockTables(some_locks(alloc, rest)?)),
        None => bad_word(),
    }
}

// Reads tables, each followed by the type of its lock. If memory runs out for one, those after it are still checked.
fn some_locks(alloc: Global, words: &[u8]) -> Result<TableLocks, NoStatement>
    ensures { ReadsAs (forms.some_locks (words_of words.now)) result }
{
    let mut names = TableNames::none();
    let mut locks = TableLocks::new(alloc);
    let mut has_room = true;
    let mut left = words;
    while let Some((word, rest)) = split_word(left) {
        let name = names.add(word)?;
        let (lock_type, rest) = one_lock_type(rest)?;
        has_room = has_room && push_lock(alloc, &mut locks, &name, lock_type).is_ok();
        left = rest;
    }
    if names.as_slice().is_empty() {
        return Err(NoStatement::Refused(LineError::BadWord));
    }
    if !has_room {
        return Err(NoStatement::Memory);
    }
    Ok(locks)
}

// Returns the lock type that the first word names, and the words after it.
fn one_lock_type(words: &[u8]) -> Result<(LockType, &[u8]), LineError>
    ensures said { MatchResult result (λ found. next_lock_type (words_of words.now) ≡ Ok (found.0, words_of found.1.now)) (λ error. next_lock_type (words_of words.now) ≡ Err error) }
    ensures shorter { IfOk result (λ found. length found.1.now < length words.now) }
{
    let Some((word, rest)) = split_word(words) else {
        return Err(LineError::BadWord);
    };
    match lock_type_of(word) {
        Some(lock_type) => Ok((lock_type, rest)),
        None => Err(LineError::BadWord),
    }
}

// Returns the lock type that a word names.
fn lock_type_of(word: &[u8]) -> Option<LockType>
    ensures { result ≡ forms.lock_type_of word.now }
{
    if word == "READ".as_bytes() {
        return Some(LockType::Read);
    }
    if word == "WRITE".as_bytes() {
        return Some(LockType::Write);
    }
    None
}

// Appends a table whose name has been checked.
fn push_lock(
    alloc: Global,
    locks: &mut TableLocks,
    name: &TableName,
    lock_type: LockType,
) -> Result<(), AllocError>
    ensures { IfOk result (λ _. locks.new ≡ locks.old ++ record { table = table_key name.now.schema.now name.now.table.now; lock_type = lock_type } ∷ []) }
{
    let table = key_of(alloc, name)?;
    locks.push(TableLock { table, lock_type })
}

// Reads the session whose wait to kill, after KILL.
fn kill(words: &[u8]) -> Result<Statement, NoStatement>
    ensures { ReadsAs (kill_of (words_of words.now)) result }
{
    match behind("QUERY", words) {
        Some(rest) => kill_query(rest),
        None => bad_word(),
    }
}

// Reads the session whose wait to kill.
fn kill_query(words: &[u8]) -> Result<Statement, NoStatement>
    ensures { ReadsAs (forms.makes KillQuery forms.one_session (words_of words.now)) result }
{
    let Some((word, rest)) = split_word(words) else {
        return bad_word();
    };
    let Some(session) = session_of(word) else {
        return Err(NoStatement::Refused(LineError::BadSession));
    };
    no_more(Statement::KillQuery(session), rest)
}

// Reads the name of a user-level lock to get.
fn get_lock(alloc: Global, words: &[u8]) -> Result<Statement, NoStatement>
    ensures { ReadsAs (forms.makes GetLock forms.one_name (words_of words.now)) result }
{
    Ok(Statement::GetLock(one_name(alloc, words)?))
}

// Reads the name of a user-level lock to release.
fn release_lock(alloc: Global, words: &[u8]) -> Result<Statement, NoStatement>
    ensures { ReadsAs (forms.makes ReleaseLock forms.one_name (words_of words.now)) result }
{
    Ok(Statement::ReleaseLock(one_name(alloc, words)?))
}
