//! Statements of one session, and of two of one space, which wait for each other.
use crate::shared::contexts::desk::Desk;
use crate::shared::contexts::statements::Outcome;
use crate::shared::contexts::statements::Outcome::{
    Done, Fails, Null, OutOfTurn, Pending, Reads, Says, Waits,
};
use crate::shared::rows::none_is_wrong;
use mdl_shared::Manager;
use mdl_syntax::{Line, parse};
use std::process::Abort;
use std::sync::Wait;

// The session's number, 1 or 2, its next statement, and the right outcome.
type Turn = (u16, &'static str, Outcome);

// It continues the statement that waits.
const GOES_ON: &str = "";

// The number of places, enough for the keys of the turns.
const PLACES: u16 = 8;

// Two sessions of one space, and the statements that are still to be started.
struct Two<'s, R: Wait> {
    one: Desk<'s, R>,
    two: Desk<'s, R>,
    lines: &'s [Line],
}

impl<'s, R: Wait> Two<'s, R> {
    // Takes a turn. Returns its outcome, unless no statement is left.
    fn take(&mut self, number: u16, statement: &str) -> Option<Outcome> {
        if statement == GOES_ON {
            return Some(self.desk(number).go_on());
        }
        let (line, rest) = self.lines.split_first()?;
        self.lines = rest;
        Some(self.desk(number).say(&line.statement))
    }

    // Returns the session of a number.
    fn desk(&mut self, number: u16) -> &mut Desk<'s, R> {
        match number {
            2 => &mut self.two,
            _ => &mut self.one,
        }
    }

    // Returns the index of the first turn with a wrong outcome, if there is one.
    fn first_wrong(&mut self, turns: &[Turn]) -> Option<usize> {
        for (at, (number, statement, wanted)) in turns.iter().enumerate() {
            if self.take(*number, statement) != Some(*wanted) {
                return Some(at);
            }
        }
        None
    }
}

impl<'s, R: Wait + Drop> Two<'s, R> {
    fn close(self, rt: &impl Abort) {
        let Two { one, two, lines: _ } = self;
        one.close(rt);
        two.close(rt);
    }
}

// Adds the statements of turns, as lines of a script. Whether there was memory for them.
fn add_lines(text: &mut String, turns: &[Turn]) -> bool {
    for (number, statement, _) in turns {
        if *statement != GOES_ON && writeln!(text, "{number} {statement}").is_err() {
            return false;
        }
    }
    true
}

// Returns the index of the first turn with a wrong outcome, by the two sessions of a new space, if there is one.
fn first_wrong<R: Wait + Abort + AllocGlobal>(rt: &R, turns: &[Turn]) -> Option<usize> {
    let mut text = String::new(rt.alloc());
    if add_lines(&mut text, turns) {
        first_wrong_of_text(rt, text.as_bytes(), turns)
    } else {
        Some(turns.len())
    }
}

// The same for a script.
fn first_wrong_of_text<R: Wait + Abort + AllocGlobal>(
    rt: &R,
    text: &[u8],
    turns: &[Turn],
) -> Option<usize> {
    match parse(rt.alloc(), text) {
        Ok(script) => first_wrong_of_lines(rt, script.lines(), turns),
        Err(_) => Some(turns.len()),
    }
}

// The same for lines that are parsed.
fn first_wrong_of_lines<R: Wait + Abort + AllocGlobal>(
    rt: &R,
    lines: &[Line],
    turns: &[Turn],
) -> Option<usize> {
    let alloc = rt.alloc();
    let Ok((manager, mut passes)) = Manager::new(alloc, PLACES, 2) else {
        return Some(turns.len());
    };
    let two = Desk::open(rt, alloc, rt, &manager, passes.remove(1));
    let one = Desk::open(rt, alloc, rt, &manager, passes.remove(0));
    let mut both = Two { one, two, lines };
    let wrong = both.first_wrong(turns);
    both.close(rt);
    wrong
}

// Tables are created, changed and dropped.
const TABLES: &[Turn] = &[
    (1, "SELECT a", Fails(1146)),
    (1, "CREATE TABLE a x", Fails(1049)),
    (1, "CREATE SCHEMA test", Done),
    (1, "CREATE SCHEMA test", Fails(1007)),
    (1, "CREATE TABLE a x", Done),
    (1, "CREATE TABLE a x", Fails(1050)),
    (1, "SELECT a", Reads(1, 1)),
    (1, "INSERT a", Done),
    (1, "ALTER TABLE a ADD y COPY", Done),
    (1, "SELECT a", Reads(2, 2)),
    (1, "ALTER TABLE a ADD z INPLACE", Done),
    (1, "SELECT a", Reads(3, 3)),
    (1, "ALTER TABLE a DROP y COPY", Done),
    (1, "SELECT a", Reads(4, 2)),
    (1, "RENAME TABLE a TO b", Done),
    (1, "SELECT a", Fails(1146)),
    (1, "SELECT b", Reads(1, 2)),
    (1, "DROP TABLE b", Done),
    (1, "DROP TABLE b", Fails(1146)),
    (1, "CREATE TABLE a x y", Done),
    (1, "SELECT a", Reads(6, 2)),
    (1, "DROP SCHEMA test", Done),
    (1, "SELECT a", Fails(1146)),
];

// Tables are locked, and then all writes are blocked.
const LOCKS: &[Turn] = &[
    (1, "CREATE SCHEMA test", Done),
    (1, "CREATE TABLE a x", Done),
    (1, "CREATE TABLE b x", Done),
    (1, "LOCK TABLES a WRITE b READ", Done),
    (1, "INSERT a", Done),
    (1, "INSERT b", Fails(1099)),
    (1, "ALTER TABLE a ADD y COPY", Done),
    (1, "ALTER TABLE a ADD z INPLACE", Done),
    (1, "SELECT a", Reads(3, 3)),
    (1, "UNLOCK TABLES", Done),
    (1, "FLUSH TABLES WITH READ LOCK", Done),
    (1, "INSERT a", Fails(1223)),
    (1, "SELECT b", Reads(1, 1)),
    (1, "UNLOCK TABLES", Done),
    (1, "INSERT a", Done),
];

// Transactions begin, roll back and end. The last one is open when the session ends.
const TRANSACTIONS: &[Turn] = &[
    (1, "CREATE SCHEMA test", Done),
    (1, "CREATE TABLE a x", Done),
    (1, "CREATE TABLE b x", Done),
    (1, "BEGIN", Done),
    (1, "SELECT a", Reads(1, 1)),
    (1, "SAVEPOINT p", Done),
    (1, "INSERT b", Done),
    (1, "ROLLBACK TO p", Done),
    (1, "ROLLBACK TO q", Fails(1305)),
    (1, "COMMIT", Done),
    (1, "BEGIN", Done),
    (1, "SELECT b", Reads(1, 1)),
    (1, "ROLLBACK", Done),
    (1, "BEGIN", Done),
    (1, "SELECT a b", Reads(1, 1)),
    // It commits first.
    (1, "DROP TABLE a b", Done),
    (1, "SELECT b", Fails(1146)),
    (1, "BEGIN", Done),
    (1, "SELECT b", Fails(1146)),
];

// User-level locks are got and released. One of them is held when the session ends.
const USER_LOCKS: &[Turn] = &[
    (1, "RELEASE_LOCK a", Null),
    (1, "GET_LOCK a", Says(true)),
    (1, "BEGIN", Done),
    (1, "GET_LOCK a", Says(true)),
    (1, "SAVEPOINT p", Done),
    (1, "GET_LOCK b", Says(true)),
    (1, "ROLLBACK TO p", Done),
    (1, "COMMIT", Done),
    (1, "RELEASE_LOCK b", Says(true)),
    (1, "RELEASE_LOCK b", Null),
    (1, "UNLOCK TABLES", Done),
    (1, "RELEASE_LOCK a", Says(true)),
    (1, "RELEASE_LOCK a", Says(true)),
    (1, "RELEASE_LOCK a", Null),
    (1, "GET_LOCK a", Says(true)),
];

// A change of a table waits for the transaction that reads it, and continues once that ends.
const ALTERED: &[Turn] = &[
    (1, "CREATE SCHEMA test", Done),
    (1, "CREATE TABLE t x", Done),
    (1, "BEGIN", Done),
    (1, "SELECT t", Reads(1, 1)),
    (2, "ALTER TABLE t ADD y COPY", Waits),
    (2, GOES_ON, Pending),
    // A session that waits starts nothing else, and one that doesn't has nothing to continue.
    (1, GOES_ON, OutOfTurn),
    (2, "COMMIT", OutOfTurn),
    (1, "SELECT t", Reads(1, 1)),
    (1, "COMMIT", Done),
    (2, GOES_ON, Done),
    (1, "SELECT t", Reads(2, 2)),
    (1, "BEGIN", Done),
    (1, "SELECT t", Reads(2, 2)),
    (2, "ALTER TABLE t DROP x INPLACE", Waits),
    (1, "COMMIT", Done),
    (2, GOES_ON, Done),
    (1, "SELECT t", Reads(3, 1)),
];

// Each waits for the other, and reading weighs less than dropping. The victim's transaction is ended, and the drop continues.
const CROSSED: &[Turn] = &[
    (1, "CREATE SCHEMA test", Done),
    (1, "CREATE TABLE a x", Done),
    (1, "CREATE TABLE b x", Done),
    (1, "BEGIN", Done),
    (1, "SELECT b", Reads(1, 1)),
    (2, "DROP TABLE a b", Waits),
    (1, "SELECT a", Waits),
    (1, GOES_ON, Fails(1213)),
    (2, GOES_ON, Done),
    (1, "SELECT a", Fails(1146)),
];

// A statement is killed while it waits, and does nothing.
const KILLED: &[Turn] = &[
    (1, "CREATE SCHEMA test", Done),
    (1, "CREATE TABLE t x", Done),
    // Nothing of session 2 waits.
    (1, "KILL QUERY 2", Done),
    (1, "BEGIN", Done),
    (1, "SELECT t", Reads(1, 1)),
    (2, "DROP TABLE t", Waits),
    (1, "KILL QUERY 2", Done),
    (2, GOES_ON, Fails(1317)),
    (2, "SELECT t", Reads(1, 1)),
    (1, "COMMIT", Done),
    (2, "DROP TABLE t", Done),
];

// Both sessions are closed, one in a transaction and one while it waits. All that they have is released.
const LEFT: &[Turn] = &[
    (1, "CREATE SCHEMA test", Done),
    (1, "CREATE TABLE t x", Done),
    (1, "BEGIN", Done),
    (1, "SELECT t", Reads(1, 1)),
    (2, "DROP TABLE t", Waits),
];

// Each waits for a user-level lock of the other, and they weigh the same. The victim keeps its locks and its transaction, as does
// a session whose wait is killed.
const NAMES_CROSSED: &[Turn] = &[
    (1, "GET_LOCK a", Says(true)),
    (2, "GET_LOCK b", Says(true)),
    (2, "BEGIN", Done),
    (2, "SAVEPOINT p", Done),
    (1, "GET_LOCK b", Waits),
    (2, "GET_LOCK a", Waits),
    (2, GOES_ON, Fails(3058)),
    (2, "ROLLBACK TO p", Done),
    (2, "RELEASE_LOCK a", Says(false)),
    (1, GOES_ON, Pending),
    (2, "RELEASE_LOCK b", Says(true)),
    (1, GOES_ON, Says(true)),
    (2, "GET_LOCK a", Waits),
    (1, "KILL QUERY 2", Done),
    (2, GOES_ON, Fails(1317)),
    (2, "ROLLBACK TO p", Done),
];

const STORIES: &[(&str, &[Turn])] = &[
    ("tables come and go", TABLES),
    ("tables are locked", LOCKS),
    ("transactions end", TRANSACTIONS),
    ("user locks are got", USER_LOCKS),
    ("a change waits for a reader", ALTERED),
    ("a deadlock has its victim", CROSSED),
    ("a statement is killed", KILLED),
    ("sessions end wherever they stand", LEFT),
    ("user locks are waited for", NAMES_CROSSED),
];

#[test]
fn sessions_take_turns(rt: HostRuntime) {
    for (what, rows) in STORIES {
        none_is_wrong(&rt, what, first_wrong(&rt, rows));
    }
}
