//! Scripts, and what the parser reads of them or why it refuses them.
use super::written::is_read_so;
use crate::base::keys::names::LONGEST;
use crate::base::rows::{Row, Story, are_right, are_told_so};
use mdl_key::Key;
use mdl_syntax::{Name, Tables};
use std::alloc::Global;

// A script, and what is read: lines with their number and session, or the refusal.
struct Read(&'static str, &'static str);

impl Row for Read {
    fn goes_so(&self, alloc: Global) -> bool {
        is_read_so(alloc, self.0.as_bytes(), self.1)
    }
}

const STATEMENTS: &[Read] = &[
    Read(
        "1 BEGIN\n2 START TRANSACTION\n3 COMMIT\n64 ROLLBACK\n999 BEGIN\n1000 COMMIT\n1024 BEGIN",
        "1 1 begin / 2 2 begin / 3 3 commit / 4 64 roll back / 5 999 begin / 6 1000 commit / 7 1024 begin",
    ),
    Read(
        "1 SAVEPOINT p\n1 ROLLBACK TO p\n1 SAVEPOINT to",
        "1 1 savepoint p / 2 1 roll back to p / 3 1 savepoint to",
    ),
    Read(
        "1 SELECT t\n1 SELECT s.t t test.u",
        "1 1 read TABLE test.t / 2 1 read TABLE s.t TABLE test.t TABLE test.u",
    ),
    Read(
        "1 INSERT t\n1 UPDATE s.t\n1 DELETE t",
        "1 1 write TABLE test.t / 2 1 write TABLE s.t / 3 1 write TABLE test.t",
    ),
    Read(
        "1 INSERT LOW_PRIORITY t\n1 UPDATE LOW_PRIORITY s.t",
        "1 1 write late TABLE test.t / 2 1 write late TABLE s.t",
    ),
    Read(
        "1 DELETE LOW_PRIORITY low_priority\n1 DELETE low_priority",
        "1 1 write late TABLE test.low_priority / 2 1 write TABLE test.low_priority",
    ),
    Read(
        "1 CREATE TABLE t x\n1 CREATE TABLE s.t x y x",
        "1 1 create TABLE test.t x / 2 1 create TABLE s.t x y x",
    ),
    Read(
        "1 CREATE SCHEMA s\n1 CREATE SCHEMA az09_\n1 CREATE SCHEMA test",
        "1 1 create schema s / 2 1 create schema az09_ / 3 1 create schema test",
    ),
    Read(
        "1 DROP TABLE t\n1 DROP TABLE b s.a a",
        "1 1 drop TABLE test.t / 2 1 drop TABLE test.b TABLE s.a TABLE test.a",
    ),
    Read(
        "1 DROP SCHEMA s\n1 DROP SCHEMA az09_",
        "1 1 drop schema s / 2 1 drop schema az09_",
    ),
    Read(
        "1 RENAME TABLE t TO u\n1 RENAME TABLE t TO s.t\n1 RENAME TABLE s.a TO a\n1 RENAME TABLE to TO table",
        "1 1 rename TABLE test.t to TABLE test.u / 2 1 rename TABLE test.t to TABLE s.t / 3 1 rename TABLE s.a to TABLE \
            test.a / 4 1 rename TABLE test.to to TABLE test.table",
    ),
    Read(
        "1 UNLOCK TABLES\n2 FLUSH TABLES WITH READ LOCK",
        "1 1 unlock tables / 2 2 flush tables with read lock",
    ),
    Read(
        "1 ALTER TABLE t ADD c COPY\n1 ALTER TABLE s.t ADD copy INPLACE",
        "1 1 alter TABLE test.t add c by copying / 2 1 alter TABLE s.t add copy in place",
    ),
    Read(
        "1 ALTER TABLE t DROP c COPY\n1 ALTER TABLE add DROP drop INPLACE",
        "1 1 alter TABLE test.t drop c by copying / 2 1 alter TABLE test.add drop drop in place",
    ),
];

const LISTS: &[Read] = &[
    Read(
        "1 LOCK TABLES t READ\n1 LOCK TABLES s.t WRITE t READ read WRITE",
        "1 1 lock TABLE test.t to read / 2 1 lock TABLE s.t to write TABLE test.t to read TABLE test.read to write",
    ),
    Read(
        "1 LOCK TABLES a READ b WRITE c READ d READ e READ f READ g READ h WRITE",
        "1 1 lock TABLE test.a to read TABLE test.b to write TABLE test.c to read TABLE test.d to read TABLE test.e to \
            read TABLE test.f to read TABLE test.g to read TABLE test.h to write",
    ),
    Read(
        "1 KILL QUERY 1024\n9 KILL QUERY 1\n9 TIMEOUT",
        "1 1 kill 1024 / 2 9 kill 1 / 3 9 time out",
    ),
    Read(
        "1 GET_LOCK a\n2 RELEASE_LOCK a\n64 GET_LOCK az09_\n1 RELEASE_LOCK get_lock",
        "1 1 get a / 2 2 release a / 3 64 get az09_ / 4 1 release get_lock",
    ),
    Read(
        "1 SELECT a b c d e f g h",
        "1 1 read TABLE test.a TABLE test.b TABLE test.c TABLE test.d TABLE test.e TABLE test.f TABLE test.g TABLE test.h",
    ),
    Read(
        "1 DROP TABLE a b c d e f g h",
        "1 1 drop TABLE test.a TABLE test.b TABLE test.c TABLE test.d TABLE test.e TABLE test.f TABLE test.g TABLE test.h",
    ),
    Read(
        "1 SELECT az09_.az09_ _ 0",
        "1 1 read TABLE az09_.az09_ TABLE test._ TABLE test.0",
    ),
    Read(
        "1 SELECT a.t b.t test.t",
        "1 1 read TABLE a.t TABLE b.t TABLE test.t",
    ),
];

const LINES: &[Read] = &[
    Read(
        "# 1 SELECT T\n\n1 BEGIN\n#2 X\n\t\n\t 2 \t  COMMIT \t",
        "3 1 begin / 6 2 commit",
    ),
    Read("1 BEGIN\n# 1\n2 INSERT low_priority t", "line 3: BadWord"),
    Read("1 BEGIN\n1 CREATE TAB", "line 2: BadWord"),
    // How lines end.
    Read("", ""),
    Read("\n", ""),
    Read("\r", ""),
    Read("\n\r\n1 BEGIN", "3 1 begin"),
    Read("1 BEGIN\r", "1 1 begin"),
    Read("1 BEGIN\r\r\n", "line 1: BadWord"),
    Read("1 BEGIN\r\r", "line 1: BadWord"),
    Read(
        "1 SELECT t\r\n\r\n2 SELECT t",
        "1 1 read TABLE test.t / 3 2 read TABLE test.t",
    ),
];

#[test]
fn scripts_are_read(rt: HostRuntime) {
    are_right(&rt, rt.alloc(), STATEMENTS);
    are_right(&rt, rt.alloc(), LISTS);
    are_right(&rt, rt.alloc(), LINES);
}

// Lines with a bad name, or with one that is repeated.
const BAD_NAMES: &str = "\
1 ROLLBACK TO SAVEPOINT p
1 INSERT LOW_PRIORITY LOW_PRIORITY
1 DELETE LOW_PRIORITY T
1 SELECT a b c d e f g T
1 SELECT a b c d e f g a
1 SELECT T b c d e f g h i
1 SELECT t test.t
1 SELECT test.t s.t t
1 SELECT s.t t s.t U
1 DROP TABLE a a
1 ROLLBACK TO P q
1 SAVEPOINT p.q
1 SELECT T
1 SELECT a.b.c
1 SELECT .
1 SELECT a.
1 SELECT .a
1 SELECT a,b
1 INSERT T u
1 CREATE TABLE T
1 CREATE TABLE t X
1 CREATE TABLE t x.y
1 RENAME TABLE A
1 RENAME TABLE A b
1 RENAME TABLE a TO B
1 RENAME TABLE a TO B c
1 RENAME TABLE a TO a
1 RENAME TABLE a TO test.a x
1 RENAME TABLE s.a TO s.a
1 ALTER TABLE T
1 ALTER TABLE t ADD C
1 ALTER TABLE t ADD s.c COPY
1 ALTER TABLE t ADD COPY
1 ALTER TABLE t DROP C copy
1 CREATE SCHEMA S
1 CREATE SCHEMA s.t
1 CREATE SCHEMA S t
1 DROP SCHEMA S
1 DROP SCHEMA s.t
1 LOCK TABLES T
1 LOCK TABLES T x
1 LOCK TABLES READ READ
1 LOCK TABLES t READ U
1 LOCK TABLES t READ test.t WRITE
1 LOCK TABLES t READ t x
1 LOCK TABLES a READ b READ c READ d READ e READ f READ g READ T READ
1 LOCK TABLES a READ b READ c READ d READ e READ f READ g READ a READ
1 GET_LOCK A
1 GET_LOCK A b
1 GET_LOCK a.b
1 RELEASE_LOCK A
1 RELEASE_LOCK a.b";

// Lines with a bad word, or with a word missing.
const BAD_WORDS: &str = "\
1 INSERT LOW_PRIORITY
1 INSERT low_priority t
1 UPDATE LOW_PRIORITY
1 SELECT a b c d e f g h T
1 SELECT a b c d e f g h i
1 SELECT a b c d e f g h a
1 DROP TABLE a b c d e f g h i
1 UNLOCK
1 UNLOCK TABLE
1 UNLOCK TABLES t
1 FLUSH
1 FLUSH TABLES
1 FLUSH TABLES WITH READ
1 FLUSH TABLES READ LOCK
1 FLUSH TABLES WITH READ LOCK t
1 FLUSH TABLES WITH READ LOCKS
1 KILL QUERY 2 3
1 KILL QUERY
1 KILL 2
1 KILL
1
1 begin
1 BEGIN BEGIN
1 BEGINS
1 START
1 START TRANSACTION now
1 START t
1 COMMIT t
1 ROLLBACK t
1 ROLLBACK TO
1 ROLLBACK TO p q
1 SAVEPOINT
1 SAVEPOINT p q
1 SELECT
1 INSERT
1 INSERT t u
1 UPDATE
1 DELETE t u
1 CREATE
1 CREATE TABLE
1 CREATE TABLE t
1 DROP
1 DROP TABLE
1 DROP TABLES t
1 TIMEOUT 1
1 RENAME
1 RENAME TABLE
1 RENAME TABLE a
1 RENAME TABLE a b
1 RENAME TABLE a to b
1 RENAME TABLE a TO
1 RENAME TABLE a TO b c
1 RENAME TABLE a TO b TO c
1 RENAME TABLES a TO b
1 RENAME a TO b
1 ALTER
1 ALTER t ADD c COPY
1 ALTER TABLE
1 ALTER TABLE t
1 ALTER TABLE t c COPY
1 ALTER TABLE t add c COPY
1 ALTER TABLE t ADD
1 ALTER TABLE t ADD c
1 ALTER TABLE t DROP c copy
1 ALTER TABLE t DROP c
1 ALTER TABLE t ADD c d COPY
1 ALTER TABLE t DROP c INPLACE COPY
1 ALTER TABLE t DROP c COPY t
1 CREATE SCHEMA
1 CREATE SCHEMA s t
1 CREATE SCHEMAS s
1 DROP SCHEMA
1 DROP SCHEMA s t
1 DROP SCHEMAS s
1 LOCK
1 LOCK TABLE t READ
1 LOCK TABLES
1 LOCK TABLES t
1 LOCK TABLES t read
1 LOCK TABLES t READS
1 LOCK TABLES t LOW_PRIORITY WRITE
1 LOCK TABLES t u READ
1 LOCK TABLES t READ u
1 LOCK TABLES a WRITE b
1 LOCK TABLES t x t READ
1 LOCK TABLES a READ b READ c READ d READ e READ f READ g READ h READ i READ
1 LOCK TABLES a READ b READ c READ d READ e READ f READ g READ h READ T READ
1 LOCK TABLES a READ b READ c READ d READ e READ f READ g READ h READ a READ
1 GET_LOCK
1 GET_LOCK a b
1 GET_LOCK a 10
1 get_lock a
1 GET_LOCKS a
1 GET LOCK a
1 RELEASE_LOCK
1 RELEASE_LOCK a b
1 release_lock a
1 RELEASE a";

// Lines with a bad session.
const BAD_SESSIONS: &str = "\
1025 BEGIN
2000 BEGIN
9999 BEGIN
10000 BEGIN
0100 BEGIN
10a BEGIN
0 BEGIN
01 BEGIN
+1 BEGIN
BEGIN
 # x
0 SELECT T
1 KILL QUERY 0
1 KILL QUERY 01
1 KILL QUERY 1025
1 KILL QUERY 0 3";

// Lines that aren't ASCII.
const NO_ASCII: &str = "\
1 SELECT t\u{e9}
#\u{e9}";

const REFUSED: &[Refused] = &[
    Refused("line 1: BadName", BAD_NAMES),
    Refused("line 1: BadWord", BAD_WORDS),
    Refused("line 1: BadSession", BAD_SESSIONS),
    Refused("line 1: NotAscii", NO_ASCII),
];

// A refusal, and the lines that are refused so.
struct Refused(&'static str, &'static str);

impl Story for Refused {
    fn name(&self) -> &'static str {
        self.0
    }

    fn first_wrong(&self, alloc: Global) -> Option<usize> {
        for (row, line) in self.1.split('\n').enumerate() {
            if !is_read_so(alloc, line.as_bytes(), self.0) {
                return Some(row);
            }
        }
        None
    }
}

#[test]
fn lines_are_refused(rt: HostRuntime) {
    are_told_so(&rt, rt.alloc(), REFUSED);
}

// A script as parts, each repeated a number of times, and what is read. After two dots only the end of that is given.
struct Long(&'static [(&'static str, u16)], &'static str);

const LONG: &[Long] = &[
    Long(&[("#", 1), ("x", 4095), ("\r\n", 1)], ""),
    Long(&[("#", 1), ("x", 4096)], "line 1: LongLine"),
    Long(&[("\u{80}", 1), ("x", 4095)], "line 1: LongLine"),
    Long(&[("\u{80}", 1), ("x", 4094)], "line 1: NotAscii"),
    Long(&[("1 COMMIT", 1), (" ", 4088)], "1 1 commit"),
    Long(&[("1 COMMIT", 1), (" ", 4089)], "line 1: LongLine"),
    // The longest names, and longer ones.
    Long(&[("1 SELECT ", 1), ("x", 64)], "..xxxx"),
    Long(&[("1 INSERT ", 1), ("x", 64)], "..xxxx"),
    Long(&[("1 SELECT s.", 1), ("x", 64)], "..xxxx"),
    Long(&[("1 SAVEPOINT ", 1), ("x", 64)], "..xxxx"),
    Long(&[("1 GET_LOCK ", 1), ("x", 64)], "..xxxx"),
    Long(&[("1 RELEASE_LOCK ", 1), ("x", 64)], "..xxxx"),
    Long(&[("1 CREATE TABLE t ", 1), ("x", 64)], "..xxxx"),
    Long(&[("1 SELECT s.", 1), ("x", 65)], "line 1: BadName"),
    Long(&[("1 SAVEPOINT ", 1), ("x", 65)], "line 1: BadName"),
    Long(&[("1 GET_LOCK ", 1), ("x", 65)], "line 1: BadName"),
    Long(&[("1 CREATE TABLE t ", 1), ("x", 65)], "line 1: BadName"),
    // A 65th column is one word too many.
    Long(
        &[("1 CREATE TABLE t", 1), (" c", 63), (" x", 1)],
        ".. c c x",
    ),
    Long(&[("1 CREATE TABLE t", 1), (" c", 65)], "line 1: BadWord"),
    Long(
        &[("1 CREATE TABLE t", 1), (" c", 64), (" C", 1)],
        "line 1: BadWord",
    ),
    Long(
        &[("1 CREATE TABLE t", 1), (" c", 63), (" C", 1)],
        "line 1: BadName",
    ),
    // All lines are read, however many there are.
    Long(&[("1 SELECT t\n", 3_000)], ".. / 3000 1 read TABLE test.t"),
];

fn push_parts(script: &mut String, parts: &[(&str, u16)]) -> bool {
    for (part, times) in parts {
        for _ in 0..*times {
            if script.push_str(part).is_err() {
                return false;
            }
        }
    }
    true
}

impl Row for Long {
    fn goes_so(&self, alloc: Global) -> bool {
        let mut script = String::new(alloc);
        let is_so = push_parts(&mut script, self.0)
            && is_read_so(alloc, script.as_str().as_bytes(), self.1);
        drop(script);
        is_so
    }
}

#[test]
fn long_scripts_are_read(rt: HostRuntime) {
    are_right(&rt, rt.alloc(), LONG);
}

fn add_table(alloc: Global, tables: &mut Tables) -> bool {
    match Key::table(alloc, "s", "t") {
        Ok(table) => tables.push(table).is_ok(),
        Err(_) => false,
    }
}

fn add_64_tables(alloc: Global, tables: &mut Tables) -> bool {
    for _ in 0..64 {
        if !add_table(alloc, tables) {
            return false;
        }
    }
    true
}

fn are_copied(tables: &Tables) -> bool {
    let Ok(copy) = tables.clone() else {
        return false;
    };
    let is_so = copy.as_slice().len() == 64 && copy.as_slice() == tables.as_slice();
    drop(copy);
    is_so
}

fn is_copied(name: &Name) -> bool {
    match name.clone() {
        Ok(copy) => copy.as_str() == LONGEST,
        Err(_) => false,
    }
}

fn longest_is_copied(alloc: Global) -> bool {
    match Name::new(alloc, LONGEST) {
        Ok(name) => is_copied(&name),
        Err(_) => false,
    }
}

// There is memory for a copy, however many tables there are and however long a name is.
#[test]
fn there_is_memory_for_copies(rt: HostRuntime) {
    let mut tables = Tables::new(rt.alloc());
    assert!(rt; longest_is_copied(rt.alloc()));
    assert!(rt; add_64_tables(rt.alloc(), &mut tables) && are_copied(&tables));
}
