//! Scenes of statements: transactions, changes of tables and of schemas, locked tables, the global read lock, and user-level locks.
use crate::outcomes::Outcome;
use crate::statements::{Row, Scene, goes_well};
use std::alloc::Global;
use std::sync::Wait;

// Transactions with savepoints, of which one is waited for, and tables that are dropped and renamed.
const TRANSACTIONS: &[Row<'static>] = &[
    ("1 CREATE SCHEMA test", Outcome::Done),
    ("1 CREATE TABLE t x y", Outcome::Done),
    ("1 CREATE TABLE u z", Outcome::Done),
    ("1 BEGIN", Outcome::Done),
    ("1 SAVEPOINT p", Outcome::Done),
    ("1 INSERT u", Outcome::Done),
    ("1 ROLLBACK TO p", Outcome::Done),
    ("1 SELECT u t", Outcome::Reads(1)),
    ("1 SAVEPOINT q", Outcome::Done),
    ("2 DROP TABLE t u", Outcome::Waits),
    ("1 COMMIT", Outcome::Done),
    ("2 DROP TABLE t u", Outcome::Done),
    ("2 SELECT t", Outcome::Fails(1146)),
    ("2 CREATE TABLE t v", Outcome::Done),
    ("2 RENAME TABLE t TO w", Outcome::Done),
    ("2 SELECT w", Outcome::Reads(1)),
    ("2 RENAME TABLE w TO t", Outcome::Done),
    ("2 BEGIN", Outcome::Done),
    ("2 SELECT t", Outcome::Reads(5)),
    ("2 SELECT u", Outcome::Fails(1146)),
    ("2 ROLLBACK", Outcome::Done),
];

// Tables that are altered while a transaction is open, and after a wait for the other session's readers.
const ALTERED: &[Row<'static>] = &[
    ("1 CREATE SCHEMA test", Outcome::Done),
    ("1 CREATE TABLE t x", Outcome::Done),
    ("1 BEGIN", Outcome::Done),
    ("1 INSERT t", Outcome::Done),
    ("1 ALTER TABLE t ADD y COPY", Outcome::Done),
    ("1 BEGIN", Outcome::Done),
    ("1 SELECT t", Outcome::Reads(2)),
    ("2 ALTER TABLE t ADD z INPLACE", Outcome::Waits),
    ("1 ROLLBACK", Outcome::Done),
    ("2 ALTER TABLE t ADD z INPLACE", Outcome::Done),
    ("1 BEGIN", Outcome::Done),
    ("1 SELECT t", Outcome::Reads(3)),
    ("2 ALTER TABLE t DROP x COPY", Outcome::Waits),
    ("1 ROLLBACK", Outcome::Done),
    ("2 ALTER TABLE t DROP x COPY", Outcome::Done),
    ("1 ALTER TABLE t DROP x COPY", Outcome::Fails(1091)),
    ("1 SELECT t", Outcome::Reads(4)),
];

// Tables that are locked, and altered while they are, and others that are locked in their place.
const LOCKED: &[Row<'static>] = &[
    ("1 CREATE SCHEMA test", Outcome::Done),
    ("1 CREATE TABLE t x", Outcome::Done),
    ("1 CREATE TABLE u x", Outcome::Done),
    ("1 BEGIN", Outcome::Done),
    ("1 INSERT u", Outcome::Done),
    ("1 LOCK TABLES u READ t WRITE", Outcome::Done),
    ("1 ALTER TABLE t ADD y COPY", Outcome::Done),
    ("1 ALTER TABLE t DROP x INPLACE", Outcome::Done),
    ("1 ALTER TABLE u DROP x INPLACE", Outcome::Fails(1099)),
    ("1 INSERT t", Outcome::Done),
    ("1 SELECT u t", Outcome::Reads(3)),
    ("1 LOCK TABLES u WRITE", Outcome::Done),
    ("1 SELECT t", Outcome::Fails(1100)),
    ("2 LOCK TABLES u WRITE", Outcome::Waits),
    ("1 UNLOCK TABLES", Outcome::Done),
    ("2 LOCK TABLES u WRITE", Outcome::Done),
    ("2 UNLOCK TABLES", Outcome::Done),
    ("1 SELECT t", Outcome::Reads(3)),
];

// The global read lock: while a transaction is open, beside locked tables, after a wait, and before a commit that waits.
const READ_LOCK: &[Row<'static>] = &[
    ("1 CREATE SCHEMA test", Outcome::Done),
    ("1 CREATE TABLE t x", Outcome::Done),
    ("1 CREATE TABLE u x", Outcome::Done),
    ("1 BEGIN", Outcome::Done),
    ("1 INSERT t", Outcome::Done),
    ("1 FLUSH TABLES WITH READ LOCK", Outcome::Done),
    ("1 INSERT t", Outcome::Fails(1223)),
    ("1 BEGIN", Outcome::Done),
    ("1 SELECT t", Outcome::Reads(1)),
    ("1 FLUSH TABLES WITH READ LOCK", Outcome::Done),
    ("1 LOCK TABLES t READ", Outcome::Done),
    ("1 UNLOCK TABLES", Outcome::Done),
    ("2 LOCK TABLES u WRITE", Outcome::Done),
    ("1 FLUSH TABLES WITH READ LOCK", Outcome::Waits),
    ("2 UNLOCK TABLES", Outcome::Done),
    ("1 FLUSH TABLES WITH READ LOCK", Outcome::Done),
    ("1 UNLOCK TABLES", Outcome::Done),
    ("2 BEGIN", Outcome::Done),
    ("2 INSERT t", Outcome::Done),
    ("1 FLUSH TABLES WITH READ LOCK", Outcome::Done),
    ("2 COMMIT", Outcome::Waits),
    ("1 UNLOCK TABLES", Outcome::Done),
    ("2 COMMIT", Outcome::Done),
    ("1 DROP TABLE t", Outcome::Done),
];

// Schemas that are created and dropped while a transaction is open, and dropped with their tables after a wait for their readers.
const SCHEMAS: &[Row<'static>] = &[
    ("1 CREATE SCHEMA s", Outcome::Done),
    ("1 CREATE TABLE s.a x", Outcome::Done),
    ("1 CREATE TABLE s.b x", Outcome::Done),
    ("1 BEGIN", Outcome::Done),
    ("1 INSERT s.a", Outcome::Done),
    ("1 CREATE SCHEMA r", Outcome::Done),
    ("1 BEGIN", Outcome::Done),
    ("1 INSERT s.b", Outcome::Done),
    ("1 DROP SCHEMA r", Outcome::Done),
    ("1 BEGIN", Outcome::Done),
    ("1 SELECT s.b", Outcome::Reads(1)),
    ("2 DROP SCHEMA s", Outcome::Waits),
    ("1 COMMIT", Outcome::Done),
    ("2 DROP SCHEMA s", Outcome::Done),
    ("2 DROP SCHEMA s", Outcome::Fails(1049)),
    ("1 CREATE SCHEMA s", Outcome::Done),
    ("1 CREATE TABLE s.a y", Outcome::Done),
    ("1 SELECT s.a", Outcome::Reads(3)),
];

// User-level locks, which are got twice, waited for, and released in vain.
const USER_LOCKS: &[Row<'static>] = &[
    ("1 GET_LOCK a", Outcome::Says(true)),
    ("1 GET_LOCK a", Outcome::Says(true)),
    ("2 RELEASE_LOCK a", Outcome::Says(false)),
    ("2 RELEASE_LOCK b", Outcome::Null),
    ("2 BEGIN", Outcome::Done),
    ("2 GET_LOCK a", Outcome::Waits),
    ("1 RELEASE_LOCK a", Outcome::Says(true)),
    ("1 BEGIN", Outcome::Done),
    ("1 COMMIT", Outcome::Done),
    ("1 RELEASE_LOCK a", Outcome::Says(true)),
    ("2 GET_LOCK a", Outcome::Says(true)),
    ("2 ROLLBACK", Outcome::Done),
    ("1 RELEASE_LOCK a", Outcome::Says(false)),
    ("2 RELEASE_LOCK a", Outcome::Says(true)),
    ("1 RELEASE_LOCK a", Outcome::Null),
];

// A table of a column that is named twice is never created: the attempt shows whether its schema is defined.
const SCENES: &[(&str, Scene<'static>)] = &[
    (
        "transactions",
        Scene {
            rows: TRANSACTIONS,
            looks: &["2 SELECT t", "2 SELECT u", "2 SELECT w"],
        },
    ),
    (
        "altered tables",
        Scene {
            rows: ALTERED,
            looks: &["2 SELECT t"],
        },
    ),
    (
        "locked tables",
        Scene {
            rows: LOCKED,
            looks: &["1 SELECT t", "1 SELECT u"],
        },
    ),
    (
        "the global read lock",
        Scene {
            rows: READ_LOCK,
            looks: &["1 SELECT t"],
        },
    ),
    (
        "user-level locks",
        Scene {
            rows: USER_LOCKS,
            looks: &[],
        },
    ),
    (
        "schemas",
        Scene {
            rows: SCHEMAS,
            looks: &[
                "2 SELECT s.a",
                "2 SELECT s.b",
                "2 CREATE TABLE s.c x x",
                "2 CREATE TABLE r.c x x",
            ],
        },
    ),
];

/// Returns the first scene that goes wrong.
pub(crate) fn first_wrong<R: Wait>(rt: &R, alloc: Global) -> Option<&'static str> {
    for (name, scene) in SCENES {
        if !goes_well(rt, alloc, *scene) {
            return Some(*name);
        }
    }
    None
}
