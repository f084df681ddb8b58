//! Spaces whose places are all in use, so that there is none for one more key: 9004, at each lock of a statement whose key has no place. The locks that
//! the statement had before are released again, and an open transaction keeps what it had. The second session pins places; others are kept by a definition.
//! Once a place isn't in use any more, another key gets it.
use crate::outcomes::Outcome;
use crate::used_up::room::Lock;
use crate::used_up::rows::Row::{Crowds, Leaves, Loses, Pins, Says, Unpins};
use crate::used_up::rows::{Row, Story};
use mdl_key::Mode;

const DONE: Outcome = Outcome::Done;

const NO_PLACE: Outcome = Outcome::Fails(9004);

const NO_SUCH_TABLE: Outcome = Outcome::Fails(1146);

const KILLED: Outcome = Outcome::Fails(1317);

const FIRST: Outcome = Outcome::Reads(1);

const PIN_A: Row = Pins(Lock::Table("a"));

const PIN_B: Row = Pins(Lock::Table("b"));

// The second session pins the place of the first lock of every statement that changes something.
const PIN_GLOBAL: Row = Pins(Lock::Global);

// Two tables have the places. The global lock has none; it is the first lock of every statement that changes something.
const OF_ALL_WRITES: &[Row] = &[
    PIN_A,
    PIN_B,
    Says("SELECT a", NO_SUCH_TABLE, 0),
    Says("SELECT b", NO_SUCH_TABLE, 0),
    Says("INSERT a", NO_PLACE, 0),
    Says("UPDATE LOW_PRIORITY a", NO_PLACE, 0),
    Says("DELETE a", NO_PLACE, 0),
    Says("CREATE TABLE a x", NO_PLACE, 0),
    Says("CREATE SCHEMA s", NO_PLACE, 0),
    Says("DROP TABLE a", NO_PLACE, 0),
    Says("DROP SCHEMA s", NO_PLACE, 0),
    Says("RENAME TABLE a TO b", NO_PLACE, 0),
    Says("ALTER TABLE a ADD x COPY", NO_PLACE, 0),
    Says("ALTER TABLE a DROP x INPLACE", NO_PLACE, 0),
    Says("LOCK TABLES a WRITE", NO_PLACE, 0),
    Says("FLUSH TABLES WITH READ LOCK", NO_PLACE, 0),
    // Locks of keys that have a place are granted, and nothing else needs a place.
    Says("LOCK TABLES a READ", NO_SUCH_TABLE, 0),
    Says("UNLOCK TABLES", DONE, 0),
    Says("BEGIN", DONE, 0),
    Says("SELECT a", NO_SUCH_TABLE, 1),
    Says("SAVEPOINT p", DONE, 1),
    Says("SELECT c", NO_PLACE, 1),
    Says("INSERT b", NO_PLACE, 1),
    Says("SELECT b", NO_SUCH_TABLE, 2),
    Says("ROLLBACK TO p", DONE, 1),
    Says("KILL QUERY 2", DONE, 1),
    Says("TIMEOUT", DONE, 1),
    Says("COMMIT", DONE, 0),
    Says("ROLLBACK", DONE, 0),
    Unpins(Lock::Table("b")),
    Says("INSERT a", NO_SUCH_TABLE, 0),
    Says("INSERT b", NO_PLACE, 0),
];

// The global lock and a table have the places, and the schema has none.
const OF_THE_SCHEMA: &[Row] = &[
    PIN_GLOBAL,
    PIN_A,
    Says("INSERT a", NO_SUCH_TABLE, 0),
    Says("CREATE TABLE a x", NO_PLACE, 0),
    Says("CREATE SCHEMA test", NO_PLACE, 0),
    Says("DROP TABLE a", NO_PLACE, 0),
    Says("DROP SCHEMA test", NO_PLACE, 0),
    Says("RENAME TABLE a TO b", NO_PLACE, 0),
    Says("ALTER TABLE a ADD x COPY", NO_PLACE, 0),
    Says("LOCK TABLES a WRITE", NO_PLACE, 0),
    Says("INSERT a", NO_SUCH_TABLE, 0),
];

// The global lock and the schema have the places, and no table has one. That of the schema is kept by its definition, also after that is dropped.
const OF_A_TABLE: &[Row] = &[
    PIN_GLOBAL,
    Says("CREATE SCHEMA test", DONE, 0),
    Says("SELECT a", NO_PLACE, 0),
    Says("INSERT a", NO_PLACE, 0),
    Says("CREATE TABLE a x", NO_PLACE, 0),
    Says("DROP TABLE a", NO_PLACE, 0),
    Says("RENAME TABLE a TO b", NO_PLACE, 0),
    Says("ALTER TABLE a ADD x INPLACE", NO_PLACE, 0),
    Says("LOCK TABLES a READ", NO_PLACE, 0),
    Says("LOCK TABLES a WRITE", NO_PLACE, 0),
    Says("BEGIN", DONE, 0),
    Says("INSERT a", NO_PLACE, 0),
    Says("COMMIT", DONE, 0),
    Says("CREATE SCHEMA test", Outcome::Fails(1007), 0),
    Says("DROP SCHEMA test", DONE, 0),
    Says("SELECT a", NO_PLACE, 0),
    Says("CREATE SCHEMA test", DONE, 0),
    // Between two statements that change something, the place of the global lock is free.
    Unpins(Lock::Global),
    Says("SELECT a", NO_SUCH_TABLE, 0),
    Says("INSERT a", NO_PLACE, 0),
    Says("DROP SCHEMA test", DONE, 0),
];

// The global lock, a schema and a table have the places. A statement that also names another table gets neither.
const OF_ANOTHER: &[Row] = &[
    PIN_GLOBAL,
    Says("CREATE SCHEMA test", DONE, 0),
    Says("CREATE TABLE a x", DONE, 0),
    Says("SELECT a b", NO_PLACE, 0),
    Says("DROP TABLE a b", NO_PLACE, 0),
    Says("RENAME TABLE a TO b", NO_PLACE, 0),
    Says("RENAME TABLE b TO a", NO_PLACE, 0),
    Says("LOCK TABLES a READ b READ", NO_PLACE, 0),
    Says("LOCK TABLES b READ a WRITE", NO_PLACE, 0),
    // Nor does a statement that names a table in another schema.
    Says("CREATE TABLE s.a x", NO_PLACE, 0),
    Says("DROP TABLE a s.a", NO_PLACE, 0),
    Says("RENAME TABLE a TO s.a", NO_PLACE, 0),
    Says("LOCK TABLES a WRITE s.a WRITE", NO_PLACE, 0),
    // Tables that were locked before are unlocked first, and stay unlocked.
    Says("LOCK TABLES a WRITE", DONE, 3),
    Says("LOCK TABLES b READ", NO_PLACE, 0),
    // The table is still defined, and its transaction keeps its lock.
    Says("BEGIN", DONE, 0),
    Says("SELECT a", FIRST, 1),
    Says("SELECT a b", NO_PLACE, 1),
    Says("INSERT b", NO_PLACE, 1),
    Says("COMMIT", DONE, 0),
    Says("ALTER TABLE a ADD y COPY", DONE, 0),
    Says("DROP SCHEMA test", DONE, 0),
];

// The global lock, a schema and a table have the places, and the commit lock has none.
const OF_COMMITS: &[Row] = &[
    PIN_GLOBAL,
    Says("CREATE SCHEMA test", DONE, 0),
    Says("CREATE TABLE a x", DONE, 0),
    Says("INSERT a", NO_PLACE, 0),
    Says("FLUSH TABLES WITH READ LOCK", NO_PLACE, 0),
    Says("LOCK TABLES a WRITE", DONE, 3),
    Says("INSERT a", NO_PLACE, 3),
    Says("ALTER TABLE a ADD y COPY", DONE, 3),
    Says("UNLOCK TABLES", DONE, 0),
    // A transaction that wrote can't be committed, not even by a statement that commits it first, and stays open.
    Says("BEGIN", DONE, 0),
    Says("INSERT a", DONE, 1),
    Says("SAVEPOINT p", DONE, 1),
    Says("COMMIT", NO_PLACE, 1),
    Says("BEGIN", NO_PLACE, 1),
    Says("CREATE TABLE a x", NO_PLACE, 1),
    Says("CREATE SCHEMA test", NO_PLACE, 1),
    Says("DROP TABLE a", NO_PLACE, 1),
    Says("DROP SCHEMA test", NO_PLACE, 1),
    Says("RENAME TABLE a TO b", NO_PLACE, 1),
    Says("ALTER TABLE a DROP y COPY", NO_PLACE, 1),
    Says("LOCK TABLES a READ", NO_PLACE, 1),
    Says("FLUSH TABLES WITH READ LOCK", NO_PLACE, 1),
    Says("SELECT a", Outcome::Reads(2), 1),
    Says("ROLLBACK TO p", DONE, 1),
    Says("ROLLBACK", DONE, 0),
    // A transaction that only read needs no commit lock.
    Says("BEGIN", DONE, 0),
    Says("SELECT a", Outcome::Reads(2), 1),
    Says("COMMIT", DONE, 0),
];

// A schema and a table keep their places by their definitions. The others are given anew from one statement to the next.
const OF_ALL_BUT_TWO: &[Row] = &[
    Says("CREATE SCHEMA test", DONE, 0),
    Says("CREATE TABLE a x", DONE, 0),
    Says("INSERT a", DONE, 0),
    Says("GET_LOCK b", Outcome::Says(true), 1),
    Says("INSERT a", NO_PLACE, 1),
    Says("RELEASE_LOCK b", Outcome::Says(true), 0),
    Says("INSERT a", DONE, 0),
    // The second table has the place that the commit lock had, and keeps it after it is dropped.
    Says("CREATE TABLE b x", DONE, 0),
    Says("INSERT a", NO_PLACE, 0),
    Says("FLUSH TABLES WITH READ LOCK", NO_PLACE, 0),
    Says("CREATE TABLE c x", NO_PLACE, 0),
    Says("DROP TABLE b", DONE, 0),
    Says("INSERT a", NO_PLACE, 0),
    Says("CREATE TABLE c x", NO_PLACE, 0),
    Says("CREATE TABLE b x", DONE, 0),
    Says("SELECT b", Outcome::Reads(3), 0),
];

// Two places do for any number of tables, as long as the session has no more than two locks at a time.
const IN_TURN: &[Row] = &[
    Says("SELECT a", NO_SUCH_TABLE, 0),
    Says("SELECT b", NO_SUCH_TABLE, 0),
    Says("INSERT c", NO_SUCH_TABLE, 0),
    Says("INSERT d", NO_SUCH_TABLE, 0),
    Says("BEGIN", DONE, 0),
    Says("SELECT a", NO_SUCH_TABLE, 1),
    Says("SAVEPOINT p", DONE, 1),
    Says("SELECT b", NO_SUCH_TABLE, 2),
    Says("SELECT c", NO_PLACE, 2),
    Says("ROLLBACK TO p", DONE, 1),
    Says("SELECT c", NO_SUCH_TABLE, 2),
    Says("COMMIT", DONE, 0),
    Says("GET_LOCK a", Outcome::Says(true), 1),
    Says("GET_LOCK b", Outcome::Says(true), 2),
    Says("GET_LOCK c", NO_PLACE, 2),
    Says("RELEASE_LOCK a", Outcome::Says(true), 1),
    Says("GET_LOCK c", Outcome::Says(true), 2),
    Says("RELEASE_LOCK b", Outcome::Says(true), 1),
    Says("RELEASE_LOCK c", Outcome::Says(true), 0),
];

// A table and a user-level lock have the places. That of the lock is pinned also when no session has it.
const OF_A_USER_LOCK: &[Row] = &[
    Pins(Lock::User("a")),
    Says("RELEASE_LOCK a", Outcome::Null, 0),
    Says("BEGIN", DONE, 0),
    Says("SELECT t", NO_SUCH_TABLE, 1),
    Says("SAVEPOINT p", DONE, 1),
    Says("GET_LOCK b", NO_PLACE, 1),
    Says("RELEASE_LOCK b", NO_PLACE, 1),
    Says("ROLLBACK TO p", DONE, 1),
    Says("GET_LOCK a", Outcome::Says(true), 2),
    Says("GET_LOCK a", Outcome::Says(true), 3),
    Says("GET_LOCK t", NO_PLACE, 3),
    Says("COMMIT", DONE, 2),
    Says("RELEASE_LOCK a", Outcome::Says(true), 1),
    Says("UNLOCK TABLES", DONE, 1),
    Says("RELEASE_LOCK a", Outcome::Says(true), 0),
    Says("RELEASE_LOCK a", Outcome::Null, 0),
    // The table's place is free by now, but not that of the lock.
    Says("GET_LOCK t", Outcome::Says(true), 1),
    Says("GET_LOCK b", NO_PLACE, 1),
    Unpins(Lock::User("a")),
    Says("GET_LOCK b", Outcome::Says(true), 2),
    Says("RELEASE_LOCK b", Outcome::Says(true), 1),
    Says("RELEASE_LOCK t", Outcome::Says(true), 0),
];

// The global lock, a schema and a table have three places. The fourth is the only one for the others, and a session that lost its wait there, or that is
// told that another one has the lock, leaves it to them, though its transaction goes on.
const OF_LOST_WAITS: &[Row] = &[
    PIN_GLOBAL,
    Says("CREATE SCHEMA test", DONE, 0),
    Says("CREATE TABLE a x", DONE, 0),
    Says("BEGIN", DONE, 0),
    Says("INSERT a", DONE, 1),
    Loses("COMMIT", Lock::Commit, Mode::S, KILLED),
    Pins(Lock::User("b")),
    Says("COMMIT", NO_PLACE, 1),
    Unpins(Lock::User("b")),
    Loses("BEGIN", Lock::Commit, Mode::S, KILLED),
    PIN_B,
    Unpins(Lock::Table("b")),
    Loses("SELECT b", Lock::Table("b"), Mode::X, KILLED),
    Loses("GET_LOCK c", Lock::User("c"), Mode::X, KILLED),
    Pins(Lock::Commit),
    Says("GET_LOCK c", NO_PLACE, 1),
    Unpins(Lock::Commit),
    Crowds(Lock::User("c"), Mode::X, 1),
    Says("RELEASE_LOCK c", Outcome::Says(false), 1),
    Leaves,
    Unpins(Lock::User("c")),
    PIN_B,
    Says("INSERT a", DONE, 1),
    Says("ROLLBACK", DONE, 0),
];

/// All stories of this file.
pub(crate) const STORIES: &[Story] = &[
    ("the lock of all writes has no place", 2, OF_ALL_WRITES),
    ("the schema has no place", 2, OF_THE_SCHEMA),
    ("a table has no place", 2, OF_A_TABLE),
    ("another table has no place", 3, OF_ANOTHER),
    ("the lock of commits has no place", 3, OF_COMMITS),
    ("a definition keeps a place", 4, OF_ALL_BUT_TWO),
    ("places are given anew", 2, IN_TURN),
    ("a user lock has no place", 2, OF_A_USER_LOCK),
    ("a lost wait leaves its place", 4, OF_LOST_WAITS),
];
