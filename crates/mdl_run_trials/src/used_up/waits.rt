//! Statements that wait for a lock of the second session, once at each of their stages, and finish after it is released. None of them is kept while
//! it waits. A session that ends leaves nothing behind, even if its statement still waits.
use crate::outcomes::Outcome;
use crate::used_up::room::Lock;
use crate::used_up::rows::Row::{Crowds, Says, Waits};
use crate::used_up::rows::{Row, Story};
use mdl_key::Mode;

const DONE: Outcome = Outcome::Done;

// The number of places for the keys of the rows.
const PLACES: u16 = 8;

const OF_ONE_TABLE: &[Row] = &[
    Says("CREATE SCHEMA test", DONE, 0),
    Says("CREATE TABLE a x", DONE, 0),
    Says("CREATE TABLE b x", DONE, 0),
    Waits("SELECT b a", Lock::Table("a"), Mode::X, Outcome::Reads(1)),
    Waits("INSERT a", Lock::Global, Mode::S, DONE),
    Waits("DELETE LOW_PRIORITY a", Lock::Table("a"), Mode::X, DONE),
    Waits("INSERT a", Lock::Commit, Mode::S, DONE),
    Says("BEGIN", DONE, 0),
    Says("INSERT a", DONE, 1),
    Waits("COMMIT", Lock::Commit, Mode::S, DONE),
    Waits("ALTER TABLE a ADD c COPY", Lock::Global, Mode::S, DONE),
    Waits(
        "ALTER TABLE a ADD d COPY",
        Lock::Schema("test"),
        Mode::X,
        DONE,
    ),
    Waits("ALTER TABLE a ADD e COPY", Lock::Table("a"), Mode::X, DONE),
    Waits("ALTER TABLE a ADD f COPY", Lock::Table("a"), Mode::SW, DONE),
    Waits("ALTER TABLE a ADD g COPY", Lock::Table("a"), Mode::SR, DONE),
    Waits(
        "ALTER TABLE a ADD h INPLACE",
        Lock::Table("a"),
        Mode::SR,
        DONE,
    ),
    Says("LOCK TABLES a WRITE", DONE, 3),
    Waits("ALTER TABLE a ADD i COPY", Lock::Table("a"), Mode::SH, DONE),
    Says("UNLOCK TABLES", DONE, 0),
    Waits("LOCK TABLES a WRITE b READ", Lock::Global, Mode::S, DONE),
    Says("UNLOCK TABLES", DONE, 0),
    Waits(
        "LOCK TABLES a WRITE b READ",
        Lock::Table("a"),
        Mode::SR,
        DONE,
    ),
    Says("UNLOCK TABLES", DONE, 0),
    Waits("GET_LOCK a", Lock::User("a"), Mode::X, Outcome::Says(true)),
];

const OF_DEFINITIONS: &[Row] = &[
    Says("CREATE SCHEMA test", DONE, 0),
    Says("CREATE TABLE a x", DONE, 0),
    // A transaction is committed first.
    Says("BEGIN", DONE, 0),
    Says("INSERT a", DONE, 1),
    Waits("CREATE TABLE b x y", Lock::Commit, Mode::S, DONE),
    Waits("DROP TABLE b a", Lock::Global, Mode::S, DONE),
    Waits("CREATE TABLE a x y", Lock::Global, Mode::S, DONE),
    Waits("CREATE TABLE b x y", Lock::Schema("test"), Mode::X, DONE),
    Waits("DROP TABLE b a", Lock::Table("b"), Mode::SR, DONE),
    Waits("CREATE TABLE a x y", Lock::Table("a"), Mode::X, DONE),
    Waits("RENAME TABLE a TO c", Lock::Schema("test"), Mode::X, DONE),
    Waits("RENAME TABLE c TO a", Lock::Table("c"), Mode::SR, DONE),
    Waits("FLUSH TABLES WITH READ LOCK", Lock::Global, Mode::IX, DONE),
    Says("UNLOCK TABLES", DONE, 0),
    Waits("FLUSH TABLES WITH READ LOCK", Lock::Commit, Mode::IX, DONE),
    Says("UNLOCK TABLES", DONE, 0),
    Waits("DROP SCHEMA test", Lock::Global, Mode::S, DONE),
    Waits("CREATE SCHEMA test", Lock::Global, Mode::S, DONE),
    Waits("DROP SCHEMA test", Lock::Schema("test"), Mode::IX, DONE),
    Waits("CREATE SCHEMA test", Lock::Schema("test"), Mode::X, DONE),
    Says("CREATE TABLE a x", DONE, 0),
    Waits("DROP SCHEMA test", Lock::Table("a"), Mode::SR, DONE),
];

// The last statement still waits when its session ends.
const OF_A_TRANSACTION: &[Row] = &[
    Says("GET_LOCK b", Outcome::Says(true), 1),
    Says("GET_LOCK b", Outcome::Says(true), 2),
    Says("BEGIN", DONE, 2),
    Crowds(Lock::User("a"), Mode::X, 1),
    Says("GET_LOCK a", Outcome::Waits, 2),
];

const OF_A_DROP: &[Row] = &[
    Says("CREATE SCHEMA test", DONE, 0),
    Says("CREATE TABLE a x", DONE, 0),
    Says("CREATE TABLE b x", DONE, 0),
    Crowds(Lock::Table("b"), Mode::SR, 1),
    Says("DROP TABLE b a", Outcome::Waits, 3),
];

/// All stories of this file.
pub(crate) const STORIES: &[Story] = &[
    ("what reads, writes and locks waits", PLACES, OF_ONE_TABLE),
    ("what changes definitions waits", PLACES, OF_DEFINITIONS),
    ("a user-level lock is left", PLACES, OF_A_TRANSACTION),
    ("a drop is left", PLACES, OF_A_DROP),
];
