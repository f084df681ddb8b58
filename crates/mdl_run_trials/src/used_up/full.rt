//! Locks with as many tickets as a lock can have: 9005. The other session has all of them. The sessions of a script never get there, since none of
//! them has more than a few of one lock. Once one ticket is released, the statement succeeds.
use crate::outcomes::Outcome;
use crate::used_up::room::Lock;
use crate::used_up::rows::Row::{Crowds, Leaves, Says};
use crate::used_up::rows::{Row, Story};
use mdl_key::Mode;

const DONE: Outcome = Outcome::Done;

const FULL: Outcome = Outcome::Fails(9005);

const FIRST: Outcome = Outcome::Reads(1);

// The number of places for the keys of the rows.
const PLACES: u16 = 8;

const MOST_TICKETS: u32 = 65_535;

// The other session reads a table.
const OF_A_TABLE: &[Row] = &[
    Says("CREATE SCHEMA test", DONE, 0),
    Says("CREATE TABLE a x", DONE, 0),
    Says("CREATE TABLE b x", DONE, 0),
    Crowds(Lock::Table("a"), Mode::SR, MOST_TICKETS),
    Says("SELECT b a", FULL, 0),
    Says("INSERT a", FULL, 0),
    Says("DELETE LOW_PRIORITY a", FULL, 0),
    Says("CREATE TABLE a x", FULL, 0),
    Says("DROP TABLE b a", FULL, 0),
    Says("DROP SCHEMA test", FULL, 0),
    Says("RENAME TABLE a TO c", FULL, 0),
    Says("RENAME TABLE b TO a", FULL, 0),
    Says("ALTER TABLE a ADD y COPY", FULL, 0),
    Says("ALTER TABLE a ADD y INPLACE", FULL, 0),
    Says("LOCK TABLES a READ b READ", FULL, 0),
    Says("LOCK TABLES a WRITE b WRITE", FULL, 0),
    // An open transaction keeps what it had.
    Says("BEGIN", DONE, 0),
    Says("SELECT b", FIRST, 1),
    Says("SAVEPOINT p", DONE, 1),
    Says("SELECT b a", FULL, 1),
    Says("INSERT a", FULL, 1),
    Says("ROLLBACK TO p", DONE, 1),
    Says("COMMIT", DONE, 0),
    Leaves,
    Says("SELECT b a", FIRST, 0),
    // There is room for one ticket, but none for the second one that waits for the stronger lock.
    Says("ALTER TABLE a ADD y COPY", FULL, 0),
    Says("ALTER TABLE a ADD y INPLACE", FULL, 0),
    Says("SELECT a", FIRST, 0),
];

// The other session looks at a table, which is locked for writing.
const OF_A_LOCKED_TABLE: &[Row] = &[
    Says("CREATE SCHEMA test", DONE, 0),
    Says("CREATE TABLE a x", DONE, 0),
    Crowds(Lock::Table("a"), Mode::SH, MOST_TICKETS - 1),
    Says("LOCK TABLES a WRITE", DONE, 3),
    // The table's ticket can't be cloned. Once it can, the clone can't be upgraded.
    Says("ALTER TABLE a ADD y COPY", FULL, 3),
    Leaves,
    Says("ALTER TABLE a ADD y COPY", FULL, 3),
    Says("ALTER TABLE a ADD y INPLACE", FULL, 3),
    Says("SELECT a", FIRST, 3),
    Says("INSERT a", DONE, 3),
    Says("UNLOCK TABLES", DONE, 0),
];

// The other session changes what is in a schema.
const OF_THE_SCHEMA: &[Row] = &[
    Says("CREATE SCHEMA test", DONE, 0),
    Says("CREATE TABLE a x", DONE, 0),
    Crowds(Lock::Schema("test"), Mode::IX, MOST_TICKETS),
    Says("CREATE TABLE b x", FULL, 0),
    Says("CREATE SCHEMA test", FULL, 0),
    Says("DROP TABLE a", FULL, 0),
    Says("DROP SCHEMA test", FULL, 0),
    Says("RENAME TABLE a TO b", FULL, 0),
    Says("ALTER TABLE a ADD y COPY", FULL, 0),
    Says("LOCK TABLES a WRITE", FULL, 0),
    // What changes nothing in the schema doesn't ask for its lock.
    Says("LOCK TABLES a READ", DONE, 1),
    Says("BEGIN", DONE, 0),
    Says("SELECT a", FIRST, 1),
    Says("INSERT a", DONE, 2),
    Says("COMMIT", DONE, 0),
    Leaves,
    Says("CREATE TABLE b x", DONE, 0),
    Says("DROP TABLE a", DONE, 0),
];

// The other session writes.
const OF_ALL_WRITES: &[Row] = &[
    Says("CREATE SCHEMA test", DONE, 0),
    Says("CREATE TABLE a x", DONE, 0),
    Crowds(Lock::Global, Mode::IX, MOST_TICKETS),
    Says("INSERT a", FULL, 0),
    Says("CREATE TABLE b x", FULL, 0),
    Says("CREATE SCHEMA s", FULL, 0),
    Says("DROP TABLE a", FULL, 0),
    Says("DROP SCHEMA test", FULL, 0),
    Says("RENAME TABLE a TO b", FULL, 0),
    Says("ALTER TABLE a ADD y COPY", FULL, 0),
    Says("LOCK TABLES a WRITE", FULL, 0),
    Says("FLUSH TABLES WITH READ LOCK", FULL, 0),
    // A transaction is committed first.
    Says("BEGIN", DONE, 0),
    Says("SELECT a", FIRST, 1),
    Says("INSERT a", FULL, 1),
    Says("DROP TABLE a", FULL, 0),
    Says("LOCK TABLES a READ", DONE, 1),
    Says("UNLOCK TABLES", DONE, 0),
    Leaves,
    Says("INSERT a", DONE, 0),
    Says("DROP TABLE a", DONE, 0),
];

// The other session commits.
const OF_COMMITS: &[Row] = &[
    Says("CREATE SCHEMA test", DONE, 0),
    Says("CREATE TABLE a x", DONE, 0),
    Crowds(Lock::Commit, Mode::IX, MOST_TICKETS),
    Says("INSERT a", FULL, 0),
    // The global read lock is two locks: the session gets both or none.
    Says("FLUSH TABLES WITH READ LOCK", FULL, 0),
    Says("CREATE TABLE b x", DONE, 0),
    Says("LOCK TABLES a WRITE", DONE, 3),
    Says("INSERT a", FULL, 3),
    Says("UNLOCK TABLES", DONE, 0),
    // A transaction that wrote stays open.
    Says("BEGIN", DONE, 0),
    Says("INSERT a", DONE, 1),
    Says("SAVEPOINT p", DONE, 1),
    Says("COMMIT", FULL, 1),
    Says("BEGIN", FULL, 1),
    Says("CREATE TABLE c x", FULL, 1),
    Says("CREATE SCHEMA s", FULL, 1),
    Says("DROP TABLE b", FULL, 1),
    Says("DROP SCHEMA test", FULL, 1),
    Says("RENAME TABLE b TO c", FULL, 1),
    Says("ALTER TABLE b ADD y COPY", FULL, 1),
    Says("LOCK TABLES b READ", FULL, 1),
    Says("FLUSH TABLES WITH READ LOCK", FULL, 1),
    Says("ROLLBACK TO p", DONE, 1),
    Leaves,
    Says("DROP TABLE b", DONE, 0),
    Says("INSERT a", DONE, 0),
];

// The other session has a user-level lock as often as it can. RELEASE_LOCK answers that another session has the lock, although there is no
// room for a ticket.
const OF_A_USER_LOCK: &[Row] = &[
    Crowds(Lock::User("a"), Mode::X, MOST_TICKETS),
    Says("BEGIN", DONE, 0),
    Says("GET_LOCK b", Outcome::Says(true), 1),
    Says("GET_LOCK a", FULL, 1),
    Says("RELEASE_LOCK a", Outcome::Says(false), 1),
    Leaves,
    Says("RELEASE_LOCK a", Outcome::Says(false), 1),
    Says("COMMIT", DONE, 1),
    Says("GET_LOCK a", Outcome::Waits, 1),
];

/// All stories of this file.
pub(crate) const STORIES: &[Story] = &[
    ("the lock of a table is full", PLACES, OF_A_TABLE),
    (
        "the lock of a locked table is full",
        PLACES,
        OF_A_LOCKED_TABLE,
    ),
    ("the lock of the schema is full", PLACES, OF_THE_SCHEMA),
    ("the lock of all writes is full", PLACES, OF_ALL_WRITES),
    ("the lock of commits is full", PLACES, OF_COMMITS),
    ("a user lock is full", PLACES, OF_A_USER_LOCK),
];
