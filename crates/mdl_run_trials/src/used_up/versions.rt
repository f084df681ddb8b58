//! Tables and schemas that have had their last version: 9003. The check comes before the first change, so a statement that fails has changed nothing.
use crate::outcomes::Outcome;
use crate::used_up::room::Lock;
use crate::used_up::rows::Row::{Renews, Says};
use crate::used_up::rows::{Row, Story};

const DONE: Outcome = Outcome::Done;

const NO_VERSION: Outcome = Outcome::Fails(9003);

const NO_SUCH_TABLE: Outcome = Outcome::Fails(1146);

const LAST: Outcome = Outcome::Reads(1_000_000);

// The number of places for the keys of the rows.
const PLACES: u16 = 8;

const MOST_VERSIONS: u32 = 1_000_000;

// A table that is dropped with its last version can't be created again.
const OF_A_DROPPED_TABLE: &[Row] = &[
    Says("CREATE SCHEMA test", DONE, 0),
    Renews(Lock::Table("a"), MOST_VERSIONS - 1),
    Says("SELECT a", Outcome::Reads(999_999), 0),
    Says("DROP TABLE a", DONE, 0),
    Says("CREATE TABLE a x", NO_VERSION, 0),
    Says("CREATE TABLE a x x", Outcome::Fails(1060), 0),
    Says("DROP TABLE a", NO_SUCH_TABLE, 0),
    Says("ALTER TABLE a ADD y COPY", NO_SUCH_TABLE, 0),
    Says("SELECT a", NO_SUCH_TABLE, 0),
    // Nor can another table be renamed to its name.
    Says("CREATE TABLE c x", DONE, 0),
    Says("RENAME TABLE c TO a", NO_VERSION, 0),
    Says("RENAME TABLE a TO c", Outcome::Fails(1050), 0),
    Says("SELECT c", Outcome::Reads(1), 0),
    Says("RENAME TABLE c TO d", DONE, 0),
    Says("DROP SCHEMA test", DONE, 0),
];

// A table that has its last version stays as it is for good.
const OF_A_TABLE: &[Row] = &[
    Says("CREATE SCHEMA test", DONE, 0),
    Renews(Lock::Table("b"), MOST_VERSIONS),
    Says("SELECT b", LAST, 0),
    Says("DROP TABLE b", NO_VERSION, 0),
    Says("RENAME TABLE b TO c", NO_VERSION, 0),
    Says("ALTER TABLE b ADD y COPY", NO_VERSION, 0),
    Says("ALTER TABLE b ADD y INPLACE", NO_VERSION, 0),
    Says("ALTER TABLE b ADD x COPY", Outcome::Fails(1060), 0),
    Says("ALTER TABLE b DROP y INPLACE", Outcome::Fails(1091), 0),
    Says("ALTER TABLE b DROP x COPY", Outcome::Fails(9001), 0),
    Says("CREATE TABLE b x", Outcome::Fails(1050), 0),
    Says("SELECT c", NO_SUCH_TABLE, 0),
    Says("SELECT b", LAST, 0),
    // It can be read, written and locked as before.
    Says("INSERT b", DONE, 0),
    Says("LOCK TABLES b WRITE", DONE, 3),
    Says("ALTER TABLE b ADD y COPY", NO_VERSION, 3),
    Says("ALTER TABLE b ADD y INPLACE", NO_VERSION, 3),
    Says("INSERT b", DONE, 3),
    Says("UNLOCK TABLES", DONE, 0),
    // If a statement would drop or rename this table with others, no table is changed.
    Says("CREATE TABLE c x", DONE, 0),
    Says("DROP TABLE c b", NO_VERSION, 0),
    Says("DROP TABLE b d", NO_SUCH_TABLE, 0),
    Says("RENAME TABLE c TO b", Outcome::Fails(1050), 0),
    Says("DROP SCHEMA test", NO_VERSION, 0),
    Says("CREATE SCHEMA test", Outcome::Fails(1007), 0),
    Says("SELECT c", Outcome::Reads(1), 0),
    // An open transaction is committed first.
    Says("BEGIN", DONE, 0),
    Says("INSERT c", DONE, 1),
    Says("DROP TABLE b", NO_VERSION, 0),
    Says("ROLLBACK", DONE, 0),
    Says("ALTER TABLE c ADD y COPY", DONE, 0),
    Says("SELECT c", Outcome::Reads(2), 0),
    Says("DROP TABLE c", DONE, 0),
];

// The same for schemas. By statements alone no schema is defined with its last version, since that version is an even number.
const OF_SCHEMAS: &[Row] = &[
    Renews(Lock::Schema("r"), MOST_VERSIONS - 1),
    Renews(Lock::Schema("s"), MOST_VERSIONS),
    Says("CREATE TABLE r.t x", DONE, 0),
    Says("DROP SCHEMA r", DONE, 0),
    Says("CREATE SCHEMA r", NO_VERSION, 0),
    Says("DROP SCHEMA r", Outcome::Fails(1049), 0),
    Says("CREATE TABLE r.t x", Outcome::Fails(1049), 0),
    // A schema that can't be dropped keeps its tables.
    Says("CREATE TABLE s.t x", DONE, 0),
    Says("DROP SCHEMA s", NO_VERSION, 0),
    Says("CREATE SCHEMA s", Outcome::Fails(1007), 0),
    Says("SELECT s.t", Outcome::Reads(1), 0),
    Says("RENAME TABLE s.t TO r.t", Outcome::Fails(1049), 0),
    Says("BEGIN", DONE, 0),
    Says("INSERT s.t", DONE, 1),
    Says("CREATE SCHEMA r", NO_VERSION, 0),
    Says("ROLLBACK", DONE, 0),
    Says("DROP TABLE s.t", DONE, 0),
];

/// All stories of this file.
pub(crate) const STORIES: &[Story] = &[
    (
        "a dropped table had its last version",
        PLACES,
        OF_A_DROPPED_TABLE,
    ),
    ("a table has a last version", PLACES, OF_A_TABLE),
    ("a schema has a last version", PLACES, OF_SCHEMAS),
];
