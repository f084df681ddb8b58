//! Scripts of one session, whose answers come in the order of its lines.
use crate::playing::must_be_played_so;
use mdl_script::OpenGate;
use std::test::Fail;

// Each row is a script and its text. The lines of both are separated by ` / `.
const ROWS: &str = "\
1 CREATE TABLE t x / 1 SELECT t => 1 1 OK / 2 1 OK test.t@1(x) / FINAL SCHEMA test@1 / FINAL TABLE test.t@1(x)
# nothing is asked => FINAL SCHEMA test@1
1 CREATE SCHEMA s / 1 CREATE TABLE s.t x / 1 LOCK TABLES s.t WRITE / 1 ALTER TABLE s.t ADD y COPY / 1 UNLOCK TABLES / \
    1 SELECT s.t / 1 DROP SCHEMA s => 1 1 OK / 2 1 OK / 3 1 OK / 4 1 OK / 5 1 OK / 6 1 OK s.t@2(x,y) / 7 1 OK / \
    FINAL SCHEMA test@1
1 CREATE TABLE t x y / 1 CREATE SCHEMA a / 1 CREATE TABLE b y / 1 CREATE TABLE a.z x / 1 CREATE TABLE u x / 1 DROP TABLE u / \
    1 ALTER TABLE t ADD z COPY => 1 1 OK / 2 1 OK / 3 1 OK / 4 1 OK / 5 1 OK / 6 1 OK / 7 1 OK / FINAL SCHEMA a@1 / \
    FINAL SCHEMA test@1 / FINAL TABLE a.z@1(x) / FINAL TABLE test.b@1(y) / FINAL TABLE test.t@2(x,y,z)
1 GET_LOCK a / 1 GET_LOCK a / 1 CREATE TABLE a x / 1 LOCK TABLES a READ / 1 GET_LOCK b / 1 UNLOCK TABLES / 1 RELEASE_LOCK a / \
    1 RELEASE_LOCK a / 1 RELEASE_LOCK a / 1 RELEASE_LOCK b => 1 1 OK 1 / 2 1 OK 1 / 3 1 OK / 4 1 OK / 5 1 OK 1 / 6 1 OK / \
    7 1 OK 1 / 8 1 OK 1 / 9 1 OK NULL / 10 1 OK 1 / FINAL SCHEMA test@1 / FINAL TABLE test.a@1(x)";

#[test]
fn rows_are_played(rt: HostRuntime) -> Result<(), Fail> {
    for row in ROWS.split('\n') {
        let Some((script, text)) = row.split_once(" => ") else {
            return Err(Fail::from("a row has no text"));
        };
        must_be_played_so(&rt, rt.alloc(), script, text, &OpenGate)?;
    }
    Ok(())
}
