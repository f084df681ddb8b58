//! A timeline of waits that begin while sessions go on.
use crate::rows::has_all;
use mdl_timeline::draw;
use std::alloc::Global;

// An ALTER in place waits twice. When the transaction ends, it goes on first, and waits for the two sessions that came meanwhile. These go on after it.
const WAITS_AGAIN: &[u8] = b"\
1 CREATE TABLE t x
2 BEGIN
2 SELECT t
1 ALTER TABLE t ADD y INPLACE
3 SELECT t
4 INSERT t
2 COMMIT
";

// What is drawn of its waits, and of the lock that the transaction held.
const TITLES: &[&str] = &[
    "<title>session 1 waits for session 2 at line 4</title>",
    "<title>session 1 waits for session 3 at line 7</title>",
    "<title>session 1 waits for session 4 at line 7</title>",
    "<title>session 2 holds SR of TABLE test.t from line 3 to line 7</title>",
];

// Whether the timeline of a script shows all of these.
fn is_drawn(alloc: Global, script: &[u8], titles: &[&str]) -> bool {
    match draw(alloc, script, u64::MAX) {
        Ok(drawn) => has_all(&drawn, titles),
        Err(_) => false,
    }
}

#[test]
fn a_wait_has_the_arrows_of_its_beginning(rt: HostRuntime) {
    assert!(rt; is_drawn(rt.alloc(), WAITS_AGAIN, TITLES));
}
