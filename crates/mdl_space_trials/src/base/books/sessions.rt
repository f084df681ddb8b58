//! Sets of sessions.
use mdl_book::Sessions;

// Sessions, and whether each is in a set of 1, 64, 65 and 1,024 after session 64 was removed.
const OF_THREE: &[(u16, bool)] = &[
    (1, true),
    (64, false),
    (65, true),
    (1024, true),
    (0, false),
    (2, false),
    (63, false),
    (66, false),
    (1023, false),
    (1025, false),
];

// Sessions, and whether each is in the set of all sessions.
const OF_ALL: &[(u16, bool)] = &[(0, false), (1, true), (1024, true), (1025, false)];

// Whether a set contains exactly the wanted ones of these sessions.
fn has(sessions: &Sessions, rows: &[(u16, bool)]) -> bool {
    for (session, want) in rows {
        if sessions.contains(*session) != *want {
            return false;
        }
    }
    true
}

#[test]
fn sets_have_what_was_put_in(rt: HostRuntime) {
    let mut sessions = Sessions::new();
    sessions.insert(1);
    sessions.insert(64);
    sessions.insert(65);
    sessions.insert(1024);
    sessions.remove(64);
    assert!(rt; has(&sessions, OF_THREE));
    assert!(rt; has(&Sessions::all(), OF_ALL));
}
