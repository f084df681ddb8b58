//! Eight sessions read two tables in turn while a ninth creates and changes them.
use crate::blocked::close;
use crate::playing::played_on;
use mdl_key::MOST_PLACES;
use mdl_script::{OpenGate, Ran};
use mdl_shared::{Audited, Manager, Session};
use std::alloc::{AllocError, Global};
use std::mem::drop;
use std::process::Abort;
use std::sync::Wait;
use std::test::Fail;
use std::thread::Threads;

// How many reads each of the readers makes, of the two tables in turn.
const READS: u32 = 250;

const CHANGES: &str = "\
9 CREATE TABLE t x
9 CREATE TABLE u x
9 ALTER TABLE t ADD a COPY
9 ALTER TABLE u ADD a COPY
9 ALTER TABLE t ADD b INPLACE
9 ALTER TABLE t ADD c COPY
";

const CHANGED: &str = "\
2001 9 OK
2002 9 OK
2003 9 OK
2004 9 OK
2005 9 OK
2006 9 OK
FINAL SCHEMA test@1
FINAL TABLE test.t@4(x,a,b,c)
FINAL TABLE test.u@2(x,a)
";

fn script(alloc: Global) -> Result<String, AllocError> {
    let mut script = String::new(alloc);
    for who in 1..=8_u16 {
        for _pair in 0..READS / 2 {
            writeln!(script, "{who} SELECT t")?;
            writeln!(script, "{who} SELECT u")?;
        }
    }
    script.push_str(CHANGES)?;
    Ok(script)
}

// Returns the session of an answer, and the version of the table that it read: 0 if there was no table. No other answer to a read is valid.
fn reading(line: &str, table: &str) -> Option<(u16, u64)> {
    let (_number, answer) = line.split_once(' ')?;
    let (who, reply) = answer.split_once(' ')?;
    let version = version(reply, table)?;
    Some((who.parse().ok()?, version))
}

fn version(reply: &str, table: &str) -> Option<u64> {
    if reply == "ERR 1146" {
        return Some(0);
    }
    let shown = reply.strip_prefix("OK test.")?.strip_prefix(table)?;
    let (version, _columns) = shown.strip_prefix("@")?.split_once('(')?;
    version.parse().ok()
}

// A table, and its version that was read last.
#[derive(Clone, Copy)]
struct Seen {
    table: &'static str,
    version: u64,
}

// The reads of one session, of the two tables in turn.
#[derive(Clone, Copy)]
struct Readings {
    who: u16,
    next: Seen,
    other: Seen,
    count: u32,
}

impl Readings {
    fn of(who: u16) -> Readings {
        Readings {
            who,
            next: Seen {
                table: "t",
                version: 0,
            },
            other: Seen {
                table: "u",
                version: 0,
            },
            count: 0,
        }
    }

    // Notes an answer. Whether it is one of the session, and the version that it read is not below the table's last one.
    fn note(&mut self, line: &str) -> bool {
        let Seen { table, version } = self.next;
        match reading(line, table) {
            Some((who, now)) if who == self.who && now >= version => {
                self.next = self.other;
                self.other = Seen {
                    table,
                    version: now,
                };
                self.count = self.count.saturating_add(1);
                true
            }
            _ => false,
        }
    }
}

// Returns the first session whose versions fall, or that has too few answers, if there is one. The text begins with the answers of the readers.
fn first_that_falls(text: &str) -> Option<u16> {
    let mut lines = text.lines();
    for who in 1..=8_u16 {
        let mut readings = Readings::of(who);
        for line in lines.by_ref().take(READS as usize) {
            if !readings.note(line) {
                return Some(who);
            }
        }
        if readings.count != READS {
            return Some(who);
        }
    }
    None
}

// Whether no session has a ticket in any book, or waits for one.
fn are_free(books: &[Audited]) -> bool {
    for book in books {
        if !book.book.granted.is_empty() || !book.book.waiting.is_empty() {
            return false;
        }
    }
    true
}

// Whether an audit by a session shows no ticket in any book.
fn finds_all_free<R: Wait>(session: &mut Session<R>) -> bool {
    let Ok(books) = session.audit() else {
        return false;
    };
    let are_free = are_free(&books);
    drop(books);
    are_free
}

// Plays a script with caches that keep one definition. Returns the text, and whether a tenth session finds all books free afterwards.
fn played_alone<R: Threads + Wait + Sync + Abort>(
    rt: &R,
    alloc: Global,
) -> Result<(String, bool), Fail> {
    let script = script(alloc)?;
    let (manager, mut passes) = Manager::new(alloc, MOST_PLACES, 10)?;
    let Some(last) = passes.pop() else {
        panic!(rt; "there is no session");
    };
    let text = script.as_str();
    let played = played_on(rt, alloc, &manager, passes, text, u32::MAX, 1, &OpenGate);
    let mut watcher = Session::open(rt, &manager, last);
    let are_free = finds_all_free(&mut watcher);
    close(rt, watcher);
    drop(manager);
    drop(script);
    let Ran { text, passes } = played?;
    drop(passes);
    Ok((text, are_free))
}

// Each read is of the other table, so the cache, which keeps one definition, has just dropped the one that is needed.
#[test]
fn versions_never_fall(rt: HostRuntime) -> Result<(), Fail> {
    let (played, are_free) = played_alone(&rt, rt.alloc())?;
    let falls = first_that_falls(played.as_str());
    assert!(rt; falls.is_none(), "session {}", falls.unwrap_or(0));
    assert!(rt; played.ends_with(CHANGED));
    assert!(rt; are_free);
    Ok(())
}
