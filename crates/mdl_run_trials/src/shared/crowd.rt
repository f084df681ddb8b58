//! As many sessions as a space may have, each with as many fast tickets at one place as a session may have there. Each count of the lock's word has
//! room for all of them.
ghost use Rattle.mdl_shared.specs.Passes.{ArePasses, manager_table};

use crate::checks::is_right;
use crate::shared::acts::{Act, Lock, Reply, make};
use crate::shared::sessions::{close, take_last};
use mdl_calls::Ended;
use mdl_key::{MOST_SESSIONS, Mode};
use mdl_shared::{Manager, Pass, Session};
use mdl_word::Word;
use std::alloc::{AllocError, Global};
use std::process::Abort;
use std::sync::Wait;

// The most fast tickets that a session can have at a place.
const MOST_FAST: u16 = 1023;

// A mode of each count, and the word when 1,023 sessions have 1,023 fast tickets each in the mode, less one, and another session waits for X. A count
// has five hexadecimal digits, and 1,046,528 is ff800.
const COUNTS: &[(Mode, Word)] = &[
    (Mode::S, Word(0x3000_0000_000f_f800)),
    (Mode::SR, Word(0x3000_00ff_8000_0000)),
    (Mode::SW, Word(0x3ff8_0000_0000_0000)),
];

// Opens the sessions of all passes, the last one first, if there is memory for the list.
fn open_passes<'a, R>(
    rt: &'a R,
    alloc: Global,
    manager: &Manager,
    mut passes: Vec<Pass>,
) -> Result<Vec<Session<&'a R>>, AllocError>
    requires theirs { ArePasses (manager_table manager.now) passes.items }
{
    let mut sessions = Vec::with_capacity(alloc, passes.len())?;
    while !passes.is_empty() {
        let pass = take_last(manager, &mut passes);
        sessions.push_reserved(Session::open(rt, manager, pass));
    }
    Ok(sessions)
}

// Opens all sessions of a new space of one place.
fn open_all<R: AllocGlobal>(rt: &R) -> Option<Vec<Session<&R>>> {
    let alloc = rt.alloc();
    let (manager, passes) = Manager::new(alloc, 1, MOST_SESSIONS).ok()?;
    let sessions = open_passes(rt, alloc, &manager, passes).ok();
    drop(manager);
    sessions
}

// Closes sessions that have no ticket and owe nothing.
fn close_all<R: Drop>(rt: &impl Abort, mut sessions: Vec<Session<R>>) {
    while let Some(session) = sessions.pop() {
        close(rt, session);
    }
    sessions.destroy_empty();
}

// Whether a session gets as many fast tickets as it may have at the place, and no more.
fn is_filled<R: Wait>(alloc: Global, session: &mut Session<R>, mode: Mode) -> bool {
    let most = u32::from(MOST_FAST);
    make(alloc, session, Act::Resolve(Lock::Sales)) == Reply::Place(1)
        && make(alloc, session, Act::TryFastOften(1, mode, most)) == Reply::Granted(most.into())
        && make(alloc, session, Act::TryFast(1, mode)) == Reply::Limit
}

// Whether a session that has released a ticket finds this word as it tries for another one, while the asker waits for X.
fn is_counted<R: Wait>(
    alloc: Global,
    asker: &mut Session<R>,
    reader: &mut Session<R>,
    mode: Mode,
    word: Word,
) -> bool {
    make(alloc, asker, Act::Begin(1, Mode::X)) == Reply::Waiting(1)
        && make(alloc, reader, Act::ReleaseFast(1)) == Reply::Owes(true)
        && make(alloc, reader, Act::TryFast(1, mode)) == Reply::Obtruded(word)
        && make(alloc, reader, Act::Reschedule(1)) == Reply::Done
        && make(alloc, asker, Act::TimeOut) == Reply::Done
        && make(alloc, asker, Act::End) == Reply::Ended(Ended::Timeout)
}

// Whether a session gets the lock in X, since no word or list has a ticket any more.
fn is_free<R: Wait>(alloc: Global, session: &mut Session<R>) -> bool {
    matches!(
        make(alloc, session, Act::Try(1, Mode::X)),
        Reply::Granted(_)
    ) && make(alloc, session, Act::ReleaseAll) == Reply::Count(1)
}

fn are_filled<R: Wait>(alloc: Global, sessions: &mut [Session<R>], mode: Mode) -> bool {
    let mut right = true;
    for session in sessions.iter_mut() {
        right = is_filled(alloc, session, mode) && right;
    }
    right
}

// Releases a session's tickets, the last one first. Returns how many there were, if each is released.
fn left<R: Wait>(session: &mut Session<R>) -> Option<usize> {
    let held = session.held().ok()?;
    let count = held.len();
    let mut released = true;
    for ticket in held.iter().rev() {
        released = session.release(ticket.id).is_ok() && released;
    }
    drop(held);
    released.then_some(count)
}

// Whether all sessions release so many tickets each.
fn are_left<R: Wait>(sessions: &mut [Session<R>], count: usize) -> bool {
    let mut right = true;
    for session in sessions.iter_mut() {
        right = left(session) == Some(count) && right;
    }
    right
}

// Whether the word counts the tickets of all sessions, the first of which waits and the second reads the word.
fn goes_well<R: Wait>(alloc: Global, sessions: &mut [Session<R>], mode: Mode, word: Word) -> bool {
    let filled = are_filled(alloc, sessions, mode);
    match sessions {
        [asker, reader, others @ ..] => {
            let counted = is_counted(alloc, asker, reader, mode, word);
            let most = usize::from(MOST_FAST);
            let free = left(asker) == Some(most)
                && left(reader) == Some(most - 1)
                && are_left(others, most)
                && is_free(alloc, asker);
            filled && counted && free
        }
        _ => false,
    }
}

// The same for a new space, if there is memory.
fn are_counted<R: AllocGlobal + Wait + Abort>(rt: &R, mode: Mode, word: Word) -> bool {
    match open_all(rt) {
        Some(mut sessions) => {
            let well = goes_well(rt.alloc(), &mut sessions, mode, word);
            close_all(rt, sessions);
            well
        }
        None => false,
    }
}

#[test]
fn words_count_the_tickets_of_all_sessions(rt: HostRuntime) {
    for (number, (mode, word)) in COUNTS.iter().enumerate() {
        is_right(&rt, "count", number, are_counted(&rt, *mode, *word));
    }
}
