//! The statements of two sessions over a space, in scenes: over the space of one thread, and over one that threads share. If a statement runs out
//! of memory, it has ended, and all is unchanged: what the sessions hold, and what statements show of the tables. This is compared with a second
//! pair of sessions, which plays the lines before and to which no memory is refused. Then the statement is made again.
use crate::alike::{Tickets, are_alike};
use crate::core_pair::CorePair;
use crate::outcomes::Outcome;
use crate::session_pair::SessionPair;
use mdl_lines::Fault;
use mdl_syntax::{Line, Script, Statement, parse};
use std::alloc::{AllocError, Global};
use std::mem::drop;
use std::sync::Wait;

/// A line, and its outcome. A line of a session that waits continues the statement that waits.
pub(crate) type Row<'a> = (&'a str, Outcome);

/// Lines of two sessions of a space in which nothing is defined before.
#[derive(Clone, Copy)]
pub(crate) struct Scene<'a> {
    /// The lines.
    pub(crate) rows: &'a [Row<'a>],
    /// Lines that show what is defined, and change nothing.
    pub(crate) looks: &'a [&'a str],
}

/// The number of places of a space: those of the names in the longest scene, and some more.
pub(crate) const PLACES: u16 = 12;

/// The sessions 1 and 2 of a space, which make statements.
pub(crate) trait Sessions<'s>: Sized {
    /// Returns the sessions of another space of the kind, which have nothing.
    fn anew(&self) -> Option<Self>;

    /// Starts a statement of a session, or continues the one that waits.
    fn say(&mut self, who: u16, statement: &'s Statement) -> Outcome;

    /// Whether a session waits.
    fn waits(&self, who: u16) -> bool;

    /// Returns the tickets of a session.
    fn tickets(&self, who: u16) -> Tickets;

    /// Ends the sessions. Whether they had nothing when they were closed.
    fn leave(self) -> bool;
}

// Whether the sessions have the same tickets as others, and the same of them wait.
fn have_the_same<'s, P: Sessions<'s>>(here: &P, there: &P) -> bool {
    are_alike(here.tickets(1), there.tickets(1))
        && are_alike(here.tickets(2), there.tickets(2))
        && here.waits(1) == there.waits(1)
        && here.waits(2) == there.waits(2)
}

// Returns the outcome of a look, unless its session waits.
fn look<'s, P: Sessions<'s>>(pair: &mut P, line: &'s Line) -> Option<Outcome> {
    if pair.waits(line.session) {
        return None;
    }
    Some(pair.say(line.session, &line.statement))
}

// The lines by which a session commits, or releases the tables that it has locked and nothing else.
const ENDS: &[&str] = &["1 COMMIT", "1 BEGIN", "1 ROLLBACK"];

// A scene whose lines are parsed.
#[derive(Clone, Copy)]
struct Staged<'s> {
    rows: &'s [Row<'s>],
    lines: &'s [Line],
    looks: &'s [Line],
    ends: &'s [Line],
}

impl<'s> Staged<'s> {
    // Returns a scene with its lines, its looks, and the ends after them.
    fn new(scene: Scene<'s>, lines: &'s [Line]) -> Option<Staged<'s>> {
        let (lines, rest) = lines.split_at_checked(scene.rows.len())?;
        let (looks, ends) = rest.split_at_checked(scene.looks.len())?;
        Some(Staged {
            rows: scene.rows,
            lines,
            looks,
            ends,
        })
    }

    // Returns a line, and its outcome.
    fn row(self, at: usize) -> Option<(&'s Line, Outcome)> {
        match (self.lines.get(at), self.rows.get(at)) {
            (Some(line), Some((_, want))) => Some((line, *want)),
            _ => None,
        }
    }

    // Whether the scene goes as it should, played by these sessions, even if memory is refused once, and they have nothing in the end.
    fn goes_well<P: Sessions<'s>>(self, pair: Option<P>) -> bool {
        let Some(mut pair) = pair else {
            return false;
        };
        let goes_well = self.is_outlived(&mut pair);
        pair.leave() && goes_well
    }

    // Whether each line has its outcome, even if memory is refused once.
    fn is_outlived<P: Sessions<'s>>(self, pair: &mut P) -> bool {
        for at in 0..self.rows.len() {
            let Some((line, want)) = self.row(at) else {
                return false;
            };
            if !self.outlives(pair, at, line, want) {
                return false;
            }
        }
        true
    }

    // Whether a line has this outcome: at once, or at the second try if the first ran out of memory and left all unchanged.
    fn outlives<P: Sessions<'s>>(
        self,
        pair: &mut P,
        at: usize,
        line: &'s Line,
        want: Outcome,
    ) -> bool {
        let outcome = pair.say(line.session, &line.statement);
        if outcome != Outcome::NoMemory || !takes_memory(&line.statement) {
            return outcome == want;
        }
        self.nothing_is_lost(pair, at, line) && pair.say(line.session, &line.statement) == want
    }

    // Whether all is the same as with another pair that has played the lines before this one, except the statement with which its session waits.
    fn nothing_is_lost<P: Sessions<'s>>(self, pair: &mut P, at: usize, line: &Line) -> bool {
        let Some(mut others) = pair.anew() else {
            return false;
        };
        let ended = self.last_end(at, line.session);
        let is_so = self.leads_up_to(&mut others, at, line.session, ended)
            && self.is_as_before(pair, &mut others, line);
        others.leave() && is_so
    }

    // Whether all is as it was before a line's statement, or as it is after what the statement ends first.
    fn is_as_before<P: Sessions<'s>>(self, pair: &mut P, others: &mut P, line: &Line) -> bool {
        self.are_alike(pair, others)
            || (self.ends_first(others, line) && self.are_alike(pair, others))
    }

    // Plays the lines before one, except those of a session after its last statement that ended. Whether they have the right outcomes.
    fn leads_up_to<P: Sessions<'s>>(self, pair: &mut P, at: usize, who: u16, ended: usize) -> bool {
        for index in 0..at {
            let Some((line, want)) = self.row(index) else {
                return false;
            };
            let is_left_out = line.session == who && index >= ended;
            if !is_left_out && pair.say(line.session, &line.statement) != want {
                return false;
            }
        }
        true
    }

    // Returns the index after the line at which a session's last statement before a line ended, or 0 if none did.
    fn last_end(self, at: usize, who: u16) -> usize {
        let mut ended = 0;
        for index in 0..at {
            let Some((line, want)) = self.row(index) else {
                return ended;
            };
            if line.session == who && want != Outcome::Waits {
                ended = index.saturating_add(1);
            }
        }
        ended
    }

    // Whether the sessions of two pairs have the same, and the looks have the same outcomes.
    fn are_alike<P: Sessions<'s>>(self, one: &mut P, other: &mut P) -> bool {
        if !have_the_same(one, other) {
            return false;
        }
        for line in self.looks {
            if look(one, line) != look(other, line) {
                return false;
            }
        }
        true
    }

    // Does what a statement does before its first lock. Whether there is anything to do, and it succeeded.
    fn ends_first<P: Sessions<'s>>(self, pair: &mut P, line: &Line) -> bool {
        let [commit, begin, rollback] = self.ends else {
            return false;
        };
        let (one, other) = match &line.statement {
            Statement::Begin
            | Statement::Commit
            | Statement::Savepoint(_)
            | Statement::Select(_)
            | Statement::Write { .. }
            | Statement::GetLock(_)
            | Statement::ReleaseLock(_) => return false,
            Statement::LockTables(_) => (begin, rollback),
            _ => (commit, commit),
        };
        pair.say(line.session, &one.statement) == Outcome::Done
            && pair.say(line.session, &other.statement) == Outcome::Done
    }
}

// Whether a statement may take memory.
fn takes_memory(statement: &Statement) -> bool {
    !matches!(
        statement,
        Statement::Rollback | Statement::RollbackTo(_) | Statement::UnlockTables
    )
}

/// Whether a scene goes as it should over both spaces, even if memory is refused once.
pub(crate) fn goes_well<R: Wait>(rt: &R, alloc: Global, scene: Scene<'_>) -> bool {
    let Some(script) = read(alloc, scene) else {
        return false;
    };
    let is_so = is_played_well(rt, alloc, scene, script.lines());
    drop(script);
    is_so
}

// Whether a scene goes as it should, played by the sessions of two new spaces.
fn is_played_well<'s, R: Wait>(rt: &R, alloc: Global, scene: Scene<'s>, lines: &'s [Line]) -> bool {
    match Staged::new(scene, lines) {
        Some(staged) => {
            staged.goes_well(CorePair::new(alloc)) && staged.goes_well(SessionPair::new(rt, alloc))
        }
        None => false,
    }
}

// Parses the lines of a scene. Tries a second time if memory runs out. The first try must fail with no other fault then.
fn read(alloc: Global, scene: Scene<'_>) -> Option<Script> {
    match script_of(alloc, scene) {
        Err(Fault::Memory) => script_of(alloc, scene).ok(),
        outcome => outcome.ok(),
    }
}

fn script_of(alloc: Global, scene: Scene<'_>) -> Result<Script, Fault> {
    let mut text = String::new(alloc);
    let script = match put_all(&mut text, scene) {
        Ok(()) => parse(alloc, text.as_bytes()),
        Err(AllocError) => Err(Fault::Memory),
    };
    drop(text);
    script
}

// Adds all lines of a scene, its looks, and the ends after them.
fn put_all(text: &mut String, scene: Scene<'_>) -> Result<(), AllocError> {
    for (line, _) in scene.rows {
        put(text, line)?;
    }
    put_each(text, scene.looks)?;
    put_each(text, ENDS)
}

fn put_each(text: &mut String, lines: &[&str]) -> Result<(), AllocError> {
    for line in lines {
        put(text, line)?;
    }
    Ok(())
}

fn put(text: &mut String, line: &str) -> Result<(), AllocError> {
    text.push_str(line)?;
    text.push('\n')
}
