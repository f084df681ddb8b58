//! Two sessions of a space that threads share, on one thread, and their statements.
ghost use Rattle.std.specs.Prelude.{◌≡◌, [], None};
ghost use Rattle.mdl_calls.specs.Words.{HasNothing};
ghost use Rattle.mdl_shared.specs.Passes.{manager_table, pass_table};

use crate::alike::Tickets;
use crate::outcomes::{Outcome, new_runner, play};
use crate::passes::{closes, new_passes};
use crate::statements::{PLACES, Sessions};
use mdl_shared::{Manager, Pass, Session};
use mdl_space::LockSpace;
use mdl_stmt::Runner;
use mdl_syntax::Statement;
use std::alloc::Global;
use std::marker::Model;
use std::mem::drop;
use std::sync::Wait;

// A session that is a lock space for itself, and what runs its statements.
struct Desk<'s, S: LockSpace> {
    session: S,
    runner: Runner<'s, S>,
}

impl<'s, S: LockSpace> Model for Desk<'s, S> {
    ghost use Rattle.mdl_stmt.specs.Attendance.{AttendsWith};

    ghost Value = { Unit };

    ghost view = { λ _. tt };

    ghost invariant = { λ desk. AttendsWith S.LockSpace desk.session desk.runner.context desk.runner.cache };
}

impl<'s, S: LockSpace> Desk<'s, S> {
    // Returns a session of this number, which has nothing, with a runner that has run nothing.
    fn new(session: S, who: u16, runner: Runner<'s, S>) -> Desk<'s, S>
        requires speaks { S.speaks_for session who }
        requires nothing { HasNothing (S.own session who) }
        requires context { runner.context ≡ record { who = who; kept = []; known = []; wait = None } }
        requires cache { runner.cache.kept ≡ [] }
    {
        let _who = who;
        Desk { session, runner }
    }

    // Starts a statement, or continues the one that waits.
    fn play(&mut self, statement: &'s Statement) -> Outcome {
        play(&mut self.session, &mut self.runner, statement)
    }

    // Gives up all that the session has, and returns it.
    fn into_session(self) -> S {
        let Desk {
            mut session,
            runner,
        } = self;
        runner.leave(&mut session);
        session
    }
}

// Opens the session of a pass, and creates its runner.
fn open<'s, 'r, R: Wait>(
    rt: &'r R,
    alloc: Global,
    manager: &Manager,
    pass: Pass,
) -> Option<Desk<'s, Session<&'r R>>>
    requires { pass_table pass ≡ manager_table manager.now }
{
    let session = Session::open(rt, manager, pass);
    let who = session.number();
    if let Some(runner) = new_runner(alloc, who) {
        return Some(Desk::new(session, who, runner));
    }
    let _had_nothing = closes(rt, session);
    None
}

/// A space's sessions 1 and 2.
pub(crate) struct SessionPair<'s, 'r, R: Wait> {
    rt: &'r R,
    alloc: Global,
    first: Desk<'s, Session<&'r R>>,
    second: Desk<'s, Session<&'r R>>,
}

impl<'s, 'r, R: Wait> SessionPair<'s, 'r, R> {
    /// Returns the sessions of a new space, which have nothing.
    pub(crate) fn new(rt: &'r R, alloc: Global) -> Option<SessionPair<'s, 'r, R>> {
        let Ok((manager, mut passes)) = new_passes(alloc, PLACES) else {
            return None;
        };
        let second = open(rt, alloc, &manager, passes.remove(1));
        let first = open(rt, alloc, &manager, passes.remove(0));
        drop(passes);
        drop(manager);
        match (first, second) {
            (Some(first), Some(second)) => Some(SessionPair {
                rt,
                alloc,
                first,
                second,
            }),
            (first, second) => {
                let _first = ends(rt, first);
                let _second = ends(rt, second);
                None
            }
        }
    }
}

// Ends a session's statements, and closes it. Whether it had nothing then.
fn ends<'s, 'r, R: Wait>(rt: &'r R, desk: Option<Desk<'s, Session<&'r R>>>) -> bool {
    match desk {
        Some(desk) => closes(rt, desk.into_session()),
        None => true,
    }
}

impl<'s, 'r, R: Wait> Sessions<'s> for SessionPair<'s, 'r, R> {
    fn anew(&self) -> Option<SessionPair<'s, 'r, R>> {
        SessionPair::new(self.rt, self.alloc)
    }

    fn say(&mut self, who: u16, statement: &'s Statement) -> Outcome {
        if who == 1 {
            self.first.play(statement)
        } else {
            self.second.play(statement)
        }
    }

    fn waits(&self, who: u16) -> bool {
        if who == 1 {
            self.first.runner.is_waiting()
        } else {
            self.second.runner.is_waiting()
        }
    }

    fn tickets(&self, who: u16) -> Tickets {
        if who == 1 {
            self.first.session.held()
        } else {
            self.second.session.held()
        }
    }

    fn leave(self) -> bool {
        let SessionPair {
            rt,
            alloc: _,
            first,
            second,
        } = self;
        let had_none = ends(rt, Some(first));
        ends(rt, Some(second)) && had_none
    }
}
