//! A session of a space that threads share, and its statements.
ghost use Rattle.std.specs.Prelude.{◌≡◌};
ghost use Rattle.mdl_shared.specs.Passes.{manager_table, pass_table};

use crate::shared::contexts::statements::{CACHE, Outcome, go_on, say};
use crate::shared::sessions::close;
use mdl_shared::{Manager, Pass, Session};
use mdl_stmt::{OutOfMemory, Runner, Statement};
use std::alloc::Global;
use std::marker::Model;
use std::process::Abort;
use std::sync::Wait;

/// A session, and what runs its statements.
pub(crate) struct Desk<'s, R: Wait> {
    session: Session<R>,
    runner: Runner<'s, Session<R>>,
}

// The session attends to the runner's context, as the calls of the runner require.
impl<'s, R: Wait> Model for Desk<'s, R> {
    ghost use Rattle.mdl_stmt.specs.Attendance.{AttendsWith};
    ghost use Rattle.mdl_run_trials.specs.shared.contexts.Seats.{session_space};

    ghost Value = { Unit };

    ghost view = { λ _. tt };

    ghost invariant = { λ desk. AttendsWith session_space desk.session desk.runner.context desk.runner.cache };
}

impl<'s, R: Wait> Desk<'s, R> {
    /// Opens the session of a pass, which has done nothing.
    pub(crate) fn open(
        rt: &impl Abort,
        alloc: Global,
        wait: R,
        manager: &Manager,
        pass: Pass,
    ) -> Desk<'s, R>
        requires { pass_table pass ≡ manager_table manager.now }
    {
        let session = Session::open(wait, manager, pass);
        match Runner::new(alloc, session.number(), CACHE) {
            Ok(runner) => Desk { session, runner },
            Err(OutOfMemory) => panic!(rt; "there is no memory for a cache"),
        }
    }

    /// Starts a statement.
    pub(crate) fn say(&mut self, statement: &'s Statement) -> Outcome {
        say(&mut self.session, &mut self.runner, statement)
    }

    /// Continues the statement that waits.
    pub(crate) fn go_on(&mut self) -> Outcome {
        go_on(&mut self.session, &mut self.runner)
    }
}

impl<'s, R: Wait + Drop> Desk<'s, R> {
    /// Ends the session, whatever it holds and waits for.
    pub(crate) fn close(self, rt: &impl Abort) {
        let Desk {
            mut session,
            runner,
        } = self;
        runner.leave(&mut session);
        close(rt, session);
    }
}
