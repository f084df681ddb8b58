//! A session on a thread, from its pass to the end.
ghost use Rattle.std.specs.Prelude.{◌≡◌, []};
ghost use Rattle.mdl_calls.specs.Words.{HasNothing};
ghost use Rattle.mdl_shared.specs.Passes.{manager_table, pass_table};
ghost use Rattle.mdl_shared.specs.SessionViews.{data_of};
ghost use Rattle.mdl_stmt.specs.Attendance.{IsCapacity};
ghost use Rattle.mdl_script.specs.Answers.{IsClosed, options_of};
ghost use Rattle.mdl_script.specs.Turns.{CameBack};

use mdl_shared::{CloseError, Manager, Pass, Session};
use mdl_stmt::Reply;
use mdl_syntax::Script;
use mdl_work::{Gate, work};
use std::alloc::{AllocError, Global};
use std::sync::Wait;

/// What comes back of a pass: a pass of the same session, and the answers to its lines, or that memory ran out.
#[derive(Drop)]
pub(crate) struct Answered {
    pub(crate) pass: Pass,
    pub(crate) answers: Result<Vec<(u64, Reply)>, AllocError>,
}

/// Opens the session of a pass, executes its lines, and closes it.
pub(crate) fn work_pass<R: Wait, G: Gate>(
    rt: &R,
    alloc: Global,
    manager: &Manager,
    pass: Pass,
    script: &Script,
    patience: u32,
    cache: u16,
    gate: &G,
) -> Answered
    requires theirs { pass_table pass ≡ manager_table manager.now }
    requires capacity { IsCapacity cache }
    ensures { CameBack (options_of patience cache) script.now pass result }
{
    let mut session = Session::open(rt, manager, pass);
    let who = session.number();
    let answers = work(alloc, &mut session, who, script, patience, cache, gate);
    let pass = close(session);
    Answered { pass, answers }
}

/// Closes a session that has no ticket and no wait, and owes no place a reschedule. It unpins all places. Returns its pass.
pub(crate) fn close<R: Drop>(session: Session<R>) -> Pass
    requires nothing { HasNothing (data_of session).own }
    requires paid { session.me.0.owes ≡ [] }
    ensures { IsClosed result session }
{
    match session.close() {
        Ok(pass) => pass,
        Err(CloseError::HoldsTickets(_open)) => unreachable!(),
        Err(CloseError::Owes(_open, _place)) => unreachable!(),
    }
}
