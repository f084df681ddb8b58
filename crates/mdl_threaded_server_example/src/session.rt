//! `mdl`: a session of the shared table is opened with its pass, has its statements done, gives all up, and is closed.
ghost use Rattle.std.specs.Prelude.{◌≡◌};
ghost use Rattle.mdl.specs.mdl_calls.Words.{HasNothing};
ghost use Rattle.mdl.specs.mdl_shared.Passes.{manager_table, pass_table};
ghost use Rattle.mdl.specs.mdl_shared.SessionViews.{data_of};

use crate::requests::Request;
use crate::work::answer_all;
use mdl::{CloseError, LockSpace, Manager, OwnedRunner, Pass, Session};
use std::alloc::{AllocError, Global};
use std::sync::Wait;

// How many definitions the cache of a session keeps.
const CACHE: u16 = 64;

/// Answers the requests of the session that a pass is for.
pub fn serve<R: Wait>(
    rt: &R,
    alloc: Global,
    manager: &Manager,
    pass: Pass,
    requests: &[Request<'_>],
) -> Result<String, AllocError>
    requires { pass_table pass ≡ manager_table manager.now }
{
    let mut text = String::new(alloc);
    let mut session = Session::open(rt, manager, pass);
    let who = session.number();
    let end = work(alloc, &mut session, who, requests, &mut text);
    close(rt, session);
    match end {
        Ok(()) => Ok(text),
        Err(error) => Err(error),
    }
}

// Answers the requests of a session that has nothing, and has nothing in the end.
fn work<S: LockSpace>(
    alloc: Global,
    space: &mut S,
    who: u16,
    requests: &[Request<'_>],
    text: &mut String,
) -> Result<(), AllocError>
    requires speaks { S.speaks_for space.old who }
    requires nothing { HasNothing (S.own space.old who) }
    ensures { HasNothing (S.own space.new who) }
{
    let Ok(mut runner) = OwnedRunner::new(alloc, who, CACHE) else {
        return Err(AllocError);
    };
    let end = answer_all(alloc, space, &mut runner, who, requests, text);
    runner.leave(space);
    end
}

// Closes a session that has nothing. If it owed a place a reschedule, after a fast release, it would make that first.
fn close<R: Wait + Drop>(rt: &impl Wait, session: Session<R>)
    requires { HasNothing (data_of session).own }
{
    let mut session = session;
    for _ in rt.forever() {
        match session.close() {
            Ok(_pass) => return,
            Err(CloseError::HoldsTickets(_open)) => unreachable!(),
            Err(CloseError::Owes(open, place)) => {
                session = open;
                session.reschedule(place);
            }
        }
    }
    unreachable!()
}
