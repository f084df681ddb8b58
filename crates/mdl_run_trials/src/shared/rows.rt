//! Rows of calls of three sessions of one space.
ghost use Rattle.std.specs.Prelude.{◌≡◌, length, IfOk};
ghost use Rattle.mdl_shared.specs.Passes.{ArePasses, manager_table};

use crate::shared::acts::{Act, Memory, Reply, make_at_last};
use crate::shared::sessions::close;
use mdl_calls::Place;
use mdl_shared::{CloseError, Manager, NewError, Pass, Session};
use std::alloc::Global;
use std::process::Abort;
use std::sync::Wait;
use std::test::Fail;

/// A session's number, 1 to 3, its act, and the right reply.
pub(crate) type Row = (u16, Act, Reply);

/// What rows show, how many places there are, and the rows.
pub(crate) type Case = (&'static str, u16, &'static [Row]);

/// Three sessions of one space, with the numbers 1 to 3.
pub(crate) struct Three<R> {
    pub(crate) one: Session<R>,
    pub(crate) two: Session<R>,
    pub(crate) three: Session<R>,
}

impl<R> Three<R> {
    /// Returns the session of a number.
    pub(crate) fn session(&mut self, number: u16) -> &mut Session<R> {
        match number {
            3 => &mut self.three,
            2 => &mut self.two,
            _ => &mut self.one,
        }
    }
}

impl<R: Wait> Three<R> {
    /// Returns the index of the first row with a wrong reply, if there is one.
    pub(crate) fn first_wrong(
        &mut self,
        alloc: Global,
        rows: &[Row],
        memory: Memory,
    ) -> Option<usize> {
        for (at, (number, act, wanted)) in rows.iter().enumerate() {
            if make_at_last(alloc, self.session(*number), *act, memory) != *wanted {
                return Some(at);
            }
        }
        None
    }
}

/// Why a session can't be closed.
#[derive(Clone, Copy, PartialEq)]
pub(crate) enum Open {
    HoldsTickets,
    Owes(Place),
}

// Tries to close a session, which stays open. Returns why, and the session.
fn kept_open<R: Drop>(rt: &impl Abort, session: Session<R>) -> (Open, Session<R>) {
    match session.close() {
        Ok(_pass) => panic!(rt; "the session has a ticket or a wait, or owes a place a reschedule"),
        Err(CloseError::HoldsTickets(session)) => (Open::HoldsTickets, session),
        Err(CloseError::Owes(session, place)) => (Open::Owes(place), session),
    }
}

impl<R: Drop> Three<R> {
    /// Tries to close the second session, which stays open and is unchanged. Returns why, and the sessions.
    pub(crate) fn keep_two_open(self, rt: &impl Abort) -> (Open, Three<R>) {
        let Three { one, two, three } = self;
        let (why, two) = kept_open(rt, two);
        (why, Three { one, two, three })
    }

    /// Closes the sessions, none of which has a ticket or owes anything.
    pub(crate) fn close(self, rt: &impl Abort) {
        let Three { one, two, three } = self;
        close(rt, one);
        close(rt, two);
        close(rt, three);
    }
}

// Returns a space of `places` places and three sessions. Tries a second time if memory runs out.
fn space(alloc: Global, places: u16) -> Result<(Manager, Vec<Pass>), NewError>
    ensures { IfOk result (λ made. (length made.1.items ≡ 3) × ArePasses (manager_table made.0) made.1.items) }
{
    match Manager::new(alloc, places, 3) {
        Err(NewError::OutOfMemory) => Manager::new(alloc, places, 3),
        outcome => outcome,
    }
}

/// Opens the sessions of a new space of `places` places.
pub(crate) fn open_three<R: AllocGlobal>(rt: &R, places: u16) -> Result<Three<&R>, NewError> {
    let (manager, mut passes) = space(rt.alloc(), places)?;
    let three = Session::open(rt, &manager, passes.remove(2));
    let two = Session::open(rt, &manager, passes.remove(1));
    let one = Session::open(rt, &manager, passes.remove(0));
    drop(passes);
    drop(manager);
    Ok(Three { one, two, three })
}

/// Fails the test if there is a wrong row.
pub(crate) fn none_is_wrong(rt: &impl Abort, shown: &str, wrong: Option<usize>) {
    assert!(rt; wrong.is_none(), "{shown}: row {wrong:?}");
}

/// Makes the rows of each case, by the sessions of a new space, and fails the test if a reply is wrong.
pub(crate) fn are_right<R: Wait + Abort + AllocGlobal>(
    rt: &R,
    memory: Memory,
    cases: &[Case],
) -> Result<(), Fail> {
    for (shown, places, rows) in cases {
        let mut sessions = open_three(rt, *places)?;
        let wrong = sessions.first_wrong(rt.alloc(), rows, memory);
        sessions.close(rt);
        none_is_wrong(rt, shown, wrong);
    }
    Ok(())
}
