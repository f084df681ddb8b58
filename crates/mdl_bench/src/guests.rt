//! The sessions of a new table that threads share. Each is closed when it is dropped.
ghost use Rattle.std.specs.Prelude.{◌≡◌};
ghost use Rattle.mdl_shared.specs.Passes.{ArePasses, manager_table, pass_table};

use crate::failure::Failure;
use crate::seat::close;
use mdl_shared::{Manager, Pass, Session};
use std::alloc::Global;
use std::sync::Wait;

/// A session. When it is dropped, it releases all that it has, and is closed.
pub struct Guest<'r, R: Wait> {
    rt: &'r R,
    pub session: Session<&'r R>,
}

impl<R: Wait> Drop for Guest<'_, R> {
    fn drop(self) {
        let Guest { rt, session } = self;
        close(rt, session);
    }
}

/// Opens the sessions of a new table of `places` places and `sessions` sessions.
pub fn open_all<'r, R: Wait>(
    rt: &'r R,
    alloc: Global,
    places: u16,
    sessions: u16,
    guests: &mut Vec<Guest<'r, R>>,
) -> Result<(), Failure> {
    let (manager, passes) = Manager::new(alloc, places, sessions)?;
    let all = admit(rt, &manager, passes, guests);
    drop(manager);
    if all { Ok(()) } else { Err(Failure::Memory) }
}

// Opens the sessions of these passes. Whether there is memory for all.
fn admit<'r, R: Wait>(
    rt: &'r R,
    manager: &Manager,
    passes: Vec<Pass>,
    guests: &mut Vec<Guest<'r, R>>,
) -> bool
    requires { ArePasses (manager_table manager.now) passes.items }
{
    let mut all = true;
    for pass in passes {
        let guest = open(rt, manager, pass);
        all &= guests.push(guest).is_ok();
    }
    all
}

// Opens the session of a pass.
fn open<'r, R: Wait>(rt: &'r R, manager: &Manager, pass: Pass) -> Guest<'r, R>
    requires { pass_table pass ≡ manager_table manager.now }
{
    let session = Session::open(rt, manager, pass);
    Guest { rt, session }
}
