//! A lock space with a session whose statements are tried, and a second session that has locks.
ghost use Rattle.std.specs.Prelude.{◌≡◌};
ghost use Rattle.mdl_space.specs.CoreMembers.{core_space};
ghost use Rattle.mdl_context.specs.Contexts.{LeavesOthers};
ghost use Rattle.mdl_stmt.specs.Attendance.{AttendsWith};

use crate::outcomes::Outcome;
use mdl_defs::Change;
use mdl_key::{Key, KeyError, Mode};
use mdl_space::{Attempt, CoreSpace, LockSpace, NewError, Place, SpaceError, TicketId};
use mdl_stmt::{OutOfMemory, OwnedRunner, Statement};
use std::alloc::Global;
use std::marker::Model;
use std::mem::drop;

/// What the second session locks.
#[derive(Clone, Copy)]
pub(crate) enum Lock {
    Global,
    Commit,
    Schema(&'static str),
    /// A table of the schema test.
    Table(&'static str),
    /// A user-level lock.
    User(&'static str),
}

impl Lock {
    // The key of the lock.
    fn key(self, alloc: Global) -> Result<Key, KeyError> {
        match self {
            Lock::Global => Ok(Key::global(alloc)),
            Lock::Commit => Ok(Key::commit(alloc)),
            Lock::Schema(name) => Key::schema(alloc, name),
            Lock::Table(name) => Key::table(alloc, "test", name),
            Lock::User(name) => Key::user_lock(alloc, name),
        }
    }
}

// How many definitions a session's cache keeps.
const CACHE: u16 = 64;

// The second session.
const OTHER: u16 = 2;

/// A space, and the statements of its session 1, none of which is kept. Session 2 has locks.
#[derive(Drop)]
pub(crate) struct Room {
    pub(crate) alloc: Global,
    space: CoreSpace,
    runner: OwnedRunner<CoreSpace>,
}

impl Model for Room {
    ghost use Rattle.mdl_run_trials.specs.used_up.Rooms.{ServesBoth};

    ghost Value = { Unit };

    ghost view = { λ _. tt };

    ghost invariant = { λ room. ServesBoth room.space room.runner.context room.runner.cache };
}

impl Room {
    /// Creates a space of `places` places in which no session has asked for anything.
    pub(crate) fn new(alloc: Global, places: u16) -> Result<Room, NewError> {
        let space = CoreSpace::new(alloc, places, OTHER)?;
        match OwnedRunner::new(alloc, 1, CACHE) {
            Ok(runner) => Ok(Room {
                alloc,
                space,
                runner,
            }),
            Err(OutOfMemory) => {
                drop(space);
                Err(NewError::OutOfMemory)
            }
        }
    }

    /// Starts a statement of session 1 and returns its outcome.
    pub(crate) fn start(&mut self, statement: &Statement) -> Outcome {
        start(&mut self.space, &mut self.runner, statement)
    }

    /// Continues the statement that waits, if there is one, and returns its outcome.
    pub(crate) fn go_on(&mut self) -> Option<Outcome> {
        go_on(&mut self.space, &mut self.runner)
    }

    /// Returns how many tickets session 1 has.
    pub(crate) fn held(&self) -> Option<usize> {
        held(&self.space, 1)
    }

    /// Ends session 1, and returns how many tickets it has then.
    pub(crate) fn held_after_the_end(self) -> Option<usize> {
        let Room {
            mut space,
            runner,
            ..
        } = self;
        runner.leave(&mut space);
        let tickets = held(&space, 1);
        drop(space);
        tickets
    }

    /// Returns the place of a lock, which session 2 pins.
    pub(crate) fn place(&mut self, lock: Lock) -> Option<Place> {
        let key = lock.key(self.alloc).ok()?;
        place(&mut self.space, OTHER, &key)
    }

    /// Gives up session 2's pin of a place. Whether it succeeds.
    pub(crate) fn unpin(&mut self, place: Place) -> bool {
        unpin(&mut self.space, OTHER, place)
    }

    /// Returns a ticket of session 2 for the lock of a place, if it can be granted now.
    pub(crate) fn take(&mut self, place: Place, mode: Mode) -> Option<TicketId> {
        take(&mut self.space, OTHER, place, mode)
    }

    /// Returns a clone of a ticket of session 2.
    pub(crate) fn copy(&mut self, ticket: TicketId, mode: Mode) -> Option<TicketId> {
        copy(&mut self.space, OTHER, ticket, mode)
    }

    /// Changes a definition under an exclusive ticket of session 2, and returns the new version.
    pub(crate) fn change(&mut self, ticket: TicketId, change: &Change) -> Option<u64> {
        changed(&mut self.space, OTHER, ticket, change)
    }

    /// Kills the wait of session 1. Whether it has one that isn't settled.
    pub(crate) fn kill(&mut self) -> bool {
        kill(&mut self.space, OTHER, 1)
    }

    /// Releases a ticket of session 2. Whether it succeeds.
    pub(crate) fn leave(&mut self, ticket: TicketId) -> bool {
        leave(&mut self.space, OTHER, ticket)
    }
}

fn start(
    space: &mut CoreSpace,
    runner: &mut OwnedRunner<CoreSpace>,
    statement: &Statement,
) -> Outcome
    requires { AttendsWith core_space space.old runner.old.context runner.old.cache }
    ensures attends { AttendsWith core_space space.new runner.new.context runner.new.cache }
    ensures who { runner.new.context.who ≡ runner.old.context.who }
    ensures others { LeavesOthers core_space runner.old.context.who space.old space.new }
{
    if runner.is_waiting() {
        return Outcome::Waits;
    }
    Outcome::at(runner.start(space, statement))
}

fn go_on(space: &mut CoreSpace, runner: &mut OwnedRunner<CoreSpace>) -> Option<Outcome>
    requires { AttendsWith core_space space.old runner.old.context runner.old.cache }
    ensures attends { AttendsWith core_space space.new runner.new.context runner.new.cache }
    ensures who { runner.new.context.who ≡ runner.old.context.who }
    ensures others { LeavesOthers core_space runner.old.context.who space.old space.new }
{
    if !runner.is_waiting() {
        return None;
    }
    Some(Outcome::at(runner.go_on(space)))
}

fn held<S: LockSpace>(space: &S, who: u16) -> Option<usize>
    requires { S.speaks_for space.now who }
{
    let tickets = space.held(who).ok()?;
    Some(tickets.len())
}

fn place<S: LockSpace>(space: &mut S, who: u16, key: &Key) -> Option<Place>
    requires { S.speaks_for space.old who }
    ensures speaks { S.speaks_for space.new who }
    ensures others { LeavesOthers S.LockSpace who space.old space.new }
{
    space.resolve(who, key).ok()
}

fn unpin<S: LockSpace>(space: &mut S, who: u16, place: Place) -> bool
    requires { S.speaks_for space.old who }
    ensures speaks { S.speaks_for space.new who }
    ensures others { LeavesOthers S.LockSpace who space.old space.new }
{
    space.unpin(who, place).is_ok()
}

fn take<S: LockSpace>(space: &mut S, who: u16, place: Place, mode: Mode) -> Option<TicketId>
    requires { S.speaks_for space.old who }
    ensures speaks { S.speaks_for space.new who }
    ensures others { LeavesOthers S.LockSpace who space.old space.new }
{
    granted(space.try_now(who, place, mode))
}

fn granted(outcome: Result<Attempt, SpaceError>) -> Option<TicketId> {
    match outcome {
        Ok(Attempt::Granted(id)) => Some(id),
        Ok(Attempt::WouldWait) | Err(_) => None,
    }
}

fn copy<S: LockSpace>(space: &mut S, who: u16, id: TicketId, mode: Mode) -> Option<TicketId>
    requires { S.speaks_for space.old who }
    ensures speaks { S.speaks_for space.new who }
    ensures others { LeavesOthers S.LockSpace who space.old space.new }
{
    space.clone_ticket(who, id, mode).ok()
}

fn changed<S: LockSpace>(space: &mut S, who: u16, id: TicketId, change: &Change) -> Option<u64>
    requires { S.speaks_for space.old who }
    ensures speaks { S.speaks_for space.new who }
    ensures others { LeavesOthers S.LockSpace who space.old space.new }
{
    space.change_definition(who, id, change).ok()
}

fn kill<S: LockSpace>(space: &mut S, who: u16, target: u16) -> bool
    requires { S.speaks_for space.old who }
    ensures speaks { S.speaks_for space.new who }
    ensures others { LeavesOthers S.LockSpace who space.old space.new }
{
    match space.wait_of(target) {
        Some(number) => space.kill(target, number),
        None => false,
    }
}

fn leave<S: LockSpace>(space: &mut S, who: u16, id: TicketId) -> bool
    requires { S.speaks_for space.old who }
    ensures speaks { S.speaks_for space.new who }
    ensures others { LeavesOthers S.LockSpace who space.old space.new }
{
    space.release(who, id).is_ok()
}
