//! A lock space with the contexts of all its sessions.
ghost use Rattle.std.specs.Prelude.{◌≡◌, ℕ, ◌≤◌, length, IfOk};
ghost use Rattle.mdl_core.specs.Words.{empty_core, SpeaksFor};
ghost use Rattle.mdl_space_trials.specs.contexts.Halls.{AreServed};

use crate::by_chance::plain::Plain;
use crate::contexts::acts::{Act, Reply, make};
use crate::room::Room;
use mdl_context::Context;
use mdl_space::{CoreSpace, LockSpace, NewError};
use std::alloc::Global;
use std::marker::Model;

/// The number of sessions, which are numbered from 1.
pub(crate) const SESSIONS: u16 = 5;

// Creates a space. Tries again if memory runs out at first.
fn new_space(alloc: Global, places: u16, sessions: u16) -> Result<CoreSpace, NewError>
    ensures made { IfOk result (λ space. space ≡ empty_core places sessions) }
    ensures speaks { IfOk result (λ space. (who : ℕ) → 1 ≤ who → who ≤ sessions → SpeaksFor space who) }
{
    match CoreSpace::new(alloc, places, sessions) {
        Err(NewError::OutOfMemory) => CoreSpace::new(alloc, places, sessions),
        outcome => outcome,
    }
}

/// A space with the contexts of these sessions. The space speaks for each session, and its seat agrees with its context.
#[derive(Drop)]
pub(crate) struct Hall {
    alloc: Global,
    space: CoreSpace,
    contexts: [Context<CoreSpace>; 5],
}

impl Model for Hall {
    ghost use Rattle.mdl_space_trials.specs.contexts.Halls.{AreServed};

    ghost Value = { Unit };

    ghost view = { λ _. tt };

    ghost invariant = { λ hall. AreServed hall.space 1 hall.contexts };
}

impl Hall {
    /// Creates a hall in which no session has asked for anything. Memory may be refused once.
    pub(crate) fn new(alloc: Global, places: u16) -> Result<Hall, NewError> {
        let space = new_space(alloc, places, SESSIONS)?;
        Ok(Hall {
            alloc,
            space,
            contexts: [
                Context::new(alloc, 1),
                Context::new(alloc, 2),
                Context::new(alloc, 3),
                Context::new(alloc, 4),
                Context::new(alloc, 5),
            ],
        })
    }

    /// Performs an act of a session and returns its reply. None if memory ran out, or if there is no such session.
    pub(crate) fn make(&mut self, who: u16, act: Act) -> Option<Reply> {
        if who == 0 || who > SESSIONS {
            return None;
        }
        make_among(self.alloc, &mut self.space, &mut self.contexts, who, act)
    }

    /// Whether each session holds what it has in the plain program.
    pub(crate) fn stands_as(&self, plain: &Plain) -> bool {
        hold_the_same(&self.space, &self.contexts, plain)
    }

    /// Ends all contexts, so that the sessions make their calls without. They keep what they have.
    pub(crate) fn into_room(self) -> Room {
        let Hall {
            alloc,
            space,
            contexts,
        } = self;
        let room = room_of_all(alloc, space, &contexts);
        drop(contexts);
        room
    }
}

// The space with its sessions, whose contexts these are.
fn room_of_all(alloc: Global, space: CoreSpace, contexts: &[Context<CoreSpace>]) -> Room
    requires served { AreServed space 1 contexts.now }
    requires all { SESSIONS ≤ length contexts.now }
{
    Room::over(alloc, space, SESSIONS)
}

// Performs an act of a session and returns its reply. None if memory ran out.
fn make_among(
    alloc: Global,
    space: &mut CoreSpace,
    contexts: &mut [Context<CoreSpace>],
    who: u16,
    act: Act,
) -> Option<Reply>
    requires served { AreServed space.old 1 contexts.old }
    requires least { 1 ≤ who }
    requires most { who ≤ length contexts.old }
    ensures served { AreServed space.new 1 contexts.new }
{
    let context = &mut contexts[usize::from(who) - 1];
    make(alloc, space, context, act)
}

// Whether each session holds in the space what it has in the plain program, and its context keeps the same number of tickets of each duration.
fn hold_the_same(space: &CoreSpace, contexts: &[Context<CoreSpace>], plain: &Plain) -> bool
    requires served { AreServed space.now 1 contexts.now }
    requires all { length contexts.now ≡ 5 }
{
    for who in 1..SESSIONS + 1 {
        let context = &contexts[usize::from(who) - 1];
        let is_held = match space.held(who) {
            Ok(held) => {
                let is_so = plain.holds(who, held.as_slice());
                drop(held);
                is_so
            }
            Err(_) => false,
        };
        if !is_held || context.savepoint() != plain.mark_of(who) {
            return false;
        }
    }
    true
}
