//! Two sessions over the lock space of one thread, and their statements.
ghost use Rattle.std.specs.Prelude.{◌≡◌, ℕ, ◌≤◌, IfSome};
ghost use Rattle.mdl_core.specs.Words.{SpeaksFor, empty_core};

use crate::alike::Tickets;
use crate::outcomes::{Outcome, new_runner, play};
use crate::statements::{PLACES, Sessions};
use mdl_space::{CoreSpace, LockSpace, NewError};
use mdl_stmt::Runner;
use mdl_syntax::Statement;
use std::alloc::Global;
use std::marker::Model;
use std::mem::drop;

/// A space, and its sessions 1 and 2.
#[derive(Drop)]
pub(crate) struct CorePair<'s> {
    alloc: Global,
    space: CoreSpace,
    first: Runner<'s, CoreSpace>,
    second: Runner<'s, CoreSpace>,
}

impl<'s> Model for CorePair<'s> {
    ghost use Rattle.mdl_growth_trials.specs.Pairs.{AreRunners};

    ghost Value = { Unit };

    ghost view = { λ _. tt };

    ghost invariant = { λ pair. AreRunners pair.space pair.first.context pair.first.cache pair.second.context pair.second.cache };
}

impl<'s> CorePair<'s> {
    /// Returns a new space with its sessions, which have nothing.
    pub(crate) fn new(alloc: Global) -> Option<CorePair<'s>> {
        let space = new_space(alloc, PLACES, 2)?;
        let Some(first) = new_runner(alloc, 1) else {
            drop(space);
            return None;
        };
        let Some(second) = new_runner(alloc, 2) else {
            drop(space);
            drop(first);
            return None;
        };
        Some(CorePair {
            alloc,
            space,
            first,
            second,
        })
    }

    // Starts a statement of a session, or continues the one that waits.
    fn play(&mut self, who: u16, statement: &'s Statement) -> Outcome {
        if who == 1 {
            play(&mut self.space, &mut self.first, statement)
        } else {
            play(&mut self.space, &mut self.second, statement)
        }
    }
}

impl<'s> Sessions<'s> for CorePair<'s> {
    fn anew(&self) -> Option<CorePair<'s>> {
        CorePair::new(self.alloc)
    }

    fn say(&mut self, who: u16, statement: &'s Statement) -> Outcome {
        self.play(who, statement)
    }

    fn waits(&self, who: u16) -> bool {
        if who == 1 {
            self.first.is_waiting()
        } else {
            self.second.is_waiting()
        }
    }

    fn tickets(&self, who: u16) -> Tickets {
        if who == 1 {
            self.space.held(1)
        } else {
            self.space.held(2)
        }
    }

    fn leave(self) -> bool {
        drop(self);
        true
    }
}

/// Returns a space of `places` places and `sessions` sessions. Tries a second time if memory runs out.
pub(crate) fn new_space(alloc: Global, places: u16, sessions: u16) -> Option<CoreSpace>
    ensures made { IfSome result (λ space. space ≡ empty_core places sessions) }
    ensures speaks { IfSome result (λ space. (who : ℕ) → 1 ≤ who → who ≤ sessions → SpeaksFor space who) }
{
    match CoreSpace::new(alloc, places, sessions) {
        Ok(space) => Some(space),
        Err(NewError::OutOfMemory) => match CoreSpace::new(alloc, places, sessions) {
            Ok(space) => Some(space),
            Err(_) => None,
        },
        Err(_) => None,
    }
}
