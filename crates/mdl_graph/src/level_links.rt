//! Which sessions are how many steps away from the start of a search.
ghost use Rattle.std.specs.Prelude.{◌≡◌, ℕ, ◌<◌, ◌+◌, length, IfOk};
ghost use Rattle.mdl_graph.specs.Searches.{IsFirst, AreChained, level_of};

use std::alloc::{AllocError, Global};
use std::marker::Model;

/// How many steps each session is away, and links from the first session of each number of steps on to its last.
#[derive(Drop)]
pub(crate) struct LevelLinks<'a> {
    levels: &'a [usize],
    // One more than the first session of each number of steps, or 0 if there is none.
    firsts: Vec<usize>,
    // One more than the next session of the same number of steps, or 0 if there is none.
    afters: Vec<usize>,
}

impl<'a> Model for LevelLinks<'a> {
    ghost use Rattle.std.specs.Prelude.{ℕ, List, length};
    ghost use Rattle.mdl_graph.specs.Searches.{AreChained};

    ghost Value = { List ℕ × ℕ };

    ghost view = { λ links. (links.levels.now, length links.firsts.items) };

    ghost invariant = { λ links. AreChained links.levels.now links.firsts.items links.afters.items 0 };
}

impl<'a> LevelLinks<'a> {
    /// Links the sessions that are fewer than `steps` steps away.
    pub(crate) fn new(
        alloc: Global,
        levels: &'a [usize],
        steps: usize,
    ) -> Result<LevelLinks<'a>, AllocError>
        ensures { IfOk result (λ links. links ≡ (levels.now, steps)) }
    {
        let mut firsts = vec![in alloc; 0; steps]?;
        let mut afters = vec![in alloc; 0; levels.len()]?;
        for session in (0..levels.len()).rev() {
            let level = levels[session];
            if level < steps {
                afters[session] = firsts[level];
                firsts[level] = session + 1;
            }
        }
        Ok(LevelLinks {
            levels,
            firsts,
            afters,
        })
    }

    /// Returns one more than the least session that is `steps` steps away, or 0 if there is none.
    pub(crate) fn first(&self, steps: usize) -> usize
        requires { steps < self.now.1 }
        ensures { IsFirst self.now.0 steps 0 result }
    {
        self.firsts[steps]
    }

    /// Returns one more than the next session that is as many steps away as this one, or 0 if there is none.
    pub(crate) fn after(&self, session: usize) -> usize
        requires within { session < length self.now.0 }
        requires near { level_of self.now.0 session < self.now.1 }
        ensures { IsFirst self.now.0 (level_of self.now.0 session) (session + 1) result }
    {
        self.afters[session]
    }
}
