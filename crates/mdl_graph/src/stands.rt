//! Which rows each session blocks.
ghost use Rattle.std.specs.Prelude.{◌≡◌, ℕ, ◌≤◌, ◌<◌, ◌-◌, ◌++◌, [], ◌∷◌, length, slice_index, OnOk, IfOk};
ghost use Rattle.mdl_graph.specs.Searches.{Pairs, AreRows, AreLinked, IsLast, key_at, value_at};

use std::alloc::{AllocError, Global};
use std::marker::Model;

/// Pairs of a session and a row that it blocks, and links from each session's last pair back to its first.
#[derive(Drop)]
pub(crate) struct Stands<'a> {
    pairs: &'a [(u16, usize)],
    lasts: Vec<usize>,
    befores: Vec<usize>,
}

impl<'a> Model for Stands<'a> {
    ghost use Rattle.std.specs.Prelude.{ℕ, List};
    ghost use Rattle.mdl_graph.specs.Searches.{AreLinked};

    ghost Value = { List (ℕ × ℕ) };

    ghost view = { λ stands. stands.pairs.now };

    ghost invariant = { λ stands. AreLinked stands.lasts.items stands.pairs.now stands.befores.items };
}

impl<'a> Stands<'a> {
    /// Links these pairs, whose sessions are below `count`.
    pub(crate) fn new(
        alloc: Global,
        count: usize,
        pairs: &'a [(u16, usize)],
    ) -> Result<Stands<'a>, AllocError>
        requires { AreRows count pairs.now }
        ensures { IfOk result (λ stands. stands ≡ pairs.now) }
    {
        let mut lasts = vec![in alloc; 0; count]?;
        let mut befores = Vec::with_capacity(alloc, pairs.len())?;
        for pair in pairs {
            link(&mut lasts, &mut befores, usize::from(pair.0))?;
        }
        Ok(Stands {
            pairs,
            lasts,
            befores,
        })
    }

    /// Returns one more than the index of a session's last pair, or 0 if it has none.
    pub(crate) fn last(&self, session: usize) -> usize
        ensures { IsLast self.now session (length self.now) result }
    {
        match self.lasts.get(session) {
            Some(last) => *last,
            None => 0,
        }
    }

    /// Returns the row of the pair at an index.
    pub(crate) fn row(&self, place: usize) -> usize
        requires { place < length self.now }
        ensures { result ≡ value_at self.now place }
    {
        let pairs = self.pairs;
        pairs[place].1
    }

    /// Returns one more than the index of the same session's previous pair, or 0 if there is none.
    pub(crate) fn before(&self, place: usize) -> usize
        requires { place < length self.now }
        ensures { IsLast self.now (key_at self.now place) place result }
    {
        self.befores[place]
    }
}

// Links the next pair, which is one of this session.
fn link(lasts: &mut Vec<usize>, befores: &mut Vec<usize>, session: usize) -> Result<(), AllocError>
    requires { session < length lasts.old.items }
    ensures len { OnOk result (length lasts.new.items ≡ length lasts.old.items) }
    ensures linked { OnOk result ((pairs : Pairs) (row : ℕ) → AreLinked lasts.old.items pairs befores.old.items
        → AreLinked lasts.new.items (pairs ++ (session, row) ∷ []) befores.new.items) }
{
    befores.push(lasts[session])?;
    lasts[session] = befores.len();
    Ok(())
}
