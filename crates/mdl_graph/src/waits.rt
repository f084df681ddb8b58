//! Which sessions wait in each row.
ghost use Rattle.std.specs.Prelude.{◌≡◌, ℕ, ◌≤◌, ◌-◌, ◌&&◌, ◌==◌, length, take, drop, IfOk};
ghost use Rattle.std.specs.List.{list_any};
ghost use Rattle.mdl_graph.specs.Searches.{AreBelow, AreRows, AreSpanned, holds};

use std::alloc::{AllocError, Global};
use std::marker::Model;

/// Pairs of a row and a session that waits in it. The pairs of one row are near each other, as they came with one lock.
#[derive(Drop)]
pub(crate) struct Waits<'a> {
    pairs: &'a [(usize, u16)],
    // The index of each row's first pair, and that after its last one.
    spans: Vec<(usize, usize)>,
}

impl<'a> Model for Waits<'a> {
    ghost use Rattle.std.specs.Prelude.{ℕ, List};
    ghost use Rattle.mdl_graph.specs.Searches.{AreSpanned};

    ghost Value = { List (ℕ × ℕ) };

    ghost view = { λ waits. waits.pairs.now };

    ghost invariant = { λ waits. AreSpanned waits.spans.items waits.pairs.now };
}

impl<'a> Waits<'a> {
    /// Finds the spans of these pairs, whose rows are below `rows`.
    pub(crate) fn new(
        alloc: Global,
        rows: usize,
        pairs: &'a [(usize, u16)],
    ) -> Result<Waits<'a>, AllocError>
        requires { AreRows rows pairs.now }
        ensures { IfOk result (λ waits. waits ≡ pairs.now) }
    {
        let mut spans = vec![in alloc; (0, 0); rows]?;
        for place in 0..pairs.len() {
            let row = pairs[place].0;
            let (first, end) = spans[row];
            let first = if end == 0 { place } else { first };
            spans[row] = (first, place + 1);
        }
        Ok(Waits { pairs, spans })
    }

    // Returns the index of a row's first pair, and that after its last one.
    fn span(&self, row: usize) -> (usize, usize)
        ensures order { result.0 ≤ result.1 }
        ensures inside { result.1 ≤ length self.now }
        ensures row { (session : ℕ) → holds (take (result.1 - result.0) (drop result.0 self.now)) row session ≡ holds self.now row session }
        ensures within { (count : ℕ) → AreBelow count self.now → AreBelow count (take (result.1 - result.0) (drop result.0 self.now)) }
    {
        match self.spans.get(row) {
            Some(span) => *span,
            None => (0, 0),
        }
    }

    /// Returns some of the pairs, among them all of a row.
    pub(crate) fn near(&self, row: usize) -> &[(usize, u16)]
        ensures row { (session : ℕ) → holds result.now row session ≡ holds self.now row session }
        ensures within { (count : ℕ) → AreBelow count self.now → AreBelow count result.now }
    {
        let (first, end) = self.span(row);
        &self.pairs[first..end]
    }

    /// Whether a session waits in a row.
    pub(crate) fn has(&self, row: usize, session: usize) -> bool
        ensures { result ≡ holds self.now row session }
    {
        for wait in self.near(row) {
            if wait.0 == row && usize::from(wait.1) == session {
                return true;
            }
        }
        false
    }
}
