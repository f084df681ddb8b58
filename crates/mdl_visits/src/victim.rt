//! The victim of a cycle, by the graph of who waits for whom and the words of waits.
ghost use Rattle.std.specs.Prelude.{◌≡◌, ℕ, true, All, IfOk};
ghost use Rattle.std.specs.FinSet as set;
ghost use Rattle.mdl_book.specs.SessionSets.{is_session};
ghost use Rattle.mdl_visits.specs.declared.waits_read.WaitRead.{WaitRead};
ghost use Rattle.mdl_visits.specs.Searches.{IsVictimBy, settled_by};

use crate::waits_read::WaitRead;
use mdl_book::Sessions;
use mdl_graph::{WaitGraph, victim};
use mdl_steps::WaitWord;
use std::alloc::AllocError;

// The sessions that have no open wait by these words.
fn settled_of(words: &[WaitRead]) -> Sessions
    requires { All (λ (r : WaitRead). is_session r.session ≡ true) words.now }
    ensures { (session : ℕ) → set.contains result session ≡ settled_by words.now session }
{
    let mut settled = Sessions::new();
    for read in words {
        if read.word.state() != WaitWord::UNSETTLED {
            settled.insert(read.session);
        }
    }
    settled
}

/// Returns the victim of the cycle in which a session waits, by this graph and these words, if it waits in one.
pub(crate) fn find_victim(
    graph: &WaitGraph,
    words: &[WaitRead],
    from: u16,
) -> Result<Option<u16>, AllocError>
    requires { All (λ (r : WaitRead). is_session r.session ≡ true) words.now }
    ensures { IfOk result (λ found. IsVictimBy graph.now words.now from found) }
{
    let settled = settled_of(words);
    match graph.find_unsettled_cycle(from, &settled)? {
        Some(cycle) => Ok(Some(victim(&cycle))),
        None => Ok(None),
    }
}
