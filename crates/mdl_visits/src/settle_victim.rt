//! A session that holds all latches searches for a deadlock that it waits in, and settles the victim's wait.
ghost use Rattle.std.specs.Prelude.{◌≡◌, Some, true, All};
ghost use Rattle.mdl_book.specs.SessionSets.{is_session};
ghost use Rattle.mdl_steps.specs.WaitSeats.{IsSession};
ghost use Rattle.mdl_visits.specs.declared.waits_read.WaitRead.{WaitRead};
ghost use Rattle.mdl_visits.specs.Searches.{EndsSearch, FindsAtOnce, SearchFinds, TriesToSettle, read_of};

use crate::victim::find_victim;
use crate::waits_read::{WaitRead, read_waits};
use mdl_calls::Search;
use mdl_graph::WaitGraph;
use mdl_steps::{Loss, TableSeat, WaitWord};
use std::alloc::{AllocError, Global};
use std::sync::Wait;

/// Searches for a deadlock that the session waits in, by this graph of all books, while it holds the latches of all places, and settles the
/// wait of the victim. The words of waits are read only if the graph has a cycle. If another session settles the victim's wait
/// first, the search is repeated. After `MDL_context::find_deadlock`.
pub(crate) fn settle_victim<R: Wait>(
    rt: &R,
    seat: &mut TableSeat,
    alloc: Global,
    graph: &WaitGraph,
) -> Result<Search, AllocError>
    ensures { EndsSearch result (SearchFinds graph.now seat.old seat.new) seat.old seat.new }
{
    let cycle = graph.find_cycle(seat.number())?;
    if cycle.is_none() {
        return Ok(Search::NoCycle);
    }
    for _ in rt.forever() {
        if let Some(found) = settle_victim_once(seat, alloc, graph)? {
            return Ok(found);
        }
    }
    unreachable!()
}

// The same, once. Returns `None` if the victim's wait no longer had the word that was read, since another session settled it first.
fn settle_victim_once(
    seat: &mut TableSeat,
    alloc: Global,
    graph: &WaitGraph,
) -> Result<Option<Search>, AllocError>
    ensures { EndsSearch result (FindsAtOnce graph.now seat.old seat.new) seat.old seat.new }
{
    let mut words = Vec::new(alloc);
    read_waits(seat, graph.wishes(), &mut words)?;
    match find_victim(graph, &words, seat.number())? {
        None => Ok(Some(Search::NoCycle)),
        Some(victim) if settle_wait_of(seat, victim, &words) => Ok(Some(Search::Victim(victim))),
        Some(_) => Ok(None),
    }
}

// Settles the wait of a session as the victim's, if it was open by the word that was read, and still is. Returns whether this call
// settled it.
fn settle_wait_of(seat: &mut TableSeat, victim: u16, words: &[WaitRead]) -> bool
    requires sessions { All (λ (r : WaitRead). IsSession seat.old.table r.session × (is_session r.session ≡ true)) words.now }
    ensures { TriesToSettle victim (read_of victim words.now) result seat.old seat.new }
{
    for read in words {
        if read.session == victim {
            return settle_by_word(seat, *read);
        }
    }
    false
}

// The same, given the word that was read. After `MDL_wait::set_status`.
fn settle_by_word(seat: &mut TableSeat, read: WaitRead) -> bool
    requires session { IsSession seat.old.table read.session }
    ensures { TriesToSettle read.session (Some read) result seat.old seat.new }
{
    let word = read.word;
    if word.state() != WaitWord::UNSETTLED {
        return false;
    }
    seat.settle_wait(read.session, word.number(), Loss::Victim) == word
}
